//! What the lexer answers on tables of sources.

use sharc_lex::lex;
use sharc_tree::token::{Keyword, Number, NumberType, Punctuator, TokenKind, Tokens};
use std::process::Abort;
use std::test::Fail;

/// The tokens of a source.
fn tokens(rt: &(impl Abort + AllocGlobal), source: &[u8]) -> Result<Tokens, Fail> {
    assert!(rt; source.len() <= 1_048_576);
    let tokens = lex(rt.alloc(), source)?;
    Ok(tokens)
}

/// Asserts that a source is one token of a kind.
fn assert_kind(
    rt: &(impl Abort + AllocGlobal),
    source: &[u8],
    kind: TokenKind,
) -> Result<(), Fail> {
    let tokens = tokens(rt, source)?;
    assert_eq!(rt; tokens.list.len(), 1);
    let token = tokens.list.at(0);
    assert_eq!(rt; token.kind, kind, "{source:?}");
    assert_eq!(rt; token.text.as_slice(), source);
    drop(tokens);
    Ok(())
}

static KEYWORDS: [(&[u8], Keyword); 28] = [
    (b"int", Keyword::Int),
    (b"char", Keyword::Char),
    (b"long", Keyword::Long),
    (b"void", Keyword::Void),
    (b"struct", Keyword::Struct),
    (b"if", Keyword::If),
    (b"else", Keyword::Else),
    (b"while", Keyword::While),
    (b"for", Keyword::For),
    (b"break", Keyword::Break),
    (b"continue", Keyword::Continue),
    (b"return", Keyword::Return),
    (b"sizeof", Keyword::Sizeof),
    (b"mutex", Keyword::Mutex),
    (b"private", Keyword::Private),
    (b"readonly", Keyword::Readonly),
    (b"locked", Keyword::Locked),
    (b"racy", Keyword::Racy),
    (b"dynamic", Keyword::Dynamic),
    (b"spawn", Keyword::Spawn),
    (b"join", Keyword::Join),
    (b"lock", Keyword::Lock),
    (b"unlock", Keyword::Unlock),
    (b"print", Keyword::Print),
    (b"malloc", Keyword::Malloc),
    (b"free", Keyword::Free),
    (b"SCAST", Keyword::Scast),
    (b"NULL", Keyword::Null),
];

static PUNCTUATORS: [(&[u8], Punctuator); 31] = [
    (b"(", Punctuator::OpenParenthesis),
    (b")", Punctuator::CloseParenthesis),
    (b"{", Punctuator::OpenBrace),
    (b"}", Punctuator::CloseBrace),
    (b"[", Punctuator::OpenBracket),
    (b"]", Punctuator::CloseBracket),
    (b";", Punctuator::Semicolon),
    (b",", Punctuator::Comma),
    (b".", Punctuator::Dot),
    (b"->", Punctuator::Arrow),
    (b"=", Punctuator::Assign),
    (b"==", Punctuator::Equal),
    (b"!=", Punctuator::NotEqual),
    (b"<", Punctuator::Less),
    (b">", Punctuator::Greater),
    (b"<=", Punctuator::LessOrEqual),
    (b">=", Punctuator::GreaterOrEqual),
    (b"<<", Punctuator::ShiftLeft),
    (b">>", Punctuator::ShiftRight),
    (b"+", Punctuator::Plus),
    (b"-", Punctuator::Minus),
    (b"*", Punctuator::Star),
    (b"/", Punctuator::Slash),
    (b"%", Punctuator::Percent),
    (b"&", Punctuator::Ampersand),
    (b"&&", Punctuator::AndAnd),
    (b"|", Punctuator::Bar),
    (b"||", Punctuator::OrOr),
    (b"^", Punctuator::Caret),
    (b"!", Punctuator::Exclamation),
    (b"~", Punctuator::Tilde),
];

#[test]
fn reads_every_keyword_and_punctuator(rt: HostRuntime) -> Result<(), Fail> {
    for (text, keyword) in &KEYWORDS {
        assert_kind(&rt, text, TokenKind::Keyword(*keyword))?;
    }
    for (text, punctuator) in &PUNCTUATORS {
        assert_kind(&rt, text, TokenKind::Punctuator(*punctuator))?;
    }
    assert_kind(&rt, b"integer", TokenKind::Identifier)
}

/// Numbers with their values, and whether they are ints.
static NUMBERS: [(&[u8], i64, bool); 13] = [
    (b"0", 0, true),
    (b"0l", 0, false),
    (b"7L", 7, false),
    (b"017", 15, true),
    (b"0000000000000000000000017", 15, true),
    (b"2147483647", 2_147_483_647, true),
    (b"2147483648", 2_147_483_648, false),
    (b"0x7fffffff", 2_147_483_647, true),
    (b"0XFFFFFFFF", 4_294_967_295, false),
    (b"0x1L", 1, false),
    (b"9223372036854775807", 9_223_372_036_854_775_807, false),
    (b"0x7FFFFFFFFFFFFFFF", 9_223_372_036_854_775_807, false),
    (b"0777777777777777777777", 9_223_372_036_854_775_807, false),
];

/// Asserts that a source is one number of a value and a type.
fn assert_number(
    rt: &(impl Abort + AllocGlobal),
    source: &[u8],
    value: i64,
    is_int: bool,
) -> Result<(), Fail> {
    let number_type = if is_int {
        NumberType::Int
    } else {
        NumberType::Long
    };
    assert_kind(rt, source, TokenKind::Number(Number { value, number_type }))
}

#[test]
fn reads_numbers_up_to_their_limits(rt: HostRuntime) -> Result<(), Fail> {
    for (text, value, is_int) in &NUMBERS {
        assert_number(&rt, text, *value, *is_int)?;
    }
    Ok(())
}

/// Character constants, and what they stand for.
static CHARACTERS: [(&[u8], u8); 10] = [
    (b"'a'", 97),
    (b"' '", 32),
    (b"'~'", 126),
    (b"'\\n'", 10),
    (b"'\\t'", 9),
    (b"'\\r'", 13),
    (b"'\\0'", 0),
    (b"'\\\\'", 92),
    (b"'\\''", 39),
    (b"'\\\"'", 34),
];

#[test]
fn reads_escapes(rt: HostRuntime) -> Result<(), Fail> {
    for (text, byte) in &CHARACTERS {
        assert_kind(&rt, text, TokenKind::Character(*byte))?;
    }
    Ok(())
}

/// As `gcc -E` writes a file that includes another and uses a macro.
const PREPROCESSED: &[u8] =
    b"# 0 \"t.c\"\n# 0 \"<built-in>\"\n# 0 \"<command-line>\"\n# 1 \"/usr/include/stdc-predef.h\" 1 3 4\n\
# 0 \"<command-line>\" 2\n# 1 \"t.c\"\n# 1 \"a.h\" 1\nint a;\n# 2 \"t.c\" 2\n\nint main(void) { return 42 + a; }\n";

static FILES: [&[u8]; 6] = [
    b"input",
    b"t.c",
    b"<built-in>",
    b"<command-line>",
    b"/usr/include/stdc-predef.h",
    b"a.h",
];

#[test]
fn follows_line_markers(rt: HostRuntime) -> Result<(), Fail> {
    let tokens = tokens(&rt, PREPROCESSED)?;
    assert_eq!(rt; tokens.files.len(), 6);
    for (i, name) in FILES.iter().enumerate() {
        assert!(rt; i < tokens.files.len());
        assert_eq!(rt; tokens.files.at(i).as_slice(), *name);
    }
    assert_eq!(rt; tokens.list.len(), 15);
    let first = tokens.list.at(0);
    assert_eq!(rt; (first.file, first.line), (5, 1));
    let main = tokens.list.at(4);
    assert_eq!(rt; main.text.as_slice(), b"main".as_slice());
    assert_eq!(rt; (main.file, main.line), (1, 3));
    assert_eq!(rt;
        (tokens.end.file, tokens.end.line, tokens.end.token),
        (1, 4, 15)
    );
    Ok(())
}

/// Sources, with the file, the line and the token of their end.
static ENDS: [(&[u8], u32, u32, u32); 6] = [
    (b"", 0, 1, 0),
    (b"a", 0, 1, 1),
    (b"a\n", 0, 2, 1),
    (b"a\n#5\"a.c\"", 0, 2, 1),
    (b"a\n#5\"a.c\"\n", 1, 5, 1),
    (b"# 3 \"input\" 1 \nx\n\n", 0, 5, 1),
];

/// Asserts where a source ends.
fn assert_end(
    rt: &(impl Abort + AllocGlobal),
    source: &[u8],
    file: u32,
    line: u32,
    token: u32,
) -> Result<(), Fail> {
    let end = tokens(rt, source)?.end;
    assert_eq!(rt; end.file, file, "{source:?}");
    assert_eq!(rt; end.line, line, "{source:?}");
    assert_eq!(rt; end.token, token, "{source:?}");
    Ok(())
}

#[test]
fn says_where_the_input_ends(rt: HostRuntime) -> Result<(), Fail> {
    for (source, file, line, token) in &ENDS {
        assert_end(&rt, source, *file, *line, *token)?;
    }
    Ok(())
}
