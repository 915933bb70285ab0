// Tokens: what the lexer makes of a source, with the place of each.

ghost use Rattle.std.specs.Prelude.{◌≡◌, IfOk};

use crate::listed::Listed;
use crate::name::{Name, Names};
use std::alloc::{AllocError, Global};

/// A place in the source: a line of a file, and the number of a token.
#[derive(Clone, Copy, PartialEq, Eq)]
pub struct Site {
    /// The place of the file in the list of files.
    pub file: u32,
    /// The line, as a line marker counts it; before the first marker from 1.
    pub line: u32,
    /// The number of the token, counted from 0.
    pub token: u32,
}

/// The tokens of a construct, from its first to its last.
#[derive(Clone, Copy)]
pub struct Span {
    pub first: Site,
    pub last: Site,
}

/// The keywords of the subset.
#[derive(Clone, Copy, PartialEq, Eq, Debug)]
pub enum Keyword {
    Int,
    Char,
    Long,
    Void,
    Struct,
    If,
    Else,
    While,
    For,
    Break,
    Continue,
    Return,
    Sizeof,
    Mutex,
    Private,
    Readonly,
    Locked,
    Racy,
    Dynamic,
    Spawn,
    Join,
    Lock,
    Unlock,
    Print,
    Malloc,
    Free,
    /// `SCAST`
    Scast,
    /// `NULL`
    Null,
}

/// The punctuators of the subset.
#[derive(Clone, Copy, PartialEq, Eq, Debug)]
pub enum Punctuator {
    /// `(`
    OpenParenthesis,
    /// `)`
    CloseParenthesis,
    /// `{`
    OpenBrace,
    /// `}`
    CloseBrace,
    /// `[`
    OpenBracket,
    /// `]`
    CloseBracket,
    /// `;`
    Semicolon,
    /// `,`
    Comma,
    /// `.`
    Dot,
    /// `->`
    Arrow,
    /// `=`
    Assign,
    /// `==`
    Equal,
    /// `!=`
    NotEqual,
    /// `<`
    Less,
    /// `>`
    Greater,
    /// `<=`
    LessOrEqual,
    /// `>=`
    GreaterOrEqual,
    /// `<<`
    ShiftLeft,
    /// `>>`
    ShiftRight,
    /// `+`
    Plus,
    /// `-`
    Minus,
    /// `*`
    Star,
    /// `/`
    Slash,
    /// `%`
    Percent,
    /// `&`
    Ampersand,
    /// `&&`
    AndAnd,
    /// `|`
    Bar,
    /// `||`
    OrOr,
    /// `^`
    Caret,
    /// `!`
    Exclamation,
    /// `~`
    Tilde,
}

/// The type of a number, by C11 6.4.4.1 as the subset has it (own for octal and hexadecimal numbers that C makes
/// unsigned).
#[derive(Clone, Copy, PartialEq, Eq, Debug)]
pub enum NumberType {
    /// No suffix, and at most 2147483647.
    Int,
    /// With the suffix `l` or `L`, or larger.
    Long,
}

/// What a number says: its value, from 0 to 2^63 - 1, and its type.
#[derive(Clone, Copy, PartialEq, Eq, Debug)]
pub struct Number {
    pub value: i64,
    pub number_type: NumberType,
}

/// What a token is, so that nobody above the lexer looks at a token's bytes to learn it.
#[derive(Clone, Copy, PartialEq, Eq, Debug)]
pub enum TokenKind {
    /// A keyword of the subset.
    Keyword(Keyword),
    /// A name; the token's text says which.
    Identifier,
    /// A decimal, octal or hexadecimal number.
    Number(Number),
    /// A character constant: the byte that it stands for.
    Character(u8),
    /// A punctuator of the subset.
    Punctuator(Punctuator),
    /// A keyword or a punctuator of C11 that the subset leaves out.
    LeftOut,
}

/// A token of the source.
pub struct Token {
    pub kind: TokenKind,
    /// The slice of the source at the span.
    pub text: Name,
    /// The offset of the first byte.
    pub from: u32,
    /// The offset after the last byte.
    pub until: u32,
    /// The place of the file in the list of files.
    pub file: u32,
    /// The line, as in a site.
    pub line: u32,
}

impl Drop for Token {
    fn drop(self) {
        let Token {
            kind: _,
            text,
            from: _,
            until: _,
            file: _,
            line: _,
        } = self;
        drop(text);
    }
}

impl Token {
    /// The same token once more.
    pub fn copy(&self, alloc: Global) -> Result<Self, AllocError>
        ensures { IfOk result (λ t. t ≡ self.now) }
    {
        let text = self.text.copy(alloc)?;
        Ok(Token {
            kind: self.kind,
            text,
            from: self.from,
            until: self.until,
            file: self.file,
            line: self.line,
        })
    }
}

/// The tokens of a source in their order.
pub type TokenList = Listed<Token>;

impl Listed<Token> {
    /// The same tokens once more.
    pub fn copy(&self, alloc: Global) -> Result<Self, AllocError>
        ensures { IfOk result (λ t. t ≡ self.now) }
    {
        let tokens = self.as_slice();
        let mut list = Vec::with_capacity(alloc, tokens.len())?;
        for token in tokens {
            list.push(token.copy(alloc)?)?;
        }
        Ok(Listed::of(list))
    }
}

/// A source read into tokens.
pub struct Tokens {
    pub list: TokenList,
    /// The files that the source names, `input` first.
    pub files: Names,
    /// The place of the end of input, with the number of tokens.
    pub end: Site,
}

/// A drop that is written out is proved here once; one that is derived is proved in each crate that drops tokens.
impl Drop for Tokens {
    fn drop(self) {
        let Tokens {
            list,
            files,
            end: _,
        } = self;
        drop(list);
        drop(files);
    }
}

impl Tokens {
    /// The same tokens once more.
    pub fn copy(&self, alloc: Global) -> Result<Self, AllocError>
        ensures { IfOk result (λ t. t ≡ self.now) }
    {
        let list = self.list.copy(alloc)?;
        let files = self.files.copy(alloc)?;
        Ok(Tokens {
            list,
            files,
            end: self.end,
        })
    }
}

/// Where and why a source is refused. What is wrong is a fault of the lexer (L), of the grammar (P) or of C typing (C),
/// which are types of their own.
#[derive(Debug)]
pub struct FaultAt<C> {
    /// What is wrong.
    pub code: C,
    /// The name of the file.
    pub file: Name,
    pub line: u32,
    /// The offset of a fault of the lexer, else 0.
    pub offset: u64,
    /// The byte of L1, the token of P1 and P3 (empty at the end of input), the name that C1, C2, C4, C7 and C9 print,
    /// else empty.
    pub text: Name,
}

impl<C: Drop> Drop for FaultAt<C> {
    fn drop(self) {
        let FaultAt {
            code,
            file,
            line: _,
            offset: _,
            text,
        } = self;
        drop(code);
        drop(file);
        drop(text);
    }
}
