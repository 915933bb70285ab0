//! Words: keywords, left-out keywords and identifiers.

ghost use Rattle.std.specs.Prelude.{◌≡◌, length, map};
ghost use Rattle.sharc_lex.specs.Words.{entry_at, keywords, is_keyword, word};

use crate::fault::TokenFault;
use sharc_tree::token::{Keyword, TokenKind};

/// A text that has a kind of its own.
struct Entry {
    text: &'static [u8],
    kind: TokenKind,
}

/// The keywords of 2 bytes.
static TWO: [Entry; 2] = [
    Entry {
        text: b"if",
        kind: TokenKind::Keyword(Keyword::If),
    },
    Entry {
        text: b"do",
        kind: TokenKind::LeftOut,
    },
];

/// The keywords of 3 bytes.
static THREE: [Entry; 2] = [
    Entry {
        text: b"int",
        kind: TokenKind::Keyword(Keyword::Int),
    },
    Entry {
        text: b"for",
        kind: TokenKind::Keyword(Keyword::For),
    },
];

/// The keywords of 4 bytes.
static FOUR: [Entry; 13] = [
    Entry {
        text: b"char",
        kind: TokenKind::Keyword(Keyword::Char),
    },
    Entry {
        text: b"long",
        kind: TokenKind::Keyword(Keyword::Long),
    },
    Entry {
        text: b"void",
        kind: TokenKind::Keyword(Keyword::Void),
    },
    Entry {
        text: b"else",
        kind: TokenKind::Keyword(Keyword::Else),
    },
    Entry {
        text: b"racy",
        kind: TokenKind::Keyword(Keyword::Racy),
    },
    Entry {
        text: b"join",
        kind: TokenKind::Keyword(Keyword::Join),
    },
    Entry {
        text: b"lock",
        kind: TokenKind::Keyword(Keyword::Lock),
    },
    Entry {
        text: b"free",
        kind: TokenKind::Keyword(Keyword::Free),
    },
    Entry {
        text: b"NULL",
        kind: TokenKind::Keyword(Keyword::Null),
    },
    Entry {
        text: b"auto",
        kind: TokenKind::LeftOut,
    },
    Entry {
        text: b"case",
        kind: TokenKind::LeftOut,
    },
    Entry {
        text: b"enum",
        kind: TokenKind::LeftOut,
    },
    Entry {
        text: b"goto",
        kind: TokenKind::LeftOut,
    },
];

/// The keywords of 5 bytes.
static FIVE: [Entry; 11] = [
    Entry {
        text: b"while",
        kind: TokenKind::Keyword(Keyword::While),
    },
    Entry {
        text: b"break",
        kind: TokenKind::Keyword(Keyword::Break),
    },
    Entry {
        text: b"mutex",
        kind: TokenKind::Keyword(Keyword::Mutex),
    },
    Entry {
        text: b"spawn",
        kind: TokenKind::Keyword(Keyword::Spawn),
    },
    Entry {
        text: b"print",
        kind: TokenKind::Keyword(Keyword::Print),
    },
    Entry {
        text: b"SCAST",
        kind: TokenKind::Keyword(Keyword::Scast),
    },
    Entry {
        text: b"const",
        kind: TokenKind::LeftOut,
    },
    Entry {
        text: b"float",
        kind: TokenKind::LeftOut,
    },
    Entry {
        text: b"short",
        kind: TokenKind::LeftOut,
    },
    Entry {
        text: b"union",
        kind: TokenKind::LeftOut,
    },
    Entry {
        text: b"_Bool",
        kind: TokenKind::LeftOut,
    },
];

/// The keywords of 6 bytes.
static SIX: [Entry; 12] = [
    Entry {
        text: b"struct",
        kind: TokenKind::Keyword(Keyword::Struct),
    },
    Entry {
        text: b"return",
        kind: TokenKind::Keyword(Keyword::Return),
    },
    Entry {
        text: b"sizeof",
        kind: TokenKind::Keyword(Keyword::Sizeof),
    },
    Entry {
        text: b"locked",
        kind: TokenKind::Keyword(Keyword::Locked),
    },
    Entry {
        text: b"unlock",
        kind: TokenKind::Keyword(Keyword::Unlock),
    },
    Entry {
        text: b"malloc",
        kind: TokenKind::Keyword(Keyword::Malloc),
    },
    Entry {
        text: b"double",
        kind: TokenKind::LeftOut,
    },
    Entry {
        text: b"extern",
        kind: TokenKind::LeftOut,
    },
    Entry {
        text: b"inline",
        kind: TokenKind::LeftOut,
    },
    Entry {
        text: b"signed",
        kind: TokenKind::LeftOut,
    },
    Entry {
        text: b"static",
        kind: TokenKind::LeftOut,
    },
    Entry {
        text: b"switch",
        kind: TokenKind::LeftOut,
    },
];

/// The keywords of 7 bytes.
static SEVEN: [Entry; 5] = [
    Entry {
        text: b"private",
        kind: TokenKind::Keyword(Keyword::Private),
    },
    Entry {
        text: b"dynamic",
        kind: TokenKind::Keyword(Keyword::Dynamic),
    },
    Entry {
        text: b"default",
        kind: TokenKind::LeftOut,
    },
    Entry {
        text: b"typedef",
        kind: TokenKind::LeftOut,
    },
    Entry {
        text: b"_Atomic",
        kind: TokenKind::LeftOut,
    },
];

/// The keywords of 8 bytes.
static EIGHT: [Entry; 10] = [
    Entry {
        text: b"continue",
        kind: TokenKind::Keyword(Keyword::Continue),
    },
    Entry {
        text: b"readonly",
        kind: TokenKind::Keyword(Keyword::Readonly),
    },
    Entry {
        text: b"register",
        kind: TokenKind::LeftOut,
    },
    Entry {
        text: b"restrict",
        kind: TokenKind::LeftOut,
    },
    Entry {
        text: b"unsigned",
        kind: TokenKind::LeftOut,
    },
    Entry {
        text: b"volatile",
        kind: TokenKind::LeftOut,
    },
    Entry {
        text: b"_Alignas",
        kind: TokenKind::LeftOut,
    },
    Entry {
        text: b"_Alignof",
        kind: TokenKind::LeftOut,
    },
    Entry {
        text: b"_Complex",
        kind: TokenKind::LeftOut,
    },
    Entry {
        text: b"_Generic",
        kind: TokenKind::LeftOut,
    },
];

/// The keywords of 9 bytes.
static NINE: [Entry; 1] = [Entry {
    text: b"_Noreturn",
    kind: TokenKind::LeftOut,
}];

/// The keywords of 10 bytes.
static TEN: [Entry; 1] = [Entry {
    text: b"_Imaginary",
    kind: TokenKind::LeftOut,
}];

/// The keywords of 13 bytes.
static THIRTEEN: [Entry; 1] = [Entry {
    text: b"_Thread_local",
    kind: TokenKind::LeftOut,
}];

/// The keywords of 14 bytes.
static FOURTEEN: [Entry; 1] = [Entry {
    text: b"_Static_assert",
    kind: TokenKind::LeftOut,
}];

/// What the table has at the text.
fn look_up(table: &[Entry], text: &[u8]) -> Option<TokenKind>
    ensures { result ≡ entry_at (map (λ e. (e.text.now, e.kind)) table.now) text.now }
{
    for entry in table {
        if text == entry.text {
            return Some(entry.kind);
        }
    }
    None
}

/// The kind of a keyword or a left-out keyword.
fn keyword(text: &[u8]) -> Option<TokenKind>
    ensures { result ≡ entry_at keywords text.now }
{
    match text.len() {
        2 => look_up(&TWO, text),
        3 => look_up(&THREE, text),
        4 => look_up(&FOUR, text),
        5 => look_up(&FIVE, text),
        6 => look_up(&SIX, text),
        7 => look_up(&SEVEN, text),
        8 => look_up(&EIGHT, text),
        9 => look_up(&NINE, text),
        10 => look_up(&TEN, text),
        13 => look_up(&THIRTEEN, text),
        14 => look_up(&FOURTEEN, text),
        _ => None,
    }
}

/// Whether it is a keyword of the subset or a left-out keyword, so that no name is it.
pub fn is_keyword(text: &[u8]) -> bool
    ensures { result ≡ is_keyword text.now }
{
    keyword(text).is_some()
}

/// The kind of a word (C11 6.4.1 and 6.4.2).
pub fn word(text: &[u8]) -> Result<TokenKind, TokenFault>
    ensures { result ≡ word text.now }
{
    if text.len() > 64 {
        return Err(TokenFault::Identifier);
    }
    Ok(keyword(text).unwrap_or(TokenKind::Identifier))
}
