//! Character constants (C11 6.4.4.4), of one byte or an escape.

ghost use Rattle.std.specs.Prelude.{◌≡◌};
ghost use Rattle.sharc_lex.specs.Characters.{escaped, behind_backslash, plain, character};

use crate::bytes::is_printable;
use crate::token_at::Lexeme;
use sharc_tree::token::TokenKind;

/// What an escape stands for.
fn escaped(byte: u8) -> Option<u8>
    ensures { result ≡ escaped byte }
{
    match byte {
        b'n' => Some(b'\n'),
        b't' => Some(b'\t'),
        b'r' => Some(b'\r'),
        b'0' => Some(b'\0'),
        b'\\' => Some(b'\\'),
        b'\'' => Some(b'\''),
        b'"' => Some(b'"'),
        _ => None,
    }
}

/// What is escaped after a backslash, where the quote follows.
fn behind_backslash(bytes: &[u8]) -> Option<u8>
    ensures { result ≡ behind_backslash bytes.now }
{
    match bytes {
        [byte, b'\'', ..] => escaped(*byte),
        _ => None,
    }
}

/// The byte after a quote, where it stands for itself and the quote follows.
fn plain(bytes: &[u8]) -> Option<u8>
    ensures { result ≡ plain bytes.now }
{
    match bytes {
        [byte, b'\'', ..] if is_printable(*byte) && *byte != b'\'' => Some(*byte),
        _ => None,
    }
}

/// The character constant whose first quote comes just before these bytes.
pub fn character(bytes: &[u8]) -> Option<Lexeme>
    ensures { result ≡ character bytes.now }
{
    let (byte, len) = match bytes {
        [b'\\', escape @ ..] => (behind_backslash(escape)?, 4),
        _ => (plain(bytes)?, 3),
    };
    let kind = TokenKind::Character(byte);
    Some(Lexeme { len, kind })
}
