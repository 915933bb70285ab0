//! What token is where a byte begins it.

ghost use Rattle.std.specs.Prelude.{◌≡◌, ◌∷◌, IfOk};
ghost use Rattle.sharc_lex.specs.{Laws.IsLongest, TokenAt.{LiesIn, word_at, number_at, token_at}};

use crate::bytes::{is_digit, is_letter, word_len};
use crate::characters::character;
use crate::fault::TokenFault;
use crate::numbers::number;
use crate::punctuators::punctuator;
use crate::words::word;
use sharc_tree::token::TokenKind;

/// A token at the front of some bytes.
#[derive(Clone, Copy)]
pub struct Lexeme {
    /// How many bytes it has.
    pub len: usize,
    pub kind: TokenKind,
}

/// The word, which takes all word bytes at the front.
fn word_at(bytes: &[u8]) -> Result<Lexeme, TokenFault>
    ensures { result ≡ word_at bytes.now }
{
    let len = word_len(bytes);
    let kind = word(&bytes[..len])?;
    Ok(Lexeme { len, kind })
}

/// The number, which takes all word bytes at the front.
fn number_at(bytes: &[u8]) -> Result<Lexeme, TokenFault>
    ensures { result ≡ number_at bytes.now }
{
    let len = word_len(bytes);
    match number(&bytes[..len]) {
        Some(number) => {
            let kind = TokenKind::Number(number);
            Ok(Lexeme { len, kind })
        }
        None => Err(TokenFault::Number),
    }
}

/// The token at the front of the bytes, which are a first byte, no white space, and the others.
pub fn token_at(first: u8, others: &[u8], bytes: &[u8]) -> Result<Lexeme, TokenFault>
    requires { bytes.now ≡ first ∷ others.now }
    ensures token { result ≡ token_at first others.now }
    ensures lies { IfOk result (LiesIn bytes.now) }
    ensures longest { IfOk result (IsLongest bytes.now) }
{
    if is_letter(first) {
        word_at(bytes)
    } else if is_digit(first) {
        number_at(bytes)
    } else if first == b'\'' {
        character(others).ok_or(TokenFault::Character)
    } else {
        punctuator(bytes).ok_or(TokenFault::Byte(first))
    }
}
