//! Punctuators (C11 6.4.6): the longest that the bytes begin with.

ghost use Rattle.std.specs.Prelude.{◌≡◌, [], ◌∷◌};
ghost use Rattle.sharc_lex.specs.Punctuators.{singles, pairs, triples, quadruples, first_begun, punctuator};

use crate::token_at::Lexeme;
use sharc_tree::token::{Punctuator, TokenKind};

/// A lexeme of the subset.
fn lexeme(len: usize, punctuator: Punctuator) -> Option<Lexeme>
    ensures { result ≡ Some (record { len = len; kind = TokenKind.Punctuator punctuator }) }
{
    let kind = TokenKind::Punctuator(punctuator);
    Some(Lexeme { len, kind })
}

/// A lexeme that the subset leaves out.
fn left_out(len: usize) -> Option<Lexeme>
    ensures { result ≡ Some (record { len = len; kind = TokenKind.LeftOut }) }
{
    let kind = TokenKind::LeftOut;
    Some(Lexeme { len, kind })
}

fn single(byte: u8) -> Option<Lexeme>
    ensures { result ≡ first_begun singles (byte ∷ []) }
{
    match byte {
        b'(' => lexeme(1, Punctuator::OpenParenthesis),
        b')' => lexeme(1, Punctuator::CloseParenthesis),
        b'{' => lexeme(1, Punctuator::OpenBrace),
        b'}' => lexeme(1, Punctuator::CloseBrace),
        b'[' => lexeme(1, Punctuator::OpenBracket),
        b']' => lexeme(1, Punctuator::CloseBracket),
        b';' => lexeme(1, Punctuator::Semicolon),
        b',' => lexeme(1, Punctuator::Comma),
        b'.' => lexeme(1, Punctuator::Dot),
        b'=' => lexeme(1, Punctuator::Assign),
        b'<' => lexeme(1, Punctuator::Less),
        b'>' => lexeme(1, Punctuator::Greater),
        b'+' => lexeme(1, Punctuator::Plus),
        b'-' => lexeme(1, Punctuator::Minus),
        b'*' => lexeme(1, Punctuator::Star),
        b'/' => lexeme(1, Punctuator::Slash),
        b'%' => lexeme(1, Punctuator::Percent),
        b'&' => lexeme(1, Punctuator::Ampersand),
        b'|' => lexeme(1, Punctuator::Bar),
        b'^' => lexeme(1, Punctuator::Caret),
        b'!' => lexeme(1, Punctuator::Exclamation),
        b'~' => lexeme(1, Punctuator::Tilde),
        b'?' => left_out(1),
        b':' => left_out(1),
        _ => None,
    }
}

fn pair(first: u8, second: u8) -> Option<Lexeme>
    ensures { result ≡ first_begun pairs (first ∷ second ∷ []) }
{
    match (first, second) {
        (b'-', b'>') => lexeme(2, Punctuator::Arrow),
        (b'=', b'=') => lexeme(2, Punctuator::Equal),
        (b'!', b'=') => lexeme(2, Punctuator::NotEqual),
        (b'<', b'=') => lexeme(2, Punctuator::LessOrEqual),
        (b'>', b'=') => lexeme(2, Punctuator::GreaterOrEqual),
        (b'<', b'<') => lexeme(2, Punctuator::ShiftLeft),
        (b'>', b'>') => lexeme(2, Punctuator::ShiftRight),
        (b'&', b'&') => lexeme(2, Punctuator::AndAnd),
        (b'|', b'|') => lexeme(2, Punctuator::OrOr),
        (b'+', b'+') => left_out(2),
        (b'-', b'-') => left_out(2),
        (b'+', b'=') => left_out(2),
        (b'-', b'=') => left_out(2),
        (b'*', b'=') => left_out(2),
        (b'/', b'=') => left_out(2),
        (b'%', b'=') => left_out(2),
        (b'&', b'=') => left_out(2),
        (b'|', b'=') => left_out(2),
        (b'^', b'=') => left_out(2),
        (b'/', b'/') => left_out(2),
        (b'/', b'*') => left_out(2),
        (b'<', b':') => left_out(2),
        (b':', b'>') => left_out(2),
        (b'<', b'%') => left_out(2),
        (b'%', b'>') => left_out(2),
        (b'%', b':') => left_out(2),
        _ => None,
    }
}

fn of_one(bytes: &[u8]) -> Option<Lexeme>
    ensures { result ≡ first_begun singles bytes.now }
{
    match bytes {
        [first, ..] => single(*first),
        [] => None,
    }
}

fn of_two(bytes: &[u8]) -> Option<Lexeme>
    ensures { result ≡ first_begun pairs bytes.now }
{
    match bytes {
        [first, second, ..] => pair(*first, *second),
        _ => None,
    }
}

fn of_three(bytes: &[u8]) -> Option<Lexeme>
    ensures { result ≡ first_begun triples bytes.now }
{
    if bytes.starts_with(b"<<=") || bytes.starts_with(b">>=") || bytes.starts_with(b"...") {
        left_out(3)
    } else {
        None
    }
}

fn of_four(bytes: &[u8]) -> Option<Lexeme>
    ensures { result ≡ first_begun quadruples bytes.now }
{
    if bytes.starts_with(b"%:%:") {
        left_out(4)
    } else {
        None
    }
}

/// The longest punctuator that the bytes begin with.
pub fn punctuator(bytes: &[u8]) -> Option<Lexeme>
    ensures { result ≡ punctuator bytes.now }
{
    if let Some(found) = of_four(bytes) {
        return Some(found);
    }
    if let Some(found) = of_three(bytes) {
        return Some(found);
    }
    if let Some(found) = of_two(bytes) {
        return Some(found);
    }
    of_one(bytes)
}
