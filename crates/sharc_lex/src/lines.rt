//! The tokens of a line of text.

ghost use Rattle.std.specs.Prelude.{◌≡◌, ◌+◌, ◌<◌, ◌≤◌, ◌^◌, length, drop, IfOk, IfErr, OnOk};
ghost use Rattle.sharc_lex.specs.{Faults.Fails, Grammar.{token, tokens_of, behind_tokens, Steps}};

use crate::bytes::is_white_space;
use crate::fault::{LineFailure, LineFault, SourceLine};
use crate::token_at::{Lexeme, token_at};
use sharc_tree::name::Name;
use sharc_tree::token::Token;
use std::alloc::{AllocError, Global};

/// The token at the front of the bytes, which lie at an offset.
fn make_token(
    alloc: Global,
    place: SourceLine,
    offset: usize,
    bytes: &[u8],
    found: Lexeme,
) -> Result<Token, AllocError>
    requires lies { found.len ≤ length bytes.now }
    requires fits { offset + length bytes.now ≤ 2 ^ 20 }
    ensures { IfOk result (λ made. made ≡ token place offset bytes.now found) }
{
    let len = found.len;
    let text = Name::from_slice(alloc, &bytes[..len])?;
    Ok(Token {
        kind: found.kind,
        text,
        from: offset as u32,
        until: (offset + len) as u32,
        file: place.file,
        line: place.line,
    })
}

/// Reads white space or a token at the front, and says how many bytes it has.
fn step(
    alloc: Global,
    tokens: &mut Vec<Token>,
    place: SourceLine,
    offset: usize,
    bytes: &[u8],
) -> Result<usize, LineFailure>
    requires some { 0 < length bytes.now }
    requires fits { offset + length bytes.now ≤ 2 ^ 20 }
    ensures read { IfOk result (Steps tokens.old.items tokens.new.items place offset bytes.now) }
    ensures failed { IfErr result (λ e. Fails e (tokens_of place 0 offset bytes.now)) }
{
    match bytes {
        [first, ..] if is_white_space(*first) => Ok(1),
        [first, others @ ..] => match token_at(*first, others, bytes) {
            Ok(found) => {
                tokens.push(make_token(alloc, place, offset, bytes, found)?)?;
                Ok(found.len)
            }
            Err(fault) => Err(LineFailure::At(LineFault { offset, fault })),
        },
        [] => unreachable!(),
    }
}

/// Reads the tokens of a line, which begins at an offset.
pub fn read_tokens(
    alloc: Global,
    tokens: &mut Vec<Token>,
    place: SourceLine,
    offset: usize,
    line: &[u8],
) -> Result<(), LineFailure>
    requires { offset + length line.now ≤ 2 ^ 20 }
    ensures read { OnOk result (behind_tokens tokens.old.items (tokens_of place 0 offset line.now)
        ≡ Ok tokens.new.items) }
    ensures failed { IfErr result (λ e. Fails e (tokens_of place 0 offset line.now)) }
{
    let mut at = 0;
    while at < line.len() {
        at += step(alloc, tokens, place, offset + at, &line[at..])?;
    }
    Ok(())
}
