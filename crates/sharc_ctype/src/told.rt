// How a fault is reported.

ghost use Rattle.std.specs.Prelude.{◌≡◌, ◌<◌, All, length, drop, IfOk};
ghost use Rattle.sharc_ctype.specs.Typings.{IsToldAt, file_of, line_of, told_of, prints_name};

use sharc_names::fault::{Fault, FaultCode};
use sharc_tree::name::Name;
use sharc_tree::token::{FaultAt, Tokens};
use std::alloc::{AllocError, Global};

/// Whether the text of a fault has the name that is at its place.
fn prints_name(code: FaultCode) -> bool
    ensures { result ≡ prints_name code }
{
    match code {
        FaultCode::UnknownName | FaultCode::DefinedTwice | FaultCode::ArgumentCount => true,
        FaultCode::BadForm | FaultCode::LimitPassed => true,
        FaultCode::TypeMismatch | FaultCode::NoLvalue | FaultCode::TypeNotAllowed => false,
        FaultCode::NoMain => false,
    }
}

/// The file of the token with that number, or of the end of input.
fn file_at(tokens: &Tokens, place: usize) -> u32
    requires files { All (λ t. t.file < length tokens.now.files) tokens.now.list }
    requires end_file { tokens.now.end.file < length tokens.now.files }
    ensures file { result ≡ file_of (drop place tokens.now.list) tokens.now.end }
    ensures within { result < length tokens.now.files }
{
    if place < tokens.list.len() {
        tokens.list.at(place).file
    } else {
        tokens.end.file
    }
}

/// The line of the token with that number, or of the end of input.
fn line_at(tokens: &Tokens, place: usize) -> u32
    ensures { result ≡ line_of (drop place tokens.now.list) tokens.now.end }
{
    if place < tokens.list.len() {
        tokens.list.at(place).line
    } else {
        tokens.end.line
    }
}

/// What a fault with that code says of the token with that number.
fn text_at(
    alloc: Global,
    tokens: &Tokens,
    place: usize,
    code: FaultCode,
) -> Result<Name, AllocError>
    ensures { IfOk result (λ text. text ≡ told_of code (drop place tokens.now.list)) }
{
    if place >= tokens.list.len() || !prints_name(code) {
        return Ok(Name::of(Vec::new(alloc)));
    }
    let token = tokens.list.at(place);
    token.text.copy(alloc)
}

/// A fault as it is reported.
pub(crate) fn told(
    alloc: Global,
    tokens: &Tokens,
    fault: Fault,
) -> Result<FaultAt<FaultCode>, AllocError>
    requires files { All (λ t. t.file < length tokens.now.files) tokens.now.list }
    requires end_file { tokens.now.end.file < length tokens.now.files }
    ensures { IfOk result (λ at. IsToldAt tokens.now fault at) }
{
    let place = fault.place;
    let text = text_at(alloc, tokens, place, fault.code)?;
    let file = file_at(tokens, place) as usize;
    let file = tokens.files.at(file).copy(alloc)?;
    Ok(FaultAt {
        code: fault.code,
        file,
        line: line_at(tokens, place),
        offset: 0,
        text,
    })
}
