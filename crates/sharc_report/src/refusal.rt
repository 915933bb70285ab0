//! The line that says where and why a source is refused.

ghost use Rattle.std.specs.Prelude.{◌≡◌, ◌++◌, [], codes, decimal, IfOk, OnOk};
ghost use Rattle.sharc_lex.specs.Faults as lexer;
ghost use Rattle.sharc_parse.specs.Faults as parser;
ghost use Rattle.sharc_names.specs.Notes as typing;
ghost use Rattle.sharc_report.specs.Refusals.{lexer_message, parser_message, typing_message, at_offset, unexpected};
ghost use Rattle.sharc_report.specs.Refusals.{quoted, head_of, refusal_line};

use crate::put::{Put, put_number, put_two};
use sharc_lex::TokenFault as LexerFault;
use sharc_names::fault::FaultCode;
use sharc_parse::fault::GrammarFault;
use sharc_tree::token::FaultAt;
use std::alloc::{AllocError, Global};

/// The first fault of a source, by the part of the front end that found it.
#[derive(Drop)]
pub enum SourceFault {
    /// Bytes that are no tokens: L1 to L5.
    Lexer(FaultAt<LexerFault>),
    /// Tokens that are no program: P1 to P3.
    Parser(FaultAt<GrammarFault>),
    /// A program that is not typed: C1 to C9.
    Typing(FaultAt<FaultCode>),
}

/// The line of a fault, `file:line: code message`, with its newline.
pub fn fault_text(alloc: Global, fault: &SourceFault) -> Result<Vec<u8>, AllocError>
    ensures { IfOk result (λ text. text.items ≡ refusal_line fault.now) }
{
    let mut text = Vec::new(alloc);
    match fault {
        SourceFault::Lexer(at) => put_lexer_fault(&mut text, at)?,
        SourceFault::Parser(at) => put_parser_fault(&mut text, at)?,
        SourceFault::Typing(at) => put_typing_fault(&mut text, at)?,
    }
    text.extend_from_slice(b"\n")?;
    Ok(text)
}

/// What stands before the message: the place and the code.
fn put_head(text: &mut Vec<u8>, file: &[u8], line: u32, letter: &[u8], digit: u8) -> Put
    ensures { OnOk result (text.new.items ≡ text.old.items ++ head_of file.now line letter.now digit) }
{
    text.extend_from_slice(file)?;
    text.extend_from_slice(b":")?;
    put_number(text, u64::from(line))?;
    put_two(text, b": ", letter)?;
    put_number(text, u64::from(digit))?;
    text.extend_from_slice(b" ")
}

fn put_lexer_fault(text: &mut Vec<u8>, at: &FaultAt<LexerFault>) -> Put
    ensures { OnOk result (text.new.items ≡ text.old.items ++ (head_of at.now.file at.now.line (codes "L")
        (lexer.digit_of at.now.code) ++ lexer_message at.now.code at.now.offset)) }
{
    put_head(text, at.file.as_slice(), at.line, b"L", at.code.digit())?;
    put_lexer_message(text, at.code, at.offset)
}

fn put_parser_fault(text: &mut Vec<u8>, at: &FaultAt<GrammarFault>) -> Put
    ensures { OnOk result (text.new.items ≡ text.old.items ++ (head_of at.now.file at.now.line (codes "P")
        (parser.digit_of at.now.code) ++ parser_message at.now.code at.now.text)) }
{
    put_head(text, at.file.as_slice(), at.line, b"P", at.code.digit())?;
    put_parser_message(text, at.code, at.text.as_slice())
}

fn put_typing_fault(text: &mut Vec<u8>, at: &FaultAt<FaultCode>) -> Put
    ensures { OnOk result (text.new.items ≡ text.old.items ++ (head_of at.now.file at.now.line (codes "C")
        (typing.digit at.now.code) ++ typing_message at.now.code at.now.text)) }
{
    put_head(text, at.file.as_slice(), at.line, b"C", at.code.digit())?;
    put_typing_message(text, at.code, at.text.as_slice())
}

fn put_lexer_message(text: &mut Vec<u8>, fault: LexerFault, offset: u64) -> Put
    ensures { OnOk result (text.new.items ≡ text.old.items ++ lexer_message fault offset) }
{
    match fault {
        LexerFault::Byte(byte) => put_byte(text, byte, offset),
        LexerFault::Number => put_at_offset(text, b"number", offset),
        LexerFault::Marker => put_at_offset(text, b"line marker", offset),
        LexerFault::Identifier => put_at_offset(text, b"identifier over 64 bytes", offset),
        LexerFault::Character => put_at_offset(text, b"character constant", offset),
    }
}

fn put_byte(text: &mut Vec<u8>, byte: u8, offset: u64) -> Put
    ensures { OnOk result (text.new.items ≡ text.old.items ++ (codes "byte " ++ decimal byte ++ at_offset offset)) }
{
    text.extend_from_slice(b"byte ")?;
    put_number(text, u64::from(byte))?;
    put_at_offset(text, b"", offset)
}

fn put_at_offset(text: &mut Vec<u8>, what: &[u8], offset: u64) -> Put
    ensures { OnOk result (text.new.items ≡ text.old.items ++ (what.now ++ at_offset offset)) }
{
    text.extend_from_slice(what)?;
    text.extend_from_slice(b" at offset ")?;
    put_number(text, offset)
}

fn put_parser_message(text: &mut Vec<u8>, fault: GrammarFault, token: &[u8]) -> Put
    ensures { OnOk result (text.new.items ≡ text.old.items ++ parser_message fault token.now) }
{
    match fault {
        GrammarFault::Unexpected => put_unexpected(text, token),
        GrammarFault::Deep => text.extend_from_slice(b"nesting over 64"),
        GrammarFault::LeftOut => put_quoted(text, b"left out ", token),
    }
}

fn put_unexpected(text: &mut Vec<u8>, token: &[u8]) -> Put
    ensures { OnOk result (text.new.items ≡ text.old.items ++ unexpected token.now) }
{
    if token.is_empty() {
        put_two(text, b"unexpected ", b"end of input")
    } else {
        put_quoted(text, b"unexpected ", token)
    }
}

fn put_quoted(text: &mut Vec<u8>, before: &[u8], inner: &[u8]) -> Put
    ensures { OnOk result (text.new.items ≡ text.old.items ++ (before.now ++ quoted inner.now)) }
{
    text.extend_from_slice(before)?;
    text.extend_from_slice(b"'")?;
    text.extend_from_slice(inner)?;
    text.extend_from_slice(b"'")
}

fn put_typing_message(text: &mut Vec<u8>, fault: FaultCode, name: &[u8]) -> Put
    ensures { OnOk result (text.new.items ≡ text.old.items ++ typing_message fault name.now) }
{
    match fault {
        FaultCode::UnknownName => put_two(text, b"unknown name ", name),
        FaultCode::DefinedTwice => put_two(text, name, b" defined twice"),
        FaultCode::TypeMismatch => text.extend_from_slice(b"type mismatch"),
        FaultCode::ArgumentCount => put_two(text, b"wrong number of arguments for ", name),
        FaultCode::NoLvalue => text.extend_from_slice(b"not an lvalue"),
        FaultCode::TypeNotAllowed => text.extend_from_slice(b"type not allowed here"),
        FaultCode::BadForm => put_two(text, b"bad form of ", name),
        FaultCode::NoMain => text.extend_from_slice(b"no int main(void)"),
        FaultCode::LimitPassed => put_two(text, b"limit passed by ", name),
    }
}
