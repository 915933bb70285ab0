//! A source as the lexer and the parser read it, and the texts of its parts.

use sharc_lex::lex;
use sharc_parse::parse;
use sharc_tree::print::print_span;
use sharc_tree::token::Span;
use sharc_tree::tree::{FunctionDefinition, Item, Program};
use std::process::Abort;
use std::test::Fail;

/// The program of a source.
pub(crate) fn program(rt: &(impl Abort + AllocGlobal), source: &[u8]) -> Result<Program, Fail> {
    assert!(rt; source.len() <= 1_048_576);
    let tokens = lex(rt.alloc(), source)?;
    match parse(rt.alloc(), tokens) {
        Ok(program) => Ok(program),
        Err(_) => panic!(rt; "not read: {source:?}"),
    }
}

/// The last item of a program, which is a function.
pub(crate) fn last_function<'a>(
    rt: &(impl Abort + AllocGlobal),
    program: &'a Program,
) -> &'a FunctionDefinition {
    match program.items.as_slice().last() {
        Some(Item::Function(function)) => function,
        _ => panic!(rt; "no function"),
    }
}

/// The text of a span.
pub(crate) fn text_of(
    rt: &(impl Abort + AllocGlobal),
    program: &Program,
    span: Span,
) -> Result<Vec<u8>, Fail> {
    let from = span.first.token;
    let to = span.last.token;
    assert!(rt; from <= to);
    assert!(rt; (to as usize) < program.tokens.list.len());
    Ok(print_span(rt.alloc(), program, from, to)?)
}

/// Adds the text of a span, after a bar unless it is the first.
pub(crate) fn add_span(
    rt: &(impl Abort + AllocGlobal),
    program: &Program,
    span: Span,
    texts: &mut Vec<u8>,
) -> Result<(), Fail> {
    if !texts.is_empty() {
        texts.extend_from_slice(b" | ")?;
    }
    texts.extend_from_slice(&text_of(rt, program, span)?)?;
    Ok(())
}
