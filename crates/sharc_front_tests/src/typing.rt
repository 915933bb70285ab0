//! A source as C typing finds it.

use sharc_ctype::typed::{TypeFault, Typed, type_program};
use sharc_lex::lex;
use sharc_parse::parse;
use std::process::Abort;
use std::test::Fail;

/// What C typing answers for a source that the lexer and the parser read.
pub(crate) fn answer(
    rt: &(impl Abort + AllocGlobal),
    source: &[u8],
) -> Result<Result<Typed, TypeFault>, Fail> {
    assert!(rt; source.len() <= 1_048_576);
    let tokens = lex(rt.alloc(), source)?;
    match parse(rt.alloc(), tokens) {
        Ok(program) => {
            assert!(rt; program.items.len() <= 1_048_576);
            Ok(type_program(rt.alloc(), program))
        }
        Err(_) => panic!(rt; "not read: {source:?}"),
    }
}

/// The typed program of a source.
pub(crate) fn typed(rt: &(impl Abort + AllocGlobal), source: &str) -> Result<Typed, Fail> {
    match answer(rt, source.as_bytes())? {
        Ok(typed) => Ok(typed),
        Err(_) => panic!(rt; "not typed: {source}"),
    }
}
