//! The parts of a table, and a source with the modes that it is inferred to have.

use sharc_ctype::typed::{Typed, type_program};
use sharc_infer::infer;
use sharc_lex::lex;
use sharc_mode::moded::Moded;
use sharc_parse::parse;
use sharc_reach::reach;
use std::process::Abort;
use std::test::Fail;

/// What stands before and behind the first of these separators.
pub(crate) fn parts<'a>(
    rt: &impl Abort,
    text: &'a str,
    separator: &str,
) -> Result<(&'a str, &'a str), Fail> {
    match text.split_once(separator) {
        None => panic!(rt; "no {separator} in {text}"),
        Some(parts) => Ok(parts),
    }
}

/// The typed program of a source.
pub(crate) fn typed(rt: &(impl Abort + AllocGlobal), source: &str) -> Result<Typed, Fail> {
    assert!(rt; source.len() <= 1_048_576);
    let tokens = lex(rt.alloc(), source.as_bytes())?;
    match parse(rt.alloc(), tokens) {
        Ok(program) => {
            assert!(rt; program.items.len() <= 1_048_576);
            match type_program(rt.alloc(), program) {
                Ok(typed) => Ok(typed),
                Err(_) => panic!(rt; "not typed: {source}"),
            }
        }
        Err(_) => panic!(rt; "not parsed: {source}"),
    }
}

/// The program of a source, with the modes that it is inferred to have.
pub(crate) fn inferred(rt: &(impl Abort + AllocGlobal), source: &str) -> Result<Moded, Fail> {
    let typed = typed(rt, source)?;
    match reach(rt.alloc(), &typed) {
        Err(_) => panic!(rt; "no memory"),
        Ok(reached) => match infer(rt.alloc(), typed, &reached) {
            Ok(moded) => Ok(moded),
            Err(_) => panic!(rt; "no memory"),
        },
    }
}
