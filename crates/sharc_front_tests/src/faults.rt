//! What faults of the parser and of C typing have that no text shows.

use crate::typing::answer;
use sharc_ctype::typed::TypeFault;
use sharc_lex::lex;
use sharc_parse::{ParseFault, parse};
use std::test::Fail;

#[test]
fn a_fault_of_the_parser_comes_with_all_tokens(rt: HostRuntime) -> Result<(), Fail> {
    let tokens = lex(rt.alloc(), b"int 3 x")?;
    match parse(rt.alloc(), tokens) {
        Err(ParseFault::At(fault, tokens)) => {
            assert_eq!(rt; fault.offset, 0);
            assert_eq!(rt; tokens.list.len(), 3);
            assert_eq!(rt; tokens.end.token, 3);
        }
        _ => panic!(rt; "no fault"),
    }
    Ok(())
}

#[test]
fn a_fault_of_typing_has_no_offset(rt: HostRuntime) -> Result<(), Fail> {
    match answer(&rt, b"int x; int y = NULL;")? {
        Err(TypeFault::At(fault)) => assert_eq!(rt; fault.offset, 0),
        _ => panic!(rt; "no fault"),
    }
    Ok(())
}
