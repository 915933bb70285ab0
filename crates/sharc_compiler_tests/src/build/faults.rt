//! What is built of a source with a fault.

use sharc_build::{BuildFault, build};
use sharc_report::SourceFault;
use std::process::Abort;
use std::test::Fail;

/// Cases, each what is found at fault, and a source.
const SOURCES: &str = "\
nothing int main(void) { return 0; }
lexer int f(void) { nope(); } ) @
parser int f(void) { nope(); } )
typing int main(void) { print(y); return 0; }
modes int main(void) { int private * p = NULL; int dynamic * d = p; return 0; }
";

/// What is at fault in a source.
fn fault_of(rt: &(impl Abort + AllocGlobal), source: &str) -> &'static str {
    assert!(rt; source.len() <= 1_048_576);
    match build(rt.alloc(), source.as_bytes()) {
        Ok(_) => "nothing",
        Err(BuildFault::Source(SourceFault::Lexer(_))) => "lexer",
        Err(BuildFault::Source(SourceFault::Parser(_))) => "parser",
        Err(BuildFault::Source(SourceFault::Typing(_))) => "typing",
        Err(BuildFault::Modes(..)) => "modes",
        Err(BuildFault::Memory) => "memory",
    }
}

/// The first stage that has a fault reports it.
#[test]
fn the_first_stage_with_a_fault(rt: HostRuntime) -> Result<(), Fail> {
    for case in SOURCES.lines() {
        match case.split_once(" ") {
            None => panic!(rt; "no case: {case}"),
            Some((wanted, source)) => assert_eq!(rt; fault_of(&rt, source), wanted, "{source}"),
        }
    }
    Ok(())
}
