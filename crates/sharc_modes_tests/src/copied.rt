//! A copy of a program has the same modes and reasons.

use crate::sources::{explained, inferred};
use sharc_mode::moded::Moded;
use std::alloc::Global;
use std::test::Fail;

/// A chain through locals, parameters, a result and a global.
const SOURCE: &str = "int * g;
int * give(int * a) { int * b = a; return b; }
void w(int * p) { int * c = give(p); g = c; }
int main(void) { int * x = malloc(sizeof(int)); join(spawn(w, x)); return 0; }
";

/// Its modes and reasons, worked out by hand.
const EXPLAINED: &str = "input:1: global g: int dynamic * dynamic
  depth 0: touched in w
  depth 1: from input:1 global g depth 0
input:2: result give: int dynamic *
  depth 1: from input:2 local b depth 1
input:2: parameter a: int dynamic * private
  depth 1: from input:3 parameter p depth 1
input:2: local b: int dynamic * private
  depth 1: from input:2 parameter a depth 1
input:3: parameter p: int dynamic * private
  depth 1: passed to spawned w
input:3: local c: int dynamic * private
  depth 1: from input:1 global g depth 1
input:4: local x: int dynamic * private
  depth 1: from input:3 parameter p depth 1
";

/// A copy of a program, which ends here.
fn copy_of(alloc: Global, m: Moded) -> Result<Moded, Fail> {
    let copy = m.copy(alloc);
    drop(m);
    Ok(copy?)
}

#[test]
fn a_copy_has_the_same_modes_and_reasons(rt: HostRuntime) -> Result<(), Fail> {
    let copy = copy_of(rt.alloc(), inferred(&rt, SOURCE)?)?;
    let text = explained(rt.alloc(), copy)?;
    assert_eq!(rt; String::from_utf8(text)?.as_str(), EXPLAINED);
    Ok(())
}
