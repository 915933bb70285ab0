//! Large and deep sources.

use crate::flat::sources::flat;
use std::alloc::{AllocError, Global};
use std::test::Fail;

/// A text this many times between two others.
fn repeated(
    alloc: Global,
    first: &str,
    middle: &str,
    count: u32,
    last: &str,
) -> Result<String, AllocError> {
    let mut text = String::new(alloc);
    text.push_str(first)?;
    for _ in 0..count {
        text.push_str(middle)?;
    }
    text.push_str(last)?;
    Ok(text)
}

/// A megabyte of assignments: six lines for each, and three more.
#[test]
fn a_megabyte(rt: HostRuntime) -> Result<(), Fail> {
    let source = repeated(rt.alloc(), "int g;int main(void){", "g=1;", 262_000, "}")?;
    let flat = flat(&rt, source.as_str())?;
    assert_eq!(rt; flat.lines.len(), 6 * 262_000 + 3);
    Ok(())
}

/// About as many functions as there may be, each with a call of the first: six lines for each, and three for the first
/// and for `main`.
#[test]
fn all_functions(rt: HostRuntime) -> Result<(), Fail> {
    let alloc = rt.alloc();
    let mut source = String::from_str(alloc, "void f(void){}int main(void){}")?;
    for number in 0..16_000u32 {
        let one = format!(in alloc; "void f{number}(void){{f();}}")?;
        source.push_str(one.as_str())?;
    }
    let flat = flat(&rt, source.as_str())?;
    assert_eq!(rt; flat.functions.len(), 16_002);
    assert_eq!(rt; flat.lines.len(), 6 + 6 * 16_000);
    Ok(())
}

/// 62 loops around 62 calls, each the argument of the one around it.
#[test]
fn the_deepest(rt: HostRuntime) -> Result<(), Fail> {
    let alloc = rt.alloc();
    let loops = repeated(
        alloc,
        "int f(int a){return a;}int main(void){",
        "for(;;)",
        62,
        "",
    )?;
    let calls = repeated(alloc, loops.as_str(), "f(", 62, "1")?;
    let ends = repeated(alloc, calls.as_str(), ")", 62, ";}")?;
    let flat = flat(&rt, ends.as_str())?;
    assert_eq!(rt; flat.lines.len(), 9 + 3 + 62 * 5 + 1 + 62 * 3 + 2);
    Ok(())
}
