//! Long sources: a chain of equal positions through many functions, and a global that many functions name.

use crate::sources::inferred;
use sharc_mode::moded::Moded;
use sharc_mode::position::Reason;
use std::alloc::{AllocError, Global};
use std::process::Abort;
use std::test::Fail;

/// The number of a function in three letters.
fn add_number(text: &mut String, number: u32) -> Result<(), AllocError> {
    for part in [number / 676, number / 26, number] {
        text.push((b'a' + (part % 26) as u8) as char)?;
    }
    Ok(())
}

/// This many functions of which each initialises nine locals, one by the other, and passes the last of them to the
/// function before; the last function is spawned.
fn long_chain(alloc: Global, functions: u32) -> Result<String, AllocError> {
    let mut text = String::new(alloc);
    text.push_str("void kaaa(int*a){}")?;
    for number in 1..functions {
        text.push_str("\nvoid k")?;
        add_number(&mut text, number)?;
        text.push_str(
            "(int*a){int*b=a;int*c=b;int*d=c;int*e=d;int*g=e;int*h=g;int*i=h;int*j=i;int*k=j;k",
        )?;
        add_number(&mut text, number - 1)?;
        text.push_str("(k);}")?;
    }
    text.push_str("\nint main(void){int*x=NULL;join(spawn(k")?;
    add_number(&mut text, functions.saturating_sub(1))?;
    text.push_str(",x));return 0;}")?;
    Ok(text)
}

/// How many positions have been inferred to be dynamic.
fn dynamic_count(m: &Moded) -> u32 {
    let mut count = 0_u32;
    for position in 0..m.typed().position_count() {
        if m.reason(position).is_some() {
            count = count.saturating_add(1);
        }
    }
    count
}

/// How many positions have been inferred to be dynamic, and why the first of all is.
fn told(rt: &(impl Abort + AllocGlobal), source: &str) -> Result<(u32, Option<Reason>), Fail> {
    let moded = inferred(rt, source)?;
    let found = (dynamic_count(&moded), first_reason(&moded));
    drop(moded);
    Ok(found)
}

fn first_reason(m: &Moded) -> Option<Reason> {
    if m.typed().position_count() > 0 {
        m.reason(0)
    } else {
        None
    }
}

#[test]
fn a_long_chain_of_functions(rt: HostRuntime) -> Result<(), Fail> {
    let source = long_chain(rt.alloc(), 10_000)?;
    let (count, _) = told(&rt, source.as_str())?;
    assert_eq!(rt; count, 99_992);
    Ok(())
}

/// This many functions that name one global and call the one before, the last of them spawned.
fn many_names(alloc: Global, functions: u32) -> Result<String, AllocError> {
    let mut text = String::new(alloc);
    text.push_str("int g;void kaaa(int*a){g=1;}")?;
    for number in 1..functions {
        text.push_str("\nvoid k")?;
        add_number(&mut text, number)?;
        text.push_str("(int*a){k")?;
        add_number(&mut text, number - 1)?;
        text.push_str("(a);g=1;}")?;
    }
    text.push_str("\nint main(void){int*x=NULL;join(spawn(k")?;
    add_number(&mut text, functions.saturating_sub(1))?;
    text.push_str(",x));return 0;}")?;
    Ok(text)
}

#[test]
fn one_global_that_16_000_functions_name(rt: HostRuntime) -> Result<(), Fail> {
    let source = many_names(rt.alloc(), 16_000)?;
    let (count, first) = told(&rt, source.as_str())?;
    assert_eq!(rt; count, 16_002);
    assert!(rt; first == Some(Reason::Touched(0)));
    Ok(())
}
