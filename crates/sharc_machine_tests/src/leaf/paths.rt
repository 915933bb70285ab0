//! Reads in loops, after tests and after a return, of one variable and of many, with ample memory.

use sharc_dataflow::step::Step;
use sharc_dataflow::way::FlowWarning;
use sharc_dataflow::{firsts, nulled_reads};
use std::alloc::AllocError;
use std::test::Fail;

// while (a) { read 0; if (b) continue; null 0 at 7; write 0; null 0 at 9; } return; null 1 at 12; read 1;
#[test]
fn tells_reads_in_the_next_turn_and_behind_a_return(rt: HostRuntime) -> Result<(), Fail> {
    let alloc = rt.alloc();
    let steps = vec![in alloc;
        Step::Head,
        Step::Fork,
        Step::Break,
        Step::Other,
        Step::Catch,
        Step::Read(0, 3),
        Step::Fork,
        Step::Continue,
        Step::Other,
        Step::Join,
        Step::Null(0, 7),
        Step::Write(0),
        Step::Null(0, 9),
        Step::Caught,
        Step::Join,
        Step::Again,
        Step::Return,
        Step::Null(1, 12),
        Step::Read(1, 14),
    ]?;
    let found = nulled_reads(alloc, steps.as_slice(), Vec::new(alloc))?;
    let told = firsts(alloc, found)?;
    let first = FlowWarning { read: 3, since: 9 };
    let second = FlowWarning {
        read: 14,
        since: 12,
    };
    assert_eq!(rt; told.as_slice(), [first, second].as_slice());
    Ok(())
}

fn tested(way: Step, steps: &mut Vec<Step>) -> Result<(), AllocError> {
    steps.push(Step::Fork)?;
    steps.push(way)?;
    steps.push(Step::Other)?;
    steps.push(Step::Join)?;
    Ok(())
}

// while (a) { read x; if (b) continue; if (c) break; null x; do { if (d) return; } while (e); }
fn turns(x: u32, read: u32, null: u32, steps: &mut Vec<Step>) -> Result<(), AllocError> {
    steps.push(Step::Head)?;
    tested(Step::Break, steps)?;
    steps.push(Step::Catch)?;
    steps.push(Step::Read(x, read))?;
    tested(Step::Continue, steps)?;
    tested(Step::Break, steps)?;
    steps.push(Step::Null(x, null))?;
    steps.push(Step::Head)?;
    tested(Step::Return, steps)?;
    tested(Step::Break, steps)?;
    steps.push(Step::Again)?;
    steps.push(Step::Caught)?;
    steps.push(Step::Again)?;
    Ok(())
}

// Each of the variables is nulled in a loop of its own, and all are read once more at the end.
#[test]
fn tells_reads_of_many_variables(rt: HostRuntime) -> Result<(), Fail> {
    let alloc = rt.alloc();
    let mut steps = Vec::new(alloc);
    for x in 0..1000u32 {
        turns(x, 2 * x, 2 * x + 1, &mut steps)?;
    }
    for x in 0..1000u32 {
        steps.push(Step::Read(x, 2000 + x))?;
    }
    let found = nulled_reads(alloc, steps.as_slice(), Vec::new(alloc))?;
    let told = firsts(alloc, found)?;
    let mut expected = Vec::new(alloc);
    for x in 0..1000u32 {
        let since = 2 * x + 1;
        expected.push(FlowWarning { read: 2 * x, since })?;
    }
    for x in 0..1000u32 {
        let since = 2 * x + 1;
        let read = 2000 + x;
        expected.push(FlowWarning { read, since })?;
    }
    assert_eq!(rt; told.as_slice(), expected.as_slice());
    Ok(())
}
