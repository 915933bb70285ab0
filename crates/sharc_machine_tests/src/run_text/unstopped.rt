//! Threads that print, wait, or have made all the events that they may.

use crate::run_text::bench::{COND, MUTEX, assert_text};
use sharc_code::{Instr, Register};
use std::test::Fail;

// The thread prints before and after its `join` of `main` is refused a turn, `main` between; then both are gone but for
// the wait.
#[test]
fn prints_have_one_order(rt: HostRuntime) -> Result<(), Fail> {
    let body = [
        Instr::Constant(0, -5),
        Instr::Print(0, 10),
        Instr::Spawn(1, 1, Register::Int(0), 11),
        Instr::Join(1, 11),
        Instr::Print(1, 12),
        Instr::Return(13),
        // At place 8.
        Instr::Constant(0, 40),
        Instr::Print(0, 14),
        Instr::Return(15),
    ];
    assert_text(&rt, &body, &[8], "-5\n40\n1\n")
}

#[test]
fn threads_wait(rt: HostRuntime) -> Result<(), Fail> {
    let body = [
        Instr::Lock(MUTEX, 10),
        Instr::Spawn(1, 1, Register::Int(0), 11),
        Instr::Spawn(1, 2, Register::Int(0), 11),
        Instr::Join(1, 12),
        // At place 6.
        Instr::Lock(MUTEX, 13),
        // At place 7.
        Instr::CondEnter(COND, 6),
        Instr::CondWait(COND, 6),
    ];
    let text = "thread 0: waits for thread 2 at input:12\n\
thread 1: waits for mutex g at input:13 held by thread 0\n\
thread 2: waits for signal of c at input:6\n";
    assert_text(&rt, &body, &[6, 7], text)
}

// Start and a jump, 99 times.
#[test]
fn a_loop_makes_all_its_events(rt: HostRuntime) -> Result<(), Fail> {
    assert_text(&rt, &[Instr::Jump(2)], &[], "thread 0: made 100 events\n")
}
