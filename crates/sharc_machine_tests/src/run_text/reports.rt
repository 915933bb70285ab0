//! Threads that report or are stopped.

use crate::run_text::bench::{MUTEX, VALUE, assert_text};
use sharc_code::{Instr, Operator, Register};
use std::test::Fail;

// `main` has written the value when the thread looks whether it may read it.
#[test]
fn a_read_after_a_write(rt: HostRuntime) -> Result<(), Fail> {
    let body = [
        Instr::ChkWrite(VALUE, 10),
        Instr::Store(0, VALUE, 10),
        Instr::Spawn(1, 1, Register::Int(0), 11),
        Instr::Join(1, 12),
        Instr::Return(13),
        // The thread, at place 7.
        Instr::ChkRead(VALUE, 14),
    ];
    let text = "thread 0: waits for thread 1 at input:12\n\
thread 1: A1 read of g at input:14 conflicts with write of g at input:10 by thread 0\n";
    assert_text(&rt, &body, &[7], text)
}

// Threads 1 and 2 do nothing else than this: 1 has read, so 2 may not write; and 3, which comes last, may not read for
// the write of 2.
#[test]
fn a_refused_check_is_named(rt: HostRuntime) -> Result<(), Fail> {
    let body = [
        Instr::Spawn(1, 1, Register::Int(0), 11),
        Instr::Spawn(1, 2, Register::Int(0), 11),
        Instr::Spawn(1, 1, Register::Int(0), 11),
        Instr::Return(13),
        // At place 6.
        Instr::ChkRead(VALUE, 14),
        Instr::Lock(MUTEX, 12),
        Instr::Lock(MUTEX, 12),
        // At place 9.
        Instr::ChkWrite(VALUE, 15),
    ];
    let text = "thread 1: waits for mutex g at input:12 held by thread 1\n\
thread 2: A2 write of g at input:15 conflicts with read of g at input:14 by thread 1\n\
thread 3: A1 read of g at input:14 conflicts with write of g at input:15 by thread 2\n";
    assert_text(&rt, &body, &[6, 9], text)
}

// The mutex is not held at a read, and in a thread at a write.
#[test]
fn a_lock_that_is_not_held(rt: HostRuntime) -> Result<(), Fail> {
    let body = [
        Instr::Spawn(1, 1, Register::Int(0), 11),
        Instr::ChkLock(MUTEX, 3),
        // At place 4.
        Instr::ChkLock(MUTEX, 4),
    ];
    let text = "thread 0: A3 read of p->n at input:3 without lock p->m\n\
thread 1: A3 write of p->n at input:4 without lock p->m\n";
    assert_text(&rt, &body, &[4], text)
}

// Two references; the thread is stopped by a sum that is out of range.
#[test]
fn an_object_with_two_references(rt: HostRuntime) -> Result<(), Fail> {
    let body = [
        Instr::Spawn(1, 1, Register::Int(0), 11),
        Instr::Constant(0, 1),
        Instr::New(0, 0, 1, 2),
        Instr::Raise(1, 0),
        Instr::TestSole(0, 5),
        // At place 7.
        Instr::Constant(0, 2147483647),
        Instr::ComputeInt(Operator::Add, 0, 0, 0, 16),
    ];
    let text = "thread 0: A4 free of p->n at input:5 with 2 references\n\
thread 1: X4 out of range at input:16\n";
    assert_text(&rt, &body, &[7], text)
}
