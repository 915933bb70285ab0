//! Two threads, a turn of each in turn.

use crate::code::function;
use crate::seq::bench::{LIMIT, Seen, run};
use sharc_code::{Cell, Instr, Parameter, Register};
use sharc_cpu::{Pause, Stop, Wait};
use sharc_heap::Kind;
use sharc_tree::trap::Trap;
use std::alloc::{AllocError, Global};
use std::process::Abort;
use std::test::Fail;

// The first cell of the globals is a mutex, the second a condition, the fifth a value.
const MUTEX: Cell = Cell::Global(0, 2);

const COND: Cell = Cell::Global(0, 3);

const VALUE: Cell = Cell::Global(0, 6);

// The thread is handed 6, prints it and is joined; then `main` prints the thread's number.
#[test]
fn spawns_and_joins(rt: HostRuntime) -> Result<(), Fail> {
    let body = [
        Instr::Constant(0, 6),
        Instr::Spawn(1, 1, Register::Int(0), 3),
        Instr::Join(1, 4),
        Instr::Print(1, 5),
        Instr::Return(6),
        // The thread, at place 7.
        Instr::Print(0, 7),
        Instr::Return(8),
    ];
    let ran = run(rt.alloc(), &body, &[function(7, Parameter::Int)], 60, LIMIT)?;
    assert_eq!(rt; ran.printed, [Some(6), Some(1), None]);
    assert_eq!(rt; ran.answers, (Pause::Ended, Pause::Ended));
    Ok(())
}

// A number that no thread has, and one that was not drawn.
#[test]
fn joins_nobody(rt: HostRuntime) -> Result<(), Fail> {
    for number in [-1, 31, 5] {
        let body = [Instr::Constant(0, number), Instr::Join(0, 4)];
        let ran = run(rt.alloc(), &body, &[], 20, LIMIT)?;
        assert_eq!(rt; ran.trap(), Some((Trap::NoSuchThread, 4)), "{number}");
    }
    Ok(())
}

// A thread that waits for itself: its failed tries are no events.
#[test]
fn waits_for_ever(rt: HostRuntime) -> Result<(), Fail> {
    let body = [Instr::Constant(0, 0), Instr::Join(0, 4)];
    let ran = run(rt.alloc(), &body, &[], 20, LIMIT)?;
    assert_eq!(rt; ran.answers.0, Pause::Blocked);
    assert_eq!(rt; ran.made, 3);
    assert!(rt; matches!(ran.wait, Some(Wait::Join(0, 4))));
    Ok(())
}

// Both add 1 to the value while they hold the mutex; then `main` prints it.
#[test]
fn one_mutex(rt: HostRuntime) -> Result<(), Fail> {
    let one_more = [
        Instr::Lock(MUTEX, 3),
        Instr::ChkLock(MUTEX, 3),
        Instr::Load(2, VALUE, 3),
        Instr::Constant(3, 1),
        Instr::ComputeInt(sharc_code::Operator::Add, 2, 2, 3, 3),
        Instr::Store(2, VALUE, 3),
        Instr::Unlock(0, MUTEX, 3),
    ];
    let mut body = Vec::new(rt.alloc());
    body.push(Instr::Spawn(1, 1, Register::Int(0), 3))?;
    body.extend_from_slice(&one_more)?;
    body.push(Instr::Join(1, 4))?;
    body.push(Instr::Load(2, VALUE, 3))?;
    body.push(Instr::Print(2, 5))?;
    body.push(Instr::Return(6))?;
    body.extend_from_slice(&one_more)?;
    body.push(Instr::Return(6))?;
    // The thread begins after the twelve of `main`, at place 14.
    let ran = run(
        rt.alloc(),
        &body,
        &[function(14, Parameter::None)],
        100,
        LIMIT,
    )?;
    assert_eq!(rt; ran.printed, [Some(2), None, None]);
    assert_eq!(rt; ran.answers, (Pause::Ended, Pause::Ended));
    Ok(())
}

// `main` waits until the thread has signalled.
#[test]
fn waits_and_signals(rt: HostRuntime) -> Result<(), Fail> {
    let body = [
        Instr::Lock(MUTEX, 3),
        Instr::Spawn(1, 1, Register::Int(0), 3),
        Instr::CondEnter(COND, 4),
        Instr::Unlock(0, MUTEX, 4),
        Instr::CondWait(COND, 4),
        Instr::Lock(MUTEX, 4),
        Instr::Constant(0, 2),
        Instr::Print(0, 5),
        Instr::Unlock(0, MUTEX, 4),
        Instr::Return(6),
        // The thread, at place 12.
        Instr::Lock(MUTEX, 7),
        Instr::Constant(0, 1),
        Instr::Print(0, 5),
        Instr::CondSignal(COND, 7),
        Instr::Unlock(0, MUTEX, 7),
        Instr::Return(8),
    ];
    let ran = run(
        rt.alloc(),
        &body,
        &[function(12, Parameter::None)],
        100,
        LIMIT,
    )?;
    assert_eq!(rt; ran.printed, [Some(1), Some(2), None]);
    assert_eq!(rt; ran.answers, (Pause::Ended, Pause::Ended));
    Ok(())
}

// `main` makes four turns and returns; the thread, at place 7, reads the value.
fn with_reader(alloc: Global, main: &[Instr; 4]) -> Result<Seen, AllocError> {
    let body = [
        main[0],
        main[1],
        main[2],
        main[3],
        Instr::Return(6),
        Instr::ChkRead(VALUE, 9),
        Instr::Load(0, VALUE, 9),
        Instr::Return(8),
    ];
    run(alloc, &body, &[function(7, Parameter::None)], 60, LIMIT)
}

// `main` has written the value when the thread's check finds it.
#[test]
fn conflicts(rt: HostRuntime) -> Result<(), Fail> {
    let main = [
        Instr::ChkWrite(VALUE, 3),
        Instr::Store(0, VALUE, 3),
        Instr::Spawn(1, 1, Register::Int(0), 4),
        Instr::Join(1, 5),
    ];
    let ran = with_reader(rt.alloc(), &main)?;
    assert_eq!(rt; ran.answers, (Pause::Blocked, Pause::Stopped));
    let stop = match ran.stops.1 {
        Some(Stop::Conflict(at)) => Some((at.kind, at.site, at.granule, at.epoch, at.old)),
        _ => None,
    };
    assert_eq!(rt; stop, Some((Kind::Read, 9, 3, 0, 3)));
    Ok(())
}

// The thread has read the value and is gone, so `main` may write it.
#[test]
fn withdraws(rt: HostRuntime) -> Result<(), Fail> {
    let main = [
        Instr::Spawn(1, 1, Register::Int(0), 4),
        Instr::Join(1, 5),
        Instr::ChkWrite(VALUE, 3),
        Instr::Store(0, VALUE, 3),
    ];
    let ran = with_reader(rt.alloc(), &main)?;
    assert_eq!(rt; ran.answers, (Pause::Ended, Pause::Ended));
    Ok(())
}
