//! Frames, mutexes and events up to their limits and past them.

use crate::seq::bench::{LIMIT, run};
use sharc_code::{Cell, Instr, Operator};
use sharc_cpu::Pause;
use sharc_tree::trap::Trap;
use std::process::Abort;
use std::test::Fail;

// This many calls are nested, besides that of `main`.
#[test]
fn frames(rt: HostRuntime) -> Result<(), Fail> {
    for (calls, trap) in [(255, None), (256, Some((Trap::CallDepth, 5)))] {
        let body = [
            Instr::Constant(1, calls),
            Instr::Call(5, 1, 1, 5),
            Instr::Return(0),
            // The function, at place 5: it calls itself with one less.
            Instr::Constant(2, 1),
            Instr::ComputeInt(Operator::Subtract, 1, 0, 2, 0),
            Instr::JumpIfZero(1, 9),
            Instr::Call(5, 1, 1, 5),
            Instr::Return(0),
        ];
        let ran = run(rt.alloc(), &body, &[], 2000, LIMIT)?;
        assert_eq!(rt; ran.trap(), trap, "{calls} calls");
    }
    Ok(())
}

// This many mutexes are taken, and given back.
#[test]
fn mutexes(rt: HostRuntime) -> Result<(), Fail> {
    for (mutexes, trap) in [(16u32, None), (17, Some((Trap::TooManyLocks, 7)))] {
        let mut body = Vec::new(rt.alloc());
        for mutex in 0..mutexes {
            body.push(Instr::ChkNotHeld(Cell::Global(0, 2 + mutex), 6))?;
            body.push(Instr::ChkRoom(7))?;
            body.push(Instr::Lock(Cell::Global(0, 2 + mutex), 8))?;
            body.push(Instr::ChkHeld(Cell::Global(0, 2 + mutex), 9))?;
        }
        for mutex in 0..mutexes {
            body.push(Instr::Unlock(0, Cell::Global(0, 2 + mutex), 8))?;
        }
        body.push(Instr::Return(11))?;
        let ran = run(rt.alloc(), &body, &[], 200, LIMIT)?;
        assert_eq!(rt; ran.trap(), trap, "{mutexes} mutexes");
    }
    Ok(())
}

// A return of the thread with a mutex held, one that is given back unheld, and one that is taken twice.
#[test]
fn held(rt: HostRuntime) -> Result<(), Fail> {
    let lock = Instr::Lock(Cell::Global(0, 2), 8);
    let unheld = [Instr::ChkHeld(Cell::Global(0, 2), 5), Instr::Return(11)];
    let twice = [
        lock,
        Instr::ChkNotHeld(Cell::Global(0, 2), 6),
        Instr::Return(11),
    ];
    let kept = [lock, Instr::Return(11)];
    let ran = run(rt.alloc(), &unheld, &[], 100, LIMIT)?;
    assert_eq!(rt; ran.trap(), Some((Trap::MutexNotHeld, 5)));
    let ran = run(rt.alloc(), &twice, &[], 100, LIMIT)?;
    assert_eq!(rt; ran.trap(), Some((Trap::MutexAlreadyHeld, 6)));
    let ran = run(rt.alloc(), &kept, &[], 100, LIMIT)?;
    assert_eq!(rt; ran.trap(), Some((Trap::ReturnWithLockHeld, 11)));
    Ok(())
}

// A thread that would jump for ever is spent at its limit.
#[test]
fn events(rt: HostRuntime) -> Result<(), Fail> {
    let body = [Instr::Jump(2)];
    let ran = run(rt.alloc(), &body, &[], 100, 50)?;
    assert_eq!(rt; ran.answers.0, Pause::Spent);
    assert_eq!(rt; ran.made, 50);
    Ok(())
}
