//! Runs by 1, 2, 4 and 16 workers, each in rounds, and recorded and run again by its schedule.

ghost use Rattle.std.specs.Prelude.{◌<◌, ◌≤◌};

use crate::code::function;
use crate::workers::bench::{A, B, LIMIT, Open, VALUE, Worked, in_rounds, recorded};
use sharc_code::{Function, Instr, Operator, Parameter, Register};
use sharc_rounds::End;
use sharc_tree::trap::Trap;
use std::alloc::{AllocError, Global};
use std::process::Abort;
use std::sync::Wait;
use std::test::Fail;
use std::thread::Threads;

const WORKERS: [u32; 4] = [1, 2, 4, 16];

// Each thread adds 1 to the value under the mutex, five hundred times; then `main` joins all eight and prints.
const COUNTS: [Instr; 40] = [
    Instr::Spawn(1, 1, Register::Int(0), 3),
    Instr::Spawn(1, 1, Register::Int(0), 3),
    Instr::Spawn(1, 1, Register::Int(0), 3),
    Instr::Spawn(1, 1, Register::Int(0), 3),
    Instr::Spawn(1, 1, Register::Int(0), 3),
    Instr::Spawn(1, 1, Register::Int(0), 3),
    Instr::Spawn(1, 1, Register::Int(0), 3),
    Instr::Spawn(1, 1, Register::Int(0), 3),
    Instr::Constant(0, 1),
    Instr::Join(0, 4),
    Instr::Constant(0, 2),
    Instr::Join(0, 4),
    Instr::Constant(0, 3),
    Instr::Join(0, 4),
    Instr::Constant(0, 4),
    Instr::Join(0, 4),
    Instr::Constant(0, 5),
    Instr::Join(0, 4),
    Instr::Constant(0, 6),
    Instr::Join(0, 4),
    Instr::Constant(0, 7),
    Instr::Join(0, 4),
    Instr::Constant(0, 8),
    Instr::Join(0, 4),
    Instr::Load(2, VALUE, 5),
    Instr::Print(2, 5),
    Instr::Return(6),
    // The thread, at place 29.
    Instr::Constant(3, 1),
    Instr::Constant(4, 500),
    // Its loop, at place 31.
    Instr::Lock(A, 3),
    Instr::Load(2, VALUE, 3),
    Instr::ComputeInt(Operator::Add, 2, 2, 3, 3),
    Instr::Store(2, VALUE, 3),
    Instr::Unlock(0, A, 3),
    Instr::ComputeInt(Operator::Subtract, 4, 4, 3, 3),
    Instr::JumpIfZero(4, 39),
    Instr::Jump(31),
    // At place 39.
    Instr::Return(6),
    Instr::Exit,
    Instr::Exit,
];

// A run in rounds and a recorded one, and whether the recorded one replays.
#[derive(Clone, Copy)]
struct Both {
    worked: [Worked; 2],
    replays: bool,
}

fn by<R: Threads + Wait + Sync>(
    rt: &R,
    alloc: Global,
    body: &[Instr],
    others: &[Function],
    workers: u32,
    limit: u64,
) -> Result<Both, AllocError>
    requires workers { 0 < workers }
    requires limit { limit ≤ 100000000 }
{
    let run = in_rounds(rt, alloc, body, others, workers, limit, &Open)?;
    let (again, replays) = recorded(rt, alloc, body, others, workers, limit, &Open)?;
    Ok(Both {
        worked: [run, again],
        replays,
    })
}

// Asserts what is seen of the runs of this code by each number of workers.
fn assert_worked<R: Threads + Wait + Abort + Sync>(
    rt: &R,
    alloc: Global,
    body: &[Instr],
    others: &[Function],
    limit: u64,
    wanted: Worked,
) -> Result<(), Fail>
    requires { limit ≤ 100000000 }
{
    for workers in WORKERS {
        let both = by(rt, alloc, body, others, workers, limit)?;
        assert!(rt; both.replays, "{workers}");
        for ran in both.worked {
            assert_eq!(rt; ran, wanted, "{workers}");
        }
    }
    Ok(())
}

// What is seen of one thread that prints nothing and leaves the value as it was.
fn quiet(end: End) -> Worked {
    Worked {
        end,
        printed: [None, None, None],
        threads: 1,
        trap: None,
        value: 0,
    }
}

#[test]
fn locked_increments(rt: HostRuntime) -> Result<(), Fail> {
    let others = [function(29, Parameter::None)];
    let wanted = Worked {
        printed: [Some(4000), None, None],
        threads: 9,
        value: 4000,
        ..quiet(End::AllDone)
    };
    assert_worked(&rt, rt.alloc(), &COUNTS, &others, LIMIT, wanted)
}

// There is a round in which both quanta end Blocked: `main` waits for the mutex, and the thread then gives it back and
// waits for `main`.
#[test]
fn blocked_quanta_are_no_deadlock(rt: HostRuntime) -> Result<(), Fail> {
    let body = [
        Instr::Spawn(1, 1, Register::Int(0), 3),
        // At place 3.
        Instr::Load(2, VALUE, 3),
        Instr::JumpIfZero(2, 3),
        Instr::Constant(3, 2),
        Instr::Store(3, VALUE, 3),
        Instr::Lock(A, 3),
        Instr::Unlock(0, A, 3),
        Instr::Return(6),
        // The thread, at place 10.
        Instr::Lock(A, 3),
        Instr::Constant(3, 1),
        Instr::Store(3, VALUE, 3),
        // At place 13.
        Instr::Load(2, VALUE, 3),
        Instr::ComputeInt(Operator::Subtract, 4, 2, 3, 3),
        Instr::JumpIfZero(4, 13),
        Instr::Unlock(0, A, 3),
        Instr::Constant(0, 0),
        Instr::Join(0, 4),
        Instr::Return(6),
    ];
    let others = [function(10, Parameter::None)];
    let wanted = Worked {
        threads: 2,
        value: 2,
        ..quiet(End::AllDone)
    };
    assert_worked(&rt, rt.alloc(), &body, &others, LIMIT, wanted)
}

// `main` holds the mutex for which the thread asks, and joins it.
#[test]
fn deadlock(rt: HostRuntime) -> Result<(), Fail> {
    let body = [
        Instr::Lock(A, 3),
        Instr::Spawn(1, 1, Register::Int(0), 3),
        Instr::Join(1, 4),
        Instr::Return(6),
        // The thread, at place 6.
        Instr::Lock(A, 8),
        Instr::Return(8),
    ];
    let others = [function(6, Parameter::None)];
    let wanted = Worked {
        threads: 2,
        ..quiet(End::Stuck)
    };
    assert_worked(&rt, rt.alloc(), &body, &others, LIMIT, wanted)
}

// A thread that waits at its limit is stuck, one that goes on is not; a thread that is stopped is done.
#[test]
fn ends(rt: HostRuntime) -> Result<(), Fail> {
    let waits = [Instr::Constant(0, 0), Instr::Join(0, 4)];
    assert_worked(&rt, rt.alloc(), &waits, &[], 3, quiet(End::Stuck))?;
    assert_worked(&rt, rt.alloc(), &waits, &[], 2, quiet(End::Budget))?;
    assert_worked(
        &rt,
        rt.alloc(),
        &[Instr::Return(4)],
        &[],
        0,
        quiet(End::Budget),
    )?;
    assert_worked(
        &rt,
        rt.alloc(),
        &[Instr::Jump(2)],
        &[],
        6_000,
        quiet(End::Budget),
    )?;
    let wanted = Worked {
        trap: Some((Trap::NullPointer, 4)),
        ..quiet(End::AllDone)
    };
    assert_worked(&rt, rt.alloc(), &[Instr::ChkNull(0, 4)], &[], LIMIT, wanted)
}

// So does a thread that goes on for many quanta.
#[test]
fn goes_on_to_its_limit(rt: HostRuntime) -> Result<(), Fail> {
    let body = [Instr::Jump(2)];
    for workers in WORKERS {
        let ran = in_rounds(&rt, rt.alloc(), &body, &[], workers, 120_000, &Open)?;
        assert_eq!(rt; ran, quiet(End::Budget), "{workers}");
    }
    Ok(())
}

// Thirty threads may be started, and a further one stops `main`. They end, and print nothing.
#[test]
fn all_threads(rt: HostRuntime) -> Result<(), Fail> {
    let body = [
        Instr::Spawn(1, 1, Register::Int(0), 9),
        Instr::Jump(2),
        // The thread, at place 4.
        Instr::Return(8),
    ];
    let others = [function(4, Parameter::None)];
    let wanted = Worked {
        threads: 31,
        trap: Some((Trap::ThreadLimit, 9)),
        ..quiet(End::AllDone)
    };
    assert_worked(&rt, rt.alloc(), &body, &others, LIMIT, wanted)
}

// The thread waits until `main`, which waits for its sign in a loop, wakes it; then it prints.
#[test]
fn waits_and_signals(rt: HostRuntime) -> Result<(), Fail> {
    let body = [
        Instr::Spawn(1, 1, Register::Int(0), 3),
        // At place 3.
        Instr::Load(2, VALUE, 3),
        Instr::JumpIfZero(2, 3),
        Instr::CondSignal(B, 4),
        Instr::Join(1, 4),
        Instr::Constant(0, 2),
        Instr::Print(0, 5),
        Instr::Return(6),
        // The thread, at place 10.
        Instr::CondEnter(B, 7),
        Instr::Constant(0, 1),
        Instr::Store(0, VALUE, 7),
        Instr::CondWait(B, 7),
        Instr::Print(0, 8),
        Instr::Return(9),
    ];
    let others = [function(10, Parameter::None)];
    let wanted = Worked {
        printed: [Some(1), Some(2), None],
        threads: 2,
        value: 1,
        ..quiet(End::AllDone)
    };
    assert_worked(&rt, rt.alloc(), &body, &others, LIMIT, wanted)
}
