//! Runs by a chooser.

ghost use Rattle.std.specs.Prelude.{◌≡◌, ◌≤◌, ◌<◌};
ghost use Rattle.sharc_code.specs.Layout.{Fits};

use crate::code::{Printed, add_prints, code, function, shape, trap_of};
use crate::seq::bench::LIMIT;
use sharc_code::{Cell, Code, Function, Instr, Operator, Parameter, Register, Shape, Stop};
use sharc_seq::{Chooser, End, SeqRun, run_seq, seeded};
use sharc_tree::trap::Trap;
use std::alloc::{AllocError, Global};
use std::process::Abort;
use std::test::Fail;

// Who makes the next turn: of those who may, the first, the last, or the one that a number draws.
#[derive(Clone, Copy)]
enum Choice {
    First,
    Last,
    Drawn(u64),
}

// What is looked at of a run: how it ended, what was printed, how many threads there were, the first X, and whether the
// schedule is the one that was expected, a digit for each turn.
#[derive(Clone, Copy)]
struct Chosen {
    end: End,
    printed: Printed,
    threads: usize,
    trap: Option<(Trap, u32)>,
    turns: usize,
    as_expected: bool,
}

fn by_first(alloc: Global, code: &Code, shape: &Shape, limit: u64) -> Result<SeqRun, AllocError>
    requires fits { Fits code.now shape.now }
    requires limit { limit ≤ 100000000 }
{
    let chooser = Chooser::new(
        |_turn: u64, count: u64| -> u64
            requires { 1 ≤ count }
            ensures { result < count }
        { count - count },
    );
    run_seq(alloc, code, shape, &chooser, limit)
}

fn by_last(alloc: Global, code: &Code, shape: &Shape, limit: u64) -> Result<SeqRun, AllocError>
    requires fits { Fits code.now shape.now }
    requires limit { limit ≤ 100000000 }
{
    let chooser = Chooser::new(
        |_turn: u64, count: u64| -> u64
            requires { 1 ≤ count }
            ensures { result < count }
        { count - 1 },
    );
    run_seq(alloc, code, shape, &chooser, limit)
}

fn by_number(
    alloc: Global,
    code: &Code,
    shape: &Shape,
    number: u64,
    limit: u64,
) -> Result<SeqRun, AllocError>
    requires fits { Fits code.now shape.now }
    requires limit { limit ≤ 100000000 }
{
    let chooser = Chooser::new(
        move |turn: u64, count: u64| -> u64
            requires { 1 ≤ count }
            ensures { result < count }
        { seeded(number, turn, count) },
    );
    run_seq(alloc, code, shape, &chooser, limit)
}

// Whether each turn was made by the thread of the digit at its place.
fn is_schedule(schedule: &[u8], digits: &[u8]) -> bool {
    schedule.len() == digits.len()
        && schedule.iter().zip(digits).all(|(thread, digit)| *digit >= b'0'
            && *thread == *digit - b'0')
}

fn run(
    alloc: Global,
    body: &[Instr],
    others: &[Function],
    choice: Choice,
    limit: u64,
    digits: &[u8],
) -> Result<Chosen, AllocError>
    requires { limit ≤ 100000000 }
{
    let code = code(alloc, body, others)?;
    let shape = shape();
    let run = match choice {
        Choice::First => by_first(alloc, &code, &shape, limit),
        Choice::Last => by_last(alloc, &code, &shape, limit),
        Choice::Drawn(number) => by_number(alloc, &code, &shape, number, limit),
    }?;
    Ok(seen(&run, digits))
}

fn seen(run: &SeqRun, digits: &[u8]) -> Chosen {
    let mut printed = [None, None, None];
    let mut trap = None;
    for thread in &run.threads {
        let more = add_prints(printed, thread);
        printed = more;
        trap = trap.or(trap_of(thread.stop()));
    }
    Chosen {
        end: run.end,
        printed,
        threads: run.threads.len(),
        trap,
        turns: run.schedule.len(),
        as_expected: is_schedule(&run.schedule, digits),
    }
}

const A: Cell = Cell::Global(0, 2);

const B: Cell = Cell::Global(0, 3);

const VALUE: Cell = Cell::Global(0, 6);

// The numbers that seeds draw, computed apart from the definition.
#[test]
fn draws(rt: HostRuntime) {
    for (number, turn, count, place) in [
        (0, 0, 1000, 127),
        (1, 0, 1000, 480),
        (u64::MAX, 5, 7, 2),
        (123456789, 99999, 31, 6),
        (u64::MAX, u64::MAX, 1000000000, 156580249),
    ] {
        assert_eq!(rt; seeded(number, turn, count), place, "{number}, {turn}");
    }
}

// `main` starts a thread by its sixth turn, and then both jump for ever, up to twenty events of each. The schedules
// were computed apart.
#[test]
fn seeded_schedules(rt: HostRuntime) -> Result<(), Fail> {
    let body = [
        Instr::Spawn(1, 1, Register::Int(0), 3),
        Instr::Jump(3),
        // The thread, at place 4.
        Instr::Jump(4),
    ];
    for (number, digits) in [
        (0, b"0000000001010111101011010000100111111111"),
        (1, b"0000001001110101101011000000001111111111"),
        (u64::MAX, b"0000000100000110101111010001100111111111"),
    ] {
        let ran = run(
            rt.alloc(),
            &body,
            &[function(4, Parameter::None)],
            Choice::Drawn(number),
            20,
            digits,
        )?;
        assert!(rt; ran.as_expected, "{number}");
        assert_eq!(rt; ran.end, End::Budget);
        assert_eq!(rt; ran.threads, 2);
    }
    Ok(())
}

// Each holds the mutex for which the other asks: the thread goes first until it waits.
#[test]
fn deadlock(rt: HostRuntime) -> Result<(), Fail> {
    let body = [
        Instr::Lock(A, 3),
        Instr::Spawn(1, 1, Register::Int(0), 3),
        Instr::Lock(B, 4),
        Instr::Return(6),
        // The thread, at place 6.
        Instr::Lock(B, 7),
        Instr::Lock(A, 8),
        Instr::Return(8),
    ];
    let ran = run(
        rt.alloc(),
        &body,
        &[function(6, Parameter::None)],
        Choice::Last,
        LIMIT,
        b"0000000111",
    )?;
    assert_eq!(rt; ran.end, End::Stuck);
    assert!(rt; ran.as_expected);
    Ok(())
}

// A thread that waits at its limit is stuck; a thread that is stopped is done.
#[test]
fn ends(rt: HostRuntime) -> Result<(), Fail> {
    let waits = [Instr::Constant(0, 0), Instr::Join(0, 4)];
    let ran = run(rt.alloc(), &waits, &[], Choice::First, 3, b"000")?;
    assert_eq!(rt; ran.end, End::Stuck);
    let ran = run(rt.alloc(), &waits, &[], Choice::First, 2, b"00")?;
    assert_eq!(rt; ran.end, End::Budget);
    let ran = run(
        rt.alloc(),
        &[Instr::ChkNull(0, 4)],
        &[],
        Choice::First,
        LIMIT,
        b"000",
    )?;
    assert_eq!(rt; ran.end, End::AllDone);
    assert_eq!(rt; ran.trap, Some((Trap::NullPointer, 4)));
    let ran = run(rt.alloc(), &[Instr::Return(4)], &[], Choice::First, 0, b"")?;
    assert_eq!(rt; ran.end, End::Budget);
    assert!(rt; ran.as_expected);
    Ok(())
}

// `main` starts two threads, joins both and prints; each adds 1 to the value under one mutex. However they are chosen,
// 2 is printed.
#[test]
fn one_lock(rt: HostRuntime) -> Result<(), Fail> {
    let body = [
        Instr::Spawn(1, 1, Register::Int(0), 3),
        Instr::Spawn(2, 1, Register::Int(0), 3),
        Instr::Join(1, 4),
        Instr::Join(2, 4),
        Instr::Load(3, VALUE, 3),
        Instr::Print(3, 5),
        Instr::Return(6),
        // The thread, at place 9.
        Instr::Lock(A, 3),
        Instr::Load(2, VALUE, 3),
        Instr::Constant(3, 1),
        Instr::ComputeInt(Operator::Add, 2, 2, 3, 3),
        Instr::Store(2, VALUE, 3),
        Instr::Unlock(0, A, 3),
        Instr::Return(6),
    ];
    for choice in [
        Choice::First,
        Choice::Last,
        Choice::Drawn(1),
        Choice::Drawn(7),
        Choice::Drawn(42),
    ] {
        let ran = run(
            rt.alloc(),
            &body,
            &[function(9, Parameter::None)],
            choice,
            LIMIT,
            b"",
        )?;
        assert_eq!(rt; ran.end, End::AllDone);
        assert_eq!(rt; ran.printed, [Some(2), None, None]);
        assert_eq!(rt; ran.threads, 3);
        // Start, two Spawns, two Joins, three more and Exit: seventeen; and of each thread eleven. No turn is a failed
        // try.
        assert_eq!(rt; ran.turns, 39);
    }
    Ok(())
}

// Both threads wait; `main` wakes both at once, and they print one after the other, the last first.
#[test]
fn broadcast(rt: HostRuntime) -> Result<(), Fail> {
    let body = [
        Instr::Constant(0, 1),
        Instr::Spawn(1, 1, Register::Int(0), 3),
        Instr::Constant(0, 2),
        Instr::Spawn(1, 1, Register::Int(0), 3),
        Instr::CondBroadcast(B, 4),
        Instr::Constant(0, 3),
        Instr::Print(0, 5),
        Instr::Return(6),
        // The thread, at place 10.
        Instr::CondEnter(B, 7),
        Instr::CondWait(B, 7),
        Instr::Print(0, 8),
        Instr::Return(9),
    ];
    let ran = run(
        rt.alloc(),
        &body,
        &[function(10, Parameter::Int)],
        Choice::Last,
        LIMIT,
        b"",
    )?;
    assert_eq!(rt; ran.end, End::AllDone);
    assert_eq!(rt; ran.printed, [Some(2), Some(1), Some(3)]);
    Ok(())
}

// Without the broadcast both wait for ever.
#[test]
fn nobody_wakes(rt: HostRuntime) -> Result<(), Fail> {
    let body = [
        Instr::Spawn(1, 1, Register::Int(0), 3),
        Instr::CondSignal(B, 4),
        Instr::CondEnter(B, 7),
        Instr::CondWait(B, 7),
        // The thread, at place 6.
        Instr::CondEnter(B, 7),
        Instr::CondWait(B, 7),
        Instr::Return(9),
    ];
    let others = [function(6, Parameter::None)];
    for choice in &[Choice::First, Choice::Last] {
        let ran = run(rt.alloc(), &body, &others, *choice, LIMIT, b"")?;
        assert_eq!(rt; ran.end, End::Stuck);
    }
    Ok(())
}
