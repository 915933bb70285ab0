//! Rows of turns against their turns one by one: after each number of turns the thread and its words are the same.

ghost use Rattle.std.specs.Prelude.{◌≡◌, length, IfOk};
ghost use Rattle.sharc_code.specs.Layout.{Fits, words_of};
ghost use Rattle.sharc_cpu.specs.{Rows.IsPlan, Thread.IsThread};

use crate::between::turns;
use crate::code::{code, shape};
use sharc_code::Instr::{
    ChkHeld, ChkLock, ChkNotHeld, ChkNull, ChkRead, ChkRoom, ChkWidth, ChkWrite, ComputeInt,
    Constant, GlobalBounds, Jump, JumpIfZero, Load, Lock, Lower, Move, New, Raise, Store, Unlock,
};
use sharc_code::Operator::{Add, Less, Multiply, Remainder, Subtract};
use sharc_code::{Cell, Code, Instr, Shape, Width, opening};
use sharc_cpu::{Pause, RowPlan, Thread, run_quantum, run_trying};
use sharc_heap::Kind;
use sharc_word::{MemPort, Port, WordOp, WordStep};
use std::alloc::{AllocError, Global};
use std::process::Abort;
use std::test::Fail;

/// The number of the thread that makes the turns.
const THREAD: u32 = 3;

/// More turns than any of these runs has.
const TURNS: u32 = 250;

// This many turns, rows in one go, and the answer.
fn by_rows(
    code: &Code,
    plan: &RowPlan,
    shape: &Shape,
    thread: &mut Thread,
    port: &mut MemPort,
    count: u32,
) -> Result<Pause, AllocError>
    requires plan { IsPlan code.now plan.now }
    requires fits { Fits code.now shape.now }
    requires thread { IsThread code.now shape.now thread.old }
    requires words { length port.old ≡ words_of shape.now }
{
    let limit = thread.made().saturating_add(1000);
    thread.reserve(count)?;
    Ok(run_trying(code, Some(plan), shape, thread, port, count, limit, 0))
}

// Whether both threads show the same, but for their notes.
fn is_alike(one: &Thread, other: &Thread) -> bool {
    for register in 0..8 {
        if one.int(register) != other.int(register)
            || one.reference(register) != other.reference(register)
        {
            return false;
        }
    }
    one.pc() == other.pc()
        && one.made() == other.made()
        && one.state() == other.state()
        && one.stop().is_some() == other.stop().is_some()
}

// Whether both have the same notes of the granules of the globals.
fn is_noted_alike(one: &Thread, other: &Thread) -> bool {
    for granule in 0..11 {
        if one.noted(granule, Kind::Read, 0) != other.noted(granule, Kind::Read, 0)
            || one.noted(granule, Kind::Write, 0) != other.noted(granule, Kind::Write, 0)
        {
            return false;
        }
    }
    true
}

// The words at the start, where another thread has written the granule with this shadow word.
fn words(
    alloc: Global,
    code: &Code,
    shape: &Shape,
    written: Option<u32>,
) -> Result<MemPort, AllocError>
    requires fits { Fits code.now shape.now }
    requires few { 322 ≡ words_of shape.now }
    ensures { IfOk result (λ port. length port ≡ words_of shape.now) }
{
    let words = opening(alloc, code, shape)?;
    let mut port = MemPort::new(words);
    match written {
        Some(word) if word < 322 => {
            port.step(WordStep {
                word,
                op: WordOp::Or(3),
            });
        }
        _ => {}
    }
    Ok(port)
}

// The turns of the instructions, by rows up to each number of turns, and one by one.
fn walk(
    rt: &impl Abort,
    alloc: Global,
    body: &[Instr],
    written: Option<u32>,
) -> Result<Pause, Fail> {
    let code = code(alloc, body.to_vec(alloc)?, 0)?;
    let shape = shape();
    let plan = RowPlan::of(alloc, &code)?;
    let mut thread = Thread::new(alloc, &code, &shape, THREAD)?;
    let mut port = words(alloc, &code, &shape, written)?;
    let mut last = Pause::Ran;
    for turn in 0..TURNS {
        last = turns(&code, &shape, &mut thread, &mut port, 1)?;
        let mut other = Thread::new(alloc, &code, &shape, THREAD)?;
        let mut there = words(alloc, &code, &shape, written)?;
        let answer = by_rows(&code, &plan, &shape, &mut other, &mut there, turn + 1)?;
        assert_eq!(rt; answer, last, "turn {turn}");
        assert!(rt; is_alike(&thread, &other), "turn {turn}");
        assert!(rt; is_noted_alike(&thread, &other), "turn {turn}");
        assert!(rt; port.words() == there.words(), "turn {turn}");
    }
    Ok(last)
}

/// A loop with a row of each kind: x, y and two variables are registers 0 to 3, and 4 and 5 what rows compute in.
const LOOP: [Instr; 70] = [
    Constant(0, 3),
    Constant(1, 2),
    New(0, 1, 1, 7),
    // A test of a variable and a number, at place 3, and one of two variables.
    Move(4, 0),
    Constant(5, 6),
    ComputeInt(Less, 4, 4, 5, 7),
    JumpIfZero(4, 63),
    Move(4, 0),
    Move(5, 1),
    ComputeInt(Less, 4, 4, 5, 7),
    JumpIfZero(4, 11),
    // Assignments, at place 11.
    Move(4, 0),
    Constant(5, 2),
    ComputeInt(Add, 4, 4, 5, 7),
    ChkWidth(Width::Int, 4, 7),
    Move(2, 4),
    Move(4, 0),
    Move(5, 1),
    ComputeInt(Multiply, 4, 4, 5, 7),
    ChkWidth(Width::Int, 4, 7),
    Move(3, 4),
    // Parts of expressions, at place 21.
    Move(4, 0),
    Constant(5, 7),
    ComputeInt(Remainder, 4, 4, 5, 7),
    Move(5, 1),
    ComputeInt(Add, 4, 4, 5, 7),
    ChkWidth(Width::Int, 4, 7),
    Move(3, 4),
    Move(4, 0),
    Move(5, 1),
    ComputeInt(Add, 4, 4, 5, 7),
    Constant(5, 1),
    ComputeInt(Subtract, 4, 4, 5, 7),
    ChkWidth(Width::Int, 4, 7),
    Move(3, 4),
    // A cell, an argument and an index, at place 35.
    Load(4, Cell::Global(0, 5), 7),
    ChkWidth(Width::Int, 4, 7),
    Move(3, 4),
    Move(4, 0),
    ChkWidth(Width::Int, 4, 7),
    Move(4, 0),
    GlobalBounds(4, 8, 1, 6, 7),
    // A checked read and a checked write, at place 42.
    ChkRead(Cell::GlobalAt(0, 4), 8),
    Load(5, Cell::GlobalAt(0, 4), 7),
    Constant(6, 1),
    ComputeInt(Add, 5, 5, 6, 7),
    ChkWidth(Width::Int, 5, 7),
    ChkWrite(Cell::GlobalAt(0, 4), 9),
    Store(5, Cell::GlobalAt(0, 4), 7),
    // Accesses of the object, at place 49.
    Raise(1, 0),
    ChkNull(1, 7),
    Load(5, Cell::Object(1, 0), 7),
    Lower(1),
    Raise(1, 0),
    ChkNull(1, 7),
    Store(4, Cell::Object(1, 0), 7),
    Lower(1),
    // An assignment and a jump, at place 57.
    Move(4, 0),
    Constant(5, 1),
    ComputeInt(Add, 4, 4, 5, 7),
    ChkWidth(Width::Int, 4, 7),
    Move(0, 4),
    Jump(3),
    // An int and a jump, at place 63, and a field of NULL.
    ChkWidth(Width::Int, 0, 7),
    Move(1, 0),
    Jump(66),
    Raise(2, 3),
    ChkNull(2, 7),
    Load(4, Cell::Object(2, 0), 7),
    Lower(2),
];

/// The places of the loop at which no row begins.
const ALONE: [usize; 24] = [
    0, 1, 2, 4, 5, 6, 9, 10, 22, 23, 30, 35, 39, 41, 43, 45, 46, 48, 50, 52, 54, 56, 67, 69,
];

/// The word of a mutex, and the cell that it guards.
const MUTEX: Cell = Cell::Global(0, 4);

const GUARDED: Cell = Cell::Global(0, 5);

/// A cell that is changed under its mutex, and read once more behind that.
const LOCKED: [Instr; 15] = [
    ChkNotHeld(MUTEX, 7),
    ChkRoom(7),
    Lock(MUTEX, 7),
    ChkLock(MUTEX, 8),
    Load(4, GUARDED, 7),
    Constant(5, 1),
    ComputeInt(Add, 4, 4, 5, 7),
    ChkWidth(Width::Int, 4, 7),
    ChkLock(MUTEX, 8),
    Store(4, GUARDED, 7),
    ChkHeld(MUTEX, 7),
    Unlock(0, MUTEX, 7),
    Constant(0, 0),
    ChkLock(MUTEX, 9),
    Load(4, GUARDED, 7),
];

#[test]
fn rows_are_their_turns(rt: HostRuntime) -> Result<(), Fail> {
    let last = walk(&rt, rt.alloc(), &LOOP, None)?;
    assert_eq!(rt; last, Pause::Stopped);
    Ok(())
}

#[test]
fn rows_are_found(rt: HostRuntime) -> Result<(), Fail> {
    let alloc = rt.alloc();
    let code = code(alloc, LOOP.to_vec(alloc)?, 0)?;
    let plan = RowPlan::of(alloc, &code)?;
    for pc in 0..LOOP.len() {
        assert_eq!(rt; plan.is_alone(pc), ALONE.contains(&pc), "place {pc}");
    }
    Ok(())
}

#[test]
fn a_lock_is_checked(rt: HostRuntime) -> Result<(), Fail> {
    let last = walk(&rt, rt.alloc(), &LOCKED, None)?;
    assert_eq!(rt; last, Pause::Stopped);
    Ok(())
}

// Another thread has written the granule of cell 10, whose shadow word is 102.
#[test]
fn a_checked_read_conflicts(rt: HostRuntime) -> Result<(), Fail> {
    let last = walk(&rt, rt.alloc(), &LOOP, Some(102))?;
    assert_eq!(rt; last, Pause::Stopped);
    Ok(())
}

#[test]
fn an_assignment_overflows(rt: HostRuntime) -> Result<(), Fail> {
    let body = [
        Constant(0, 2147483640),
        Move(4, 0),
        Constant(5, 3),
        ComputeInt(Add, 4, 4, 5, 7),
        ChkWidth(Width::Int, 4, 7),
        Move(0, 4),
        Jump(1),
    ];
    let last = walk(&rt, rt.alloc(), &body, None)?;
    assert_eq!(rt; last, Pause::Stopped);
    Ok(())
}
