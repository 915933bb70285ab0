//! A step of another thread between two turns of an instruction that walks over words.

ghost use Rattle.std.specs.Prelude.{◌≡◌, length};
ghost use Rattle.sharc_code.specs.Layout.{Fits, words_of};
ghost use Rattle.sharc_cpu.specs.Thread.{IsThread};

use crate::code::{code, shape};
use sharc_code::{Cell, Code, Instr, Shape, opening};
use sharc_cpu::{Pause, Thread, run_quantum};
use sharc_word::WordOp::{Add, Or, Swap};
use sharc_word::{MemPort, Port, WordOp, WordStep};
use std::alloc::{AllocError, Global};
use std::process::Abort;
use std::test::Fail;

/// After this many turns of the instruction another thread makes this step. How many turns the instruction has then,
/// and what this word holds after them.
type Row = (u32, (u32, WordOp), u32, (u32, u64));

/// This many turns, and the last answer.
pub fn turns(
    code: &Code,
    shape: &Shape,
    thread: &mut Thread,
    port: &mut MemPort,
    count: u32,
) -> Result<Pause, AllocError>
    requires fits { Fits code.now shape.now }
    requires thread { IsThread code.now shape.now thread.old }
    requires words { length port.old ≡ words_of shape.now }
    ensures thread { IsThread code.now shape.now thread.new }
    ensures words { length port.new ≡ words_of shape.now }
{
    let limit = thread.made().saturating_add(1000);
    thread.reserve(count)?;
    Ok(run_quantum(code, shape, thread, port, count, limit))
}

// The word of this number, or 0.
fn word(shape: &Shape, port: &mut MemPort, step: (u32, WordOp)) -> u64
    requires words { length port.old ≡ words_of shape.now }
    requires few { 322 ≡ words_of shape.now }
    ensures words { length port.new ≡ words_of shape.now }
{
    let (word, op) = step;
    if word < 322 {
        port.step(WordStep { word, op })
    } else {
        0
    }
}

/// What is looked at: the word after the turns of the instruction, how many events they were, and the thread's state
/// and last answer after one turn more, which is the first one of the thread's end.
#[derive(Clone, Copy)]
struct Seen {
    word: u64,
    events: u64,
    last: Pause,
    state: (u64, u64),
}

// This many turns before the instruction, and then those of the row.
fn look(
    code: &Code,
    shape: &Shape,
    thread: &mut Thread,
    port: &mut MemPort,
    before: u32,
    row: &Row,
) -> Result<Seen, AllocError>
    requires fits { Fits code.now shape.now }
    requires thread { IsThread code.now shape.now thread.old }
    requires words { length port.old ≡ words_of shape.now }
    requires few { 322 ≡ words_of shape.now }
{
    let (gap, step, all, (of, _)) = *row;
    turns(code, shape, thread, port, before)?;
    let first = thread.made();
    turns(code, shape, thread, port, gap)?;
    word(shape, port, step);
    let last = turns(code, shape, thread, port, all.saturating_sub(gap))?;
    let events = thread.made().saturating_sub(first);
    let found = word(shape, port, (of, WordOp::Load));
    let state = word(shape, port, (13, WordOp::Load));
    turns(code, shape, thread, port, 1)?;
    let behind = word(shape, port, (13, WordOp::Load));
    Ok(Seen {
        word: found,
        events,
        last,
        state: (state, behind),
    })
}

fn run(
    rt: &impl Abort,
    alloc: Global,
    body: &[Instr],
    before: u32,
    row: &Row,
) -> Result<Seen, AllocError> {
    let code = code(alloc, body.to_vec(alloc)?, 0)?;
    let shape = shape();
    let words = opening(alloc, &code, &shape)?;
    assert!(rt; words.len() == 322);
    let mut port = MemPort::new(words);
    let mut thread = Thread::new(alloc, &code, &shape, 3)?;
    look(&code, &shape, &mut thread, &mut port, before, row)
}

// The instruction has all its turns, and no more: a turn after them is the first of the thread's end, which changes its
// state from 0 to 2, or there is none.
fn is_over(seen: &Seen) -> bool {
    match seen.last {
        Pause::Ran => seen.state == (0, 2),
        Pause::Stopped => seen.state == (0, 0),
        Pause::Ended => true,
        Pause::Blocked | Pause::Spent => false,
    }
}

// The last of these instructions comes after this many turns.
fn walk(
    rt: &impl Abort,
    alloc: Global,
    body: &[Instr],
    before: u32,
    rows: &[Row],
) -> Result<(), Fail> {
    for (place, row) in rows.iter().enumerate() {
        let seen = run(rt, alloc, body, before, row)?;
        let (_, _, turns, (_, value)) = *row;
        assert_eq!(rt; seen.word, value, "row {place}");
        assert_eq!(rt; seen.events, u64::from(turns), "row {place}");
        assert!(rt; is_over(&seen), "row {place}");
    }
    Ok(())
}

/// A word of epoch 1.
const E: u64 = 4294967296;

/// The object of granule 11 has two elements of two cells, so its data granules have the shadow words 109 and 110. A
/// Load of its length, and of each a Load and a Swap.
static CLEARED: [Row; 16] = [
    // A reader's bit stays where it is set after the Swap, and is lost between the Load and the Swap.
    (0, (109, Or(2)), 5, (109, E)),
    (1, (109, Or(2)), 5, (109, E)),
    (2, (109, Or(2)), 5, (109, E)),
    (3, (109, Or(2)), 5, (109, 4294967298)),
    (4, (109, Or(2)), 5, (109, 4294967298)),
    (5, (109, Or(2)), 5, (109, 4294967298)),
    (3, (110, Or(2)), 5, (110, E)),
    (4, (110, Or(2)), 5, (110, E)),
    (5, (110, Or(2)), 5, (110, 4294967298)),
    // Another clears it: the epoch is the one after that of the Load.
    (1, (109, Swap(E)), 5, (109, 8589934592)),
    (2, (109, Swap(E)), 5, (109, E)),
    (3, (110, Swap(E)), 5, (110, 8589934592)),
    (4, (110, Swap(E)), 5, (110, E)),
    // The length counts where it is loaded, at first.
    (0, (195, Swap(0)), 1, (109, 0)),
    (0, (195, Swap(1)), 3, (110, 0)),
    (1, (195, Swap(0)), 5, (110, E)),
];

#[test]
fn clears(rt: HostRuntime) -> Result<(), Fail> {
    let body = [
        Instr::Constant(0, 2),
        Instr::New(0, 0, 2, 7),
        Instr::Clear(0, 2),
    ];
    walk(&rt, rt.alloc(), &body, 5, &CLEARED)
}

/// A block of two granules from the top, which is 11 at first: a Load and a Cas of the top, a Swap of the count and one
/// of the length.
static FROM_THE_TOP: [Row; 19] = [
    // Another takes a block of four: before the Load, between the Load and the Cas, which is tried again, and after it.
    (0, (1, Add(4)), 4, (1, 17)),
    (0, (1, Add(4)), 4, (202, 1)),
    (1, (1, Add(4)), 5, (1, 17)),
    (1, (1, Add(4)), 5, (202, 1)),
    (1, (1, Add(4)), 5, (194, 0)),
    (2, (1, Add(4)), 4, (1, 17)),
    (2, (1, Add(4)), 4, (194, 1)),
    (3, (1, Add(4)), 4, (195, 1)),
    // It leaves no room, or just enough.
    (0, (1, Swap(74)), 1, (1, 74)),
    (1, (1, Swap(74)), 2, (1, 74)),
    (1, (1, Swap(73)), 5, (1, 75)),
    (1, (1, Swap(73)), 5, (319, 1)),
    (2, (1, Swap(74)), 4, (1, 74)),
    // The count and the length are written whatever they were.
    (2, (194, Swap(7)), 4, (194, 1)),
    (3, (194, Swap(7)), 4, (194, 7)),
    (2, (195, Swap(7)), 4, (195, 1)),
    (3, (195, Swap(7)), 4, (195, 1)),
    (4, (195, Swap(7)), 4, (195, 7)),
    (4, (1, Add(4)), 4, (1, 17)),
];

#[test]
fn from_the_top(rt: HostRuntime) -> Result<(), Fail> {
    let body = [Instr::Constant(0, 1), Instr::New(0, 0, 1, 7)];
    walk(&rt, rt.alloc(), &body, 1, &FROM_THE_TOP)
}

/// Two objects of two cells: the first from the own list, whose one block is that of granule 11, and the second from
/// the list where the link that the first found leads on, else from the top, which is 13. A Load of the link, a Swap of
/// each cell, one of the count and one of the length; and from the top four turns.
static FROM_THE_LIST: [Row; 16] = [
    // The link is changed before it is loaded: the next block is that of granule 20.
    (0, (195, Swap(20)), 10, (212, 1)),
    (0, (195, Swap(20)), 10, (1, 13)),
    (0, (195, Swap(20)), 10, (195, 1)),
    // It is changed after that, and is overwritten by the length or overwrites it.
    (1, (195, Swap(20)), 9, (212, 0)),
    (1, (195, Swap(20)), 9, (198, 1)),
    (1, (195, Swap(20)), 9, (195, 1)),
    (4, (195, Swap(20)), 9, (195, 1)),
    (5, (195, Swap(20)), 9, (195, 20)),
    (5, (195, Swap(20)), 9, (1, 15)),
    // What comes to a cell stays where it comes after the Swap.
    (1, (196, Swap(9)), 9, (196, 0)),
    (2, (196, Swap(9)), 9, (196, 9)),
    (2, (197, Swap(9)), 9, (197, 0)),
    (3, (197, Swap(9)), 9, (197, 9)),
    (3, (194, Swap(9)), 9, (194, 1)),
    (4, (194, Swap(9)), 9, (194, 9)),
    // The top counts for the second alone.
    (4, (1, Add(2)), 9, (1, 17)),
];

#[test]
fn from_the_own_list(rt: HostRuntime) -> Result<(), Fail> {
    let body = [
        Instr::Constant(0, 1),
        Instr::New(0, 0, 1, 7),
        Instr::Free(0, 0, 7),
        Instr::New(1, 0, 2, 7),
        Instr::New(2, 0, 2, 7),
    ];
    walk(&rt, rt.alloc(), &body, 10, &FROM_THE_LIST)
}

/// The object of granule 13 has one element of three cells, of which the first refers to the object of granule 11, with
/// count 194, and the last is NULL. A Load of the length; a Swap of the first cell and a Lower; a Swap of the last; of
/// the shadow words 111 and 112 a Load and a Swap each; a Swap of the count and one of the length.
static FREED: [Row; 25] = [
    // The length counts where it is loaded, at first.
    (0, (199, Swap(0)), 3, (194, 1)),
    (1, (199, Swap(0)), 10, (194, 0)),
    // The first cell is NULL now, or is filled again after its Swap.
    (0, (200, Swap(0)), 9, (194, 1)),
    (1, (200, Swap(0)), 9, (194, 1)),
    (2, (200, Swap(11)), 10, (200, 11)),
    (2, (200, Swap(11)), 10, (194, 0)),
    // Another counts the reference between the Swap and the Lower, or after it.
    (2, (194, Add(1)), 10, (194, 1)),
    (3, (194, Add(1)), 10, (194, 1)),
    // The last cell is filled before its Swap, and after it.
    (3, (202, Swap(20)), 11, (212, u64::MAX)),
    (3, (202, Swap(20)), 11, (202, 0)),
    (4, (202, Swap(20)), 10, (212, 0)),
    (4, (202, Swap(20)), 10, (202, 20)),
    // A reader's bit.
    (4, (111, Or(2)), 10, (111, E)),
    (5, (111, Or(2)), 10, (111, E)),
    (6, (111, Or(2)), 10, (111, 4294967298)),
    (6, (112, Or(2)), 10, (112, E)),
    (7, (112, Or(2)), 10, (112, E)),
    (8, (112, Or(2)), 10, (112, 4294967298)),
    // Another's clear.
    (4, (111, Swap(E)), 10, (111, 8589934592)),
    (5, (111, Swap(E)), 10, (111, E)),
    // The count and the length are written whatever they were.
    (8, (198, Add(1)), 10, (198, 0)),
    (9, (198, Add(1)), 10, (198, 1)),
    (8, (199, Swap(9)), 10, (199, 0)),
    (9, (199, Swap(9)), 10, (199, 0)),
    (10, (199, Swap(9)), 10, (199, 9)),
];

#[test]
fn frees(rt: HostRuntime) -> Result<(), Fail> {
    let body = [
        Instr::Constant(0, 1),
        Instr::New(1, 0, 1, 7),
        Instr::New(0, 0, 3, 7),
        Instr::Exchange(1, Cell::Object(0, 0), 7),
        Instr::Free(0, 1, 7),
    ];
    walk(&rt, rt.alloc(), &body, 10, &FREED)
}

/// Thread 3 has read granule 4, with the shadow word 101, and written granule 5, with 102. A Swap of the state; of each
/// granule a Load and a Cas; and a Swap of the state.
static GONE: [Row; 18] = [
    // A reader's bit stays, whenever it came; between the Load and the Cas it makes the Cas be tried again.
    (0, (101, Or(2)), 6, (101, 2)),
    (1, (101, Or(2)), 6, (101, 2)),
    (2, (101, Or(2)), 7, (101, 2)),
    (3, (101, Or(2)), 6, (101, 2)),
    (6, (101, Or(2)), 6, (101, 2)),
    // So do the bits of a writer, where the thread has read.
    (1, (101, Or(3)), 6, (101, 3)),
    (2, (101, Or(3)), 7, (101, 3)),
    (3, (101, Or(3)), 6, (101, 3)),
    // Where it has written in this epoch the written bit was its own.
    (3, (102, Or(3)), 6, (102, 2)),
    (4, (102, Or(3)), 7, (102, 2)),
    (5, (102, Or(3)), 6, (102, 3)),
    // In another epoch it is another's, and so are all bits.
    (3, (102, Swap(4294967299)), 6, (102, 4294967299)),
    (4, (102, Swap(4294967299)), 7, (102, 4294967299)),
    (4, (102, Swap(E)), 7, (102, E)),
    (2, (101, Swap(E)), 7, (101, E)),
    // The state is written whatever it was.
    (0, (13, Swap(9)), 6, (13, 3)),
    (1, (13, Swap(9)), 6, (13, 3)),
    (5, (13, Swap(9)), 6, (13, 3)),
];

#[test]
fn exits(rt: HostRuntime) -> Result<(), Fail> {
    let body = [
        Instr::ChkRead(Cell::Global(0, 8), 7),
        Instr::ChkWrite(Cell::Global(0, 10), 7),
        Instr::Exit,
    ];
    walk(&rt, rt.alloc(), &body, 2, &GONE)
}
