//! Runs of code by workers: in rounds over a bus, and recorded over a journal.

ghost use Rattle.std.specs.Prelude.{◌≤◌, ◌<◌};
ghost use Rattle.sharc_code.specs.Layout.{Fits};

use crate::code::{Printed, add_prints, code, shape, trap_of};
use sharc_code::{Cell, Code, Function, Instr, Register, Shape};
use sharc_cpu::Thread;
use sharc_record::{Recorded, record_run};
use sharc_rounds::{End, Gate, run_rounds};
use sharc_schedule::run_schedule;
use sharc_seq::SeqRun;
use sharc_tree::trap::Trap;
use std::alloc::{AllocError, Global};
use std::sync::Wait;
use std::thread::Threads;

/// `main` starts two threads, which end at once, and joins both.
pub const BOTH: [Instr; 7] = [
    Instr::Spawn(1, 1, Register::Int(0), 3),
    Instr::Spawn(2, 1, Register::Int(0), 3),
    Instr::Join(1, 4),
    Instr::Join(2, 4),
    Instr::Return(6),
    // The thread, at place 7.
    Instr::Return(8),
    Instr::Exit,
];

/// More events than any thread here makes.
pub const LIMIT: u64 = 10_000_000;

/// The first cells of the globals are mutexes or conditions, the fifth is a value.
pub const A: Cell = Cell::Global(0, 2);

pub const B: Cell = Cell::Global(0, 3);

pub const VALUE: Cell = Cell::Global(0, 6);

// Its word: the cell is behind the words of 31 threads and the shadows of 75 granules.
const VALUE_WORD: usize = 4 + 93 + 75 + 6;

/// A gate that does nothing.
#[derive(Drop)]
pub struct Open;

impl Gate for Open {
    fn step(&self, _worker: u32, _thread: u32) {}
}

/// What is looked at of a run: how it ended, what was printed, how many threads there were, the first X, and the value.
/// It holds nothing, so a test that ends early drops nothing.
#[derive(Clone, Copy, Debug, PartialEq)]
pub struct Worked {
    pub end: End,
    pub printed: Printed,
    pub threads: usize,
    pub trap: Option<(Trap, u32)>,
    pub value: u64,
}

fn seen(end: End, threads: &[Thread], words: &[u64]) -> Worked {
    let mut printed = [None, None, None];
    let mut trap = None;
    for thread in threads {
        let more = add_prints(printed, thread);
        printed = more;
        trap = trap.or(trap_of(thread.stop()));
    }
    Worked {
        end,
        printed,
        threads: threads.len(),
        trap,
        value: words.get(VALUE_WORD).copied().unwrap_or(0),
    }
}

// Whether two lists of threads made and printed the same.
fn alike(one: &[Thread], other: &[Thread]) -> bool {
    if one.len() != other.len() {
        return false;
    }
    for (a, b) in one.iter().zip(other) {
        if a.number() != b.number()
            || a.made() != b.made()
            || a.prints().len() != b.prints().len()
        {
            return false;
        }
    }
    true
}

// Whether a run by a schedule left the same words and ended alike, and its threads made and printed as much.
fn ends_alike(again: &SeqRun, run: &Recorded) -> bool {
    again.end == run.end
        && again.words.as_slice() == run.words.as_slice()
        && alike(again.threads.as_slice(), run.threads.as_slice())
}

// So of the run by the schedule of this one.
fn replays(alloc: Global, code: &Code, shape: &Shape, run: &Recorded, limit: u64) -> bool
    requires fits { Fits code.now shape.now }
    requires limit { limit ≤ 100000000 }
{
    let places = run.places.as_slice();
    if places.len() > 1_000_000 {
        return false;
    }
    match run_schedule(alloc, code, shape, places, limit) {
        Ok(again) => ends_alike(&again, run),
        Err(_) => false,
    }
}

/// A run in rounds by this many workers.
pub fn in_rounds<R: Threads + Sync, G: Gate + Sync>(
    rt: &R,
    alloc: Global,
    body: &[Instr],
    others: &[Function],
    workers: u32,
    limit: u64,
    gate: &G,
) -> Result<Worked, AllocError>
    requires workers { 0 < workers }
    requires limit { limit ≤ 100000000 }
{
    let code = code(alloc, body, others)?;
    let run = run_rounds(rt, alloc, &code, &shape(), workers, limit, gate)?;
    Ok(seen(run.end, run.threads.as_slice(), run.words.as_slice()))
}

/// A recorded run by this many workers, and whether the run of its schedule left the same and ended alike.
pub fn recorded<R: Threads + Wait + Sync, G: Gate + Sync>(
    rt: &R,
    alloc: Global,
    body: &[Instr],
    others: &[Function],
    workers: u32,
    limit: u64,
    gate: &G,
) -> Result<(Worked, bool), AllocError>
    requires workers { 0 < workers }
    requires limit { limit ≤ 100000000 }
{
    let code = code(alloc, body, others)?;
    let shape = shape();
    let run = record_run(rt, alloc, &code, &shape, workers, limit, gate)?;
    let again = replays(alloc, &code, &shape, &run, limit);
    Ok((
        seen(run.end, run.threads.as_slice(), run.words.as_slice()),
        again,
    ))
}
