//! Whole runs.

ghost use Rattle.std.specs.Prelude.{◌≡◌, ◌≤◌, ◌<◌, ℕ, None, true, false, IfOk, slice_index_or};
ghost use Rattle.sharc_code.specs.Layout.{Fits};
ghost use Rattle.sharc_threads.specs.Seats.{left, may_turn_at};
ghost use Rattle.sharc_cpu.specs.Rows.{IsPlan};
ghost use Rattle.sharc_record.specs.{Round.AreRounds, Run.IsRecorded};

use crate::round::Rounds;
use sharc_code::{Code, Shape, fits_law, opening, run_laws};
use sharc_cpu::{RowPlan, Thread};
use sharc_rounds::{Gate, round_laws};
use sharc_schedule::{Places, make_places};
use sharc_threads::{End, ThreadTable, table_laws};
use sharc_word::{MemPort, WordEvent};
use std::alloc::{AllocError, Global};
use std::sync::Wait;
use std::thread::Threads;

/// A run that has ended: its word events, its schedule, the words, the threads that were started in rising order of
/// their numbers, and how it ended.
#[derive(Drop)]
pub struct Recorded {
    pub journal: Vec<WordEvent>,
    pub places: Places,
    pub words: Vec<u64>,
    pub threads: Vec<Thread>,
    pub end: End,
}

impl Rounds {
    // Before the first round.
    fn new(alloc: Global, code: &Code, shape: &Shape, limit: u64) -> Result<Rounds, AllocError>
        requires { Fits code.now shape.now }
        ensures { IfOk result (AreRounds code.now shape.now limit) }
    {
        let port = MemPort::new(opening(alloc, code, shape)?);
        let words = port.words();
        let threads = ThreadTable::open(alloc, code, shape, words)?;
        Ok(Rounds {
            threads,
            port,
            events: Vec::new(alloc),
        })
    }

    // After one more round.
    fn next<R: Threads + Wait + Sync, G: Gate + Sync>(
        self,
        rt: &R,
        alloc: Global,
        code: &Code,
        plan: &RowPlan,
        shape: &Shape,
        workers: u32,
        limit: u64,
        gate: &G,
    ) -> Result<Rounds, AllocError>
        requires plan { IsPlan code.now plan.now }
        requires fits { Fits code.now shape.now }
        requires workers { 0 < workers }
        requires limit { limit ≤ 100000000 }
        requires rounds { AreRounds code.now shape.now limit self }
        requires one { (t : ℕ) × (may_turn_at self.port limit (slice_index_or self.threads.seats.items t None) ≡ true) }
        ensures rounds { IfOk result (AreRounds code.now shape.now limit) }
        ensures less { IfOk result (λ r. left limit r.threads.seats.items < left limit self.threads.seats.items) }
    {
        fits_law(code, shape);
        round_laws();
        let Rounds {
            mut threads,
            port,
            events,
        } = self.make(rt, alloc, code, plan, shape, workers, limit, gate)?;
        let words = port.words();
        threads.begin(alloc, code, shape, words)?;
        Ok(Rounds {
            threads,
            port,
            events,
        })
    }

    // The run that ended there.
    fn finish(
        self,
        alloc: Global,
        code: &Code,
        plan: &RowPlan,
        shape: &Shape,
        limit: u64,
    ) -> Result<Recorded, AllocError>
        requires plan { IsPlan code.now plan.now }
        requires fits { Fits code.now shape.now }
        requires limit { limit ≤ 100000000 }
        requires rounds { AreRounds code.now shape.now limit self }
        requires none { (t : ℕ) → may_turn_at self.port limit (slice_index_or self.threads.seats.items t None) ≡ false }
        ensures { IfOk result (IsRecorded code.now shape.now limit) }
    {
        fits_law(code, shape);
        run_laws();
        table_laws();
        let Rounds {
            threads,
            port,
            events,
        } = self;
        let places = make_places(alloc, code, plan, shape, events.as_slice(), limit)?;
        let end = threads.end(port.words());
        Ok(Recorded {
            journal: events,
            places,
            words: port.into_words(),
            threads: threads.into_started(alloc)?,
            end,
        })
    }
}

/// Runs the code in rounds over a journal: in each, worker `w` gives every started thread whose number is `w` modulo
/// `workers` one quantum of turns, and asks the gate before each step. A thread that is spawned in a round begins in
/// the next. The run ends where no thread is enabled.
///
/// An `Err` says that memory was not found.
pub fn record_run<R: Threads + Wait + Sync, G: Gate + Sync>(
    rt: &R,
    alloc: Global,
    code: &Code,
    shape: &Shape,
    workers: u32,
    limit: u64,
    gate: &G,
) -> Result<Recorded, AllocError>
    requires fits { Fits code.now shape.now }
    requires workers { 0 < workers }
    requires limit { limit ≤ 100000000 }
    ensures { IfOk result (IsRecorded code.now shape.now limit) }
{
    fits_law(code, shape);
    table_laws();
    let plan = RowPlan::of(alloc, code)?;
    let mut rounds = Rounds::new(alloc, code, shape, limit)?;
    'rounds: loop {
        if !rounds.threads.any_may_turn(rounds.port.words(), limit) {
            return rounds.finish(alloc, code, &plan, shape, limit);
        }
        rounds = rounds.next(rt, alloc, code, &plan, shape, workers, limit, gate)?;
    }
}
