//! Whole runs.

ghost use Rattle.std.specs.Prelude.{◌≡◌, ◌≤◌, ◌<◌, ℕ, None, true, false, IfOk, slice_index_or};
ghost use Rattle.sharc_code.specs.Layout.{Fits};
ghost use Rattle.sharc_threads.specs.Seats.{left, may_turn_at};
ghost use Rattle.sharc_cpu.specs.Rows.{IsPlan};
ghost use Rattle.sharc_rounds.specs.{Round.AreRounds, Pace.{events_of, waits_on}, Run.IsRoundsRun};

use crate::gate::Gate;
use crate::laws::round_laws;
use crate::pace::{Lap, Makers, Pace, made_by, waits_on};
use crate::round::Rounds;
use crate::words::Words;
use sharc_code::{Code, Shape, fits_law, opening, run_laws};
use sharc_cpu::{RowPlan, Thread};
use sharc_threads::{End, ThreadTable, table_laws};
use std::alloc::{AllocError, Global};
use std::thread::Threads;

/// A run that has ended: the words, the threads that were started in rising order of their numbers, and how it ended.
#[derive(Drop)]
pub struct RoundsRun {
    pub words: Vec<u64>,
    pub threads: Vec<Thread>,
    pub end: End,
}

impl Rounds {
    // Before the first round.
    fn new(alloc: Global, code: &Code, shape: &Shape, limit: u64) -> Result<Rounds, AllocError>
        requires { Fits code.now shape.now }
        ensures { IfOk result (AreRounds code.now shape.now limit) }
    {
        let words = Words::open(alloc, opening(alloc, code, shape)?)?;
        let threads = ThreadTable::open(alloc, code, shape, words.seen.as_slice())?;
        Ok(Rounds { threads, words })
    }

    // The events that the threads have made.
    fn events(&self) -> u64
        ensures { result ≡ events_of self.now.threads.seats.items }
    {
        let mut all: u64 = 0;
        for n in 0..self.threads.seats.len() {
            all = all.saturating_add(made_by(&self.threads.seats[n]));
        }
        all
    }

    // Whether a thread waits for a mutex or a condition.
    fn waits(&self) -> bool
        ensures yes { result ≡ true → (t : ℕ)
            × (waits_on (slice_index_or self.now.threads.seats.items t None) ≡ true) }
        ensures no { result ≡ false → (t : ℕ) → waits_on (slice_index_or self.now.threads.seats.items t None) ≡ false }
    {
        for n in 0..self.threads.seats.len() {
            if waits_on(&self.threads.seats[n]) {
                return true;
            }
        }
        false
    }

    // After one more round.
    fn next<R: Threads + Sync, G: Gate + Sync>(
        self,
        rt: &R,
        alloc: Global,
        code: &Code,
        plan: &RowPlan,
        shape: &Shape,
        workers: u32,
        limit: u64,
        gate: &G,
        makers: Makers,
    ) -> Result<Rounds, AllocError>
        requires plan { IsPlan code.now plan.now }
        requires fits { Fits code.now shape.now }
        requires workers { 0 < workers }
        requires limit { limit ≤ 100000000 }
        requires rounds { AreRounds code.now shape.now limit self }
        requires one { (t : ℕ)
            × (may_turn_at self.words.rest.words limit (slice_index_or self.threads.seats.items t None) ≡ true) }
        ensures rounds { IfOk result (AreRounds code.now shape.now limit) }
        ensures less { IfOk result (λ r. left limit r.threads.seats.items < left limit self.threads.seats.items) }
    {
        fits_law(code, shape);
        round_laws();
        let Rounds {
            mut threads,
            mut words,
        } = self.make(rt, alloc, code, plan, shape, workers, limit, gate, makers)?;
        words.look_at_states();
        threads.begin(alloc, code, shape, words.seen.as_slice())?;
        Ok(Rounds { threads, words })
    }

    // The run that ended there.
    fn finish(
        self,
        alloc: Global,
        code: &Code,
        shape: &Shape,
        limit: u64,
    ) -> Result<RoundsRun, AllocError>
        requires fits { Fits code.now shape.now }
        requires rounds { AreRounds code.now shape.now limit self }
        requires none { (t : ℕ)
            → may_turn_at self.words.rest.words limit (slice_index_or self.threads.seats.items t None) ≡ false }
        ensures { IfOk result (IsRoundsRun code.now shape.now limit) }
    {
        fits_law(code, shape);
        run_laws();
        table_laws();
        let Rounds { threads, words } = self;
        let words = words.close();
        let end = threads.end(words.as_slice());
        Ok(RoundsRun {
            words,
            threads: threads.into_started(alloc)?,
            end,
        })
    }
}

// The time, if the gate tells it and there is more than one worker: with one there is nothing to choose.
fn time_of<G: Gate>(gate: &G, workers: u32) -> Option<u64> {
    if workers > 1 {
        gate.nanoseconds()
    } else {
        None
    }
}

/// Runs the code in rounds: in each, worker `w` gives every started thread whose number is `w` modulo `workers` one
/// quantum of at most `QUANTUM` turns, and asks the gate before each step. A thread that is spawned in a round begins
/// in the next. The run ends where no thread is enabled.
///
/// An `Err` says that memory was not found.
pub fn run_rounds<R: Threads + Sync, G: Gate + Sync>(
    rt: &R,
    alloc: Global,
    code: &Code,
    shape: &Shape,
    workers: u32,
    limit: u64,
    gate: &G,
) -> Result<RoundsRun, AllocError>
    requires fits { Fits code.now shape.now }
    requires workers { 0 < workers }
    requires limit { limit ≤ 100000000 }
    ensures { IfOk result (IsRoundsRun code.now shape.now limit) }
{
    fits_law(code, shape);
    table_laws();
    let plan = RowPlan::of(alloc, code)?;
    let mut rounds = Rounds::new(alloc, code, shape, limit)?;
    let mut pace = Pace::new();
    'rounds: loop {
        let busy = rounds.words.busy(&rounds.threads, workers, limit);
        if busy.is_nobody() {
            return rounds.finish(alloc, code, shape, limit);
        }
        let begun = time_of(gate, workers);
        let before = rounds.events();
        let makers = pace.makers(busy, begun);
        rounds = rounds.next(rt, alloc, code, &plan, shape, workers, limit, gate, makers)?;
        let lap = Lap {
            events: rounds.events().saturating_sub(before),
            begun,
            ended: time_of(gate, workers),
            waited: rounds.waits(),
        };
        pace = pace.after(busy, makers, lap);
    }
}
