//! Runs, and what they write.

ghost use Rattle.std.specs.Prelude.{◌≡◌, ◌≤◌, ◌<◌, ℕ, List, IfOk};
ghost use Rattle.sharc_code.specs.{declared.shape.Shape.Shape, Layout.Fits, Runs.Turn, Whole.place_after};
ghost use Rattle.sharc_seq.specs.Choice.{seeded};
ghost use Rattle.sharc_run.specs.{Others.AreAllowed, RunText.IsRunText, Outcome.outcome_of, Run.{HasEnded, IsEnd}};
ghost use Rattle.sharc_run.specs.Run.{IsSeededRun, IsWorkersRun};

use crate::outcome::{Outcome, outcome_of};
use crate::text::run_text;
use sharc_code::{Code, Shape};
use sharc_cpu::Thread;
use sharc_rounds::{Gate, run_rounds};
use sharc_seq::{Chooser, run_seq, seeded};
use sharc_threads::End;
use std::alloc::{AllocError, Global};
use std::thread::Threads;

/// What a run wrote, and how it ended.
#[derive(Drop)]
pub struct Ran {
    pub outcome: Outcome,
    pub text: Vec<u8>,
}

/// The text and the outcome of a run that ended with these words and threads, and so.
///
/// An `Err` says that memory was not found.
pub fn told(
    alloc: Global,
    code: &Code,
    words: &[u64],
    threads: &[Thread],
    end: End,
) -> Result<Ran, AllocError>
    requires { AreAllowed threads.now }
    ensures text { IfOk result (λ ran. IsRunText code.now words.now threads.now ran.text.items) }
    ensures outcome { IfOk result (λ ran. ran.outcome ≡ outcome_of threads.now end) }
    ensures ends { (s : Shape) (limit : ℕ) (turns : List Turn) → Fits code.now s
        → HasEnded code.now s limit words.now threads.now end turns
        → IfOk result (IsEnd code.now s limit (place_after code.now s turns)) }
{
    let text = run_text(alloc, code, words, threads)?;
    Ok(Ran {
        outcome: outcome_of(threads, end),
        text,
    })
}

/// Runs the code with each turn made by the thread that `seed` draws among those that may make one, no thread making
/// more than `limit` events.
///
/// An `Err` says that memory was not found.
pub fn run_by_seed(
    alloc: Global,
    code: &Code,
    shape: &Shape,
    seed: u64,
    limit: u64,
) -> Result<Ran, AllocError>
    requires fits { Fits code.now shape.now }
    requires limit { limit ≤ 100000000 }
    ensures { IfOk result (IsSeededRun code.now shape.now seed limit) }
{
    let chooser = Chooser::new(
        move |turn: u64, count: u64| -> u64
            requires { 1 ≤ count }
            ensures is { result ≡ seeded seed turn count }
            ensures below { result < count }
        { seeded(seed, turn, count) },
    );
    let run = run_seq(alloc, code, shape, &chooser, limit)?;
    told(alloc, code, &run.words, &run.threads, run.end)
}

/// Runs the code in rounds that this many workers make, no thread making more than `limit` events; the gate is asked
/// before each step.
///
/// An `Err` says that memory was not found.
pub fn run_by_workers<R: Threads + Sync, G: Gate + Sync>(
    rt: &R,
    alloc: Global,
    code: &Code,
    shape: &Shape,
    workers: u32,
    limit: u64,
    gate: &G,
) -> Result<Ran, AllocError>
    requires fits { Fits code.now shape.now }
    requires workers { 0 < workers }
    requires limit { limit ≤ 100000000 }
    ensures { IfOk result (IsWorkersRun code.now shape.now limit) }
{
    let run = run_rounds(rt, alloc, code, shape, workers, limit, gate)?;
    told(alloc, code, &run.words, &run.threads, run.end)
}
