//! Runs that are recorded.

ghost use Rattle.std.specs.Prelude.{◌≤◌, ◌<◌, IfOk};
ghost use Rattle.sharc_code.specs.Layout.{Fits};
ghost use Rattle.sharc_replay.specs.Run.{IsRecord};

use sharc_code::{Code, Shape};
use sharc_record::record_run;
use sharc_rounds::Gate;
use sharc_run::{Ran, told};
use sharc_schedule::write_file;
use std::alloc::{AllocError, Global};
use std::sync::Wait;
use std::thread::Threads;

/// Runs the code of a source in rounds that this many workers make over a journal, no thread making more than `limit`
/// events; the gate is asked before each step. Answers the file of the source, the schedule and the text of the run,
/// and how the run ended.
///
/// An `Err` says that memory was not found.
pub fn record_by_workers<R: Threads + Wait + Sync, G: Gate + Sync>(
    rt: &R,
    alloc: Global,
    source: &[u8],
    code: &Code,
    shape: &Shape,
    workers: u32,
    limit: u64,
    gate: &G,
) -> Result<Ran, AllocError>
    requires fits { Fits code.now shape.now }
    requires workers { 0 < workers }
    requires limit { limit ≤ 100000000 }
    ensures { IfOk result (IsRecord source.now code.now shape.now limit) }
{
    let run = record_run(rt, alloc, code, shape, workers, limit, gate)?;
    let ran = told(alloc, code, &run.words, &run.threads, run.end)?;
    let file = write_file(alloc, source, shape.heap, limit, &run.places, &ran.text)?;
    Ok(Ran {
        outcome: ran.outcome,
        text: file,
    })
}
