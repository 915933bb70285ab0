//! Runs by a schedule.

ghost use Rattle.std.specs.Prelude.{◌≤◌, length, IfOk};
ghost use Rattle.sharc_code.specs.Layout.{Fits};
ghost use Rattle.sharc_replay.specs.Run.{IsScheduledRun};

use sharc_code::{Code, Shape};
use sharc_run::{Ran, told};
use sharc_schedule::run_schedule;
use std::alloc::{AllocError, Global};

/// Runs the code by these places: turn `i` is made by the thread at the place that is written for it, if there is one
/// and it is below the number of threads that may make a turn, and else by the first. No thread makes more than `limit`
/// events.
///
/// An `Err` says that memory was not found.
pub fn run_by_schedule(
    alloc: Global,
    code: &Code,
    shape: &Shape,
    places: &[(u32, u32)],
    limit: u64,
) -> Result<Ran, AllocError>
    requires fits { Fits code.now shape.now }
    requires limit { limit ≤ 100000000 }
    requires few { length places.now ≤ 1073741824 }
    ensures { IfOk result (IsScheduledRun code.now shape.now places.now limit) }
{
    let run = run_schedule(alloc, code, shape, places, limit)?;
    told(alloc, code, &run.words, &run.threads, run.end)
}
