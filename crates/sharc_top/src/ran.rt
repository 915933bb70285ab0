//! What `run` makes of a source.

ghost use Rattle.std.specs.Prelude.{◌≡◌, ◌≤◌, length, IfOk};
ghost use Rattle.sharc_mode.specs.Moded.{Assignment};
ghost use Rattle.sharc_check.specs.Rules.{MeetsRules};
ghost use Rattle.sharc_code.specs.Ranges.{NumbersFit};
ghost use Rattle.sharc_front_end.specs.Compiled.{IsCompiled};
ghost use Rattle.sharc_top.specs.declared.task.SourceTask.TheVariants as task;
ghost use Rattle.sharc_top.specs.{Answers.Answers, Running.{AreNumbers, status_of, IsRun, Runs}};

use crate::built::built;
use crate::refused::SOURCE_LIMIT;
use crate::reply::Reply;
use crate::status::Status;
use sharc_code::Code;
use sharc_rounds::Gate;
use sharc_run::{Outcome, Ran, run_by_seed, run_by_workers, shape_of};
use std::alloc::{AllocError, Global};
use std::mem::forget;
use std::thread::Threads;

/// The numbers of a run.
#[derive(Clone, Copy, Debug, PartialEq, Eq)]
pub struct RunNumbers {
    /// How many workers make the turns: 1 to 16.
    pub workers: u32,
    /// How many granules of 16 bytes the heap has: 16 to 65,536.
    pub granules: u32,
    /// How many events a thread makes at most: 1 to 100,000,000.
    pub events: u64,
    /// The number that draws whose turn is next, if one interleaving is asked for; else workers make the turns.
    pub seed: Option<u64>,
}

/// How a call ends that writes a run which ended so.
pub(crate) fn status_of(outcome: Outcome) -> Status
    ensures { result ≡ status_of outcome }
{
    match outcome {
        Outcome::Done => Status::Done,
        Outcome::Reported => Status::Reported,
        Outcome::Stopped => Status::Stopped,
        Outcome::Stuck => Status::Stuck,
        Outcome::Limit => Status::Limit,
    }
}

/// A run of this code with these numbers.
fn ran<R: Threads + Sync, G: Gate + Sync>(
    rt: &R,
    gate: &G,
    alloc: Global,
    code: &Code,
    numbers: RunNumbers,
) -> Result<Ran, AllocError>
    requires { AreNumbers numbers }
    ensures { IfOk result (IsRun numbers code.now) }
{
    let shape = shape_of(code, numbers.granules);
    match numbers.seed {
        Some(seed) => run_by_seed(alloc, code, &shape, seed, numbers.events),
        None => run_by_workers(
            rt,
            alloc,
            code,
            &shape,
            numbers.workers,
            numbers.events,
            gate,
        ),
    }
}

/// What a run of this code writes.
fn run_reply<R: Threads + Sync, G: Gate + Sync>(
    rt: &R,
    gate: &G,
    alloc: Global,
    code: &Code,
    numbers: RunNumbers,
) -> Result<Reply, AllocError>
    requires { AreNumbers numbers }
    ensures { IfOk result (λ reply. (m : Assignment) → MeetsRules m → IsCompiled m code.now → NumbersFit code.now
        → Runs numbers m reply.status reply.text.items) }
{
    let ran = ran(rt, gate, alloc, code, numbers)?;
    Ok(Reply {
        status: status_of(ran.outcome),
        text: ran.text,
    })
}

/// What `run` writes for a source within the limit.
pub(crate) fn run_source<R: Threads + Sync, G: Gate + Sync>(
    rt: &R,
    gate: &G,
    alloc: Global,
    source: &[u8],
    numbers: RunNumbers,
) -> Result<Reply, AllocError>
    requires numbers { AreNumbers numbers }
    requires short { length source.now ≤ SOURCE_LIMIT }
    ensures { IfOk result (λ reply. Answers (task.Run numbers) source.now reply.status reply.text.items) }
{
    match built(alloc, source)? {
        Ok(built) => {
            let reply = run_reply(rt, gate, alloc, &built.code, numbers);
            forget(built);
            reply
        }
        Err(refusal) => Ok(refusal),
    }
}
