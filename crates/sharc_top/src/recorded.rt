//! What `record` makes of a source: the file of a run of it.

ghost use Rattle.std.specs.Prelude.{◌≡◌, ◌≤◌, length, IfOk, IsErrOf};
ghost use Rattle.sharc_io.specs.Causes.{Rose};
ghost use Rattle.sharc_mode.specs.Moded.{Assignment};
ghost use Rattle.sharc_check.specs.Rules.{MeetsRules};
ghost use Rattle.sharc_code.specs.Ranges.{NumbersFit};
ghost use Rattle.sharc_front_end.specs.Compiled.{IsCompiled};
ghost use Rattle.sharc_cli.specs.Bounds.{IsWithin};
ghost use Rattle.sharc_top.specs.Recording.{Records, GivesRun, GivesSource, RecordReplies, IsRecordReply};
ghost use Rattle.sharc_top.specs.Recording.{AreRecordNumbers};

use crate::built::built;
use crate::input::input_within;
use crate::ran::status_of;
use crate::refused::{Failure, SOURCE_LIMIT};
use crate::reply::Reply;
use sharc_code::Code;
use sharc_io::Source;
use sharc_replay::record_by_workers;
use sharc_rounds::Gate;
use sharc_run::shape_of;
use std::alloc::{AllocError, Global};
use std::mem::forget;
use std::sync::Wait;
use std::thread::Threads;

/// The numbers of a recorded run.
#[derive(Clone, Copy, Debug, PartialEq, Eq)]
pub struct RecordNumbers {
    /// How many workers make the turns: 1 to 16.
    pub workers: u32,
    /// How many granules of 16 bytes the heap has: 16 to 65,536.
    pub granules: u32,
    /// How many events a thread makes at most: 1 to 200,000.
    pub events: u64,
}

/// The file of a run of this code, which is that of a source.
fn file_of_run<R: Threads + Wait + Sync, G: Gate + Sync>(
    rt: &R,
    gate: &G,
    alloc: Global,
    code: &Code,
    source: &[u8],
    numbers: RecordNumbers,
) -> Result<Reply, AllocError>
    requires { AreRecordNumbers numbers }
    ensures { IfOk result (λ reply. (m : Assignment) → MeetsRules m → IsCompiled m code.now → NumbersFit code.now
        → GivesRun m (Records source.now numbers.granules numbers.events) reply.status reply.text.items) }
{
    let shape = shape_of(code, numbers.granules);
    let ran = record_by_workers(
        rt,
        alloc,
        source,
        code,
        &shape,
        numbers.workers,
        numbers.events,
        gate,
    )?;
    Ok(Reply {
        status: status_of(ran.outcome),
        text: ran.text,
    })
}

/// What is written for a source within the limit.
fn source_recorded<R: Threads + Wait + Sync, G: Gate + Sync>(
    rt: &R,
    gate: &G,
    alloc: Global,
    source: &[u8],
    numbers: RecordNumbers,
) -> Result<Reply, AllocError>
    requires numbers { AreRecordNumbers numbers }
    requires short { length source.now ≤ SOURCE_LIMIT }
    ensures { IfOk result (λ reply.
        GivesSource source.now (Records source.now numbers.granules numbers.events) reply.status reply.text.items) }
{
    match built(alloc, source)? {
        Ok(built) => {
            let reply = file_of_run(rt, gate, alloc, &built.code, source, numbers);
            forget(built);
            reply
        }
        Err(refusal) => Ok(refusal),
    }
}

/// The reply to `record` with these numbers and the source that is read.
pub(crate) fn recorded<R: Threads + Wait + Sync, G: Gate + Sync, S: Source>(
    rt: &R,
    gate: &G,
    alloc: Global,
    workers: u64,
    granules: u64,
    events: u64,
    input: &mut S,
) -> Result<Reply, Failure>
    requires workers { IsWithin 1 16 workers }
    requires granules { IsWithin 16 65536 granules }
    requires events { IsWithin 1 200000 events }
    ensures reply { IfOk result
        (λ reply. IsRecordReply granules events (S.left input.old) reply.status reply.text.items) }
    ensures fault { IsErrOf result Failure.Source → Rose (S.faults input.old) (S.faults input.new) }
    ensures counted { S.faults input.old ≤ S.faults input.new }
{
    let numbers = RecordNumbers {
        workers: workers as u32,
        granules: granules as u32,
        events,
    };
    match input_within(alloc, input, SOURCE_LIMIT, b"source over 1048576 bytes")? {
        Ok(source) => {
            let reply = source_recorded(rt, gate, alloc, &source, numbers)?;
            Ok(reply)
        }
        Err(refusal) => Ok(refusal),
    }
}
