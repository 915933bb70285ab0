//! What `load` makes: its source, and a run of it.

ghost use Rattle.std.specs.Prelude.{◌≡◌, ◌≤◌, ◌+◌, ◌++◌, length, IfOk};
ghost use Rattle.sharc_load.specs.Source.{source_of};
ghost use Rattle.sharc_top.specs.{Loading.{size_lines, LoadReplies}, Answers.Answers};

use crate::ran::RunNumbers;
use crate::refused::SOURCE_LIMIT;
use crate::reply::{Reply, line_reply};
use crate::status::Status;
use crate::task::SourceTask;
use crate::words::answer;
use sharc_load::make;
use sharc_rounds::Gate;
use std::alloc::{AllocError, Global};
use std::thread::Threads;

/// The lines with the size of a source: its bytes and its functions.
fn size_text(alloc: Global, bytes: usize, functions: u32) -> Result<Vec<u8>, AllocError>
    ensures { IfOk result (λ text. text.items ≡ size_lines bytes functions) }
{
    let mut text = String::new(alloc);
    writeln!(text, "bytes {bytes}")?;
    writeln!(text, "functions {functions}")?;
    Ok(text.into_bytes())
}

/// What is written of a source with this many functions beside `main` and `work`: its size, and then what `run` writes
/// for it.
pub(crate) fn loaded<R: Threads + Sync, G: Gate + Sync>(
    rt: &R,
    gate: &G,
    alloc: Global,
    number: u32,
    workers: u32,
) -> Result<Reply, AllocError>
    requires least { 1 ≤ number }
    requires most { number ≤ 10000 }
    requires some_worker { 1 ≤ workers }
    requires few_workers { workers ≤ 16 }
    ensures { IfOk result (λ reply. LoadReplies number workers reply.status reply.text.items) }
{
    let source = make(alloc, number)?;
    if source.len() > SOURCE_LIMIT {
        return line_reply(alloc, Status::SourceRefused, b"source over 1048576 bytes");
    }
    let mut text = size_text(alloc, source.len(), number + 2)?;
    let task = SourceTask::Run(RunNumbers {
        workers,
        granules: 4096,
        events: 1_000_000,
        seed: None,
    });
    let reply = answer(rt, gate, alloc, task, &source)?;
    text.extend_from_slice(&reply.text)?;
    Ok(Reply {
        status: reply.status,
        text,
    })
}
