//! From the words and the input to what is written.

ghost use Rattle.std.specs.Prelude.{◌≡◌, ◌≤◌, List, ℕ, Some, false, length, IfOk, IsErrOf};
ghost use Rattle.sharc_io.specs.Causes.{Rose};
ghost use Rattle.sharc_cli.specs.Commands.{commands};
ghost use Rattle.sharc_top.specs.declared.task.SourceTask.TheVariants as task;
ghost use Rattle.sharc_top.specs.{Answers.Answers, Asked.{IsAsked, may_wait}, Reply.{task_in, ReadsInput, IsReply}};
ghost use Rattle.sharc_top.specs.Verdict.{IsTask};

use crate::audited::audited;
use crate::input::input_within;
use crate::loaded::loaded;
use crate::ran::{RunNumbers, run_source};
use crate::refused::{Failure, SOURCE_LIMIT, refusal};
use crate::replayed::replayed;
use crate::reply::{Reply, line_reply};
use crate::status::Status;
use crate::task::SourceTask;
use crate::verdict::{checked, explained};
use sharc_cli::Command;
use sharc_cli::laws::numbers_are_within;
use sharc_front_end::{ReachedProgram, Refusal, front};
use sharc_io::Source;
use sharc_rounds::Gate;
use std::alloc::{AllocError, Global};
use std::thread::Threads;

/// What the words may be.
const USAGE: &[u8] =
    b"usage: check | explain | run [--workers N] [--granules N] [--events N] [--seed N] | load N [--workers N] | record [--workers N] [--granules N] [--events N] | replay | audit";

/// What `check` writes for a source within the limit.
fn source_checked(alloc: Global, source: &[u8]) -> Result<Reply, AllocError>
    requires { length source.now ≤ SOURCE_LIMIT }
    ensures { IfOk result (λ reply. Answers task.Check source.now reply.status reply.text.items) }
{
    match front(alloc, source) {
        Ok(ReachedProgram { program, reached }) => checked(alloc, program, &reached),
        Err(Refusal::Source(fault)) => refusal(alloc, &fault),
        Err(Refusal::Memory) => Err(AllocError),
    }
}

/// What `explain` writes for a source within the limit.
fn source_explained(alloc: Global, source: &[u8]) -> Result<Reply, AllocError>
    requires { length source.now ≤ SOURCE_LIMIT }
    ensures { IfOk result (λ reply. Answers task.Explain source.now reply.status reply.text.items) }
{
    match front(alloc, source) {
        Ok(ReachedProgram { program, reached }) => explained(alloc, program, &reached),
        Err(Refusal::Source(fault)) => refusal(alloc, &fault),
        Err(Refusal::Memory) => Err(AllocError),
    }
}

/// What is written for a source within the limit.
pub(crate) fn answer<R: Threads + Sync, G: Gate + Sync>(
    rt: &R,
    gate: &G,
    alloc: Global,
    task: SourceTask,
    source: &[u8],
) -> Result<Reply, AllocError>
    requires task { IsTask task }
    requires short { length source.now ≤ SOURCE_LIMIT }
    ensures { IfOk result (λ reply. Answers task source.now reply.status reply.text.items) }
{
    match task {
        SourceTask::Check => source_checked(alloc, source),
        SourceTask::Explain => source_explained(alloc, source),
        SourceTask::Run(numbers) => run_source(rt, gate, alloc, source, numbers),
    }
}

/// The reply to words that ask for this of the source that is read.
fn answered<R: Threads + Sync, G: Gate + Sync, S: Source>(
    rt: &R,
    gate: &G,
    alloc: Global,
    task: SourceTask,
    input: &mut S,
) -> Result<Reply, Failure>
    requires { IsTask task }
    ensures reply { IfOk result (λ reply. (words : List (List ℕ)) → task_in (commands words) ≡ Some task
        → IsReply words (S.left input.old) reply.status reply.text.items) }
    ensures fault { IsErrOf result Failure.Source → Rose (S.faults input.old) (S.faults input.new) }
    ensures counted { S.faults input.old ≤ S.faults input.new }
{
    match input_within(alloc, input, SOURCE_LIMIT, b"source over 1048576 bytes")? {
        Ok(source) => {
            let reply = answer(rt, gate, alloc, task, &source)?;
            Ok(reply)
        }
        Err(refusal) => Ok(refusal),
    }
}

/// The reply to a command other than `record`, or to words that are no command, and to the input. The input is read
/// only where there is a command, and not `load`.
pub fn reply_to<R: Threads + Sync, G: Gate + Sync, S: Source>(
    rt: &R,
    gate: &G,
    alloc: Global,
    command: Option<Command>,
    input: &mut S,
) -> Result<Reply, Failure>
    requires asked { IsAsked command }
    requires returns { may_wait command ≡ false }
    ensures reply { IfOk result (λ reply. (words : List (List ℕ)) → commands words ≡ command
        → IsReply words (S.left input.old) reply.status reply.text.items) }
    ensures command { IsErrOf result Failure.Source
        → (words : List (List ℕ)) → commands words ≡ command → ReadsInput words }
    ensures fault { IsErrOf result Failure.Source → Rose (S.faults input.old) (S.faults input.new) }
    ensures counted { S.faults input.old ≤ S.faults input.new }
    ensures unread { (words : List (List ℕ)) → commands words ≡ command → ¬ (ReadsInput words)
        → (S.left input.new ≡ S.left input.old) × (S.faults input.new ≡ S.faults input.old) }
{
    numbers_are_within();
    let Some(command) = command else {
        let usage = line_reply(alloc, Status::Usage, USAGE)?;
        return Ok(usage);
    };
    match command {
        Command::Check => answered(rt, gate, alloc, SourceTask::Check, input),
        Command::Explain => answered(rt, gate, alloc, SourceTask::Explain, input),
        Command::Run {
            workers,
            granules,
            events,
            seed,
        } => {
            let numbers = RunNumbers {
                workers: workers as u32,
                granules: granules as u32,
                events,
                seed,
            };
            answered(rt, gate, alloc, SourceTask::Run(numbers), input)
        }
        Command::Load { number, workers } => {
            let reply = loaded(rt, gate, alloc, number as u32, workers as u32)?;
            Ok(reply)
        }
        Command::Replay => replayed(alloc, input),
        Command::Audit => audited(alloc, input),
        Command::Record { .. } => unreachable!(),
    }
}
