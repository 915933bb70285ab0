//! What `audit` makes of an event file.

ghost use Rattle.std.specs.Prelude.{◌≡◌, ◌≤◌, length, IfOk, IsErrOf};
ghost use Rattle.sharc_io.specs.Causes.{Rose};
ghost use Rattle.sharc_reach.specs.Reaching.{AreReached};
ghost use Rattle.sharc_check.specs.Rules.{MeetsRules};
ghost use Rattle.sharc_audit.specs.{Grammar.text_lines, Files.IsFault};
ghost use Rattle.sharc_top.specs.EventFiles.{status_of, Judges, JudgesSource, IsFewIn, FileReplies, IsFileReply};

use crate::input::input_within;
use crate::refused::{Failure, SOURCE_LIMIT, refusal};
use crate::reply::{Reply, line_reply};
use crate::status::Status;
use crate::verdict::mode_refusal;
use sharc_audit::audit::{Verdict, audit};
use sharc_audit::file::{EventFile, FileFault, read_events};
use sharc_audit::text::{file_fault_text, verdict_text};
use sharc_check::{CheckFault, Checked, check};
use sharc_front_end::{ReachedProgram, Refusal, front};
use sharc_io::Source;
use sharc_mode::moded::Moded;
use sharc_reach::Reached;
use std::alloc::{AllocError, Global};

/// The largest event file, in bytes.
const FILE_LIMIT: usize = 16_777_216;

/// How a call ends that writes this verdict.
fn status_of(verdict: Verdict) -> Status
    ensures { result ≡ status_of verdict }
{
    match verdict {
        Verdict::Obeys(_) => Status::Done,
        Verdict::Fails(_, _) => Status::EventsRefused,
        Verdict::Fuel(_) => Status::FuelSpent,
    }
}

/// The verdict of the events of a program whose modes are accepted.
fn judged(alloc: Global, checked: &Checked, file: &EventFile) -> Result<Reply, AllocError>
    requires { length file.now.events ≤ 4096 }
    ensures { IfOk result (λ reply. Judges checked.now file.now.fuel file.now.events reply.status reply.text.items) }
{
    checked.moded();
    let verdict = audit(alloc, checked, &file.events, file.fuel)?;
    let text = verdict_text(alloc, verdict, file.fuel)?;
    Ok(Reply {
        status: status_of(verdict),
        text,
    })
}

/// What is written for the events of a program with its modes.
fn judged_with(
    alloc: Global,
    program: Moded,
    reached: &Reached,
    file: &EventFile,
) -> Result<Reply, AllocError>
    requires few { length file.now.events ≤ 4096 }
    requires reached { AreReached program.typed reached.now }
    ensures { IfOk result (λ reply. Judges program file.now.fuel file.now.events reply.status reply.text.items) }
{
    match check(alloc, program, reached) {
        Ok(checked) => judged(alloc, &checked, file),
        Err(CheckFault::Modes(program, errors, named)) => {
            mode_refusal(alloc, &program, &named, &errors)
        }
        Err(CheckFault::Memory(_)) => Err(AllocError),
    }
}

/// What is written for the events of a source within the limit.
fn source_judged(alloc: Global, file: &EventFile) -> Result<Reply, AllocError>
    requires few { length file.now.events ≤ 4096 }
    requires short { length file.now.source.items ≤ SOURCE_LIMIT }
    ensures { IfOk result
        (λ reply. JudgesSource file.now.source.items file.now.fuel file.now.events reply.status reply.text.items) }
{
    match front(alloc, &file.source) {
        Ok(ReachedProgram { program, reached }) => judged_with(alloc, program, &reached, file),
        Err(Refusal::Source(fault)) => refusal(alloc, &fault),
        Err(Refusal::Memory) => Err(AllocError),
    }
}

/// What is written for an event file of this input.
fn file_judged(alloc: Global, bytes: &[u8], file: &EventFile) -> Result<Reply, AllocError>
    requires { IsFewIn bytes.now file.now.source.items file.now.fuel file.now.events }
    ensures { IfOk result (λ reply. FileReplies bytes.now reply.status reply.text.items) }
{
    if file.source.len() > SOURCE_LIMIT {
        return line_reply(alloc, Status::SourceRefused, b"source over 1048576 bytes");
    }
    source_judged(alloc, file)
}

/// What is written for an input that is no event file, or one with too many events.
fn file_refusal(alloc: Global, bytes: &[u8], fault: FileFault) -> Result<Reply, AllocError>
    requires short { length bytes.now ≤ FILE_LIMIT }
    requires fault { IsFault (text_lines bytes.now) fault }
    ensures { IfOk result (λ reply. FileReplies bytes.now reply.status reply.text.items) }
{
    let text = file_fault_text(alloc, fault)?;
    Ok(Reply {
        status: Status::SourceRefused,
        text,
    })
}

/// What is written for an input within the limit.
fn input_judged(alloc: Global, bytes: &[u8]) -> Result<Reply, AllocError>
    requires { length bytes.now ≤ FILE_LIMIT }
    ensures { IfOk result (λ reply. FileReplies bytes.now reply.status reply.text.items) }
{
    match read_events(alloc, bytes) {
        Ok(file) => file_judged(alloc, bytes, &file),
        Err(fault) => file_refusal(alloc, bytes, fault),
    }
}

/// The reply to an event file.
pub(crate) fn audited<S: Source>(alloc: Global, input: &mut S) -> Result<Reply, Failure>
    ensures reply { IfOk result (λ reply. IsFileReply (S.left input.old) reply.status reply.text.items) }
    ensures fault { IsErrOf result Failure.Source → Rose (S.faults input.old) (S.faults input.new) }
    ensures counted { S.faults input.old ≤ S.faults input.new }
{
    match input_within(alloc, input, FILE_LIMIT, b"file over 16777216 bytes")? {
        Ok(bytes) => {
            let reply = input_judged(alloc, &bytes)?;
            Ok(reply)
        }
        Err(refusal) => Ok(refusal),
    }
}
