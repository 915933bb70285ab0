//! What `replay` makes of a recorded file: the run that its schedule chooses.

ghost use Rattle.std.specs.Prelude.{◌≡◌, ◌≤◌, length, IfOk, IsErrOf};
ghost use Rattle.sharc_io.specs.Causes.{Rose};
ghost use Rattle.sharc_mode.specs.Moded.{Assignment};
ghost use Rattle.sharc_check.specs.Rules.{MeetsRules};
ghost use Rattle.sharc_code.specs.Ranges.{NumbersFit};
ghost use Rattle.sharc_front_end.specs.Compiled.{IsCompiled};
ghost use Rattle.sharc_schedule.specs.{File.{IsFile, AreNumbers}, Shown.{FaultIs, view_of}};
ghost use Rattle.sharc_top.specs.Recording.{Replays, GivesRun, GivesSource, ReplayReplies, IsReplayReply};
ghost use Rattle.sharc_top.specs.Recording.{bad_file_line, IsWithinFile};

use crate::built::built;
use crate::input::input_within;
use crate::ran::status_of;
use crate::refused::{Failure, SOURCE_LIMIT};
use crate::reply::{Reply, line_reply};
use crate::status::Status;
use sharc_code::Code;
use sharc_io::Source;
use sharc_replay::run_by_schedule;
use sharc_run::shape_of;
use sharc_schedule::{FileFault, RecordFile, file_laws, read_file};
use std::alloc::{AllocError, Global};
use std::mem::forget;

/// The largest recorded file, in bytes.
const FILE_LIMIT: usize = 1_073_741_824;

/// The run of this code by the schedule of a file.
fn run_of_file(alloc: Global, code: &Code, file: &RecordFile) -> Result<Reply, AllocError>
    requires { IsWithinFile (view_of file.now) }
    ensures { IfOk result (λ reply. (m : Assignment) → MeetsRules m → IsCompiled m code.now → NumbersFit code.now
        → GivesRun m (Replays (view_of file.now)) reply.status reply.text.items) }
{
    let shape = shape_of(code, file.heap);
    let ran = run_by_schedule(alloc, code, &shape, file.places.as_slice(), file.limit)?;
    Ok(Reply {
        status: status_of(ran.outcome),
        text: ran.text,
    })
}

/// What is written for a file whose source is within the limit.
fn source_replayed(alloc: Global, file: &RecordFile) -> Result<Reply, AllocError>
    requires file { IsWithinFile (view_of file.now) }
    requires short { length file.now.source.items ≤ SOURCE_LIMIT }
    ensures { IfOk result
        (λ reply. GivesSource file.now.source.items (Replays (view_of file.now)) reply.status reply.text.items) }
{
    match built(alloc, &file.source)? {
        Ok(built) => {
            let reply = run_of_file(alloc, &built.code, file);
            forget(built);
            reply
        }
        Err(refusal) => Ok(refusal),
    }
}

/// What is written for the recorded file of this input.
fn file_replayed(alloc: Global, bytes: &[u8], file: &RecordFile) -> Result<Reply, AllocError>
    requires short { length bytes.now ≤ FILE_LIMIT }
    requires file { IsFile bytes.now (view_of file.now) }
    ensures { IfOk result (λ reply. ReplayReplies bytes.now reply.status reply.text.items) }
{
    // For the proof that a file has no more places than bytes.
    file_laws();
    if file.source.len() > SOURCE_LIMIT {
        return line_reply(alloc, Status::SourceRefused, b"source over 1048576 bytes");
    }
    source_replayed(alloc, file)
}

/// The line of an input that is no recorded file.
fn bad_file_text(alloc: Global, line: u32) -> Result<Vec<u8>, AllocError>
    ensures { IfOk result (λ text. text.items ≡ bad_file_line line) }
{
    let mut text = String::new(alloc);
    writeln!(text, "V1 not a recorded run at line {line}")?;
    Ok(text.into_bytes())
}

/// What is written for an input that is no recorded file.
fn file_refusal(alloc: Global, bytes: &[u8], fault: FileFault) -> Result<Reply, AllocError>
    requires short { length bytes.now ≤ FILE_LIMIT }
    requires fault { FaultIs bytes.now fault }
    ensures { IfOk result (λ reply. ReplayReplies bytes.now reply.status reply.text.items) }
{
    match fault {
        FileFault::Line(line) => {
            let text = bad_file_text(alloc, line)?;
            Ok(Reply {
                status: Status::SourceRefused,
                text,
            })
        }
        FileFault::Memory => Err(AllocError),
    }
}

/// What is written for an input within the limit.
fn input_replayed(alloc: Global, bytes: &[u8]) -> Result<Reply, AllocError>
    requires { length bytes.now ≤ FILE_LIMIT }
    ensures { IfOk result (λ reply. ReplayReplies bytes.now reply.status reply.text.items) }
{
    match read_file(alloc, bytes) {
        Ok(file) => file_replayed(alloc, bytes, &file),
        Err(fault) => file_refusal(alloc, bytes, fault),
    }
}

/// The reply to `replay` and the file that is read.
pub(crate) fn replayed<S: Source>(alloc: Global, input: &mut S) -> Result<Reply, Failure>
    ensures reply { IfOk result (λ reply. IsReplayReply (S.left input.old) reply.status reply.text.items) }
    ensures fault { IsErrOf result Failure.Source → Rose (S.faults input.old) (S.faults input.new) }
    ensures counted { S.faults input.old ≤ S.faults input.new }
{
    match input_within(alloc, input, FILE_LIMIT, b"file over 1073741824 bytes")? {
        Ok(bytes) => {
            let reply = input_replayed(alloc, &bytes)?;
            Ok(reply)
        }
        Err(refusal) => Ok(refusal),
    }
}
