//! What is written of a recorded file.

ghost use Rattle.std.specs.Prelude.{◌≡◌, ◌≤◌, List, length, IfOk};
ghost use Rattle.sharc_code.specs.{declared.shape.Shape.Shape, Runs.Turn};
ghost use Rattle.sharc_history.specs.History.{IsAccountOf};
ghost use Rattle.sharc_schedule.specs.{File.IsFile, Shown.{FaultIs, view_of}};
ghost use Rattle.sharc_top.specs.Recording.{IsWithinFile, bad_file_line};
ghost use Rattle.sharc_traced.specs.Replies.{IsFileOfRun, IsPlacesOf, IsTraced, FileReplies, InputReplies};

use crate::cut::front_of;
use crate::file::file_text;
use crate::file_laws::lines_are_of_sources;
use crate::reply::{Reply, answered, status_of, too_long, why_of};
use crate::status::Status;
use crate::words::Form;
use sharc_build::Built;
use sharc_code::Code;
use sharc_history::{History, history_by_schedule, places_text};
use sharc_run::shape_of;
use sharc_schedule::{FileFault, RecordFile, file_laws, read_file};
use sharc_top::built::built;
use sharc_top::status::Status as AnswerStatus;
use std::alloc::{AllocError, Global};

/// The largest recorded file, in bytes.
pub(crate) const FILE_LIMIT: usize = 1_073_741_824;

/// The largest source, in bytes.
const SOURCE_LIMIT: usize = 1_048_576;

// The event file of a run.
fn file_reply(
    alloc: Global,
    built: &Built,
    source: &[u8],
    run: &History,
) -> Result<Reply, AllocError>
    ensures { IfOk result (λ reply. (s : Shape) (turns : List Turn) → IsAccountOf built.now.code s turns run.now
        → IsFileOfRun built.now.checked built.now.code source.now s turns reply) }
{
    lines_are_of_sources();
    let events = run.events.as_slice();
    let front = front_of(alloc, &built.checked, events)?;
    let typed = built.checked.moded().typed();
    let text = file_text(alloc, typed, source, &events[..front.count])?;
    Ok(Reply {
        status: status_of(front.cut),
        text,
        why: why_of(front),
    })
}

// The lines of a run in the words of its source.
fn places_reply(alloc: Global, code: &Code, run: &History) -> Result<Reply, AllocError>
    ensures { IfOk result (λ reply. (s : Shape) (turns : List Turn) → IsAccountOf code.now s turns run.now
        → IsPlacesOf code.now s turns reply) }
{
    let text = places_text(alloc, code, run)?;
    Ok(Reply {
        status: Status::Whole,
        text,
        why: None,
    })
}

// What is written of the run of this code by the schedule of a file.
fn run_traced(
    alloc: Global,
    form: Form,
    built: &Built,
    file: &RecordFile,
) -> Result<Reply, AllocError>
    requires { IsWithinFile (view_of file.now) }
    ensures { IfOk result (IsTraced form (view_of file.now) built.now) }
{
    let code = &built.code;
    let shape = shape_of(code, file.heap);
    let run = history_by_schedule(alloc, code, &shape, file.places.as_slice(), file.limit)?;
    match form {
        Form::File => file_reply(alloc, built, &file.source, &run),
        Form::Places => places_reply(alloc, code, &run),
    }
}

// What is written for a file whose source is within the limit.
fn source_traced(alloc: Global, form: Form, file: &RecordFile) -> Result<Reply, AllocError>
    requires file { IsWithinFile (view_of file.now) }
    requires short { length file.now.source.items ≤ SOURCE_LIMIT }
    ensures { IfOk result (FileReplies form (view_of file.now)) }
{
    match built(alloc, &file.source)? {
        Ok(built) => run_traced(alloc, form, &built, file),
        Err(answer) => Ok(answered(answer)),
    }
}

// What is written for the recorded file of this input.
fn file_traced(
    alloc: Global,
    form: Form,
    bytes: &[u8],
    file: &RecordFile,
) -> Result<Reply, AllocError>
    requires short { length bytes.now ≤ FILE_LIMIT }
    requires file { IsFile bytes.now (view_of file.now) }
    ensures { IfOk result (InputReplies form bytes.now) }
{
    // For the proof that a file has no more places than bytes.
    file_laws();
    if file.source.len() > SOURCE_LIMIT {
        return too_long(alloc, b"source over 1048576 bytes");
    }
    source_traced(alloc, form, file)
}

// The line of an input that is no recorded file.
fn bad_file_text(alloc: Global, line: u32) -> Result<Vec<u8>, AllocError>
    ensures { IfOk result (λ text. text.items ≡ bad_file_line line) }
{
    let mut text = String::new(alloc);
    writeln!(text, "V1 not a recorded run at line {line}")?;
    Ok(text.into_bytes())
}

// What is written for an input that is no recorded file.
fn file_refusal(
    alloc: Global,
    form: Form,
    bytes: &[u8],
    fault: FileFault,
) -> Result<Reply, AllocError>
    requires { FaultIs bytes.now fault }
    ensures { IfOk result (InputReplies form bytes.now) }
{
    match fault {
        FileFault::Line(line) => {
            let text = bad_file_text(alloc, line)?;
            Ok(Reply {
                status: Status::Refused(AnswerStatus::SourceRefused),
                text,
                why: None,
            })
        }
        FileFault::Memory => Err(AllocError),
    }
}

/// What is written for an input within the limit.
///
/// An `Err` says that memory was not found.
pub(crate) fn input_traced(alloc: Global, form: Form, bytes: &[u8]) -> Result<Reply, AllocError>
    requires { length bytes.now ≤ FILE_LIMIT }
    ensures { IfOk result (InputReplies form bytes.now) }
{
    match read_file(alloc, bytes) {
        Ok(file) => file_traced(alloc, form, bytes, &file),
        Err(fault) => file_refusal(alloc, form, bytes, fault),
    }
}
