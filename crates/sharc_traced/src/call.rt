//! The call of the program.

ghost use Rattle.std.specs.Prelude.{◌≡◌, None, ◌⊎◌, map, string_bytes, codes, IfOk, IfErr, IsSome};
ghost use Rattle.sharc_io.specs.Causes.{Rose, EitherRose};
ghost use Rattle.sharc_top.specs.Text.{line};
ghost use Rattle.sharc_traced.specs.Replies.{form_of, IsPlain, IsTraceReply, Replied, RepliedInPart, IsOfReply};
ghost use Rattle.sharc_traced.specs.Replies.{IsOfSilence};

use crate::reply::{Reply, Stopped, too_long};
use crate::status::Status;
use crate::traced::{FILE_LIMIT, input_traced};
use crate::words::form_of;
use sharc_io::{ReadError, Sink, Source, read_all, write_all};
use sharc_top::reply::line_reply;
use sharc_top::status::Status as AnswerStatus;
use std::alloc::{AllocError, Global};

/// How the call ended, and why not all events were written, if they were not.
#[derive(Clone, Copy)]
pub struct Ended {
    pub status: Status,
    pub why: Option<Stopped>,
}

/// Does what the words say with the recorded file of the input, and writes the text. The file is read only where the
/// words are of this program.
///
/// 0: all events are written. 7: the first events are, and `why` has the number of the next one, and why it is not
/// written. 1 and 2: the input is no recorded file, or its source no accepted program, as `sharc replay` refuses it. 8:
/// the words are not of this program. 9: reading failed. 10: writing failed or stalled. 11: memory was wanting.
pub fn sharc_trace<S: Source, O: Sink>(
    alloc: Global,
    words: &[String],
    input: &mut S,
    out: &mut O,
) -> Ended
    ensures status { IsOfReply result.status ⊎ (result.status ≡ Status.WriteFault) ⊎ IsOfSilence result.status }
    ensures replied { IsOfReply result.status
        → Replied (map string_bytes words.now) (S.left input.old) (O.held out.old) (O.held out.new) result }

    // The sink gave up, in the midst of a reply.
    ensures cut_short { result.status ≡ Status.WriteFault
        → RepliedInPart (map string_bytes words.now) (S.left input.old) (O.held out.old) (O.held out.new) }

    // Only a whole reply says why not all events are written.
    ensures why { IsSome result.why → IsOfReply result.status }

    ensures sink_failed { result.status ≡ Status.WriteFault
        → EitherRose (O.faults out.old) (O.faults out.new) (O.stalls out.old) (O.stalls out.new) }

    ensures source_failed { result.status ≡ Status.ReadFault → Rose (S.faults input.old) (S.faults input.new) }
    ensures silent { IsOfSilence result.status → O.held out.new ≡ O.held out.old }

    // Where the words are not of this program, nothing is read.
    ensures unread { form_of (map string_bytes words.now) ≡ None
        → (S.left input.new ≡ S.left input.old) × (S.faults input.new ≡ S.faults input.old) }
{
    match reply_to(alloc, words, input) {
        Ok(reply) => match write_all(out, &reply.text) {
            Ok(()) => Ended {
                status: reply.status,
                why: reply.why,
            },
            Err(_) => silent(Status::WriteFault),
        },
        Err(status) => silent(status),
    }
}

fn silent(status: Status) -> Ended
    ensures { result ≡ record { status = status; why = None } }
{
    Ended { status, why: None }
}

// The reply, or the status where there is none.
fn reply_to<S: Source>(alloc: Global, words: &[String], input: &mut S) -> Result<Reply, Status>
    ensures reply { IfOk result (IsTraceReply (map string_bytes words.now) (S.left input.old)) }
    ensures written { IfOk result (λ reply. IsOfReply reply.status) }
    ensures none { IfErr result IsOfSilence }
    ensures fault { IfErr result (λ status. status ≡ Status.ReadFault
        → Rose (S.faults input.old) (S.faults input.new)) }
    ensures unread { form_of (map string_bytes words.now) ≡ None
        → (S.left input.new ≡ S.left input.old) × (S.faults input.new ≡ S.faults input.old) }
{
    let Some(form) = form_of(words) else {
        return usage(alloc);
    };
    match read_all(alloc, input, FILE_LIMIT) {
        Ok(bytes) => or_no_memory(input_traced(alloc, form, &bytes)),
        Err(ReadError::TooLong) => or_no_memory(too_long(alloc, b"file over 1073741824 bytes")),
        Err(ReadError::ReadFault) => Err(Status::ReadFault),
        Err(ReadError::Memory) => Err(Status::NoMemory),
    }
}

fn usage(alloc: Global) -> Result<Reply, Status>
    ensures plain { IfOk result (λ reply. IsPlain reply Status.Usage (line (codes "usage: [--places]"))) }
    ensures none { IfErr result (λ status. status ≡ Status.NoMemory) }
{
    match line_reply(alloc, AnswerStatus::Usage, b"usage: [--places]") {
        Ok(reply) => Ok(Reply {
            status: Status::Usage,
            text: reply.text,
            why: None,
        }),
        Err(_) => Err(Status::NoMemory),
    }
}

fn or_no_memory(reply: Result<Reply, AllocError>) -> Result<Reply, Status>
    ensures same { IfOk result (λ value. reply ≡ Ok value) }
    ensures none { IfErr result (λ status. status ≡ Status.NoMemory) }
{
    match reply {
        Ok(reply) => Ok(reply),
        Err(_) => Err(Status::NoMemory),
    }
}
