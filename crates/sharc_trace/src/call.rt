//! The call over words that may not have been found, and the exit code.

ghost use Rattle.std.specs.{Prelude.{◌≡◌, ◌⊎◌, None, map, string_bytes, IfOk, IsSome, OnErr}, Process.exit_status};
ghost use Rattle.sharc_io.specs.Causes.{Rose, EitherRose};
ghost use Rattle.sharc_traced.specs.Replies.{code_of, form_of, Replied, RepliedInPart, IsOfReply, IsOfSilence};

use sharc_io::{Sink, Source};
use sharc_traced::{Ended, Status, sharc_trace};
use std::alloc::{AllocError, Global};
use std::process::ExitCode;

/// Does what the words say, and answers how the call ended, all of whose clauses hold of it. Where the memory for the
/// words was wanting, nothing is read and nothing is written.
pub fn traced<S: Source, O: Sink>(
    alloc: Global,
    words: Result<Vec<String>, AllocError>,
    input: &mut S,
    out: &mut O,
) -> Ended
    ensures status { IsOfReply result.status ⊎ (result.status ≡ Status.WriteFault) ⊎ IsOfSilence result.status }
    ensures replied { IfOk words (λ words. IsOfReply result.status
        → Replied (map string_bytes words.items) (S.left input.old) (O.held out.old) (O.held out.new) result) }
    ensures cut_short { IfOk words (λ words. result.status ≡ Status.WriteFault
        → RepliedInPart (map string_bytes words.items) (S.left input.old) (O.held out.old) (O.held out.new)) }
    ensures why { IsSome result.why → IsOfReply result.status }
    ensures sink_failed { result.status ≡ Status.WriteFault
        → EitherRose (O.faults out.old) (O.faults out.new) (O.stalls out.old) (O.stalls out.new) }
    ensures source_failed { result.status ≡ Status.ReadFault → Rose (S.faults input.old) (S.faults input.new) }
    ensures unread { IfOk words (λ words. form_of (map string_bytes words.items) ≡ None
        → (S.left input.new ≡ S.left input.old) × (S.faults input.new ≡ S.faults input.old)) }
    ensures silent { IsOfSilence result.status → O.held out.new ≡ O.held out.old }
    ensures no_words { OnErr words ((result.status ≡ Status.NoMemory) × (S.left input.new ≡ S.left input.old)) }
{
    match words {
        Ok(words) => sharc_trace(alloc, &words, input, out),
        Err(_) => Ended {
            status: Status::NoMemory,
            why: None,
        },
    }
}

/// The exit code of a call that ended so.
pub fn exit_code(ended: Ended) -> ExitCode
    ensures { exit_status result ≡ code_of ended.status }
{
    ExitCode::from(ended.status.code())
}
