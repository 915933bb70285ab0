//! The exit code of the top call.

ghost use Rattle.std.specs.{Prelude.{◌≡◌, ◌⊎◌, map, string_bytes, IfOk, OnErr}, Process.exit_status};
ghost use Rattle.sharc_io.specs.Causes.{Rose, EitherRose};
ghost use Rattle.sharc_top.specs.{Reply.{ReadsInput, Replied, RepliedInPart}, Status.{IsOfReply, IsOfSilence}};

use sharc_io::{Sink, Source};
use sharc_rounds::Gate;
use sharc_top::sharc_top;
use std::alloc::{AllocError, Global};
use std::process::ExitCode;
use std::sync::Wait;
use std::thread::Threads;

/// The status where the memory for the words is wanting.
const NO_MEMORY: u8 = 11;

/// Does what the words say, and answers the status of the top call, all of whose clauses hold of it. Where the memory
/// for the words was wanting, nothing is read and nothing is written, and the status is 11.
pub fn exit_code<R: Threads + Wait + Sync, G: Gate + Sync, S: Source, O: Sink>(
    rt: &R,
    gate: &G,
    alloc: Global,
    words: Result<Vec<String>, AllocError>,
    input: &mut S,
    out: &mut O,
) -> ExitCode
    ensures status { IsOfReply (exit_status result) ⊎ (exit_status result ≡ 10) ⊎ IsOfSilence (exit_status result) }
    ensures replied { IfOk words (λ words. IsOfReply (exit_status result) → Replied (map string_bytes words.items)
        (S.left input.old) (O.held out.old) (O.held out.new) (exit_status result)) }
    ensures cut_short { IfOk words (λ words. exit_status result ≡ 10
        → RepliedInPart (map string_bytes words.items) (S.left input.old) (O.held out.old) (O.held out.new)) }
    ensures sink_failed { exit_status result ≡ 10
        → EitherRose (O.faults out.old) (O.faults out.new) (O.stalls out.old) (O.stalls out.new) }
    ensures source_failed { exit_status result ≡ 9 → Rose (S.faults input.old) (S.faults input.new) }
    ensures source_read { IfOk words (λ words. exit_status result ≡ 9 → ReadsInput (map string_bytes words.items)) }
    ensures unread { IfOk words (λ words. ¬ (ReadsInput (map string_bytes words.items))
        → (S.left input.new ≡ S.left input.old) × (S.faults input.new ≡ S.faults input.old)) }
    ensures silent { IsOfSilence (exit_status result) → O.held out.new ≡ O.held out.old }
    ensures no_words { OnErr words ((exit_status result ≡ 11) × (S.left input.new ≡ S.left input.old)) }
{
    match words {
        Ok(words) => ExitCode::from(sharc_top(rt, gate, alloc, &words, input, out)),
        Err(_) => ExitCode::from(NO_MEMORY),
    }
}
