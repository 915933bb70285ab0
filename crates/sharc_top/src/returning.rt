//! The part of the top call that does not wait.

ghost use Rattle.std.specs.Prelude.{◌≡◌, ◌≤◌, ◌⊎◌, List, ℕ, false};
ghost use Rattle.sharc_io.specs.Causes.{Rose, EitherRose};
ghost use Rattle.sharc_cli.specs.Commands.{commands};
ghost use Rattle.sharc_top.specs.{Asked.{IsAsked, may_wait}, Reply.{ReadsInput, Replied, RepliedInPart}};
ghost use Rattle.sharc_top.specs.Status.{IsOfReply, IsOfSilence};

use crate::ending::ended;
use crate::words::reply_to;
use sharc_cli::Command;
use sharc_io::{Sink, Source};
use sharc_rounds::Gate;
use std::alloc::Global;
use std::thread::Threads;

/// The top call, of a command other than `record`, or of words that are no command. It takes no handle for waiting, so
/// it returns.
pub fn without_waiting<R: Threads + Sync, G: Gate + Sync, S: Source, O: Sink>(
    rt: &R,
    gate: &G,
    alloc: Global,
    command: Option<Command>,
    input: &mut S,
    out: &mut O,
) -> u8
    requires asked { IsAsked command }
    requires returns { may_wait command ≡ false }
    ensures status { IsOfReply result ⊎ (result ≡ 10) ⊎ IsOfSilence result }
    ensures replied { IsOfReply result → (words : List (List ℕ)) → commands words ≡ command
        → Replied words (S.left input.old) (O.held out.old) (O.held out.new) result }
    ensures cut_short { result ≡ 10 → (words : List (List ℕ)) → commands words ≡ command
        → RepliedInPart words (S.left input.old) (O.held out.old) (O.held out.new) }
    ensures sink_failed { result ≡ 10
        → EitherRose (O.faults out.old) (O.faults out.new) (O.stalls out.old) (O.stalls out.new) }
    ensures source_failed { result ≡ 9 → Rose (S.faults input.old) (S.faults input.new) }
    ensures source_read { result ≡ 9 → (words : List (List ℕ)) → commands words ≡ command → ReadsInput words }
    ensures silent { IsOfSilence result → O.held out.new ≡ O.held out.old }
    ensures unread { (words : List (List ℕ)) → commands words ≡ command → ¬ (ReadsInput words)
        → (S.left input.new ≡ S.left input.old) × (S.faults input.new ≡ S.faults input.old) }
    ensures source_faults { S.faults input.old ≤ S.faults input.new }
    ensures sink_faults { O.faults out.old ≤ O.faults out.new }
    ensures sink_stalls { O.stalls out.old ≤ O.stalls out.new }
{
    let reply = reply_to(rt, gate, alloc, command, input);
    ended(reply, out)
}
