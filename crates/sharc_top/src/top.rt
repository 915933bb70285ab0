//! The top call.

ghost use Rattle.std.specs.Prelude.{◌≡◌, ◌≤◌, ◌⊎◌, map, string_bytes};
ghost use Rattle.sharc_io.specs.Causes.{Rose, EitherRose};
ghost use Rattle.sharc_top.specs.{Reply.{ReadsInput, Replied, RepliedInPart}, Status.{IsOfReply, IsOfSilence}};

use crate::ending::ended;
use crate::recorded::recorded;
use crate::returning::without_waiting;
use crate::status::Status;
use sharc_cli::laws::numbers_are_within;
use sharc_cli::{Command, read_words};
use sharc_io::{Sink, Source};
use sharc_rounds::Gate;
use std::alloc::Global;
use std::sync::Wait;
use std::thread::Threads;

/// Does what the words say with the input, writes the reply line by line, and answers the exit status. `rt` starts the
/// workers of a run, and the gate is asked before each step of theirs.
///
/// 0: the modes are accepted, each thread that ran is gone, or the events of the file are a run of its source that
/// obeys its modes. 1: the modes are refused. 2: the source is too long, or is no program, or the text is no event file
/// or no recorded one. 3: a thread reported an access or a cast (A1 to A4). 4: none did, and one was stopped (X1 to
/// X13). 5: neither, and the run is stuck. 6: none of these, and a thread has made all the events that it may. 8: the
/// words are no command, and nothing was read. 9: reading failed. 10: writing failed or stalled, and a front part of
/// the reply was written, but not all of it. 11: memory was wanting. 12: an event is the first that is not asked for,
/// not legal, or against a rule of the modes. 13: the fuel of its thread is spent before it.
///
/// What a reply to `run`, `load`, `record` or `replay` tells of its source, where the modes are accepted, is one
/// record: `ReplyTells` of sharc_reply_laws. What each checked run of the code of a source tells of it is `RunTells`
/// there.
///
/// `record` alone waits, and may not return: everything else is done by `without_waiting`.
pub fn sharc_top<R: Threads + Wait + Sync, G: Gate + Sync, S: Source, O: Sink>(
    rt: &R,
    gate: &G,
    alloc: Global,
    words: &[String],
    input: &mut S,
    out: &mut O,
) -> u8
    ensures status { IsOfReply result ⊎ (result ≡ 10) ⊎ IsOfSilence result }
    ensures replied { IsOfReply result
        → Replied (map string_bytes words.now) (S.left input.old) (O.held out.old) (O.held out.new) result }

    // The sink gave up, in the midst of a reply.
    ensures cut_short { result ≡ 10
        → RepliedInPart (map string_bytes words.now) (S.left input.old) (O.held out.old) (O.held out.new) }
    ensures sink_failed { result ≡ 10
        → EitherRose (O.faults out.old) (O.faults out.new) (O.stalls out.old) (O.stalls out.new) }

    // The source failed, of a command that reads it.
    ensures source_failed { result ≡ 9 → Rose (S.faults input.old) (S.faults input.new) }
    ensures source_read { result ≡ 9 → ReadsInput (map string_bytes words.now) }

    ensures silent { IsOfSilence result → O.held out.new ≡ O.held out.old }

    // Where the words are no such command, nothing is read.
    ensures unread { ¬ (ReadsInput (map string_bytes words.now))
        → (S.left input.new ≡ S.left input.old) × (S.faults input.new ≡ S.faults input.old) }

    ensures source_faults { S.faults input.old ≤ S.faults input.new }
    ensures sink_faults { O.faults out.old ≤ O.faults out.new }
    ensures sink_stalls { O.stalls out.old ≤ O.stalls out.new }
{
    numbers_are_within();
    match read_words(alloc, words) {
        Ok(
            Some(
                Command::Record {
                    workers,
                    granules,
                    events,
                },
            ),
        ) => {
            let reply = recorded(rt, gate, alloc, workers, granules, events, input);
            ended(reply, out)
        }
        Ok(command) => without_waiting(rt, gate, alloc, command, input, out),
        Err(_) => Status::NoMemory.code(),
    }
}
