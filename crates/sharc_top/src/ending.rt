//! How a call ends: the reply written, and the exit status.

ghost use Rattle.std.specs.Prelude.{◌≡◌, ◌≤◌, ◌⊎◌, Err, IfOk};
ghost use Rattle.sharc_io.specs.Causes.{EitherRose};
ghost use Rattle.sharc_top.specs.{Ending.{WritesAll, WritesPart}, Status.{code_of, IsOfReply, IsOfSilence}};

use crate::refused::Failure;
use crate::reply::Reply;
use crate::status::Status;
use crate::text::write_lines;
use sharc_io::Sink;

/// Writes a reply line by line, and answers the exit status; or that of a failure, for which nothing is written.
pub(crate) fn ended<O: Sink>(reply: Result<Reply, Failure>, out: &mut O) -> u8
    requires { IfOk reply (λ reply. IsOfReply (code_of reply.status)) }
    ensures status { IsOfReply result ⊎ (result ≡ 10) ⊎ IsOfSilence result }
    ensures whole { IsOfReply result → WritesAll reply (O.held out.old) (O.held out.new) result }
    ensures cut_short { result ≡ 10 → WritesPart reply (O.held out.old) (O.held out.new) }
    ensures sink_failed { result ≡ 10
        → EitherRose (O.faults out.old) (O.faults out.new) (O.stalls out.old) (O.stalls out.new) }
    ensures source_failed { result ≡ 9 → reply ≡ Err Failure.Source }
    ensures silent { IsOfSilence result → O.held out.new ≡ O.held out.old }
    ensures sink_faults { O.faults out.old ≤ O.faults out.new }
    ensures sink_stalls { O.stalls out.old ≤ O.stalls out.new }
{
    match reply {
        Ok(reply) => match write_lines(out, &reply.text) {
            Ok(()) => reply.status.code(),
            Err(_) => Status::WriteFault.code(),
        },
        Err(Failure::Source) => Status::ReadFault.code(),
        Err(Failure::Memory) => Status::NoMemory.code(),
    }
}
