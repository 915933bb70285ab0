//! Writing all of some bytes.

ghost use Rattle.std.specs.{Prelude.{◌<◌, ◌≤◌, length, take, OnOk, OnErr, IfErr}, Io.KnownBytes.Appends};
ghost use Rattle.sharc_io.specs.Causes.{EitherRose};

use crate::{Failed, Sink};
use thiserror::Error;

/// Not all of some bytes were written.
#[derive(Clone, Copy, Debug, PartialEq, Eq, Error)]
#[error("writing failed after {written} bytes")]
pub struct WriteFault {
    /// How many bytes the sink had taken: those before them in order went out, and none after.
    pub written: usize,
}

/// Writes all the bytes. It takes no memory where the sink takes none.
pub fn write_all<O: Sink>(sink: &mut O, bytes: &[u8]) -> Result<(), WriteFault>
    ensures all { OnOk result (Appends (O.held sink.old) (O.held sink.new) bytes.now) }
    ensures part { IfErr result (λ fault. Appends (O.held sink.old) (O.held sink.new) (take fault.written bytes.now)) }
    ensures short { IfErr result (λ fault. fault.written < length bytes.now) }

    // It gives up only where one of the sink's two counts rose in this call.
    ensures cause { OnErr result
        (EitherRose (O.faults sink.old) (O.faults sink.new) (O.stalls sink.old) (O.stalls sink.new)) }
    ensures faults { O.faults sink.old ≤ O.faults sink.new }
    ensures stalls { O.stalls sink.old ≤ O.stalls sink.new }
{
    let mut written = 0;
    while written < bytes.len() {
        match sink.write(&bytes[written..]) {
            Ok(0) | Err(Failed) => return Err(WriteFault { written }),
            Ok(count) => written += count,
        }
    }
    Ok(())
}
