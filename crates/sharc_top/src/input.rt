//! The input, or what is written for one that is too long.

ghost use Rattle.std.specs.Prelude.{◌≤◌, ◌<◌, IfOk, IsErrOf};
ghost use Rattle.sharc_io.specs.Causes.{Rose};
ghost use Rattle.sharc_top.specs.Input.{IsInput};

use crate::refused::Failure;
use crate::reply::{Reply, line_reply};
use crate::status::Status;
use sharc_io::{ReadError, Source, read_all};
use std::alloc::Global;

/// All that the source has left, if that is at most `limit` bytes; else the reply that is the line `over`.
pub(crate) fn input_within<S: Source>(
    alloc: Global,
    input: &mut S,
    limit: usize,
    over: &[u8],
) -> Result<Result<Vec<u8>, Reply>, Failure>
    requires { limit < usize.MAX }
    ensures read { IfOk result (IsInput (S.left input.old) limit over.now) }
    ensures fault { IsErrOf result Failure.Source → Rose (S.faults input.old) (S.faults input.new) }
    ensures counted { S.faults input.old ≤ S.faults input.new }
{
    match read_all(alloc, input, limit) {
        Ok(bytes) => Ok(Ok(bytes)),
        Err(ReadError::TooLong) => {
            let refusal = line_reply(alloc, Status::SourceRefused, over)?;
            Ok(Err(refusal))
        }
        Err(ReadError::ReadFault) => Err(Failure::Source),
        Err(ReadError::Memory) => Err(Failure::Memory),
    }
}
