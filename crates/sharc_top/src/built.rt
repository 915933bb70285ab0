//! The checked code of a source, or what is written where there is none.

ghost use Rattle.std.specs.Prelude.{◌≤◌, length, IfOk};
ghost use Rattle.sharc_top.specs.Refused.{IsBuiltOrRefused};

use crate::refused::{SOURCE_LIMIT, refusal};
use crate::reply::Reply;
use crate::verdict::mode_refusal;
use sharc_build::{BuildFault, Built, build};
use std::alloc::{AllocError, Global};

/// The program that a source within the limit is, with its code; or what is written where the source has a fault or its
/// modes are refused.
pub fn built(alloc: Global, source: &[u8]) -> Result<Result<Built, Reply>, AllocError>
    requires { length source.now ≤ SOURCE_LIMIT }
    ensures { IfOk result (IsBuiltOrRefused source.now) }
{
    match build(alloc, source) {
        Ok(built) => Ok(Ok(built)),
        Err(BuildFault::Source(fault)) => {
            let refusal = refusal(alloc, &fault)?;
            Ok(Err(refusal))
        }
        Err(BuildFault::Modes(program, errors, named)) => {
            let refusal = mode_refusal(alloc, &program, &named, &errors)?;
            Ok(Err(refusal))
        }
        Err(BuildFault::Memory) => Err(AllocError),
    }
}
