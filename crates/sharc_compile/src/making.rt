//! Code from flat code.

ghost use Rattle.std.specs.Prelude.{IfOk};
ghost use Rattle.sharc_code.specs.Ranges.{NumbersFit};
ghost use Rattle.sharc_flat.specs.{Framed.IsFramed, Made.flat_of};
ghost use Rattle.sharc_guard.specs.Tables.{FlatTablesFit};
ghost use Rattle.sharc_compile.specs.Made.{IsCodeOf};

use crate::generating::generate;
use sharc_code::Code;
use sharc_flat::Flat;
use sharc_guard::{framed_law, guard, tables_law};
use std::alloc::{AllocError, Global};

/// The code of flat code, without the checks that repeat one. It takes over the tables. Its numbers are in the ranges
/// that the machine asks for, where those of the flat code are.
///
/// An `Err` says that memory was not found, or that the code is too long for the numbers of its places.
pub fn code_of(alloc: Global, flat: Flat) -> Result<Code, AllocError>
    ensures is { IfOk result (λ code. IsCodeOf flat code) }
    ensures numbers { IfOk result (λ code. IsFramed (flat_of flat) → FlatTablesFit flat → NumbersFit code) }
{
    framed_law();
    tables_law();
    let guarded = guard(alloc, flat)?;
    generate(alloc, guarded)
}
