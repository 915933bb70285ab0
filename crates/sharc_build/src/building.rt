//! What is built of a source.

ghost use Rattle.std.specs.Prelude.{◌≤◌, List, ℕ, length, IfOk};
ghost use Rattle.sharc_reach.specs.Reaching.{AreReached};
ghost use Rattle.sharc_code.specs.Ranges.{NumbersFit};
ghost use Rattle.sharc_flat_laws.specs.Typed.{IsTypedProgram};
ghost use Rattle.sharc_front_end.specs.{Compiled.IsCompiled, Front.IsFront};
ghost use Rattle.sharc_build.specs.Built.{Builds};

use crate::laws::fronts_are_typed;
use sharc_check::named::NamedVariables;
use sharc_check::{CheckFault, Checked, check};
use sharc_code::Code;
use sharc_compile::code_of;
use sharc_flat_laws::laws::{made_tables_fit, typed_is_framed};
use sharc_flatten::flatten;
use sharc_front_end::{ReachedProgram, Refusal, front};
use sharc_mode::error::ModeErrors;
use sharc_mode::moded::Moded;
use sharc_reach::Reached;
use sharc_report::SourceFault;
use std::alloc::{AllocError, Global};

/// A program whose modes are accepted, and its checked code.
pub struct Built {
    pub checked: Checked,
    pub code: Code,
}

impl Drop for Built {
    fn drop(self) {
        let Built { checked, code } = self;
        drop(checked);
        drop(code);
    }
}

/// Why there is no code of a source.
#[derive(Drop)]
pub enum BuildFault {
    /// The first fault of the first stage that has one.
    Source(SourceFault),
    /// The program, all cases of M1 to M11 that arise in it, by place and then by code, and which variables and globals
    /// lock paths name.
    Modes(Moded, ModeErrors, NamedVariables),
    /// There was not enough memory. It is the answer, too, where a number of the code would be too large.
    Memory,
}

/// The checked code of a program with its modes. Its numbers are in their ranges, if the program is typed and
/// well-moded.
///
/// An `Err` says that memory was not found, or that a number of the code would be too large.
fn compile(alloc: Global, program: &Moded) -> Result<Code, AllocError>
    ensures is { IfOk result (IsCompiled program.now) }
    ensures numbers { IfOk result (λ code. IsTypedProgram program.now → NumbersFit code) }
{
    typed_is_framed();
    made_tables_fit();
    let flat = flatten(alloc, program)?;
    code_of(alloc, flat)
}

/// The code of a program whose modes are accepted.
fn coded(alloc: Global, checked: Checked) -> Result<Built, BuildFault>
    ensures { (source : List ℕ) → IsFront source checked → Builds source result }
{
    fronts_are_typed();
    match compile(alloc, checked.moded()) {
        Ok(code) => Ok(Built { checked, code }),
        Err(_) => Err(BuildFault::Memory),
    }
}

/// The code of a program, if its modes are accepted.
fn accepted(alloc: Global, program: Moded, reached: &Reached) -> Result<Built, BuildFault>
    requires { AreReached program.typed reached.now }
    ensures { (source : List ℕ) → IsFront source program → Builds source result }
{
    match check(alloc, program, reached) {
        Ok(checked) => coded(alloc, checked),
        Err(CheckFault::Modes(program, errors, named)) => {
            Err(BuildFault::Modes(program, errors, named))
        }
        Err(CheckFault::Memory(_)) => Err(BuildFault::Memory),
    }
}

/// The checked code of the program that a source is, with its least modes; or the first fault of the first stage that
/// has one, or, if its modes are refused, all the cases that arise.
pub fn build(alloc: Global, source: &[u8]) -> Result<Built, BuildFault>
    requires { length source.now ≤ 1_048_576 }
    ensures { Builds source.now result }
{
    match front(alloc, source) {
        Ok(ReachedProgram { program, reached }) => accepted(alloc, program, &reached),
        Err(Refusal::Source(fault)) => Err(BuildFault::Source(fault)),
        Err(Refusal::Memory) => Err(BuildFault::Memory),
    }
}
