//! What `check` says of a program, with the casts that it suggests.
//!
//! What is large is let go of by `drop`, which is proved once for any value: a value that goes out of scope is proved
//! to be dropped part by part.

ghost use Rattle.sharc_reach.specs.Reaching.{AreReached};
ghost use Rattle.sharc_check.specs.Named.{TellNamed};

use sharc_check::named::NamedVariables;
use sharc_check::{CheckFault, Checked, check};
use sharc_live::nulled_uses;
use sharc_mode::error::{Cast, ModeErrors};
use sharc_mode::moded::Moded;
use sharc_reach::{Reached, reach};
use sharc_report::{accepted_text, check_text};
use sharc_suggest::suggest_all;
use std::alloc::{AllocError, Global};

/// A program whose modes are refused, with its errors and beside each the cast that is suggested for it.
#[derive(Drop)]
pub(crate) struct Refusal {
    pub(crate) program: Moded,
    pub(crate) errors: ModeErrors,
    pub(crate) casts: Vec<Option<Cast>>,
}

/// What the checker says of a program.
#[derive(Drop)]
pub(crate) enum Answer {
    Accepted(Checked),
    Refused(Refusal),
}

/// A refused program with the casts that are suggested for its errors.
fn refused(
    alloc: Global,
    program: Moded,
    errors: ModeErrors,
    named: NamedVariables,
) -> Result<Answer, AllocError>
    requires { TellNamed program named }
{
    let suggested = suggest_all(alloc, &program, &named, &errors);
    drop(named);
    match suggested {
        Ok(casts) => Ok(Answer::Refused(Refusal {
            program,
            errors,
            casts,
        })),
        Err(end) => {
            drop(program);
            drop(errors);
            Err(end)
        }
    }
}

/// What the checker says of a program in which this is reached.
fn said_where(alloc: Global, program: Moded, reached: &Reached) -> Result<Answer, AllocError>
    requires { AreReached program.typed reached.now }
{
    match check(alloc, program, reached) {
        Ok(checked) => Ok(Answer::Accepted(checked)),
        Err(CheckFault::Memory(program)) => {
            drop(program);
            Err(AllocError)
        }
        Err(CheckFault::Modes(program, errors, named)) => refused(alloc, program, errors, named),
    }
}

/// What the checker says of a program.
pub(crate) fn said(alloc: Global, program: Moded) -> Result<Answer, AllocError> {
    match reach(alloc, program.typed()) {
        Ok(reached) => {
            let said = said_where(alloc, program, &reached);
            drop(reached);
            said
        }
        Err(end) => {
            drop(program);
            Err(end)
        }
    }
}

/// A program that is accepted, with its warnings.
fn accepted(alloc: Global, c: &Checked) -> Result<Vec<u8>, AllocError> {
    let warnings = nulled_uses(alloc, c)?;
    let text = accepted_text(alloc, c.moded(), &warnings);
    drop(warnings);
    text
}

/// The verdict over a program.
pub(crate) fn judged(alloc: Global, program: Moded) -> Result<Vec<u8>, AllocError> {
    match said(alloc, program)? {
        Answer::Accepted(checked) => {
            let text = accepted(alloc, &checked);
            drop(checked);
            text
        }
        Answer::Refused(refused) => {
            let text = check_text(
                alloc,
                &refused.program,
                &refused.errors,
                refused.casts.as_slice(),
            );
            drop(refused);
            text
        }
    }
}
