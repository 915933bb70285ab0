//! What `check` and `explain` make of a program with its modes.
//!
//! Where `check` has its text the program is not taken apart, which would take a fifth of the time of `check`: the
//! process ends then, and the system takes back its memory.

ghost use Rattle.std.specs.Prelude.{◌≡◌, ◌++◌, IfOk};
ghost use Rattle.sharc_reach.specs.Reaching.{AreReached};
ghost use Rattle.sharc_check.specs.{Checks.IsRefused, Named.TellNamed};
ghost use Rattle.sharc_report.specs.Explanations.{explain_text};
ghost use Rattle.sharc_top.specs.{declared.status.Status.TheVariants.ModesRefused, Refused.IsModeRefusal};
ghost use Rattle.sharc_top.specs.Verdict.{Checks, Explains};

use crate::reply::Reply;
use crate::status::Status;
use sharc_check::named::NamedVariables;
use sharc_check::{CheckFault, Checked, check};
use sharc_live::nulled_uses;
use sharc_mode::error::ModeErrors;
use sharc_mode::moded::Moded;
use sharc_reach::Reached;
use sharc_report::{accepted_text, check_text, explain_text};
use sharc_suggest::suggest_all;
use std::alloc::{AllocError, Global};
use std::mem::forget;

/// The warnings of a program whose modes are accepted, and that they are.
fn acceptance(alloc: Global, checked: &Checked) -> Result<Reply, AllocError>
    ensures { IfOk result (λ reply. Checks checked.now reply.status reply.text.items) }
{
    let warnings = nulled_uses(alloc, checked)?;
    let text = accepted_text(alloc, checked.moded(), &warnings)?;
    Ok(Reply {
        status: Status::Done,
        text,
    })
}

/// The errors of a program whose modes are refused, each with the cast that would repair it.
pub(crate) fn mode_refusal(
    alloc: Global,
    program: &Moded,
    named: &NamedVariables,
    errors: &ModeErrors,
) -> Result<Reply, AllocError>
    requires refused { IsRefused program.now errors.now }
    requires named { TellNamed program.now named.now }
    ensures { IfOk result (λ reply. (reply.status ≡ ModesRefused) × IsModeRefusal program.now reply.text.items) }
{
    let casts = suggest_all(alloc, program, named, errors)?;
    let text = check_text(alloc, program, errors, casts.as_slice())?;
    Ok(Reply {
        status: Status::ModesRefused,
        text,
    })
}

/// What `check` writes.
pub(crate) fn checked(alloc: Global, program: Moded, reached: &Reached) -> Result<Reply, AllocError>
    requires { AreReached program.typed reached.now }
    ensures { IfOk result (λ reply. Checks program reply.status reply.text.items) }
{
    match check(alloc, program, reached) {
        Ok(checked) => {
            let reply = acceptance(alloc, &checked);
            forget(checked);
            reply
        }
        Err(CheckFault::Modes(program, errors, named)) => {
            let reply = mode_refusal(alloc, &program, &named, &errors);
            forget(program);
            reply
        }
        Err(CheckFault::Memory(_)) => Err(AllocError),
    }
}

/// What `check` writes, after a text.
fn checked_behind(
    alloc: Global,
    program: Moded,
    reached: &Reached,
    mut text: Vec<u8>,
) -> Result<Reply, AllocError>
    requires reached { AreReached program.typed reached.now }
    requires text { text.items ≡ explain_text program }
    ensures { IfOk result (λ reply. Explains program reply.status reply.text.items) }
{
    let verdict = checked(alloc, program, reached)?;
    text.extend_from_slice(&verdict.text)?;
    Ok(Reply {
        status: verdict.status,
        text,
    })
}

/// What `explain` writes: every variable's type with its modes and reasons, and then what `check` writes.
pub(crate) fn explained(
    alloc: Global,
    program: Moded,
    reached: &Reached,
) -> Result<Reply, AllocError>
    requires { AreReached program.typed reached.now }
    ensures { IfOk result (λ reply. Explains program reply.status reply.text.items) }
{
    match explain_text(alloc, &program) {
        Ok(text) => checked_behind(alloc, program, reached, text),
        Err(_) => Err(AllocError),
    }
}
