// The checker.

ghost use Rattle.std.specs.Prelude.{◌≡◌, IfOk};
ghost use Rattle.sharc_reach.specs.Reaching.{AreReached};
ghost use Rattle.sharc_mode.specs.WellModed.{notes_about};
ghost use Rattle.sharc_check.specs.{Rules.MeetsRules, Checks.{AreAll, Checks}, Named.TellNamed, Threads.touched_by};

use crate::moved_variables::settle;
use crate::named::NamedVariables;
use crate::order::put_in_order;
use crate::rule_laws::rules_are_met;
use crate::rules::Notes;
use crate::statement::items;
use crate::threads::{spawned, touched};
use crate::types::types;
use sharc_mode::error::ModeErrors;
use sharc_mode::laws::mode_laws;
use sharc_mode::moded::Moded;
use sharc_reach::Reached;
use sharc_tree::listed::Listed;
use std::alloc::{AllocError, Global};
use std::marker::Model;

/// A program with modes that meets the rules M1 to M11. Only `check` makes it.
#[derive(Drop)]
pub struct Checked {
    moded: Moded,
}

impl Model for Checked {
    ghost use Rattle.std.specs.Coded.{codes};
    ghost use Rattle.sharc_ctype.specs.Codes.{coded_expression, coded_statements};
    ghost use Rattle.sharc_mode.specs.Moded.{Assignment};
    ghost use Rattle.sharc_check.specs.Rules.{MeetsRules};

    ghost Value = { Assignment };

    ghost coded = { Prim.hlevel (codes, coded_statements (Prim.hlevel (codes, coded_expression (Prim.hlevel codes)))) };

    ghost view = { λ c. c.moded };

    ghost invariant = { λ c. MeetsRules c.moded };
}

/// Why a program is not accepted. It is handed back.
#[derive(Drop)]
pub enum CheckFault {
    /// All the cases that arise, by place and then by code, and which variables and globals lock paths name.
    Modes(Moded, ModeErrors, NamedVariables),
    /// There was not enough memory. It is the answer, too, where there are more functions or globals than a number of
    /// 32 bits counts.
    Memory(Moded),
}

impl Checked {
    /// The program with its modes, which meets the rules.
    pub fn moded(&self) -> &Moded
        ensures moded { result.now ≡ self.now }
        ensures rules { MeetsRules self.now }
    {
        &self.moded
    }
}

/// What is to be said of a program, by what is reached in it.
fn said(alloc: Global, program: &Moded, reached: &Reached) -> Result<Notes, AllocError>
    requires { AreReached program.now.typed reached.now }
    ensures { IfOk result (λ notes. notes.items ≡ notes_about program.now (touched_by reached.now)) }
{
    let tree = program.typed().program();
    let mut notes = Vec::new(alloc);
    types(program, &mut notes)?;
    spawned(program, reached, &mut notes)?;
    touched(program, reached, &mut notes)?;
    items(program, tree.items.as_slice(), &mut notes)?;
    Ok(notes)
}

/// All the cases that arise, in order, and which variables and globals lock paths name.
fn errors(
    alloc: Global,
    program: &Moded,
    reached: &Reached,
) -> Result<(ModeErrors, NamedVariables), AllocError>
    requires { AreReached program.now.typed reached.now }
    ensures errors { IfOk result (λ found. AreAll program.now found.0) }
    ensures named { IfOk result (λ found. TellNamed program.now found.1) }
{
    let typed = program.typed();
    let notes = said(alloc, program, reached)?;
    let (mut errors, named) = settle(alloc, typed, notes)?;
    put_in_order(&mut errors)?;
    Ok((Listed::of(errors), named))
}

/// Accepts a program with modes exactly where it meets the rules M1 to M11; else reports all the cases that arise, each
/// once, by place (the first token of what it is about), then by code, those of one place and code in the order of the
/// constructs. `reached` is what `reach` answers for the program.
pub fn check(alloc: Global, program: Moded, reached: &Reached) -> Result<Checked, CheckFault>
    requires { AreReached program.typed reached.now }
    ensures { Checks program result }
{
    mode_laws();
    rules_are_met();
    match errors(alloc, &program, reached) {
        Err(_) => Err(CheckFault::Memory(program)),
        Ok((errors, named)) => {
            if errors.is_empty() {
                Ok(Checked { moded: program })
            } else {
                Err(CheckFault::Modes(program, errors, named))
            }
        }
    }
}
