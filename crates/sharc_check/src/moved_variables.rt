// From what is said of all constructs to the cases that arise: M10 is decided when all is known.

ghost use Rattle.std.specs.{Prelude.{◌≡◌, ◌++◌, false, fold, replicate, reverse, IfOk, OnOk}, List.flat_map};
ghost use Rattle.sharc_mode.specs.Notes.{errors_of};
ghost use Rattle.sharc_check.specs.Settles.{taken_errors, settled, marked, marks, past, past_all};

use crate::named::NamedVariables;
use crate::rules::{Notes, Noting, error};
use sharc_ctype::typed::Typed;
use sharc_mode::error::{ErrorCode, ModeError};
use sharc_mode::finding::Finding;
use sharc_mode::text::text_at;
use sharc_tree::name::Name;
use sharc_tree::token::Span;
use std::alloc::{AllocError, Global};

/// The number after the highest token so far that a path names.
fn past(limit: usize, note: &Finding) -> usize
    ensures { result ≡ past limit note.now }
{
    match note {
        Finding::Names(variable) => limit.max(*variable as usize + 1),
        Finding::Wrong(_) => limit,
        Finding::Takes(_, _) => limit,
    }
}

/// The number after the highest token that a path names.
fn past_all(notes: &[Finding]) -> usize
    ensures { result ≡ past_all notes.now }
{
    let mut limit = 0;
    for note in notes {
        limit = past(limit, note);
    }
    limit
}

#[tactic(auto, using(std::proofs::lemmas::List::set_past))]
fn mark(flags: &mut Vec<bool>, note: &Finding)
    ensures { flags.new.items ≡ marked flags.old.items note.now }
{
    match note {
        Finding::Names(variable) => {
            let place = *variable as usize;
            if place < flags.len() {
                flags[place] = true;
            }
        }
        Finding::Wrong(_) => {}
        Finding::Takes(_, _) => {}
    }
}

/// Which variables and globals paths name, by the token that declares them.
fn marks(alloc: Global, notes: &[Finding]) -> Result<NamedVariables, AllocError>
    ensures { IfOk result (λ named. named ≡ marks notes.now) }
{
    let mut flags = vec![in alloc; false; past_all(notes)]?;
    for note in notes {
        mark(&mut flags, note);
    }
    Ok(NamedVariables::of(flags))
}

/// The case that a variable or a global is taken that a path names.
fn taken(typed: &Typed, named: bool, taken: (Span, u32), errors: &mut Vec<ModeError>) -> Noting
    ensures { OnOk result (errors.new.items ≡ errors.old.items ++ taken_errors typed.now named taken.0 taken.1) }
{
    if named {
        let alloc = *errors.allocator();
        let subject = Name::from_slice(alloc, text_at(typed, taken.1))?;
        if let Finding::Wrong(case) = error(alloc, ErrorCode::NamedByLockPath, taken.0, subject) {
            errors.push(case)?;
        }
    }
    Ok(())
}

fn settle_one(
    typed: &Typed,
    named: &NamedVariables,
    note: Finding,
    errors: &mut Vec<ModeError>,
) -> Noting
    ensures { OnOk result (errors.new.items ≡ errors.old.items ++ settled typed.now named.now note) }
{
    match note {
        Finding::Wrong(case) => {
            errors.push(case)?;
            Ok(())
        }
        Finding::Names(_) => Ok(()),
        Finding::Takes(span, variable) => {
            taken(typed, named.has(variable), (span, variable), errors)
        }
    }
}

/// The cases of the notes, the last one first.
fn settle_back(
    alloc: Global,
    typed: &Typed,
    named: &NamedVariables,
    mut list: Notes,
) -> Result<Vec<ModeError>, AllocError>
    ensures { IfOk result (λ errors. reverse errors.items ≡ flat_map (settled typed.now named.now) list.items) }
{
    let mut errors = Vec::new(alloc);
    while let Some(note) = list.pop() {
        settle_one(typed, named, note, &mut errors)?;
    }
    Ok(errors)
}

/// The cases that arise, in the order in which they were found, and which variables and globals paths name.
pub(crate) fn settle(
    alloc: Global,
    typed: &Typed,
    notes: Notes,
) -> Result<(Vec<ModeError>, NamedVariables), AllocError>
    ensures errors { IfOk result (λ found. found.0.items ≡ errors_of typed.now notes.items) }
    ensures named { IfOk result (λ found. found.1 ≡ marks notes.items) }
{
    let named = marks(alloc, notes.as_slice())?;
    let mut errors = settle_back(alloc, typed, &named, notes)?;
    errors.reverse();
    Ok((errors, named))
}
