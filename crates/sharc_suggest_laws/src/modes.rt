// The modes of a program with a cast written in it.

ghost use Rattle.std.specs.Prelude.{◌≡◌, ◌≤◌, ◌++◌, drop, length, map, replicate, IfOk, OnOk};
ghost use Rattle.sharc_suggest_laws.specs.Applied.{written_or, targets, inserted, moved};

use crate::written::Rewritten;
use sharc_mode::position::Reason;
use sharc_tree::ctype::Mode;
use std::alloc::{AllocError, Global};

/// Adds these modes.
fn add_modes(alloc: Global, modes: &[Mode], list: &mut Vec<Mode>) -> Rewritten<()>
    ensures { OnOk result (list.new.items ≡ list.old.items ++ modes.now) }
{
    for mode in modes {
        list.push(mode.copy(alloc)?)?;
    }
    Ok(())
}

fn written_or(alloc: Global, level: &Option<Mode>) -> Rewritten<Mode>
    ensures { IfOk result (λ m. m ≡ written_or level.now) }
{
    match level {
        None => Ok(Mode::Private),
        Some(mode) => mode.copy(alloc),
    }
}

/// Adds the modes of these levels.
fn add_levels(alloc: Global, levels: &[Option<Mode>], list: &mut Vec<Mode>) -> Rewritten<()>
    ensures { OnOk result (list.new.items ≡ list.old.items ++ map written_or levels.now) }
{
    for level in levels {
        list.push(written_or(alloc, level)?)?;
    }
    Ok(())
}

/// The levels below the top.
pub(crate) fn below(levels: &[Option<Mode>]) -> &[Option<Mode>]
    ensures { result.now ≡ drop 1 levels.now }
{
    match levels {
        [] => levels,
        [_, below @ ..] => below,
    }
}

/// Modes, and from a place on those of the targets of a type before them.
pub(crate) fn modes_with(
    alloc: Global,
    first: usize,
    levels: &[Option<Mode>],
    modes: &[Mode],
) -> Rewritten<Vec<Mode>>
    requires { first ≤ length modes.now }
    ensures { IfOk result (λ list. list.items ≡ inserted first (targets levels.now) modes.now) }
{
    let mut list = Vec::new(alloc);
    add_modes(alloc, &modes[..first], &mut list)?;
    add_levels(alloc, below(levels), &mut list)?;
    add_modes(alloc, &modes[first..], &mut list)?;
    Ok(list)
}

/// The same reason where this many positions are new from a first one on.
fn moved(first: u32, count: u32, reason: Option<Reason>) -> Rewritten<Option<Reason>>
    ensures { IfOk result (λ r. r ≡ moved first count reason) }
{
    match reason {
        Some(Reason::From(position)) => {
            if position < first {
                Ok(Some(Reason::From(position)))
            } else {
                match position.checked_add(count) {
                    Some(position) => Ok(Some(Reason::From(position))),
                    None => Err(AllocError),
                }
            }
        }
        Some(Reason::Touched(function)) => Ok(Some(Reason::Touched(function))),
        Some(Reason::Spawned(function)) => Ok(Some(Reason::Spawned(function))),
        None => Ok(None),
    }
}

fn all_moved(
    alloc: Global,
    first: u32,
    count: u32,
    reasons: &[Option<Reason>],
) -> Rewritten<Vec<Option<Reason>>>
    ensures { IfOk result (λ list. list.items ≡ map (moved first count) reasons.now) }
{
    let mut list = Vec::with_capacity(alloc, reasons.len())?;
    for reason in reasons {
        list.push(moved(first, count, *reason)?)?;
    }
    Ok(list)
}

fn add_none(count: u32, list: &mut Vec<Option<Reason>>) -> Rewritten<()>
    ensures { OnOk result (list.new.items ≡ list.old.items ++ replicate count None) }
{
    for _made in 0..count {
        list.push(None)?;
    }
    Ok(())
}

/// Reasons, with this many positions without one put in from a first position on.
pub(crate) fn reasons_with(
    alloc: Global,
    first: u32,
    count: u32,
    reasons: &[Option<Reason>],
) -> Rewritten<Vec<Option<Reason>>>
    requires { first ≤ length reasons.now }
    ensures { IfOk result (λ list. list.items
        ≡ map (moved first count) (inserted first (replicate count None) reasons.now)) }
{
    let mut list = Vec::new(alloc);
    list.extend_from_slice(&reasons[..first as usize])?;
    add_none(count, &mut list)?;
    list.extend_from_slice(&reasons[first as usize..])?;
    all_moved(alloc, first, count, list.as_slice())
}
