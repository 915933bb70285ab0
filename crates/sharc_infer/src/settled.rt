// What is settled of each position before the inference.

ghost use Rattle.std.specs.{Prelude.{◌≡◌, ◌++◌, Some, if◌then◌else◌, IfOk, OnOk}, Option.option_or};
ghost use Rattle.sharc_tree.specs.declared.ctype.Mode.TheVariants.{Racy as RacyMode};
ghost use Rattle.sharc_ctype.specs.Entities.{entities_in};
ghost use Rattle.sharc_mode.specs.Settled.{is_mutex, field_target, otherwise_of, settled_modes, settled_in};

use sharc_ctype::entity::{Entity, first_depth};
use sharc_ctype::typed::Typed;
use sharc_mode::types::is_mutex;
use sharc_names::types::Role;
use sharc_tree::ctype::{Base, Mode};
use std::alloc::{AllocError, Global};

fn copied(alloc: Global, mode: &Option<Mode>) -> Result<Option<Mode>, AllocError>
    ensures { IfOk result (λ m. m ≡ mode.now) }
{
    match mode {
        None => Ok(None),
        Some(mode) => Ok(Some(mode.copy(alloc)?)),
    }
}

/// The mode of a field's targets without one.
fn field_target(alloc: Global, levels: &[Option<Mode>]) -> Result<Mode, AllocError>
    ensures { IfOk result (λ m. m ≡ field_target levels.now) }
{
    match levels {
        [Some(top), ..] => top.copy(alloc),
        [None, ..] => Ok(Mode::Dynamic),
        [] => Ok(Mode::Dynamic),
    }
}

/// What is meant where no mode is written.
fn otherwise(alloc: Global, role: Role, levels: &[Option<Mode>]) -> Result<Option<Mode>, AllocError>
    ensures { IfOk result (λ m. m ≡ otherwise_of role levels.now) }
{
    match role {
        Role::Field => Ok(Some(field_target(alloc, levels)?)),
        _ => Ok(None),
    }
}

/// What is settled of a level with these below it.
fn level(
    alloc: Global,
    base: &Base,
    otherwise: &Option<Mode>,
    written: &Option<Mode>,
    below: &[Option<Mode>],
) -> Result<Option<Mode>, AllocError>
    ensures { IfOk result (λ m. m ≡ (if is_mutex base.now below.now then Some RacyMode
        else option_or written.now otherwise.now)) }
{
    if is_mutex(base, below) {
        return Ok(Some(Mode::Racy));
    }
    match written {
        Some(mode) => Ok(Some(mode.copy(alloc)?)),
        None => copied(alloc, otherwise),
    }
}

/// Adds what is settled at the positions of an entity.
fn add(alloc: Global, entity: &Entity, list: &mut Vec<Option<Mode>>) -> Result<(), AllocError>
    ensures { OnOk result (list.new.items ≡ list.old.items ++ settled_modes entity.now) }
{
    let base = &entity.written.ctype.base;
    let levels = entity.written.ctype.levels.as_slice();
    let otherwise = otherwise(alloc, entity.role, levels)?;
    for depth in first_depth(entity.role)..levels.len() {
        let below = &levels[depth + 1..];
        let settled = level(alloc, base, &otherwise, &levels[depth], below)?;
        list.push(settled)?;
    }
    Ok(())
}

/// What is settled at each position of a program.
pub(crate) fn settled(alloc: Global, typed: &Typed) -> Result<Vec<Option<Mode>>, AllocError>
    ensures { IfOk result (λ list. list.items ≡ settled_in (entities_in typed.now.program.items)) }
{
    let mut list = Vec::new(alloc);
    for numbered in typed.entities() {
        add(alloc, &numbered.entity, &mut list)?;
    }
    Ok(list)
}
