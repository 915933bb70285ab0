// Entities in source order, numbered by their positions, found by their tokens.

ghost use Rattle.std.specs.{Prelude.{◌≡◌, ◌+◌, ◌≤◌, ◌^◌, [], ◌∷◌, ◌++◌, IfOk, OnOk, OnErr}, Option.option_copied};
ghost use Rattle.sharc_ctype.specs.Entities.{numbered, numbered_at, positions_in, positions_of};
ghost use Rattle.sharc_ctype.specs.FirstEntities.{HasEntityPlace, HasFirstEntities};

use crate::entity::{Entity, Numbered};
use indexmap::IndexMap;
use std::alloc::{AllocError, Global};
use std::marker::Model;

/// Entities in source order. A contract sees the list of them; a look-up takes one step.
#[derive(Drop)]
pub(crate) struct Entities {
    list: Vec<Numbered>,
    positions: u32,
    first: IndexMap<(u32, u32), usize>,
}

impl Model for Entities {
    ghost use Rattle.std.specs.Prelude.{List};
    ghost use Rattle.sharc_ctype.specs.declared.entity.Entity.{Entity as OneEntity};
    ghost use Rattle.sharc_ctype.specs.FirstEntities.{HasFirstEntities, AreNumbered, entities_of};

    ghost Value = { List OneEntity };

    ghost view = { λ e. entities_of e.list.items };

    ghost invariant = { λ e. AreNumbered e.list.items e.positions × HasFirstEntities e.list.items e.first.entries };
}

/// The number of positions after this many more; out of memory where it does not fit, since a list of them could not be
/// kept.
fn raised(positions: u32, more: usize) -> Result<u32, AllocError>
    ensures more { IfOk result (λ n. n ≡ positions + more) }
    ensures err { OnErr result (2 ^ 32 ≤ positions + more) }
{
    if more > (u32::MAX - positions) as usize {
        return Err(AllocError);
    }
    Ok(positions + more as u32)
}

/// Writes the place of the first entity of two tokens into a table.
fn note_first(
    first: &mut IndexMap<(u32, u32), usize>,
    token: u32,
    last: u32,
    place: usize,
) -> Result<(), AllocError>
    ensures written { OnOk result (HasEntityPlace token last place first.old.entries first.new.entries) }
    ensures err { OnErr result (first.new.entries ≡ first.old.entries) }
{
    if first.get(&(token, last)).is_some() {
        return Ok(());
    }
    first.insert((token, last), place)?;
    Ok(())
}

/// Writes one entity more.
fn push_entity(
    list: &mut Vec<Numbered>,
    first: &mut IndexMap<(u32, u32), usize>,
    entity: Numbered,
) -> Result<(), AllocError>
    requires { HasFirstEntities list.old.items first.old.entries }
    ensures first { HasFirstEntities list.new.items first.new.entries }
    ensures list { OnOk result (list.new.items ≡ list.old.items ++ entity ∷ []) }
    ensures err { OnErr result (list.new.items ≡ list.old.items) }
{
    list.reserve(1)?;
    note_first(first, entity.entity.token, entity.entity.last, list.len())?;
    list.push(entity)?;
    Ok(())
}

impl Entities {
    /// No entity.
    pub(crate) fn new(alloc: Global) -> Self
        ensures { result ≡ [] }
    {
        Entities {
            list: Vec::new(alloc),
            positions: 0,
            first: IndexMap::new(alloc),
        }
    }

    /// All of them, in source order, with the numbers of their first positions.
    pub(crate) fn as_slice(&self) -> &[Numbered]
        ensures { result.now ≡ numbered self.now }
    {
        self.list.as_slice()
    }

    /// How many positions they have.
    pub(crate) fn positions(&self) -> u32
        ensures { result ≡ positions_in self.now }
    {
        self.positions
    }

    /// The first entity that begins at this token and ends at that one.
    pub(crate) fn find(&self, token: u32, last: u32) -> Option<&Numbered>
        ensures { option_copied result ≡ numbered_at self.now token last }
    {
        match self.first.get(&(token, last)) {
            None => None,
            Some(place) => Some(&self.list[*place]),
        }
    }

    /// One entity more, at the end.
    pub(crate) fn add(&mut self, entity: Entity) -> Result<(), AllocError>
        ensures { OnOk result (self.new ≡ self.old ++ entity ∷ []) }
    {
        let positions = raised(self.positions, entity.positions())?;
        let entity = Numbered {
            entity,
            first: self.positions,
        };
        push_entity(&mut self.list, &mut self.first, entity)?;
        self.positions = positions;
        Ok(())
    }
}
