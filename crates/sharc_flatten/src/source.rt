// The program, with what flattening looks up in it in one step.

ghost use Rattle.std.specs.Prelude.{◌≡◌, ◌+◌, ◌<◌, length, IfOk, OnOk};
ghost use Rattle.sharc_ctype.specs.Resolved.{structs_in};
ghost use Rattle.sharc_flatten.specs.Lookups.{HasCells, HasLayouts, HasRow, HasFields, HasPlaces};

use crate::lookups::small;
use crate::row::StructRow;
use indexmap::IndexMap;
use sharc_code::GlobalCells;
use sharc_ctype::typed::Typed;
use sharc_mode::moded::Moded;
use sharc_tree::tree::{Declaration, StructDefinition};
use std::alloc::{AllocError, Global};

/// A program with its modes, the places of its globals, its structs by their names, and the places of its fields by the
/// tokens that declare them.
#[derive(Drop)]
pub struct PlacedProgram<'a> {
    pub m: &'a Moded,
    pub globals: Vec<GlobalCells>,
    pub(crate) structs: IndexMap<&'a [u8], StructRow>,
    pub(crate) fields: IndexMap<u32, u32>,
    ghost has_cells: { HasCells (structs_in m.now.typed.program.items) structs },
    ghost has_layouts: { HasLayouts 2 (length (structs_in m.now.typed.program.items) + 2)
        (structs_in m.now.typed.program.items) structs },
    ghost has_fields: { HasFields (structs_in m.now.typed.program.items) fields },
}

/// The struct with this number.
fn enter_struct<'a>(
    number: u32,
    definition: &'a StructDefinition,
    structs: &mut IndexMap<&'a [u8], StructRow>,
) -> Result<(), AllocError>
    ensures { OnOk result (HasRow definition.now.name.text
        (record { layout = number + 2; cells = length definition.now.fields }) structs.old structs.new) }
{
    let cells = small(definition.fields.len())?;
    let layout = match number.checked_add(2) {
        Some(layout) => layout,
        None => return Err(AllocError),
    };
    structs.insert(definition.name.text.as_slice(), StructRow { layout, cells })?;
    Ok(())
}

/// The structs of a program by their names. Of two structs with one name the first stays, so the last is entered first.
fn structs_of<'a>(
    alloc: Global,
    typed: &'a Typed,
) -> Result<IndexMap<&'a [u8], StructRow>, AllocError>
    ensures cells { IfOk result (λ rows. HasCells (structs_in typed.now.program.items) rows) }
    ensures layouts { IfOk result (λ rows.
        HasLayouts 2 (length (structs_in typed.now.program.items) + 2) (structs_in typed.now.program.items) rows) }
{
    let mut structs = IndexMap::new(alloc);
    let mut left = small(typed.struct_count())?;
    while left > 0 {
        left -= 1;
        match typed.struct_at(left) {
            // Each number below the count has a struct.
            None => return Err(AllocError),
            Some(definition) => enter_struct(left, definition, &mut structs)?,
        }
    }
    Ok(structs)
}

/// The places of a struct's fields. Of two fields with one token the first stays, so the last is entered first.
fn enter_fields(fields: &[Declaration], places: &mut IndexMap<u32, u32>) -> Result<(), AllocError>
    ensures { OnOk result (HasPlaces fields.now places.old places.new) }
{
    let mut left = small(fields.len())?;
    while left > 0 {
        left -= 1;
        places.insert(fields[left as usize].name.site.token, left)?;
    }
    Ok(())
}

/// The places of all fields.
fn places_of(alloc: Global, typed: &Typed) -> Result<IndexMap<u32, u32>, AllocError>
    ensures { IfOk result (λ places. HasFields (structs_in typed.now.program.items) places) }
{
    let mut places = IndexMap::new(alloc);
    let mut left = small(typed.struct_count())?;
    while left > 0 {
        left -= 1;
        match typed.struct_at(left) {
            // Each number below the count has a struct.
            None => return Err(AllocError),
            Some(definition) => enter_fields(definition.fields.as_slice(), &mut places)?,
        }
    }
    Ok(places)
}

impl<'a> PlacedProgram<'a> {
    ghost use Rattle.std.specs.Prelude.{◌≡◌, [], IfOk};

    /// A program with its modes, whose globals have no places yet.
    pub fn of(alloc: Global, program: &'a Moded) -> Result<Self, AllocError>
        ensures m { IfOk result (λ p. p.m.now ≡ program.now) }
        ensures globals { IfOk result (λ p. p.globals.items ≡ []) }
    {
        let t = program.typed();
        let structs = structs_of(alloc, t)?;
        let fields = places_of(alloc, t)?;
        Ok(PlacedProgram {
            m: program,
            globals: Vec::new(alloc),
            structs,
            fields,
        })
    }

    /// The same with the places of its globals.
    pub fn with_globals(self, globals: Vec<GlobalCells>) -> Self
        ensures m { result.m.now ≡ self.entry.m.now }
        ensures globals { result.globals.items ≡ globals.items }
    {
        PlacedProgram {
            m: self.m,
            globals,
            structs: self.structs,
            fields: self.fields,
        }
    }
}
