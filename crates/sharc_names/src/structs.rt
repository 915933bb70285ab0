// The structs of the file, found by their names.

ghost use Rattle.std.specs.Prelude.{◌≡◌, [], ◌∷◌, ◌++◌, length, OnOk, None};
ghost use Rattle.sharc_names.specs.{Names.{struct_of, field_of, fields_of, cells_of, named_struct}, Seen.found_field};
ghost use Rattle.sharc_names.specs.View.{found_struct, view_struct};

use crate::fault::Named;
use crate::fields::Fields;
use indexmap::IndexMap;
use sharc_tree::tree::Declaration;
use std::alloc::{AllocError, Global};
use std::marker::Model;

/// What the name of a struct means.
#[derive(Drop)]
pub enum StructMeaning<'a> {
    /// The struct with this number, and its fields.
    Defined(u32, Fields<'a>),
    /// `struct cond`, which the program does not define.
    Known,
}

/// The field of that name.
pub fn field_of<'a>(of: &StructMeaning<'a>, name: &[u8]) -> Option<&'a Declaration>
    ensures { found_field result ≡ field_of (fields_of (view_struct of.now)) name.now }
{
    match of {
        StructMeaning::Defined(_, fields) => fields.find(name),
        StructMeaning::Known => None,
    }
}

/// The number of cells.
pub fn cells_of(of: &StructMeaning<'_>) -> usize
    ensures { result ≡ cells_of (view_struct of.now) }
{
    match of {
        StructMeaning::Defined(_, fields) => fields.len(),
        StructMeaning::Known => 1,
    }
}

/// What a token with this meaning names.
pub fn named_struct(of: &StructMeaning<'_>) -> Named
    ensures { result ≡ named_struct (view_struct of.now) }
{
    match of {
        StructMeaning::Defined(number, _) => Named::Struct(*number),
        StructMeaning::Known => Named::Known,
    }
}

/// The first definitions of all struct names. A contract sees them with their names, in source order; a look-up takes
/// one step.
#[derive(Drop)]
pub struct Structs<'a> {
    by_name: IndexMap<&'a [u8], StructMeaning<'a>>,
}

impl<'a> Model for Structs<'a> {
    ghost use Rattle.sharc_names.specs.{Names.StructTable, View.structs_seen};

    ghost Value = { StructTable };

    ghost view = { λ s. structs_seen s.by_name.entries };
}

impl<'a> Structs<'a> {
    /// No struct.
    pub fn new(alloc: Global) -> Self
        ensures { result ≡ [] }
    {
        Structs {
            by_name: IndexMap::new(alloc),
        }
    }

    /// The struct of that name.
    pub fn find(&self, name: &[u8]) -> Option<&StructMeaning<'a>>
        ensures { found_struct result ≡ struct_of self.now name.now }
    {
        self.by_name.get(name)
    }

    /// One struct more, whose name is new.
    pub fn add(&mut self, name: &'a [u8], of: StructMeaning<'a>) -> Result<(), AllocError>
        requires { struct_of self.old name.now ≡ None }
        ensures { OnOk result (self.new ≡ self.old ++ (name.now, view_struct of.entry) ∷ []) }
    {
        self.by_name.insert(name, of)?;
        Ok(())
    }
}
