//! The files that a source names, in the order of their first appearance.

ghost use Rattle.std.specs.Prelude.{◌≡◌, ℕ, ◌+◌, ◌<◌, ◌^◌, List, [], length, map, slice_index_or, IfOk, OnOk, OnErr};
ghost use Rattle.sharc_lex.specs.Files.{with_file, place_of};

use indexmap::IndexSet;
use sharc_tree::name::{Name, Names};
use std::alloc::{AllocError, Global};
use std::marker::Model;

/// The files that were named so far. A contract sees the list of their names.
#[derive(Drop)]
pub struct Files<'a> {
    names: IndexSet<&'a [u8]>,
}

impl<'a> Model for Files<'a> {
    ghost use Rattle.std.specs.Prelude.{List, ℕ, map};

    ghost Value = { List (List ℕ) };

    ghost view = { λ f. map (λ name. name.now) f.names.keys };
}

impl<'a> Files<'a> {
    /// The files before the first line marker: this one.
    pub fn of(alloc: Global, first: &'a [u8]) -> Result<Self, AllocError>
        ensures { IfOk result (λ files. files ≡ with_file [] first.now) }
    {
        let mut names = IndexSet::new(alloc);
        names.insert_full(first)?;
        Ok(Files { names })
    }

    /// The place of a file, which is added where it is new.
    pub fn place(&mut self, name: &'a [u8]) -> Result<u32, AllocError>
        requires { length self.old < 2 ^ 32 }
        ensures files { OnOk result (self.new ≡ with_file self.old name.now) }
        ensures place { IfOk result (λ place. place ≡ place_of self.old name.now) }
        ensures err { OnErr result (self.new ≡ self.old) }
    {
        let (place, _) = self.names.insert_full(name)?;
        Ok(place as u32)
    }

    /// The name of the file at a place.
    pub fn name(&self, alloc: Global, place: u32) -> Result<Name, AllocError>
        requires { place < length self.now }
        ensures { IfOk result (λ name. name ≡ slice_index_or self.now place []) }
    {
        let names = self.names.as_slice();
        Name::from_slice(alloc, names[place as usize])
    }

    /// The names of all files.
    pub fn names(&self, alloc: Global) -> Result<Names, AllocError>
        ensures { IfOk result (λ names. names ≡ self.now) }
    {
        let mut list = Vec::new(alloc);
        for name in self.names.as_slice() {
            list.push(Name::from_slice(alloc, *name)?)?;
        }
        Ok(Names::of(list))
    }
}
