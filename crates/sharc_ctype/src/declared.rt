// Declarations in source order, found by the tokens of their names.

ghost use Rattle.std.specs.{Prelude.{◌≡◌, [], ◌∷◌, ◌++◌, OnOk}, Option.option_copied};
ghost use Rattle.sharc_ctype.specs.{Resolved.declared_at, FirstPlaces.HasFirstPlaces};

use crate::first_place::note_first;
use indexmap::IndexMap;
use sharc_tree::tree::Declaration;
use std::alloc::{AllocError, Global};
use std::marker::Model;

/// Declarations in source order. A contract sees the list of them; a look-up takes one step.
#[derive(Drop)]
pub(crate) struct Declared {
    list: Vec<Declaration>,
    first: IndexMap<u32, usize>,
}

impl Model for Declared {
    ghost use Rattle.std.specs.Prelude.{List};
    ghost use Rattle.sharc_tree.specs.declared.tree.declaration.Declaration.{Declaration as OneDeclaration};
    ghost use Rattle.sharc_ctype.specs.FirstPlaces.{HasFirstPlaces};

    ghost Value = { List OneDeclaration };

    ghost view = { λ d. d.list.items };

    ghost invariant = { λ d. HasFirstPlaces d.list.items d.first.entries };
}

/// Writes one declaration more.
fn push_declaration(
    list: &mut Vec<Declaration>,
    first: &mut IndexMap<u32, usize>,
    declaration: Declaration,
) -> Result<(), AllocError>
    requires { HasFirstPlaces list.old.items first.old.entries }
    ensures first { HasFirstPlaces list.new.items first.new.entries }
    ensures list { OnOk result (list.new.items ≡ list.old.items ++ declaration ∷ []) }
{
    list.reserve(1)?;
    note_first(first, declaration.name.site.token, list.len())?;
    list.push(declaration)?;
    Ok(())
}

impl Declared {
    /// No declaration.
    pub(crate) fn new(alloc: Global) -> Self
        ensures { result ≡ [] }
    {
        Declared {
            list: Vec::new(alloc),
            first: IndexMap::new(alloc),
        }
    }

    /// All of them, in source order.
    pub(crate) fn as_slice(&self) -> &[Declaration]
        ensures { result.now ≡ self.now }
    {
        self.list.as_slice()
    }

    /// The first declaration of the name that is the token with this number.
    pub(crate) fn find(&self, token: u32) -> Option<&Declaration>
        ensures { option_copied result ≡ declared_at self.now token }
    {
        match self.first.get(&token) {
            None => None,
            Some(place) => Some(&self.list[*place]),
        }
    }

    /// One declaration more, at the end.
    pub(crate) fn add(&mut self, declaration: Declaration) -> Result<(), AllocError>
        ensures { OnOk result (self.new ≡ self.old ++ declaration ∷ []) }
    {
        push_declaration(&mut self.list, &mut self.first, declaration)
    }
}
