// The fields of a struct, found by their names.

ghost use Rattle.std.specs.Prelude.{◌≡◌, [], ◌∷◌, ◌++◌, length, is_some, IfOk, OnOk, OnErr};
ghost use Rattle.sharc_names.specs.{Names.field_of, Seen.{found_field, fields_seen, HasAlso, HasFirstFields}};

use indexmap::IndexMap;
use sharc_tree::tree::Declaration;
use std::alloc::{AllocError, Global};
use std::marker::Model;

/// The fields of a struct, or those so far. A contract sees the list of them; a look-up takes one step.
#[derive(Drop)]
pub struct Fields<'a> {
    list: Vec<&'a Declaration>,
    by_name: IndexMap<&'a [u8], &'a Declaration>,
}

impl<'a> Model for Fields<'a> {
    ghost use Rattle.std.specs.Prelude.{List};
    ghost use Rattle.sharc_tree.specs.declared.tree.declaration.Declaration.{Declaration as Field};
    ghost use Rattle.sharc_names.specs.Seen.{fields_seen, HasFirstFields};

    ghost Value = { List Field };

    ghost view = { λ f. fields_seen f.list.items };

    ghost invariant = { λ f. HasFirstFields f.list.items f.by_name.entries };
}

/// Writes the field of a new name into a table.
fn note_first<'a>(
    by_name: &mut IndexMap<&'a [u8], &'a Declaration>,
    field: &'a Declaration,
    known: bool,
) -> Result<(), AllocError>
    ensures written { OnOk result (HasAlso known field.now by_name.old.entries by_name.new.entries) }
    ensures err { OnErr result (by_name.new.entries ≡ by_name.old.entries) }
{
    if known {
        return Ok(());
    }
    by_name.insert(field.name.text.as_slice(), field)?;
    Ok(())
}

/// Writes one field more.
fn push_field<'a>(
    list: &mut Vec<&'a Declaration>,
    by_name: &mut IndexMap<&'a [u8], &'a Declaration>,
    field: &'a Declaration,
    known: bool,
) -> Result<(), AllocError>
    requires first { HasFirstFields list.old.items by_name.old.entries }
    requires known { known ≡ is_some (field_of (fields_seen list.old.items) field.now.name.text) }
    ensures first { HasFirstFields list.new.items by_name.new.entries }
    ensures fields { OnOk result (fields_seen list.new.items ≡ fields_seen list.old.items ++ field.now ∷ []) }
{
    list.reserve(1)?;
    note_first(by_name, field, known)?;
    list.push(field)?;
    Ok(())
}

impl<'a> Fields<'a> {
    /// No field.
    pub fn new(alloc: Global) -> Self
        ensures { result ≡ [] }
    {
        Fields {
            list: Vec::new(alloc),
            by_name: IndexMap::new(alloc),
        }
    }

    /// The number of fields.
    pub fn len(&self) -> usize
        ensures { result ≡ length self.now }
    {
        self.list.len()
    }

    /// The first field of that name.
    pub fn find(&self, name: &[u8]) -> Option<&'a Declaration>
        ensures { found_field result ≡ field_of self.now name.now }
    {
        self.by_name.get(name).copied()
    }

    /// One field more, at the end.
    pub fn add(&mut self, field: &'a Declaration) -> Result<(), AllocError>
        ensures { OnOk result (self.new ≡ self.old ++ field.now ∷ []) }
    {
        let known = self.find(field.name.text.as_slice()).is_some();
        push_field(&mut self.list, &mut self.by_name, field, known)
    }

    /// All these fields.
    pub fn all(alloc: Global, fields: &'a [Declaration]) -> Result<Self, AllocError>
        ensures { IfOk result (λ f. f ≡ fields.now) }
    {
        let mut table = Fields::new(alloc);
        for field in fields {
            table.add(field)?;
        }
        Ok(table)
    }
}
