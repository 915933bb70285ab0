// The layouts of elements, with the numbers of their pointers.

ghost use Rattle.std.specs.Prelude.{◌≡◌, ◌+◌, [], ◌∷◌, ◌++◌, IfOk, OnOk};
ghost use Rattle.sharc_flat.specs.Tables.{pointers_among, layouts_of, pointers_of};

use crate::lookups::small;
use crate::numbers::plus;
use sharc_code::Layout;
use sharc_ctype::typed::Typed;
use sharc_names::kind::{declared_kind, is_pointer};
use sharc_tree::tree::Declaration;
use std::alloc::{AllocError, Global};

/// The layouts of elements, by their numbers, and the numbers of the pointers among their cells.
#[derive(Drop)]
pub struct Layouts {
    pub list: Vec<Layout>,
    pub pointers: Vec<u32>,
}

/// The numbers of the pointers among fields, at the end of these.
fn add_pointers(fields: &[Declaration], pointers: &mut Vec<u32>) -> Result<(), AllocError>
    ensures { OnOk result (pointers.new.items ≡ pointers.old.items ++ pointers_among 0 fields.now) }
{
    let mut number = 0;
    for field in fields {
        if is_pointer(declared_kind(&field.written)) {
            pointers.push(number)?;
        }
        number = plus(number, 1)?;
    }
    Ok(())
}

impl Layouts {
    ghost use Rattle.std.specs.Prelude.{◌≡◌, ◌+◌, [], ◌∷◌, ◌++◌, length, OnOk};
    ghost use Rattle.sharc_flat.specs.Tables.{pointers_among};

    /// One layout more, of an element with these fields.
    fn add(&mut self, fields: &[Declaration]) -> Result<(), AllocError>
        ensures list { OnOk result (self.new.list.items ≡ self.old.list.items ++ record {
          cells = length fields.now;
          from = length self.old.pointers.items;
          until = length self.new.pointers.items;
        } ∷ []) }
        ensures pointers { OnOk result (self.new.pointers.items
            ≡ self.old.pointers.items ++ pointers_among 0 fields.now) }
    {
        let from = small(self.pointers.len())?;
        add_pointers(fields, &mut self.pointers)?;
        let until = small(self.pointers.len())?;
        let cells = small(fields.len())?;
        self.list.push(Layout { cells, from, until })?;
        Ok(())
    }
}

/// Those that no struct of the program has: an integer or a mutex, and a pointer.
fn simple_layouts(alloc: Global) -> Result<Layouts, AllocError>
    ensures list { IfOk result (λ all. all.list.items
        ≡ record { cells = 1; from = 0; until = 0 } ∷ record { cells = 1; from = 0; until = 1 } ∷ []) }
    ensures pointers { IfOk result (λ all. all.pointers.items ≡ 0 ∷ []) }
{
    let mut list = Vec::new(alloc);
    let mut pointers = Vec::new(alloc);
    list.push(Layout {
        cells: 1,
        from: 0,
        until: 0,
    })?;
    list.push(Layout {
        cells: 1,
        from: 0,
        until: 1,
    })?;
    pointers.push(0)?;
    Ok(Layouts { list, pointers })
}

/// The layouts of an integer or a mutex, of a pointer, of the structs, and of `struct cond`.
pub fn layouts_of(alloc: Global, typed: &Typed) -> Result<Layouts, AllocError>
    ensures list { IfOk result (λ all. all.list.items ≡ layouts_of typed.now) }
    ensures pointers { IfOk result (λ all. all.pointers.items ≡ pointers_of typed.now) }
{
    let mut all = simple_layouts(alloc)?;
    for number in 0..small(typed.struct_count())? {
        match typed.struct_at(number) {
            None => return Err(AllocError),
            Some(definition) => all.add(definition.fields.as_slice())?,
        }
    }
    let end = small(all.pointers.len())?;
    all.list.push(Layout {
        cells: 1,
        from: end,
        until: end,
    })?;
    Ok(all)
}
