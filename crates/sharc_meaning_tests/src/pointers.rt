// Which cells of objects are pointers.

ghost use Rattle.std.specs.Prelude.{◌≡◌, ◌%◌, false, length, slice_index_or};
ghost use Rattle.sharc_ctype.specs.{Layouts.pointer_cells, Resolved.structs_in};
ghost use Rattle.sharc_meaning.specs.References.{fields_called, base_fields, is_pointer_in, is_pointer_of};
ghost use Rattle.sharc_names.specs.View.{view_root};
ghost use Rattle.sharc_tree.specs.View.{view_items};

use crate::made::any_makes;
use sharc_ctype::typed::Typed;
use sharc_judge::history::{Test, latest};
use sharc_names::kind::{Root, declared_kind, is_pointer, root_of};
use sharc_tree::event::{Object, SourceEvent};
use sharc_tree::tree::{Declaration, Item, WrittenType};

/// The fields of the struct of this name.
fn fields_called<'a>(items: &'a [Item], name: &[u8]) -> &'a [Declaration]
    ensures { result.now ≡ fields_called (structs_in (view_items items.now)) name.now }
{
    match items {
        [] => &[],
        [Item::Struct(definition), rest @ ..] => {
            if definition.name.text.as_slice() == name {
                definition.fields.as_slice()
            } else {
                fields_called(rest, name)
            }
        }
        [Item::Global(_), rest @ ..] => fields_called(rest, name),
        [Item::Function(_), rest @ ..] => fields_called(rest, name),
    }
}

fn base_fields<'a>(typed: &'a Typed, root: Root<'_>) -> &'a [Declaration]
    ensures { result.now ≡ base_fields typed.now (view_root root.entry) }
{
    match root {
        Root::Struct(name) => fields_called(typed.program().items.as_slice(), name),
        _ => &[],
    }
}

/// Whether the cell of an object whose elements have these fields is a pointer.
fn is_pointer_at(fields: &[Declaration], cell: u64) -> bool
    ensures { result ≡ slice_index_or (pointer_cells fields.now) (cell % length fields.now) false }
{
    if fields.is_empty() {
        return false;
    }
    let at = (cell % fields.len() as u64) as usize;
    is_pointer(declared_kind(&fields[at].written))
}

/// Whether the cell of an object whose elements have this type is a pointer.
pub(crate) fn is_pointer_in(typed: &Typed, of: &WrittenType, cell: u64) -> bool
    ensures { result ≡ is_pointer_in typed.now of.now cell }
{
    is_pointer(declared_kind(of))
        || is_pointer_at(base_fields(typed, root_of(&of.ctype.base)), cell)
}

/// Whether the cell of the object is a pointer.
pub(crate) fn is_pointer_of(
    typed: &Typed,
    events: &[SourceEvent],
    object: Object,
    cell: u64,
) -> bool
    ensures { result ≡ is_pointer_of typed.now events.now object cell }
{
    match object {
        Object::Global(number) => match typed.global_at(number) {
            None => false,
            Some(global) => is_pointer_in(typed, &global.declaration.written, cell),
        },
        Object::Made(_) => match latest(Test::Makes(object), events) {
            None => false,
            Some(e) => any_makes(typed, e.site.token, cell),
        },
    }
}
