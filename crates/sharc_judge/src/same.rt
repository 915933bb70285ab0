// Whether two objects, cells or modes are the same.

ghost use Rattle.std.specs.Prelude.{◌≡◌};
ghost use Rattle.sharc_meaning.specs.Events.{same_object, same_cell, is_cell};
ghost use Rattle.sharc_judge.specs.Deciding.{same_mutex, same_mode, is_dynamic};

use sharc_tree::event::{CellAt, CellMode, Object};

/// Whether both are one object.
pub fn same_object(a: Object, b: Object) -> bool
    ensures { result ≡ same_object a b }
{
    match (a, b) {
        (Object::Global(g), Object::Global(h)) => g == h,
        (Object::Made(g), Object::Made(h)) => g == h,
        _ => false,
    }
}

/// Whether both are one cell of one object.
pub fn same_cell(a: CellAt, b: CellAt) -> bool
    ensures { result ≡ same_cell a b }
{
    same_object(a.object, b.object) && a.cell == b.cell
}

/// Whether there is a cell, and it is this one.
pub fn is_cell(cell: CellAt, of: Option<CellAt>) -> bool
    ensures { result ≡ is_cell cell of }
{
    match of {
        None => false,
        Some(d) => same_cell(cell, d),
    }
}

fn same_mutex(a: Option<CellAt>, b: Option<CellAt>) -> bool
    ensures { result ≡ same_mutex a b }
{
    match (a, b) {
        (None, None) => true,
        (Some(c), Some(d)) => same_cell(c, d),
        _ => false,
    }
}

/// Whether both are one mode; locked ones, where both name the same mutex or none.
pub fn same_mode(a: CellMode, b: CellMode) -> bool
    ensures { result ≡ same_mode a b }
{
    match (a, b) {
        (CellMode::Private, CellMode::Private) => true,
        (CellMode::Readonly, CellMode::Readonly) => true,
        (CellMode::Locked(c), CellMode::Locked(d)) => same_mutex(c, d),
        (CellMode::Racy, CellMode::Racy) => true,
        (CellMode::Dynamic, CellMode::Dynamic) => true,
        _ => false,
    }
}

/// Whether it is mode dynamic.
pub fn is_dynamic(mode: CellMode) -> bool
    ensures { result ≡ is_dynamic mode }
{
    match mode {
        CellMode::Dynamic => true,
        _ => false,
    }
}
