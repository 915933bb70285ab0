// Objects, cells and granules as keys of tables.

ghost use Rattle.std.specs.Prelude.{◌≡◌};
ghost use Rattle.sharc_judge.specs.Topics.{object_key, cell_key, granule_key};

use crate::access::granule_of;
use sharc_tree::event::{CellAt, Object};

/// An object.
#[derive(Clone, Copy, PartialEq, Eq, Hash, Drop)]
pub enum ObjectKey {
    /// The global of this number.
    Global(u32),
    /// The object that was made under this number.
    Made(u32),
}

/// A cell of an object.
#[derive(Clone, Copy, PartialEq, Eq, Hash, Drop)]
pub struct CellKey {
    pub object: ObjectKey,
    pub cell: u64,
}

/// A granule of an object.
#[derive(Clone, Copy, PartialEq, Eq, Hash, Drop)]
pub struct GranuleKey {
    pub object: ObjectKey,
    pub granule: u64,
}

fn object_key(object: Object) -> ObjectKey
    ensures { result ≡ object_key object }
{
    match object {
        Object::Global(number) => ObjectKey::Global(number),
        Object::Made(number) => ObjectKey::Made(number),
    }
}

/// The key of a cell.
pub(crate) fn cell_key(cell: CellAt) -> CellKey
    ensures { result ≡ cell_key cell }
{
    CellKey {
        object: object_key(cell.object),
        cell: cell.cell,
    }
}

/// The key of the granule of a cell.
pub(crate) fn granule_key(cell: CellAt) -> GranuleKey
    ensures { result ≡ granule_key cell }
{
    GranuleKey {
        object: object_key(cell.object),
        granule: granule_of(cell),
    }
}
