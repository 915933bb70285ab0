//! Cells and places as the source has them.

ghost use Rattle.std.specs.Prelude.{◌≡◌};
ghost use Rattle.sharc_code.specs.Says.{cell_at, place_at};
ghost use Rattle.sharc_history.specs.Told.{at, in_global};

use sharc_code::{Cell, Code, GlobalCells, PlaceMode, SourcePlace, Text, Use};
use sharc_cpu::Thread;
use sharc_tree::token::Site;

/// A cell of an object, counted from 0 over all its elements.
#[derive(Clone, Copy)]
pub enum Where {
    /// Of the global of this number.
    Global(u32, u64),
    /// Of the object that has this number.
    Made(u64, u64),
}

/// Where in the source a turn is. Sites and functions go by their numbers in the code.
#[derive(Clone, Copy)]
pub enum Origin {
    /// At this site.
    Site(u32),
    /// At the first site, to read the lock that the mode of the second names.
    Lock(u32, u32),
    /// At the first site, to wait at the condition that the second names.
    Wait(u32, u32),
    /// At the beginning or the end of a thread of this function.
    Function(u64),
}

/// What a number has that is not one of a site.
const NO_PLACE: SourcePlace = SourcePlace {
    site: Site {
        file: 0,
        line: 0,
        token: 0,
    },
    lvalue: Text { from: 0, until: 0 },
    lock: Text { from: 0, until: 0 },
    mode: PlaceMode::Racy,
    at: Use::Other,
};

/// The site of this number.
pub(crate) fn place_at(code: &Code, site: u32) -> SourcePlace
    ensures { result ≡ place_at code.now site }
{
    match code.sites.get(site as usize).copied() {
        Some(place) => place,
        None => NO_PLACE,
    }
}

const NO_GLOBAL: GlobalCells = GlobalCells {
    granule: 0,
    cells: 0,
};

fn in_global(code: &Code, global: u32, place: u64) -> Where
    ensures { result ≡ in_global code.now global place }
{
    let cells = match code.globals.get(global as usize).copied() {
        Some(cells) => cells,
        None => NO_GLOBAL,
    };
    Where::Global(global, place.saturating_sub(2 * u64::from(cells.granule)))
}

/// The cell of the source that this cell of the machine is.
pub(crate) fn cell_at(code: &Code, thread: &Thread, cell: Cell) -> Where
    ensures { at result ≡ cell_at code.now thread.now.machine cell }
{
    match cell {
        Cell::Global(global, place) => in_global(code, global, u64::from(place)),
        Cell::GlobalAt(global, r) => in_global(code, global, thread.int(r).cast_unsigned()),
        Cell::Object(r, cell) => Where::Made(thread.reference(r), u64::from(cell)),
        Cell::ObjectAt(r, at) => Where::Made(thread.reference(r), thread.int(at).cast_unsigned()),
    }
}
