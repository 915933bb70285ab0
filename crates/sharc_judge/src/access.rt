// What an event does to cells, objects, mutexes, threads and waiters.

ghost use Rattle.std.specs.Prelude.{◌≡◌, ◌+◌, option_map};
ghost use Rattle.sharc_meaning.specs.Events.{granule_of, access_by, makes, gives, frees, begins, locks, unlocks};
ghost use Rattle.sharc_meaning.specs.{Events.is_cell, Reference.number_of, Store.{cell_changed, changes, value_left}};
ghost use Rattle.sharc_meaning.specs.Store.{is_natural, is_spawn, spawns, is_gone, enters, takes_away};
ghost use Rattle.sharc_judge.specs.Deciding.{view_access};

use crate::same::{is_cell, same_object};
use sharc_tree::event::{Act, CellAt, CellMode, Object, SourceEvent, Taken};

/// An access of a cell: a Read, a Write or a Take.
#[derive(Clone, Copy, Drop)]
pub struct CellAccess {
    pub cell: CellAt,
    pub mode: CellMode,
    pub is_write: bool,
}

/// The access that the act is: a Read, a Write or a Take of a cell, else none.
pub fn access_by(act: Act) -> Option<CellAccess>
    ensures { option_map view_access result ≡ access_by act }
{
    match act {
        Act::Read(cell, mode) => Some(CellAccess {
            cell,
            mode,
            is_write: false,
        }),
        Act::Write(cell, mode, _) | Act::Take(Taken::Cell(cell, mode), _) => Some(CellAccess {
            cell,
            mode,
            is_write: true,
        }),
        _ => None,
    }
}

/// A granule has two cells.
pub fn granule_of(cell: CellAt) -> u64
    ensures { result ≡ granule_of cell }
{
    cell.cell / 2
}

/// The number of the object of a reference that is not NULL.
pub fn number_of(reference: i64) -> u32
    ensures { result ≡ number_of reference }
{
    (reference.unsigned_abs() % 4294967296) as u32
}

/// Whether the event is a New of the object.
pub fn makes(object: Object, event: &SourceEvent) -> bool
    ensures { result ≡ makes object event.now }
{
    match (object, event.act) {
        (Object::Made(n), Act::New(_, _, _)) => n == number_of(event.answer),
        _ => false,
    }
}

fn gives(object: Object, event: &SourceEvent) -> bool
    ensures { result ≡ gives object event.now }
{
    match (object, event.act) {
        (Object::Made(n), Act::Give(reference, _)) => n == number_of(reference),
        _ => false,
    }
}

/// Whether it is a Freed of the object.
pub fn frees(object: Object, event: &SourceEvent) -> bool
    ensures { result ≡ frees object event.now }
{
    match (object, event.act) {
        (Object::Made(n), Act::Freed(reference)) => n == number_of(reference),
        _ => false,
    }
}

/// Whether it is a New or a Give of the object: from there on the object has its mode and its owner.
pub fn begins(object: Object, event: &SourceEvent) -> bool
    ensures { result ≡ begins object event.now }
{
    makes(object, event) || gives(object, event)
}

/// Whether it is a Lock of the mutex in this cell.
pub fn locks(cell: CellAt, event: &SourceEvent) -> bool
    ensures { result ≡ locks cell event.now }
{
    match event.act {
        Act::Lock(d) => is_cell(cell, Some(d)),
        _ => false,
    }
}

/// Whether it is an Unlock of the mutex in this cell.
pub fn unlocks(cell: CellAt, event: &SourceEvent) -> bool
    ensures { result ≡ unlocks cell event.now }
{
    match event.act {
        Act::Unlock(d) => is_cell(cell, Some(d)),
        _ => false,
    }
}

fn cell_changed(act: Act) -> Option<CellAt>
    ensures { result ≡ cell_changed act }
{
    match act {
        Act::Write(c, _, _) => Some(c),
        Act::Take(Taken::Cell(c, _), _) => Some(c),
        _ => None,
    }
}

/// Whether the event gives the cell a value.
pub fn changes(cell: CellAt, event: &SourceEvent) -> bool
    ensures { result ≡ changes cell event.now }
{
    is_cell(cell, cell_changed(event.act)) || makes(cell.object, event)
}

/// The value that it gives.
pub fn value_left(act: Act) -> i64
    ensures { result ≡ value_left act }
{
    match act {
        Act::Write(_, _, value) => value,
        _ => 0,
    }
}

/// Whether the value is this number.
pub fn is_natural(number: u64, value: i64) -> bool
    ensures { result ≡ is_natural number value }
{
    value >= 0 && value.unsigned_abs() == number
}

/// Whether the event is a Spawn that answered this number.
pub fn spawns(thread: u64, event: &SourceEvent) -> bool
    ensures { result ≡ spawns thread event.now }
{
    match event.act {
        Act::Spawn(_, _) => is_natural(thread, event.answer),
        _ => false,
    }
}

/// Whether its thread is gone by the act.
pub fn is_gone(act: Act) -> bool
    ensures { result ≡ is_gone act }
{
    match act {
        Act::Gone => true,
        _ => false,
    }
}

/// Whether the thread makes itself a waiter of the cell by the event.
pub fn enters(cell: CellAt, thread: u32, event: &SourceEvent) -> bool
    ensures { result ≡ enters cell thread event.now }
{
    match event.act {
        Act::Enter(d) => is_cell(cell, Some(d)) && event.thread == thread,
        _ => false,
    }
}

/// Whether it is taken away from there by the event.
pub fn takes_away(cell: CellAt, thread: u32, event: &SourceEvent) -> bool
    ensures { result ≡ takes_away cell thread event.now }
{
    match event.act {
        Act::Signal(d) => is_cell(cell, Some(d)) && is_natural(thread as u64 + 1, event.answer),
        Act::Broadcast(d) => is_cell(cell, Some(d)),
        _ => false,
    }
}
