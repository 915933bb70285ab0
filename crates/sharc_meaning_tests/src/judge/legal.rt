//! Legal stores, and lists that are legal up to their last event.

use crate::judge::history::{G, MUTEX, OWN, OWN_BESIDE, Row, events};
use crate::sources::typed;
use sharc_judge::first_illegal;
use sharc_tree::event::Act::{
    Broadcast, Enter, Freed, Give, Gone, Join, Lock, New, Print, Read, Return, Signal, Spawn,
    Started, Take, Unlock, Woken, Write,
};
use sharc_tree::event::CellMode::{Dynamic, Private, Racy, Readonly};
use sharc_tree::event::TakeKind::{Cast, Free};
use sharc_tree::event::{CellAt, Object, Taken};
use std::test::Fail;

const SOURCE: &str =
    "int g = -5; mutex m; struct cond c; char b = 'A'; int main(void) { return 0; }";

const CONDITION: CellAt = CellAt {
    object: Object::Global(2),
    cell: 0,
};

const BYTE_CELL: CellAt = CellAt {
    object: Object::Global(3),
    cell: 0,
};

/// A reference to object 1 with three elements, and with one.
const THREE: i64 = 3 * 4294967296 + 1;

const ONE: i64 = 4294967296 + 1;

/// Every kind of event, each where it may come: the value that was there first, written and taken; an object made,
/// freed and made again under its number; a thread that waits, is woken and goes; a mutex locked again.
static LEGAL: [Row; 33] = [
    (0, Started(0), 0),
    (0, Read(G, Dynamic), -5),
    (0, Write(G, Dynamic, 7), 0),
    (0, Read(G, Dynamic), 7),
    (0, New(2, 3, Private), THREE),
    (0, Write(OWN, Private, 9), 0),
    (0, Read(OWN_BESIDE, Private), 0),
    (0, Take(Taken::Cell(OWN, Private), Cast), 9),
    (0, Read(OWN, Private), 0),
    (0, Spawn(1, 5), 1),
    (1, Started(5), 0),
    (1, Lock(MUTEX), 0),
    (1, Enter(CONDITION), 0),
    (1, Unlock(MUTEX), 0),
    (0, Spawn(1, 6), 2),
    (2, Started(6), 0),
    (2, Enter(CONDITION), 0),
    (0, Signal(CONDITION), 2),
    (1, Woken(CONDITION), 0),
    (1, Lock(MUTEX), 0),
    (1, Unlock(MUTEX), 0),
    (1, Return, 0),
    (1, Gone, 0),
    (0, Join(1), 0),
    (0, Broadcast(CONDITION), 0),
    (2, Woken(CONDITION), 0),
    (0, Signal(CONDITION), 0),
    (0, Print(3), 0),
    (0, Take(Taken::Local(4), Free), THREE),
    (0, Give(THREE, Racy), 0),
    (0, Freed(THREE), 0),
    (0, New(1, 1, Private), ONE),
    (0, Read(OWN_BESIDE, Private), 0),
];

const BYTE: Row = (0, Read(BYTE_CELL, Readonly), 65);

/// How many events of the legal store come before, and an event that may not come there.
static ILLEGAL: [(usize, Row); 24] = [
    // What was there first, and values that were written over.
    (1, (0, Read(G, Dynamic), 0)),
    (1, (0, Read(G, Dynamic), 5)),
    (3, (0, Read(G, Dynamic), -5)),
    (33, (0, Read(BYTE_CELL, Readonly), 0)),
    // NULL is no reference; the number 0; other elements than are asked for; a number that is taken.
    (4, (0, New(2, 3, Private), 0)),
    (4, (0, New(2, 3, Private), 3 * 4294967296)),
    (4, (0, New(2, 2, Private), THREE)),
    (5, (0, New(2, 3, Private), THREE)),
    // A Take answers what the cell had, and NULL once it was taken.
    (7, (0, Take(Taken::Cell(OWN, Private), Cast), 0)),
    (8, (0, Take(Taken::Cell(OWN, Private), Free), 9)),
    // A New gives all cells their first value, also under a number that was freed.
    (32, (0, Read(OWN, Private), 9)),
    // The number of the first thread, one that was given, one below 0.
    (9, (0, Spawn(1, 5), 0)),
    (10, (0, Spawn(1, 5), 1)),
    (9, (0, Spawn(1, 5), -1)),
    // A mutex that is locked, by another and by oneself; an Unlock by another, and of one that was never locked.
    (12, (0, Lock(MUTEX), 0)),
    (12, (1, Lock(MUTEX), 0)),
    (12, (0, Unlock(MUTEX), 0)),
    (11, (1, Unlock(MUTEX), 0)),
    // A thread that waits still.
    (13, (1, Woken(CONDITION), 0)),
    // Somebody waits; not the lowest; nobody waits.
    (17, (0, Signal(CONDITION), 0)),
    (17, (0, Signal(CONDITION), 3)),
    (26, (0, Signal(CONDITION), 3)),
    // A thread that has returned and is not gone, and one that there never was.
    (22, (0, Join(1), 0)),
    (23, (0, Join(7), 0)),
];

#[test]
fn every_kind_of_event_may_come(rt: HostRuntime) -> Result<(), Fail> {
    let typed = typed(&rt, SOURCE)?;
    let all = events(rt.alloc(), LEGAL.as_slice(), LEGAL.len(), BYTE)?;
    assert_eq!(rt; first_illegal(&typed, all.as_slice()), None);
    Ok(())
}

#[test]
fn an_event_that_may_not_come_is_told(rt: HostRuntime) -> Result<(), Fail> {
    let typed = typed(&rt, SOURCE)?;
    for (count, last) in &ILLEGAL {
        let all = events(rt.alloc(), LEGAL.as_slice(), *count, *last)?;
        assert_eq!(rt; first_illegal(&typed, all.as_slice()), Some(*count));
    }
    Ok(())
}
