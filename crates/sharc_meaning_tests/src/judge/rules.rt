//! Histories that obey, and each rule broken.

use crate::judge::history::{G, MUTEX, OWN, OWN_BESIDE, Row, events};
use sharc_judge::Rule::{Live, NotWritten, OneMode, Owner, ReadSharedOrOneThread, UnderItsLock};
use sharc_judge::{Rule, Until, lowest_broken};
use sharc_tree::event::Act::{Freed, Give, Lock, New, Read, Return, Take, Unlock, Write};
use sharc_tree::event::CellMode::{Dynamic, Private, Racy, Readonly};
use sharc_tree::event::{Act, CellAt, CellMode, Object, TakeKind, Taken};
use std::test::Fail;

const FIRST: i64 = 4294967296 + 1;

const SECOND: i64 = 4294967296 + 2;

const H: CellAt = CellAt {
    object: Object::Global(2),
    cell: 0,
};

const SHARED: CellAt = CellAt {
    object: Object::Made(2),
    cell: 0,
};

const SHARED_BESIDE: CellAt = CellAt {
    object: Object::Made(2),
    cell: 1,
};

const SHARED_THIRD: CellAt = CellAt {
    object: Object::Made(2),
    cell: 2,
};

const SHARED_FOURTH: CellAt = CellAt {
    object: Object::Made(2),
    cell: 3,
};

const NOT_MADE: CellAt = CellAt {
    object: Object::Made(3),
    cell: 0,
};

const UNDER: CellMode = CellMode::Locked(Some(MUTEX));

const NO_MUTEX: CellMode = CellMode::Locked(None);

/// A private object of thread 0; a dynamic one that it writes before it returns, and thread 1 reads; a global under a
/// mutex; another that is readonly; then the private one is given to thread 1, and freed.
static OBEYING: [Row; 16] = [
    (0, New(2, 1, Private), FIRST),
    (0, Write(OWN, Private, 1), 0),
    (0, New(4, 1, Dynamic), SECOND),
    (0, Write(SHARED, Dynamic, 1), 0),
    (1, Lock(MUTEX), 0),
    (1, Write(G, UNDER, 1), 0),
    (1, Unlock(MUTEX), 0),
    (0, Read(H, Readonly), 0),
    (1, Read(H, Readonly), 0),
    (1, Write(SHARED_THIRD, Dynamic, 4), 0),
    (0, Return, 0),
    (1, Read(SHARED_BESIDE, Dynamic), 0),
    (1, Give(FIRST, Dynamic), 0),
    (1, Write(OWN, Dynamic, 2), 0),
    (1, Write(OWN_BESIDE, Dynamic, 2), 0),
    (1, Freed(FIRST), 0),
];

/// How many of these events come before, an event, and the rule that it breaks where accesses count until their thread
/// returns.
static BROKEN: [(usize, Row, Rule); 17] = [
    // An object that was not made, and one that was freed.
    (3, (0, Read(NOT_MADE, Dynamic), 0), Live),
    (16, (1, Read(OWN, Dynamic), 0), Live),
    // Another mode, in the object and in a global; one that names no mutex.
    (2, (0, Read(OWN, Dynamic), 0), OneMode),
    (15, (1, Read(OWN_BESIDE, Racy), 0), OneMode),
    (9, (1, Read(H, Dynamic), 0), OneMode),
    (9, (1, Read(G, NO_MUTEX), 0), OneMode),
    // Of another thread; a global is thread 0's; who gives an object owns it.
    (2, (1, Read(OWN, Private), 0), Owner),
    (2, (1, Read(OWN_BESIDE, Private), 0), Owner),
    (0, (1, Write(H, Private, 0), 0), Owner),
    (13, (0, Read(OWN_BESIDE, Private), 0), Owner),
    // A write and a Take.
    (9, (0, Write(H, Readonly, 1), 0), NotWritten),
    (
        9,
        (0, Take(Taken::Cell(H, Readonly), TakeKind::Free), 0),
        NotWritten,
    ),
    // The mutex is another's, and no longer held.
    (5, (0, Write(G, UNDER, 1), 0), UnderItsLock),
    (7, (1, Read(G, UNDER), 0), UnderItsLock),
    // A read beside a write of the other cell of the granule; a write beside a write; a write beside a read.
    (
        4,
        (1, Read(SHARED_BESIDE, Dynamic), 0),
        ReadSharedOrOneThread,
    ),
    (
        10,
        (0, Write(SHARED_FOURTH, Dynamic, 1), 0),
        ReadSharedOrOneThread,
    ),
    (
        12,
        (0, Write(SHARED_BESIDE, Dynamic, 1), 0),
        ReadSharedOrOneThread,
    ),
];

const LAST: Row = (1, Return, 0);

#[test]
fn all_rules_hold(rt: HostRuntime) -> Result<(), Fail> {
    let all = events(rt.alloc(), OBEYING.as_slice(), OBEYING.len(), LAST)?;
    assert_eq!(rt; lowest_broken(all.as_slice(), Until::Return), None);
    Ok(())
}

#[test]
fn each_rule_is_broken(rt: HostRuntime) -> Result<(), Fail> {
    for (count, last, rule) in &BROKEN {
        let all = events(rt.alloc(), OBEYING.as_slice(), *count, *last)?;
        assert_eq!(rt; lowest_broken(all.as_slice(), Until::Return), Some(*rule));
    }
    Ok(())
}

// The accesses of thread 0, which has returned, count until it is gone.
#[test]
fn accesses_count_until_the_thread_is_gone(rt: HostRuntime) -> Result<(), Fail> {
    let read: Row = (1, Read(SHARED_BESIDE, Dynamic), 0);
    let before = events(rt.alloc(), OBEYING.as_slice(), 11, read)?;
    assert_eq!(rt;
        lowest_broken(before.as_slice(), Until::Gone),
        Some(ReadSharedOrOneThread)
    );
    assert_eq!(rt; lowest_broken(before.as_slice(), Until::Return), None);
    let gone = events(rt.alloc(), OBEYING.as_slice(), 11, (0, Act::Gone, 0))?;
    assert_eq!(rt; lowest_broken(gone.as_slice(), Until::Gone), None);
    Ok(())
}
