//! Checks of accesses and of mutexes, counts, and cells.

use crate::bench::Then::{Conflicts, Ends, Goes, Stops, Traps, Tries};
use crate::bench::{BODY, Group, Registers, run, walk};
use crate::script::Ask;
use sharc_code::Instr::{
    Call, ChkHeld, ChkLock, ChkLockLoaded, ChkNotHeld, ChkRead, ChkWrite, Exchange, Give, LoadRef,
    Lock, Lower, Raise, RaiseLoaded, Return, Store, TakeCell, TakeLocal, TestSole, Unlock,
};
use sharc_code::{Cell, Instr};
use sharc_cpu::Stop::{NoLock, NotSole};
use sharc_cpu::Wait::Mutex;
use sharc_heap::Kind::{Read, Write};
use sharc_tree::trap::Trap::{MutexAlreadyHeld, MutexNotHeld, NullPointer, ReturnWithLockHeld};
use sharc_word::WordOp::{Add, Cas, Load, Or, Sub, Swap};
use std::process::Abort;
use std::test::Fail;

/// The first cell of granule 4: its word is 180, and the shadow word 101. Thread 3 has bit 4 there, thread 0 bit 1,
/// thread 30 bit 31.
const G: Cell = Cell::Global(0, 8);

/// The registers before most turns.
const R: Registers = (5, 11, 12);

/// Checks of reads and writes by thread 3.
static CHECKS: [Group<'static>; 5] = [
    (
        &[ChkRead(G, 7)],
        0,
        &[
            (R, &[(101, Or(16), 0)], Goes(R)),
            // Another has read, the thread itself has written, and a written bit is set alone.
            (R, &[(101, Or(16), 2)], Goes(R)),
            (R, &[(101, Or(16), 17)], Goes(R)),
            (R, &[(101, Or(16), 1)], Goes(R)),
            // Another has written, in epoch 0 and in epoch 5.
            (R, &[(101, Or(16), 3)], Conflicts(Read, 7, 0, 3)),
            (
                R,
                &[(101, Or(16), 23622320129)],
                Conflicts(Read, 7, 5, 23622320129),
            ),
        ],
    ),
    (
        &[ChkWrite(G, 7)],
        0,
        &[
            (R, &[(101, Or(17), 0)], Goes(R)),
            (R, &[(101, Or(17), 17)], Goes(R)),
            (R, &[(101, Or(17), 1)], Goes(R)),
            // The epoch has all bits, and no thread one.
            (R, &[(101, Or(17), 18446744069414584320)], Goes(R)),
            // Another has read.
            (R, &[(101, Or(17), 2)], Conflicts(Write, 7, 0, 2)),
            (
                R,
                &[(101, Or(17), 2147483648)],
                Conflicts(Write, 7, 0, 2147483648),
            ),
        ],
    ),
    // Its own write of this epoch was checked, so the other's was refused; in another epoch it was not.
    (
        &[ChkWrite(G, 7), ChkRead(G, 8)],
        0,
        &[
            (R, &[(101, Or(17), 0), (101, Or(16), 19)], Goes(R)),
            (
                R,
                &[(101, Or(17), 0), (101, Or(16), 4294967315)],
                Conflicts(Read, 8, 1, 4294967315),
            ),
        ],
    ),
    (
        &[ChkRead(G, 7), ChkRead(G, 8)],
        0,
        &[(
            R,
            &[(101, Or(16), 0), (101, Or(16), 19)],
            Conflicts(Read, 8, 0, 19),
        )],
    ),
    (
        &[ChkWrite(G, 7), ChkWrite(G, 8)],
        0,
        &[(
            R,
            &[(101, Or(17), 0), (101, Or(17), 19)],
            Conflicts(Write, 8, 0, 19),
        )],
    ),
];

#[test]
fn accesses(rt: HostRuntime) -> Result<(), Fail> {
    walk(&rt, rt.alloc(), &CHECKS)
}

/// Checks, and the sites that are noted of reads and of writes: a check is noted where it passes, and not again in the
/// same epoch.
static NOTED: [(&[Instr], &[Ask], (Option<u32>, Option<u32>)); 6] = [
    (
        &[ChkRead(G, 7), ChkRead(G, 8)],
        &[(101, Or(16), 0), (101, Or(16), 16)],
        (Some(7), None),
    ),
    (
        &[ChkRead(G, 7), ChkWrite(G, 8)],
        &[(101, Or(16), 0), (101, Or(17), 16)],
        (Some(7), Some(8)),
    ),
    (
        &[ChkWrite(G, 7), ChkWrite(G, 8)],
        &[(101, Or(17), 0), (101, Or(17), 17)],
        (None, Some(7)),
    ),
    (
        &[ChkRead(G, 7), ChkWrite(G, 8)],
        &[(101, Or(16), 0), (101, Or(17), 18)],
        (Some(7), None),
    ),
    (&[ChkRead(G, 7)], &[(101, Or(16), 3)], (None, None)),
    (&[ChkWrite(G, 7)], &[(101, Or(17), 2)], (None, None)),
];

#[test]
fn notes(rt: HostRuntime) -> Result<(), Fail> {
    for (body, asks, noted) in &NOTED {
        assert_eq!(rt; run(rt.alloc(), body, 0, &(R, asks, Ends))?.noted, *noted);
    }
    Ok(())
}

/// Mutexes, of which the word is the holder's number plus 1.
static MUTEXES: [Group<'static>; 17] = [
    (
        &[Lock(G, 7)],
        0,
        &[
            (R, &[(180, Cas(0, 4), 0)], Goes(R)),
            (R, &[(180, Cas(0, 4), 1)], Tries(Mutex(180, 7))),
            (R, &[(180, Cas(0, 4), 4)], Tries(Mutex(180, 7))),
            (R, &[(180, Cas(0, 4), u64::MAX)], Tries(Mutex(180, 7))),
        ],
    ),
    // The reference of the mutex's base goes to the log, and comes back.
    (
        &[
            Lock(Cell::Object(0, 1), 7),
            Unlock(0, Cell::Object(1, 1), 8),
        ],
        0,
        &[(
            (5, 11, 11),
            &[(197, Cas(0, 4), 0), (197, Swap(0), 4)],
            Goes((5, 11, 11)),
        )],
    ),
    (
        &[Lock(Cell::Object(0, 1), 7)],
        0,
        &[
            (R, &[(197, Cas(0, 4), 0)], Goes((5, 0, 12))),
            (R, &[(197, Cas(0, 4), 1)], Tries(Mutex(197, 7))),
        ],
    ),
    // One that is not held has no reference.
    (
        &[Unlock(0, G, 7)],
        0,
        &[(R, &[(180, Swap(0), 0)], Goes((5, 0, 12)))],
    ),
    (&[ChkHeld(G, 7)], 1, &[(R, &[], Traps(MutexNotHeld, 7))]),
    (
        &[Lock(G, 7), ChkHeld(G, 8)],
        1,
        &[(R, &[(180, Cas(0, 4), 0)], Goes(R))],
    ),
    (
        &[Lock(G, 7), Unlock(2, G, 7), ChkHeld(G, 8)],
        1,
        &[(
            R,
            &[(180, Cas(0, 4), 0), (180, Swap(0), 4)],
            Traps(MutexNotHeld, 8),
        )],
    ),
    (&[ChkNotHeld(G, 7)], 1, &[(R, &[], Goes(R))]),
    (
        &[Lock(G, 7), ChkNotHeld(G, 8)],
        1,
        &[(R, &[(180, Cas(0, 4), 0)], Traps(MutexAlreadyHeld, 8))],
    ),
    (&[ChkLock(G, 7)], 1, &[(R, &[], Stops(NoLock(7, 180)))]),
    (
        &[Lock(G, 7), ChkLock(G, 8)],
        1,
        &[(R, &[(180, Cas(0, 4), 0)], Goes(R))],
    ),
    (
        &[Lock(G, 7), ChkLock(Cell::Global(0, 9), 8)],
        1,
        &[(R, &[(180, Cas(0, 4), 0)], Stops(NoLock(8, 181)))],
    ),
    (
        &[ChkLock(Cell::Object(0, 1), 7)],
        1,
        &[((5, 0, 12), &[], Traps(NullPointer, 7))],
    ),
    (
        &[ChkLock(Cell::ObjectAt(0, 0), 7)],
        1,
        &[((5, 0, 12), &[], Traps(NullPointer, 7))],
    ),
    // The mutex in the first cell of the object that was loaded.
    (
        &[LoadRef(G, 7), ChkLockLoaded(8)],
        1,
        &[
            (R, &[(180, Load, 11)], Stops(NoLock(8, 196))),
            (R, &[(180, Load, 0)], Traps(NullPointer, 8)),
        ],
    ),
    (
        &[Lock(Cell::Object(0, 0), 7), LoadRef(G, 7), ChkLockLoaded(8)],
        1,
        &[(R, &[(196, Cas(0, 4), 0), (180, Load, 11)], Goes((5, 0, 12)))],
    ),
    // The last return of a thread that holds one.
    (
        &[Call(BODY + 1, 0, 0, 8), Lock(G, 8), Return(7)],
        2,
        &[(R, &[(180, Cas(0, 4), 0)], Traps(ReturnWithLockHeld, 7))],
    ),
];

#[test]
fn mutexes(rt: HostRuntime) -> Result<(), Fail> {
    walk(&rt, rt.alloc(), &MUTEXES)
}

/// Counts of the object of granule 11, whose count is word 194.
static COUNTS: [Group<'static>; 11] = [
    // NULL has no count.
    (&[Raise(1, 0)], 1, &[((5, 0, 12), &[], Goes((5, 0, 0)))]),
    (
        &[Raise(1, 0)],
        0,
        &[(R, &[(194, Add(1), u64::MAX)], Goes((5, 11, 11)))],
    ),
    (&[Lower(0)], 1, &[((5, 0, 12), &[], Goes((5, 0, 12)))]),
    (
        &[Lower(0)],
        0,
        &[(R, &[(194, Sub(1), 0)], Goes((5, 0, 12)))],
    ),
    (
        &[TakeLocal(1, 0, 7)],
        1,
        &[((5, 0, 12), &[], Goes((5, 0, 0)))],
    ),
    (
        &[TakeLocal(1, 0, 7)],
        0,
        &[(R, &[(194, Load, 3)], Goes((5, 0, 11)))],
    ),
    (
        &[TestSole(0, 7)],
        0,
        &[
            (R, &[(194, Load, 1)], Goes(R)),
            (R, &[(194, Load, 0)], Stops(NotSole(7, 0))),
            (R, &[(194, Load, 2)], Stops(NotSole(7, 2))),
            (R, &[(194, Load, u64::MAX)], Stops(NotSole(7, u64::MAX))),
        ],
    ),
    (&[Give(0, 7)], 0, &[(R, &[(194, Load, u64::MAX)], Goes(R))]),
    // The reference that was loaded last.
    (
        &[LoadRef(G, 7), RaiseLoaded(1)],
        0,
        &[(R, &[(180, Load, 11), (194, Add(1), 1)], Goes((5, 11, 11)))],
    ),
    (
        &[LoadRef(G, 7), RaiseLoaded(1)],
        1,
        &[(R, &[(180, Load, 0)], Goes((5, 11, 0)))],
    ),
    // After another access none is loaded.
    (
        &[LoadRef(G, 7), Instr::Load(0, G, 7), RaiseLoaded(1)],
        1,
        &[(R, &[(180, Load, 11), (180, Load, 9)], Goes((9, 11, 0)))],
    ),
];

#[test]
fn counts(rt: HostRuntime) -> Result<(), Fail> {
    walk(&rt, rt.alloc(), &COUNTS)
}

/// Cells of a global, and of the object of granule 11, whose first is word 196.
static CELLS: [Group<'static>; 7] = [
    (
        &[Instr::Load(0, G, 7)],
        0,
        &[
            (R, &[(180, Load, u64::MAX)], Goes((-1, 11, 12))),
            (
                R,
                &[(180, Load, 9223372036854775808)],
                Goes((i64::MIN, 11, 12)),
            ),
        ],
    ),
    (
        &[Instr::Load(0, Cell::GlobalAt(0, 0), 7)],
        0,
        &[((8, 11, 12), &[(180, Load, 6)], Goes((6, 11, 12)))],
    ),
    (
        &[Instr::Load(0, Cell::Object(0, 1), 7)],
        0,
        &[(R, &[(197, Load, 6)], Goes((6, 11, 12)))],
    ),
    (
        &[Instr::Load(0, Cell::ObjectAt(0, 0), 7)],
        0,
        &[((1, 11, 12), &[(197, Load, 6)], Goes((6, 11, 12)))],
    ),
    (
        &[Store(0, G, 7)],
        0,
        &[
            (
                (-1, 11, 12),
                &[(180, Swap(u64::MAX), 6)],
                Goes((-1, 11, 12)),
            ),
            (
                (i64::MIN, 11, 12),
                &[(180, Swap(9223372036854775808), 6)],
                Goes((i64::MIN, 11, 12)),
            ),
        ],
    ),
    (
        &[Exchange(0, G, 7)],
        0,
        &[(R, &[(180, Swap(11), 20)], Goes((5, 20, 12)))],
    ),
    (
        &[TakeCell(1, G, 7)],
        0,
        &[(R, &[(180, Swap(0), 20)], Goes((5, 11, 20)))],
    ),
];

#[test]
fn cells(rt: HostRuntime) -> Result<(), Fail> {
    walk(&rt, rt.alloc(), &CELLS)
}
