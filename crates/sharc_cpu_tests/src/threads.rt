//! Threads, prints and conditions.

use crate::bench::Then::{Ends, Goes, Traps, Tries};
use crate::bench::{Group, Registers, walk};
use sharc_code::Instr::{
    ChkRead, ChkWrite, CondBroadcast, CondEnter, CondSignal, CondWait, Exit, Join, Print, Spawn,
    Start,
};
use sharc_code::{Cell, Register};
use sharc_cpu::Wait;
use sharc_tree::trap::Trap::{NoSuchThread, ThreadLimit};
use sharc_word::WordOp::{Add, Cas, Load, Or, Swap};
use std::process::Abort;
use std::test::Fail;

/// The first cell of granule 4: its word is 180, and the shadow word 101.
const G: Cell = Cell::Global(0, 8);

/// The registers before most turns.
const R: Registers = (5, 11, 12);

/// Spawns of function 2: thread n has words 4 + 3n, 5 + 3n and 6 + 3n for its state, its function and its argument.
static SPAWNED: [Group<'static>; 2] = [
    // The last number, and the first that is none.
    (
        &[Spawn(0, 2, Register::Int(0), 7)],
        0,
        &[
            (
                R,
                &[
                    (2, Add(1), 30),
                    (95, Swap(2), 0),
                    (96, Swap(5), 0),
                    (94, Swap(1), 0),
                ],
                Goes((30, 11, 12)),
            ),
            (R, &[(2, Add(1), 31)], Traps(ThreadLimit, 7)),
            (R, &[(2, Add(1), u64::MAX)], Traps(ThreadLimit, 7)),
            (
                (i64::MIN, 11, 12),
                &[
                    (2, Add(1), 1),
                    (8, Swap(2), 0),
                    (9, Swap(9223372036854775808), 0),
                    (7, Swap(1), 0),
                ],
                Goes((1, 11, 12)),
            ),
        ],
    ),
    // The reference is handed over.
    (
        &[Spawn(0, 2, Register::Reference(0), 7)],
        0,
        &[(
            R,
            &[
                (2, Add(1), 1),
                (8, Swap(2), 0),
                (9, Swap(11), 0),
                (7, Swap(1), 0),
            ],
            Goes((1, 0, 12)),
        )],
    ),
];

#[test]
fn spawns(rt: HostRuntime) -> Result<(), Fail> {
    walk(&rt, rt.alloc(), &SPAWNED)
}

/// Joins, and a print.
static JOINED: [Group<'static>; 3] = [
    (
        &[Join(0, 7)],
        0,
        &[
            ((0, 11, 12), &[(4, Load, 3)], Goes((0, 11, 12))),
            ((30, 11, 12), &[(94, Load, 3)], Goes((30, 11, 12))),
            ((30, 11, 12), &[(94, Load, 0)], Traps(NoSuchThread, 7)),
            ((30, 11, 12), &[(94, Load, 1)], Tries(Wait::Join(30, 7))),
            ((30, 11, 12), &[(94, Load, 2)], Tries(Wait::Join(30, 7))),
        ],
    ),
    (
        &[Join(0, 7)],
        1,
        &[
            ((31, 11, 12), &[], Traps(NoSuchThread, 7)),
            ((-1, 11, 12), &[], Traps(NoSuchThread, 7)),
            ((4294967296, 11, 12), &[], Traps(NoSuchThread, 7)),
            ((i64::MIN, 11, 12), &[], Traps(NoSuchThread, 7)),
        ],
    ),
    // A print has the next place in the order of all.
    (&[Print(0, 7)], 0, &[(R, &[(3, Add(1), u64::MAX)], Goes(R))]),
];

#[test]
fn joins(rt: HostRuntime) -> Result<(), Fail> {
    walk(&rt, rt.alloc(), &JOINED)
}

/// Starts of thread 3: function 0 is `main`, function 1 has an integer as its parameter and function 2, the last, a
/// reference.
static STARTED: [Group<'static>; 1] = [(
    &[Start(7)],
    0,
    &[
        (R, &[(14, Load, 0), (15, Load, 20)], Goes(R)),
        (
            R,
            &[(14, Load, 1), (15, Load, u64::MAX)],
            Goes((-1, 11, 12)),
        ),
        (R, &[(14, Load, 2), (15, Load, 20)], Goes((5, 20, 12))),
        // A number that no function has is that of `main`.
        (R, &[(14, Load, 3), (15, Load, 20)], Goes(R)),
        (R, &[(14, Load, u64::MAX), (15, Load, 20)], Goes(R)),
    ],
)];

#[test]
fn starts(rt: HostRuntime) -> Result<(), Fail> {
    walk(&rt, rt.alloc(), &STARTED)
}

/// Ends of thread 3, whose state is word 13.
static GONE: [Group<'static>; 6] = [
    (
        &[Exit],
        0,
        &[(R, &[(13, Swap(2), 1), (13, Swap(3), 2)], Ends)],
    ),
    (
        &[ChkRead(G, 7), Exit],
        0,
        &[
            (
                R,
                &[
                    (101, Or(16), 0),
                    (13, Swap(2), 1),
                    (101, Load, 18),
                    (101, Cas(18, 2), 18),
                    (13, Swap(3), 2),
                ],
                Ends,
            ),
            // Two others read between; the Cas is tried again.
            (
                R,
                &[
                    (101, Or(16), 0),
                    (13, Swap(2), 1),
                    (101, Load, 16),
                    (101, Cas(16, 0), 22),
                    (101, Cas(22, 6), 22),
                    (13, Swap(3), 2),
                ],
                Ends,
            ),
        ],
    ),
    // The written bit goes where it is the thread's own of this epoch, and stays else.
    (
        &[ChkWrite(G, 7), Exit],
        0,
        &[(
            R,
            &[
                (101, Or(17), 0),
                (13, Swap(2), 1),
                (101, Load, 17),
                (101, Cas(17, 0), 17),
                (13, Swap(3), 2),
            ],
            Ends,
        )],
    ),
    (
        &[ChkRead(G, 7), Exit],
        0,
        &[(
            R,
            &[
                (101, Or(16), 0),
                (13, Swap(2), 1),
                (101, Load, 19),
                (101, Cas(19, 3), 19),
                (13, Swap(3), 2),
            ],
            Ends,
        )],
    ),
    (
        &[ChkWrite(G, 7), Exit],
        0,
        &[
            (
                R,
                &[
                    (101, Or(17), 0),
                    (13, Swap(2), 1),
                    (101, Load, 4294967299),
                    (101, Cas(4294967299, 4294967299), 4294967299),
                    (13, Swap(3), 2),
                ],
                Ends,
            ),
            (
                R,
                &[
                    (101, Or(17), 0),
                    (13, Swap(2), 1),
                    (101, Load, 17),
                    (101, Cas(17, 0), 4294967299),
                    (101, Cas(4294967299, 4294967299), 4294967299),
                    (13, Swap(3), 2),
                ],
                Ends,
            ),
        ],
    ),
    // Each granule once, in the order of the first checks.
    (
        &[
            ChkRead(Cell::Global(0, 10), 7),
            ChkRead(G, 7),
            ChkWrite(Cell::Global(0, 10), 7),
            Exit,
        ],
        0,
        &[(
            R,
            &[
                (102, Or(16), 0),
                (101, Or(16), 0),
                (102, Or(17), 16),
                (13, Swap(2), 1),
                (102, Load, 17),
                (102, Cas(17, 0), 17),
                (101, Load, 16),
                (101, Cas(16, 0), 16),
                (13, Swap(3), 2),
            ],
            Ends,
        )],
    ),
];

#[test]
fn exits(rt: HostRuntime) -> Result<(), Fail> {
    walk(&rt, rt.alloc(), &GONE)
}

/// Waits and signals: thread 3 is bit 3 of the waiters' word.
static CONDITIONS: [Group<'static>; 4] = [
    (&[CondEnter(G, 7)], 0, &[(R, &[(180, Or(8), 0)], Goes(R))]),
    (
        &[CondWait(G, 7)],
        0,
        &[
            (R, &[(180, Load, 0)], Goes(R)),
            (R, &[(180, Load, 7)], Goes(R)),
            (R, &[(180, Load, 8)], Tries(Wait::Cond(180, 7))),
            (R, &[(180, Load, u64::MAX)], Tries(Wait::Cond(180, 7))),
        ],
    ),
    (
        &[CondSignal(G, 7)],
        0,
        &[
            (R, &[(180, Load, 0)], Goes(R)),
            (R, &[(180, Load, 6), (180, Cas(6, 4), 6)], Goes(R)),
            // The one waiter was woken by another.
            (
                R,
                &[(180, Load, 1073741824), (180, Cas(1073741824, 0), 0)],
                Goes(R),
            ),
            // A lower one came between.
            (
                R,
                &[(180, Load, 2), (180, Cas(2, 0), 3), (180, Cas(3, 2), 3)],
                Goes(R),
            ),
        ],
    ),
    (
        &[CondBroadcast(G, 7)],
        0,
        &[(R, &[(180, Swap(0), u64::MAX)], Goes(R))],
    ),
];

#[test]
fn conditions(rt: HostRuntime) -> Result<(), Fail> {
    walk(&rt, rt.alloc(), &CONDITIONS)
}
