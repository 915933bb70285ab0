//! Objects: how they are made, cleared and freed, and the bounds of their elements.

use crate::bench::Then::{Goes, Traps};
use crate::bench::{Group, Registers, walk};
use crate::script::Ask;
use sharc_code::Instr::{Bounds, Clear, Free, New, Raise};
use sharc_tree::trap::Trap::{HeapFull, IndexOutOfBounds};
use sharc_word::WordOp::{Add, Cas, Load, Sub, Swap};
use std::alloc::Global;
use std::process::Abort;
use std::test::Fail;

/// The registers before most turns.
const R: Registers = (1, 11, 12);

/// The steps of a New of one cell that takes the first block, at granule 11.
const FIRST: [Ask; 4] = [
    (1, Load, 11),
    (1, Cas(11, 13), 11),
    (194, Swap(1), 0),
    (195, Swap(1), 0),
];

/// New objects from the top, which word 1 holds.
static MADE: [Group<'static>; 3] = [
    (
        &[New(0, 0, 1, 7)],
        0,
        &[
            (R, &FIRST, Goes(R)),
            // The last block of the arena, and the first that is none.
            (
                R,
                &[
                    (1, Load, 73),
                    (1, Cas(73, 75), 73),
                    (318, Swap(1), 0),
                    (319, Swap(1), 0),
                ],
                Goes((1, 73, 12)),
            ),
            (R, &[(1, Load, 74)], Traps(HeapFull, 7)),
            (R, &[(1, Load, u64::MAX)], Traps(HeapFull, 7)),
            // Another took the block that was seen.
            (
                R,
                &[
                    (1, Load, 11),
                    (1, Cas(11, 13), 13),
                    (1, Cas(13, 15), 13),
                    (198, Swap(1), 0),
                    (199, Swap(1), 0),
                ],
                Goes((1, 13, 12)),
            ),
            (
                R,
                &[(1, Load, 11), (1, Cas(11, 13), 74)],
                Traps(HeapFull, 7),
            ),
            // An object has at least one element, and at least one cell.
            ((0, 11, 12), &FIRST, Goes((0, 11, 12))),
            ((i64::MIN, 11, 12), &FIRST, Goes((i64::MIN, 11, 12))),
        ],
    ),
    (&[New(0, 0, 0, 7)], 0, &[(R, &FIRST, Goes(R))]),
    (
        &[New(0, 0, 1000, 7)],
        0,
        &[((i64::MAX, 11, 12), &[(1, Load, 11)], Traps(HeapFull, 7))],
    ),
];

#[test]
fn from_the_top(rt: HostRuntime) -> Result<(), Fail> {
    walk(&rt, rt.alloc(), &MADE)
}

/// Cells, and the granules of their block.
static BLOCKS: [(i64, u64); 8] = [
    (1, 2),
    (2, 2),
    (3, 4),
    (6, 4),
    (7, 8),
    (14, 8),
    (15, 16),
    (62, 32),
];

#[test]
fn blocks(rt: HostRuntime) -> Result<(), Fail> {
    for (cells, block) in &BLOCKS {
        let registers = (*cells, 11, 12);
        let asks = [
            (1, Load, 11),
            (1, Cas(11, block.saturating_add(11)), 11),
            (194, Swap(1), 0),
            (195, Swap(cells.cast_unsigned()), 0),
        ];
        let case = (registers, &asks[..], Goes(registers));
        walk(&rt, rt.alloc(), &[(&[New(0, 0, 1, 7)], 0, &[case])])?;
    }
    Ok(())
}

/// What the free of the object of granule 11 asks for, which has one cell.
const FREE: [Ask; 5] = [
    (195, Load, 1),
    (109, Load, 19),
    (109, Swap(4294967296), 19),
    (194, Swap(0), 1),
    (195, Swap(0), 1),
];

/// Blocks that the thread has freed, taken again, with the steps behind that free.
static AGAIN: [Group<'static>; 5] = [
    (
        &[Free(0, 0, 7), New(1, 0, 1, 8)],
        0,
        &[(
            R,
            &[
                (195, Load, 0),
                (196, Swap(0), 9),
                (194, Swap(1), 0),
                (195, Swap(1), 0),
            ],
            Goes((1, 0, 11)),
        )],
    ),
    (
        &[Free(0, 0, 7), New(1, 0, 2, 8)],
        0,
        &[(
            R,
            &[
                (195, Load, 0),
                (196, Swap(0), 9),
                (197, Swap(0), 9),
                (194, Swap(1), 0),
                (195, Swap(1), 0),
            ],
            Goes((1, 0, 11)),
        )],
    ),
    // A block of another size is not taken.
    (
        &[Free(0, 0, 7), New(1, 0, 3, 8)],
        0,
        &[(
            R,
            &[
                (1, Load, 13),
                (1, Cas(13, 17), 13),
                (198, Swap(1), 0),
                (199, Swap(1), 0),
            ],
            Goes((1, 0, 13)),
        )],
    ),
    // The next block is the link, where that is a granule.
    (
        &[Free(0, 0, 7), New(1, 0, 1, 8), New(0, 0, 1, 8)],
        0,
        &[
            (
                R,
                &[
                    (195, Load, 74),
                    (196, Swap(0), 9),
                    (194, Swap(1), 0),
                    (195, Swap(1), 74),
                    (321, Load, 0),
                    (0, Swap(0), 0),
                    (320, Swap(1), 0),
                    (321, Swap(1), 0),
                ],
                Goes((1, 74, 11)),
            ),
            (
                R,
                &[
                    (195, Load, 75),
                    (196, Swap(0), 9),
                    (194, Swap(1), 0),
                    (195, Swap(1), 75),
                    (1, Load, 13),
                    (1, Cas(13, 15), 13),
                    (198, Swap(1), 0),
                    (199, Swap(1), 0),
                ],
                Goes((1, 13, 11)),
            ),
        ],
    ),
    // The second block is linked to the first.
    (
        &[Free(0, 0, 7), Raise(0, 1), Free(0, 0, 8)],
        0,
        &[(
            (1, 11, 13),
            &[
                (198, Add(1), 1),
                (199, Load, 1),
                (111, Load, 0),
                (111, Swap(4294967296), 0),
                (198, Swap(0), 2),
                (199, Swap(11), 1),
            ],
            Goes((1, 0, 13)),
        )],
    ),
];

/// The same of the last granule, and of the one after it.
static AGAIN_ELSEWHERE: [Group<'static>; 1] = [
    // A block that was freed is the next one, where it is a granule.
    (
        &[Free(0, 0, 7), New(1, 0, 1, 8)],
        0,
        &[
            (
                (1, 74, 12),
                &[
                    (321, Load, 0),
                    (320, Swap(0), 0),
                    (321, Swap(0), 0),
                    (321, Load, 0),
                    (0, Swap(0), 0),
                    (320, Swap(1), 0),
                    (321, Swap(1), 0),
                ],
                Goes((1, 0, 74)),
            ),
            (
                (1, 75, 12),
                &[
                    (173, Load, 0),
                    (172, Swap(0), 0),
                    (173, Swap(0), 0),
                    (1, Load, 11),
                    (1, Cas(11, 13), 11),
                    (194, Swap(1), 0),
                    (195, Swap(1), 0),
                ],
                Goes((1, 0, 11)),
            ),
        ],
    ),
];

// The cases of a group, behind the steps of the free.
fn walk_behind(rt: &impl Abort, alloc: Global, group: &Group) -> Result<(), Fail> {
    let (body, silent, cases) = *group;
    for (before, asks, then) in cases {
        let mut all = FREE.to_vec(alloc)?;
        all.extend_from_slice(asks)?;
        walk(
            rt,
            alloc,
            &[(body, silent, &[(*before, all.as_slice(), *then)])],
        )?;
    }
    Ok(())
}

#[test]
fn from_the_own_list(rt: HostRuntime) -> Result<(), Fail> {
    for group in &AGAIN {
        walk_behind(&rt, rt.alloc(), group)?;
    }
    walk(&rt, rt.alloc(), &AGAIN_ELSEWHERE)
}

/// Clears of the object of granule 11, whose data granules have the shadow words from 109 on.
static CLEARED: [Group<'static>; 3] = [
    (
        &[Clear(0, 2)],
        0,
        &[
            (R, &[(195, Load, 0)], Goes(R)),
            // The next epoch, after the last of which comes 0.
            (
                R,
                &[
                    (195, Load, 2),
                    (109, Load, u64::MAX),
                    (109, Swap(0), u64::MAX),
                    (110, Load, 6),
                    (110, Swap(4294967296), 7),
                ],
                Goes(R),
            ),
        ],
    ),
    (
        &[Clear(0, 3)],
        0,
        &[(
            R,
            &[
                (195, Load, 1),
                (109, Load, 0),
                (109, Swap(4294967296), 0),
                (110, Load, 0),
                (110, Swap(4294967296), 0),
            ],
            Goes(R),
        )],
    ),
    // After the last granule comes granule 0.
    (
        &[Clear(0, 2)],
        0,
        &[(
            (1, 73, 12),
            &[
                (319, Load, 2),
                (171, Load, 0),
                (171, Swap(4294967296), 0),
                (97, Load, 0),
                (97, Swap(4294967296), 0),
            ],
            Goes((1, 73, 12)),
        )],
    ),
];

#[test]
fn clears(rt: HostRuntime) -> Result<(), Fail> {
    walk(&rt, rt.alloc(), &CLEARED)
}

/// Frees of an object whose elements have three cells, of which the first and the last are pointers.
static FREED: [Group<'static>; 2] = [
    (
        &[Free(0, 1, 7)],
        0,
        &[
            (
                R,
                &[
                    (195, Load, 1),
                    (196, Swap(0), 20),
                    (212, Sub(1), 1),
                    (198, Swap(0), 0),
                    (109, Load, 17),
                    (109, Swap(4294967296), 17),
                    (110, Load, 0),
                    (110, Swap(4294967296), 0),
                    (194, Swap(0), 1),
                    (195, Swap(0), 1),
                ],
                Goes((1, 0, 12)),
            ),
            (
                R,
                &[
                    (195, Load, 2),
                    (196, Swap(0), 0),
                    (198, Swap(0), 0),
                    (199, Swap(0), 0),
                    (201, Swap(0), 0),
                    (109, Load, 0),
                    (109, Swap(4294967296), 0),
                    (110, Load, 0),
                    (110, Swap(4294967296), 0),
                    (111, Load, 0),
                    (111, Swap(4294967296), 0),
                    (194, Swap(0), 1),
                    (195, Swap(0), 2),
                ],
                Goes((1, 0, 12)),
            ),
            (
                R,
                &[(195, Load, 0), (194, Swap(0), 1), (195, Swap(0), 0)],
                Goes((1, 0, 12)),
            ),
            // References to the last granule, and to the one after it.
            (
                R,
                &[
                    (195, Load, 1),
                    (196, Swap(0), 74),
                    (320, Sub(1), 1),
                    (198, Swap(0), 75),
                    (172, Sub(1), 1),
                    (109, Load, 0),
                    (109, Swap(4294967296), 0),
                    (110, Load, 0),
                    (110, Swap(4294967296), 0),
                    (194, Swap(0), 1),
                    (195, Swap(0), 1),
                ],
                Goes((1, 0, 12)),
            ),
        ],
    ),
    // A layout that the code does not have is one of no cells.
    (
        &[Free(0, 2, 7)],
        0,
        &[(
            R,
            &[(195, Load, 5), (194, Swap(0), 1), (195, Swap(0), 5)],
            Goes((1, 0, 12)),
        )],
    ),
];

#[test]
fn frees(rt: HostRuntime) -> Result<(), Fail> {
    walk(&rt, rt.alloc(), &FREED)
}

/// Indexes of an object whose length is word 195.
static BOUNDED: [Group<'static>; 3] = [
    (
        &[Bounds(0, 0, 3, 2, 7)],
        0,
        &[
            ((0, 11, 12), &[(195, Load, 2)], Goes((2, 11, 12))),
            (R, &[(195, Load, 2)], Goes((5, 11, 12))),
            ((2, 11, 12), &[(195, Load, 2)], Traps(IndexOutOfBounds, 7)),
            ((0, 11, 12), &[(195, Load, 0)], Traps(IndexOutOfBounds, 7)),
            (
                (-1, 11, 12),
                &[(195, Load, u64::MAX)],
                Traps(IndexOutOfBounds, 7),
            ),
            (
                (i64::MIN, 11, 12),
                &[(195, Load, u64::MAX)],
                Traps(IndexOutOfBounds, 7),
            ),
            ((0, 0, 12), &[(173, Load, 1)], Goes((2, 0, 12))),
        ],
    ),
    // The largest number of a field that is no larger than 2 ^ 64 - 1, and one that is.
    (
        &[Bounds(0, 0, 2, 0, 7)],
        0,
        &[(
            (i64::MAX, 11, 12),
            &[(195, Load, u64::MAX)],
            Goes((-2, 11, 12)),
        )],
    ),
    (
        &[Bounds(0, 0, 3, 2, 7)],
        0,
        &[
            (
                (i64::MAX, 11, 12),
                &[(195, Load, u64::MAX)],
                Goes((-1, 11, 12)),
            ),
            (
                (i64::MAX, 11, 12),
                &[(195, Load, 9223372036854775807)],
                Traps(IndexOutOfBounds, 7),
            ),
        ],
    ),
];

#[test]
fn bounds(rt: HostRuntime) -> Result<(), Fail> {
    walk(&rt, rt.alloc(), &BOUNDED)
}
