//! One thread: references in cells, what is taken and given, locks behind pointers, and what a Free walks over.

use crate::seq::bench::{LIMIT, Seen, run};
use sharc_code::{Cell, Instr};
use sharc_cpu::{Pause, Stop};
use sharc_tree::trap::Trap;
use std::alloc::{AllocError, Global};
use std::process::Abort;
use std::test::Fail;

// Register 0 has an object of one cell, register 1 one of two elements of three cells. The first cell of the second
// object refers to the first object too, so its count is 2.
const BOTH: [Instr; 6] = [
    Instr::Constant(0, 1),
    Instr::New(0, 0, 1, 2),
    Instr::Constant(1, 2),
    Instr::New(1, 1, 3, 2),
    Instr::Raise(2, 0),
    Instr::Exchange(2, Cell::Object(1, 0), 3),
];

// Both objects, and then the instructions of `rest`, from place 8 on.
fn after_both(alloc: Global, rest: &[Instr]) -> Result<Seen, AllocError> {
    let mut body = BOTH.to_vec(alloc)?;
    body.extend_from_slice(rest)?;
    run(alloc, &body, &[], 100, LIMIT)
}

// The cell's old reference, NULL, came to the register; the one that is loaded is counted once more.
#[test]
fn loads_and_raises(rt: HostRuntime) -> Result<(), Fail> {
    let rest = [
        Instr::SameReference(2, 2, 7),
        Instr::Print(2, 4),
        Instr::LoadRef(Cell::Object(1, 0), 4),
        Instr::RaiseLoaded(3),
        Instr::SameReference(2, 0, 3),
        Instr::Print(2, 4),
        Instr::TestSole(0, 9),
        Instr::Return(0),
    ];
    let ran = after_both(rt.alloc(), &rest)?;
    assert_eq!(rt; ran.printed, [Some(1), Some(1), None]);
    assert!(rt; matches!(ran.stops.0, Some(Stop::NotSole(9, 3))));
    Ok(())
}

// A Take of a cell leaves NULL there and moves the reference; a Take of a local moves it too. Then it is the only one,
// and given.
#[test]
fn takes_and_gives(rt: HostRuntime) -> Result<(), Fail> {
    let rest = [
        Instr::TakeCell(3, Cell::Object(1, 0), 4),
        Instr::SameReference(2, 0, 3),
        Instr::Print(2, 4),
        Instr::LoadRef(Cell::Object(1, 0), 4),
        Instr::RaiseLoaded(4),
        Instr::Lower(3),
        Instr::TakeLocal(5, 0, 5),
        Instr::SameReference(2, 0, 4),
        Instr::Print(2, 4),
        Instr::TestSole(5, 9),
        Instr::Clear(5, 1),
        Instr::Give(5, 9),
        Instr::Store(2, Cell::Object(5, 0), 9),
        Instr::Load(3, Cell::Object(5, 0), 9),
        Instr::Print(3, 4),
        Instr::Return(0),
    ];
    let ran = after_both(rt.alloc(), &rest)?;
    assert_eq!(rt; ran.printed, [Some(1), Some(1), Some(1)]);
    assert_eq!(rt; ran.answers.0, Pause::Ended);
    Ok(())
}

// A Take of a local that is NULL asks for nothing and leaves NULL.
#[test]
fn takes_null(rt: HostRuntime) -> Result<(), Fail> {
    let ran = run(
        rt.alloc(),
        &[Instr::TakeLocal(1, 0, 5), Instr::ChkNull(1, 6)],
        &[],
        20,
        LIMIT,
    )?;
    assert_eq!(rt; ran.trap(), Some((Trap::NullPointer, 6)));
    // Start two, the Take, and the stop.
    assert_eq!(rt; ran.made, 4);
    Ok(())
}

// The Free gives up the references of the pointer cells, the first and the last of each element, and of no other: an
// integer cell holds the number of the first object too.
#[test]
fn free_walks(rt: HostRuntime) -> Result<(), Fail> {
    let rest = [
        Instr::Raise(2, 0),
        Instr::Exchange(2, Cell::Object(1, 5), 3),
        Instr::Constant(2, 11),
        Instr::Store(2, Cell::Object(1, 1), 3),
        Instr::Store(2, Cell::Object(1, 4), 3),
        Instr::ChkWrite(Cell::Object(1, 2), 3),
        Instr::Free(1, 1, 4),
        Instr::TestSole(0, 9),
        Instr::New(1, 1, 3, 2),
        Instr::ChkRead(Cell::Object(1, 2), 3),
        Instr::Load(3, Cell::Object(1, 4), 3),
        Instr::Print(3, 3),
        Instr::Return(0),
    ];
    let ran = after_both(rt.alloc(), &rest)?;
    assert_eq!(rt; ran.answers.0, Pause::Ended);
    assert_eq!(rt; ran.printed, [Some(0), None, None]);
    // The first object has a block of two granules after the globals, the second one of four, which is taken again.
    assert_eq!(rt; ran.top, 17);
    Ok(())
}

// An index of a global of three elements of two cells, whose field is cell 4; and one past its end.
#[test]
fn global_bounds(rt: HostRuntime) -> Result<(), Fail> {
    for (index, printed, trap) in [
        (2, Some(8), None),
        (3, None, Some((Trap::IndexOutOfBounds, 5))),
        (-1, None, Some((Trap::IndexOutOfBounds, 5))),
    ] {
        let body = [
            Instr::Constant(0, index),
            Instr::GlobalBounds(0, 3, 2, 4, 5),
            Instr::Print(0, 6),
            Instr::Return(0),
        ];
        let ran = run(rt.alloc(), &body, &[], 20, LIMIT)?;
        assert_eq!(rt; ran.printed[0], printed, "{index}");
        assert_eq!(rt; ran.trap(), trap, "{index}");
    }
    Ok(())
}

// The lock behind a pointer: it is held, then it is given back, and at last the pointer is NULL.
#[test]
fn lock_behind_a_pointer(rt: HostRuntime) -> Result<(), Fail> {
    let held = [
        Instr::Raise(2, 0),
        Instr::Lock(Cell::Object(2, 0), 4),
        Instr::LoadRef(Cell::Object(1, 0), 5),
        Instr::ChkLockLoaded(5),
        Instr::Print(1, 6),
        Instr::Unlock(2, Cell::Object(0, 0), 7),
        Instr::SameReference(2, 0, 2),
        Instr::Print(2, 6),
        Instr::LoadRef(Cell::Object(1, 0), 5),
        Instr::ChkLockLoaded(8),
    ];
    let ran = after_both(rt.alloc(), &held)?;
    assert_eq!(rt; ran.printed, [Some(2), Some(1), None]);
    // The cells begin after 97 words and the shadow words of 75 granules; the object's header is granule 11.
    assert!(rt; matches!(ran.stops.0, Some(Stop::NoLock(8, 196))));
    let null = [
        Instr::LoadRef(Cell::Object(1, 3), 5),
        Instr::ChkLockLoaded(5),
    ];
    let ran = after_both(rt.alloc(), &null)?;
    assert_eq!(rt; ran.trap(), Some((Trap::NullPointer, 5)));
    Ok(())
}
