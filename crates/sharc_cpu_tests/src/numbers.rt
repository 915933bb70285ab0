//! The last numbers of granules, words and functions, and the first that are none; and the shapes that fit.

ghost use Rattle.std.specs.Prelude.{◌≡◌};

use crate::bench::Then::Goes;
use crate::bench::walk;
use crate::code::code;
use sharc_code::{Cell, Instr, Shape};
use sharc_word::WordOp;
use sharc_word::WordOp::{Add, Load, Or, Sub, Swap};
use std::alloc::Global;
use std::process::Abort;
use std::test::Fail;

// The instruction makes this step where the first reference is that one, and leaves this one.
fn steps(
    rt: &impl Abort,
    alloc: Global,
    instr: Instr,
    from: u64,
    step: (u32, WordOp),
    until: u64,
) -> Result<(), Fail> {
    let (word, op) = step;
    let case = ((0, from, 12), &[(word, op, 1)][..], Goes((0, until, 12)));
    walk(rt, alloc, &[(&[instr], 0, &[case])])
}

/// A granule of the 75, with the words of its count, of its length and of the first cell after it; a number of no
/// granule is taken as 0.
static HEADERS: [(u64, u32, u32, u32); 7] = [
    (0, 172, 173, 174),
    (11, 194, 195, 196),
    (73, 318, 319, 320),
    (74, 320, 321, 0),
    (75, 172, 173, 0),
    (9223372036854775807, 172, 173, 0),
    (u64::MAX, 172, 173, 0),
];

#[test]
fn granules(rt: HostRuntime) -> Result<(), Fail> {
    for (header, count, length, cell) in &HEADERS {
        if *header != 0 {
            steps(
                &rt,
                rt.alloc(),
                Instr::Raise(0, 0),
                *header,
                (*count, Add(1)),
                *header,
            )?;
            steps(
                &rt,
                rt.alloc(),
                Instr::Lower(0),
                *header,
                (*count, Sub(1)),
                0,
            )?;
            steps(
                &rt,
                rt.alloc(),
                Instr::Exchange(0, Cell::Object(0, 0), 7),
                *header,
                (*cell, Swap(*header)),
                1,
            )?;
        }
        for instr in &[Instr::TestSole(0, 7), Instr::Give(0, 7)] {
            steps(&rt, rt.alloc(), *instr, *header, (*count, Load), *header)?;
        }
        steps(
            &rt,
            rt.alloc(),
            Instr::Bounds(0, 0, 1, 0, 7),
            *header,
            (*length, Load),
            *header,
        )?;
    }
    Ok(())
}

/// The number of a cell, counted from the first cell of granule 0, with its word and the shadow word of its granule.
static PLACES: [(i64, u32, u32); 6] = [
    (8, 180, 101),
    (149, 321, 171),
    (150, 0, 97),
    (4294967296, 0, 97),
    (i64::MAX, 0, 97),
    (-1, 0, 97),
];

#[test]
fn cells(rt: HostRuntime) -> Result<(), Fail> {
    let cell = Cell::GlobalAt(0, 0);
    for (place, word, shadow) in &PLACES {
        let body = [Instr::ChkRead(cell, 7), Instr::Load(0, cell, 7)];
        let asks = [(*shadow, Or(16), 0), (*word, Load, 6)];
        let case = ((*place, 11, 12), &asks[..], Goes((6, 11, 12)));
        walk(&rt, rt.alloc(), &[(&body, 0, &[case])])?;
    }
    Ok(())
}

/// The number of a cell of the object of granule 11, with its word and the shadow word of its granule.
static FIELDS: [(i64, u32, u32); 6] = [
    (0, 196, 109),
    (125, 321, 171),
    (126, 0, 97),
    (4294967296, 0, 97),
    (i64::MIN, 0, 97),
    (-1, 0, 97),
];

#[test]
fn fields(rt: HostRuntime) -> Result<(), Fail> {
    let cell = Cell::ObjectAt(0, 0);
    for (field, word, shadow) in &FIELDS {
        let registers = (*field, 11, 12);
        let body = [Instr::ChkWrite(cell, 7), Instr::Store(0, cell, 7)];
        let asks = [
            (*shadow, Or(17), 0),
            (*word, Swap(field.cast_unsigned()), 6),
        ];
        let case = (registers, &asks[..], Goes(registers));
        walk(&rt, rt.alloc(), &[(&body, 0, &[case])])?;
    }
    Ok(())
}

/// Shapes, and whether they fit a code with 31 threads and ten granules of globals.
static SHAPES: [(u32, u32, u32, bool); 9] = [
    (31, 10, 16, true),
    (30, 10, 16, false),
    (32, 10, 16, false),
    (31, 9, 16, false),
    (31, 11, 16, false),
    (31, 10, 15, false),
    (31, 10, 65536, true),
    (31, 10, 65537, false),
    (31, 10, u32::MAX, false),
];

#[test]
fn shapes(rt: HostRuntime) -> Result<(), Fail> {
    let code = code(rt.alloc(), Vec::new(rt.alloc()), 0)?;
    for (threads, globals, heap, fits) in &SHAPES {
        let shape = Shape {
            threads: *threads,
            globals: *globals,
            heap: *heap,
        };
        assert_eq!(rt; shape.fits(&code), *fits, "{heap}");
    }
    Ok(())
}
