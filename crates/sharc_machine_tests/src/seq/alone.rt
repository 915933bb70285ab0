//! One thread: arithmetic, calls, cells, objects, counts.

use crate::seq::bench::{LIMIT, run};
use sharc_code::Operator::{
    Add, And, AtLeast, AtMost, Divide, Equal, Greater, Less, Multiply, NotEqual, Or, Remainder,
    ShiftLeft, ShiftRight, Subtract, Xor,
};
use sharc_code::{Cell, Instr, Operator, Width};
use sharc_cpu::{Pause, Stop};
use sharc_tree::trap::Trap;
use sharc_tree::trap::Trap::{DivisionByZero, HeapFull, IndexOutOfBounds, NullPointer, OutOfRange};
use std::alloc::Global;
use std::test::Fail;

// What the instruction makes of two numbers, or the trap.
fn computed(
    alloc: Global,
    compute: Instr,
    left: i64,
    right: i64,
) -> Result<Option<Result<i64, Trap>>, Fail> {
    let body = [
        Instr::Constant(0, left),
        Instr::Constant(1, right),
        compute,
        Instr::Print(2, 6),
        Instr::Return(7),
    ];
    let ran = run(alloc, &body, &[], 20, LIMIT)?;
    match (ran.printed[0], ran.trap()) {
        (Some(value), None) => Ok(Some(Ok(value))),
        (None, Some((trap, 5))) => Ok(Some(Err(trap))),
        _ => Ok(None),
    }
}

/// What each operator makes of two numbers, as an `int` and as a `long`.
static COMPUTED: [(Operator, (i64, i64), Result<i64, Trap>, Result<i64, Trap>); 29] = [
    (Add, (40, 2), Ok(42), Ok(42)),
    (Add, (2147483647, 1), Err(OutOfRange), Ok(2147483648)),
    (Subtract, (-2147483648, 1), Err(OutOfRange), Ok(-2147483649)),
    (Multiply, (65536, 32768), Err(OutOfRange), Ok(2147483648)),
    (Multiply, (i64::MAX, 2), Err(OutOfRange), Err(OutOfRange)),
    (Divide, (-7, 2), Ok(-3), Ok(-3)),
    (Divide, (7, 0), Err(DivisionByZero), Err(DivisionByZero)),
    (Divide, (-2147483648, -1), Err(OutOfRange), Ok(2147483648)),
    (Divide, (i64::MIN, -1), Err(OutOfRange), Err(OutOfRange)),
    (Remainder, (-7, 2), Ok(-1), Ok(-1)),
    (Remainder, (7, 0), Err(DivisionByZero), Err(DivisionByZero)),
    (Remainder, (i64::MIN, -1), Err(OutOfRange), Err(OutOfRange)),
    (ShiftLeft, (1, 31), Err(OutOfRange), Ok(2147483648)),
    (ShiftLeft, (1, 32), Err(OutOfRange), Ok(4294967296)),
    (ShiftLeft, (-1, 63), Err(OutOfRange), Ok(i64::MIN)),
    (ShiftLeft, (1, 63), Err(OutOfRange), Err(OutOfRange)),
    (ShiftLeft, (1, -1), Err(OutOfRange), Err(OutOfRange)),
    (ShiftLeft, (-1, 31), Ok(-2147483648), Ok(-2147483648)),
    (ShiftRight, (-8, 1), Ok(-4), Ok(-4)),
    (ShiftRight, (8, 64), Err(OutOfRange), Err(OutOfRange)),
    (And, (12, 10), Ok(8), Ok(8)),
    (Or, (12, 10), Ok(14), Ok(14)),
    (Xor, (12, 10), Ok(6), Ok(6)),
    (Equal, (3, 3), Ok(1), Ok(1)),
    (NotEqual, (3, 3), Ok(0), Ok(0)),
    (Less, (-1, 0), Ok(1), Ok(1)),
    (Greater, (-1, 0), Ok(0), Ok(0)),
    (AtMost, (5, 5), Ok(1), Ok(1)),
    (AtLeast, (4, 5), Ok(0), Ok(0)),
];

#[test]
fn operators(rt: HostRuntime) -> Result<(), Fail> {
    for row in &COMPUTED {
        let (operator, (left, right), int, long) = *row;
        let compute = Instr::ComputeInt(operator, 2, 0, 1, 5);
        let answer = computed(rt.alloc(), compute, left, right)?;
        assert_eq!(rt; answer, Some(int), "int, of {left} and {right}");
        let compute = Instr::ComputeLong(operator, 2, 0, 1, 5);
        let answer = computed(rt.alloc(), compute, left, right)?;
        assert_eq!(rt; answer, Some(long), "long, of {left} and {right}");
    }
    Ok(())
}

// 5 + 4 + .. + 1 by a loop; then the negative, its complement and its not.
#[test]
fn counts_in_a_loop(rt: HostRuntime) -> Result<(), Fail> {
    let body = [
        Instr::Constant(0, 5),
        Instr::Constant(1, 0),
        Instr::Constant(2, 1),
        Instr::JumpIfZero(0, 9),
        Instr::ComputeInt(Add, 1, 1, 0, 0),
        Instr::ComputeInt(Subtract, 0, 0, 2, 0),
        Instr::Jump(5),
        Instr::NegateInt(3, 1, 0),
        Instr::Print(3, 0),
        Instr::Complement(3, 3),
        Instr::Print(3, 0),
        Instr::Not(4, 0),
        Instr::Print(4, 0),
        Instr::Return(0),
    ];
    let ran = run(rt.alloc(), &body, &[], 100, LIMIT)?;
    assert_eq!(rt; ran.printed, [Some(-15), Some(14), Some(1)]);
    assert_eq!(rt; ran.answers.0, Pause::Ended);
    // Start two, three constants, five rounds of four, the last test, seven more, and Exit two.
    assert_eq!(rt; ran.made, 35);
    Ok(())
}

// An object of two elements of three cells: a value goes in and out by an index; its count is 2, then 1.
fn object(last: Instr) -> [Instr; 16] {
    [
        Instr::Constant(0, 2),
        Instr::ChkPositive(0, 1),
        Instr::New(0, 0, 3, 2),
        Instr::Constant(1, 1),
        Instr::Bounds(1, 0, 3, 2, 3),
        Instr::Print(1, 0),
        Instr::Constant(2, 77),
        Instr::Store(2, Cell::ObjectAt(0, 1), 4),
        Instr::Load(3, Cell::Object(0, 5), 5),
        Instr::Print(3, 0),
        Instr::Raise(1, 0),
        Instr::SameReference(4, 0, 1),
        Instr::Print(4, 0),
        last,
        Instr::TestSole(0, 9),
        Instr::Return(0),
    ]
}

#[test]
fn objects(rt: HostRuntime) -> Result<(), Fail> {
    let sole = run(rt.alloc(), &object(Instr::Lower(1)), &[], 100, LIMIT)?;
    assert_eq!(rt; sole.printed, [Some(5), Some(77), Some(1)]);
    assert_eq!(rt; sole.answers.0, Pause::Ended);
    // Six cells take three data granules and the header, so a block of four after the globals.
    assert_eq!(rt; sole.top, 15);
    let two = run(rt.alloc(), &object(Instr::Jump(16)), &[], 100, LIMIT)?;
    assert!(rt; matches!(two.stops.0, Some(Stop::NotSole(9, 2))));
    assert_eq!(rt; two.answers.0, Pause::Stopped);
    Ok(())
}

// An index past the last element, and one below the first.
#[test]
fn bounds(rt: HostRuntime) -> Result<(), Fail> {
    for index in [2, -1] {
        let body = [
            Instr::Constant(0, 2),
            Instr::New(0, 0, 3, 2),
            Instr::Constant(1, index),
            Instr::Bounds(1, 0, 3, 2, 3),
            Instr::Return(0),
        ];
        let ran = run(rt.alloc(), &body, &[], 100, LIMIT)?;
        assert_eq!(rt; ran.trap(), Some((IndexOutOfBounds, 3)), "at {index}");
    }
    Ok(())
}

// A block that was freed is taken again, so the top moves once.
#[test]
fn frees_and_takes_again(rt: HostRuntime) -> Result<(), Fail> {
    let body = [
        Instr::Constant(0, 2),
        Instr::New(0, 0, 1, 2),
        Instr::Clear(0, 1),
        Instr::Free(0, 0, 3),
        Instr::New(1, 0, 1, 2),
        Instr::Constant(1, 1),
        Instr::Bounds(1, 1, 1, 0, 4),
        Instr::Print(1, 0),
        Instr::ChkNull(0, 8),
        Instr::Return(0),
    ];
    let ran = run(rt.alloc(), &body, &[], 100, LIMIT)?;
    assert_eq!(rt; ran.printed, [Some(1), None, None]);
    assert_eq!(rt; ran.trap(), Some((NullPointer, 8)));
    assert_eq!(rt; ran.top, 13);
    Ok(())
}

// More cells than the arena has.
#[test]
fn heap_full(rt: HostRuntime) -> Result<(), Fail> {
    let body = [
        Instr::Constant(0, i64::MAX),
        Instr::New(0, 0, 1000, 2),
        Instr::Return(0),
    ];
    let ran = run(rt.alloc(), &body, &[], 100, LIMIT)?;
    assert_eq!(rt; ran.trap(), Some((HeapFull, 2)));
    Ok(())
}

#[test]
fn widths(rt: HostRuntime) -> Result<(), Fail> {
    for (width, value, fits) in [
        (Width::Char, 127, true),
        (Width::Char, 128, false),
        (Width::Char, -128, true),
        (Width::Int, -2147483649, false),
        (Width::Long, i64::MIN, true),
    ] {
        let body = [
            Instr::Constant(0, value),
            Instr::ChkWidth(width, 0, 3),
            Instr::Return(0),
        ];
        let ran = run(rt.alloc(), &body, &[], 100, LIMIT)?;
        assert_eq!(rt;
            ran.trap(),
            if fits { None } else { Some((OutOfRange, 3)) },
            "of {value}"
        );
    }
    Ok(())
}
