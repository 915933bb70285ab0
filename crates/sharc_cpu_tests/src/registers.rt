//! Instructions that ask for no step.

use crate::bench::Then::{Ends, Goes, Traps};
use crate::bench::{BODY, Group, Registers, walk};
use sharc_code::Instr::{
    Call, ChkNull, ChkPositive, ChkRoom, ChkWidth, Complement, ComputeInt, ComputeLong, Constant,
    GlobalBounds, Jump, JumpIfNull, JumpIfZero, Move, MoveReference, NegateInt, NegateLong, Not,
    Null, Return, SameReference,
};
use sharc_code::Operator::{
    Add, And, AtLeast, AtMost, Divide, Equal, Greater, Less, Multiply, NotEqual, Or, Remainder,
    ShiftLeft, ShiftRight, Subtract, Xor,
};
use sharc_code::{Instr, Operator, Width};
use sharc_tree::trap::Trap;
use sharc_tree::trap::Trap::{
    CallDepth, DivisionByZero, IndexOutOfBounds, NullPointer, OutOfRange, SizeNotPositive,
};
use sharc_word::WordOp;
use std::alloc::Global;
use std::process::Abort;
use std::test::Fail;

const SITE: u32 = 7;

/// The registers before most turns.
const R: Registers = (5, 11, 12);

// What becomes of the first register in this many turns, or the trap.
fn one(
    rt: &impl Abort,
    alloc: Global,
    body: &[Instr],
    turns: u32,
    from: i64,
    made: Result<i64, Trap>,
) -> Result<(), Fail> {
    let then = match made {
        Ok(value) => Goes((value, 11, 12)),
        Err(trap) => Traps(trap, SITE),
    };
    walk(rt, alloc, &[(body, turns, &[((from, 11, 12), &[], then)])])
}

/// What each operator makes of two numbers, as an `int` and as a `long`.
static COMPUTED: [(Operator, i64, i64, Result<i64, Trap>, Result<i64, Trap>); 48] = [
    (Add, 2147483646, 1, Ok(2147483647), Ok(2147483647)),
    (Add, 2147483647, 1, Err(OutOfRange), Ok(2147483648)),
    (Add, -2147483648, -1, Err(OutOfRange), Ok(-2147483649)),
    (Add, i64::MAX, 1, Err(OutOfRange), Err(OutOfRange)),
    (Add, i64::MIN, -1, Err(OutOfRange), Err(OutOfRange)),
    (Subtract, -2147483647, 1, Ok(-2147483648), Ok(-2147483648)),
    (Subtract, 0, -2147483648, Err(OutOfRange), Ok(2147483648)),
    (Subtract, 0, i64::MIN, Err(OutOfRange), Err(OutOfRange)),
    (Subtract, -1, i64::MIN, Err(OutOfRange), Ok(i64::MAX)),
    (Multiply, 46341, 46341, Err(OutOfRange), Ok(2147488281)),
    (Multiply, -65536, 32768, Ok(-2147483648), Ok(-2147483648)),
    (Multiply, i64::MIN, -1, Err(OutOfRange), Err(OutOfRange)),
    (
        Multiply,
        3037000500,
        3037000500,
        Err(OutOfRange),
        Err(OutOfRange),
    ),
    (Multiply, i64::MIN, 0, Ok(0), Ok(0)),
    (Divide, 7, -2, Ok(-3), Ok(-3)),
    (Divide, -1, 2, Ok(0), Ok(0)),
    (Divide, -2147483648, 1, Ok(-2147483648), Ok(-2147483648)),
    (
        Divide,
        i64::MAX,
        0,
        Err(DivisionByZero),
        Err(DivisionByZero),
    ),
    (Divide, i64::MIN, i64::MIN, Ok(1), Ok(1)),
    (Remainder, 7, -2, Ok(1), Ok(1)),
    (Remainder, -2147483648, -1, Err(OutOfRange), Ok(0)),
    (
        Remainder,
        i64::MIN,
        0,
        Err(DivisionByZero),
        Err(DivisionByZero),
    ),
    (Remainder, i64::MIN, i64::MAX, Ok(-1), Ok(-1)),
    (ShiftLeft, 1, 30, Ok(1073741824), Ok(1073741824)),
    (ShiftLeft, 0, 31, Ok(0), Ok(0)),
    (ShiftLeft, 0, 32, Err(OutOfRange), Ok(0)),
    (ShiftLeft, 0, 63, Err(OutOfRange), Ok(0)),
    (ShiftLeft, 0, 64, Err(OutOfRange), Err(OutOfRange)),
    (ShiftLeft, 0, i64::MIN, Err(OutOfRange), Err(OutOfRange)),
    (ShiftLeft, 1, 62, Err(OutOfRange), Ok(4611686018427387904)),
    (ShiftLeft, -2, 63, Err(OutOfRange), Err(OutOfRange)),
    (ShiftRight, -1, 31, Ok(-1), Ok(-1)),
    (ShiftRight, 2147483647, 31, Ok(0), Ok(0)),
    (ShiftRight, 1, 32, Err(OutOfRange), Ok(0)),
    (ShiftRight, i64::MIN, 63, Err(OutOfRange), Ok(-1)),
    (ShiftRight, 1, -1, Err(OutOfRange), Err(OutOfRange)),
    (ShiftRight, 1, i64::MAX, Err(OutOfRange), Err(OutOfRange)),
    (And, -1, i64::MIN, Ok(i64::MIN), Ok(i64::MIN)),
    (Or, i64::MIN, i64::MAX, Ok(-1), Ok(-1)),
    (Xor, -1, -1, Ok(0), Ok(0)),
    (Equal, i64::MIN, i64::MAX, Ok(0), Ok(0)),
    (NotEqual, i64::MIN, i64::MAX, Ok(1), Ok(1)),
    (Less, i64::MIN, i64::MAX, Ok(1), Ok(1)),
    (Less, 3, 3, Ok(0), Ok(0)),
    (Greater, i64::MAX, i64::MIN, Ok(1), Ok(1)),
    (Greater, 3, 3, Ok(0), Ok(0)),
    (AtMost, i64::MAX, i64::MIN, Ok(0), Ok(0)),
    (AtLeast, i64::MIN, i64::MIN, Ok(1), Ok(1)),
];

#[test]
fn operators(rt: HostRuntime) -> Result<(), Fail> {
    for (operator, left, right, int, long) in &COMPUTED {
        let second = Constant(1, *right);
        let compute = ComputeInt(*operator, 0, 0, 1, SITE);
        one(&rt, rt.alloc(), &[second, compute], 2, *left, *int)?;
        let compute = ComputeLong(*operator, 0, 0, 1, SITE);
        one(&rt, rt.alloc(), &[second, compute], 2, *left, *long)?;
    }
    Ok(())
}

/// What one instruction makes of one number.
static OF_ONE: [(Instr, i64, Result<i64, Trap>); 42] = [
    (Constant(0, i64::MIN), 5, Ok(i64::MIN)),
    (Constant(0, i64::MAX), 5, Ok(i64::MAX)),
    // A register past the bank, of 2048 registers, is 0 and stays so.
    (Move(0, 2048), 5, Ok(0)),
    (Move(0, u32::MAX), 5, Ok(0)),
    (Constant(2048, 6), 5, Ok(5)),
    (NegateInt(0, 0, 7), 2147483647, Ok(-2147483647)),
    (NegateInt(0, 0, 7), -2147483647, Ok(2147483647)),
    (NegateInt(0, 0, 7), -2147483648, Err(OutOfRange)),
    (NegateInt(0, 0, 7), 0, Ok(0)),
    (NegateLong(0, 0, 7), -2147483648, Ok(2147483648)),
    (NegateLong(0, 0, 7), i64::MAX, Ok(-9223372036854775807)),
    (NegateLong(0, 0, 7), i64::MIN, Err(OutOfRange)),
    (Complement(0, 0), 0, Ok(-1)),
    (Complement(0, 0), i64::MIN, Ok(i64::MAX)),
    (Not(0, 0), 0, Ok(1)),
    (Not(0, 0), i64::MIN, Ok(0)),
    (Not(0, 0), 1, Ok(0)),
    (ChkWidth(Width::Char, 0, 7), 127, Ok(127)),
    (ChkWidth(Width::Char, 0, 7), 128, Err(OutOfRange)),
    (ChkWidth(Width::Char, 0, 7), -128, Ok(-128)),
    (ChkWidth(Width::Char, 0, 7), -129, Err(OutOfRange)),
    (ChkWidth(Width::Int, 0, 7), 2147483647, Ok(2147483647)),
    (ChkWidth(Width::Int, 0, 7), 2147483648, Err(OutOfRange)),
    (ChkWidth(Width::Int, 0, 7), -2147483648, Ok(-2147483648)),
    (ChkWidth(Width::Int, 0, 7), -2147483649, Err(OutOfRange)),
    (ChkWidth(Width::Long, 0, 7), i64::MAX, Ok(i64::MAX)),
    (ChkWidth(Width::Long, 0, 7), i64::MIN, Ok(i64::MIN)),
    (ChkPositive(0, 7), 1, Ok(1)),
    (ChkPositive(0, 7), i64::MAX, Ok(i64::MAX)),
    (ChkPositive(0, 7), 0, Err(SizeNotPositive)),
    (ChkPositive(0, 7), -1, Err(SizeNotPositive)),
    (ChkPositive(0, 7), i64::MIN, Err(SizeNotPositive)),
    // Three elements of two cells from cell 8 on, and the second field.
    (GlobalBounds(0, 3, 2, 9, 7), 0, Ok(9)),
    (GlobalBounds(0, 3, 2, 9, 7), 2, Ok(13)),
    (GlobalBounds(0, 3, 2, 9, 7), 3, Err(IndexOutOfBounds)),
    (GlobalBounds(0, 3, 2, 9, 7), -1, Err(IndexOutOfBounds)),
    (GlobalBounds(0, 3, 2, 9, 7), i64::MIN, Err(IndexOutOfBounds)),
    (GlobalBounds(0, 0, 2, 9, 7), 0, Err(IndexOutOfBounds)),
    (ChkNull(0, 7), 5, Ok(5)),
    (ChkNull(2, 7), 5, Err(NullPointer)),
    (ChkNull(2048, 7), 5, Err(NullPointer)),
    (ChkRoom(7), 5, Ok(5)),
];

#[test]
fn integers(rt: HostRuntime) -> Result<(), Fail> {
    for (instr, from, made) in &OF_ONE {
        one(&rt, rt.alloc(), &[*instr], 1, *from, *made)?;
    }
    Ok(())
}

/// References, jumps, and calls with frames that begin at the second integer and the third reference. There is no frame
/// at first.
static MOVED: [Group<'static>; 15] = [
    (&[MoveReference(1, 0)], 1, &[(R, &[], Goes((5, 0, 11)))]),
    (&[MoveReference(0, 0)], 1, &[(R, &[], Goes(R))]),
    (&[Null(0)], 1, &[(R, &[], Goes((5, 0, 12)))]),
    (
        &[SameReference(0, 0, 1)],
        1,
        &[
            ((5, 0, 0), &[], Goes((1, 0, 0))),
            ((5, u64::MAX, u64::MAX), &[], Goes((1, u64::MAX, u64::MAX))),
            ((5, 11, 0), &[], Goes((0, 11, 0))),
        ],
    ),
    (&[Jump(BODY + 2), Null(0)], 1, &[(R, &[], Goes(R))]),
    (
        &[JumpIfZero(0, BODY + 2), Null(0)],
        1,
        &[((0, 11, 12), &[], Goes((0, 11, 12)))],
    ),
    (
        &[JumpIfZero(0, BODY + 2), Null(0)],
        2,
        &[((i64::MIN, 11, 12), &[], Goes((i64::MIN, 0, 12)))],
    ),
    (
        &[JumpIfNull(0, BODY + 2), Null(1)],
        1,
        &[((5, 0, 12), &[], Goes((5, 0, 12)))],
    ),
    (
        &[JumpIfNull(0, BODY + 2), Null(1)],
        2,
        &[((5, 1, 12), &[], Goes((5, 1, 0)))],
    ),
    // The callee's first registers are the caller's next ones.
    (
        &[Constant(1, 6), Call(BODY + 2, 1, 1, SITE)],
        2,
        &[(R, &[], Goes((6, 12, 0)))],
    ),
    // It returns to the place after the call, and to the caller's frame.
    (
        &[
            Call(BODY + 2, 1, 1, SITE),
            Jump(BODY + 4),
            Constant(0, 6),
            Return(SITE),
        ],
        4,
        &[(R, &[], Goes(R))],
    ),
    // A frame may begin at the last number of a register, which is in no bank, and at no larger one.
    (
        &[Call(BODY + 1, u32::MAX, u32::MAX, SITE), Constant(0, 6)],
        2,
        &[(R, &[], Goes((0, 0, 0)))],
    ),
    (
        &[Call(BODY + 1, u32::MAX, 0, 8), Call(BODY + 2, 1, 0, SITE)],
        2,
        &[(R, &[], Traps(CallDepth, SITE))],
    ),
    (
        &[Call(BODY + 1, 0, u32::MAX, 8), Call(BODY + 2, 0, 1, SITE)],
        2,
        &[(R, &[], Traps(CallDepth, SITE))],
    ),
    // Where there is no frame, a return leads past the code, and the thread goes.
    (
        &[Return(SITE)],
        1,
        &[(
            R,
            &[(13, WordOp::Swap(2), 1), (13, WordOp::Swap(3), 2)],
            Ends,
        )],
    ),
];

#[test]
fn references_and_places(rt: HostRuntime) -> Result<(), Fail> {
    walk(&rt, rt.alloc(), &MOVED)
}
