// How many registers of each kind a function's frame needs.

ghost use Rattle.std.specs.Prelude.{◌≡◌, IfOk};
ghost use Rattle.sharc_flat.specs.Frames.{int_need, base_need, handed_need, ref_need, ints_in, refs_in};

use crate::numbers::plus;
use sharc_code::{Cell, Register};
use sharc_flat::Op;
use std::alloc::AllocError;

/// The integer registers that an operation needs: those up to the one that it writes, or to which the result of a call
/// comes if it is an integer.
fn int_need(op: &Op) -> Result<u32, AllocError>
    ensures { IfOk result (λ n. n ≡ int_need op.now) }
{
    match *op {
        Op::Constant(int, _)
        | Op::Move(int, _)
        | Op::Compute(_, _, int, _, _, _)
        | Op::Negate(_, int, _, _)
        | Op::Complement(int, _)
        | Op::IsFalse(int, _)
        | Op::SameReference(int, _, _)
        | Op::Bounds(int, _, _, _, _)
        | Op::GlobalBounds(int, _, _, _, _)
        | Op::Load(int, _, _)
        | Op::Call(_, int, _, _)
        | Op::Spawn(int, _, _, _) => plus(int, 1),
        _ => Ok(0),
    }
}

/// The reference registers of the base of a cell.
fn base_need(cell: Cell) -> Result<u32, AllocError>
    ensures { IfOk result (λ n. n ≡ base_need cell) }
{
    match cell {
        Cell::Object(reference, _) | Cell::ObjectAt(reference, _) => plus(reference, 1),
        Cell::Global(_, _) | Cell::GlobalAt(_, _) => Ok(0),
    }
}

/// The reference registers of what a thread is handed.
fn handed_need(from: Register) -> Result<u32, AllocError>
    ensures { IfOk result (λ n. n ≡ handed_need from) }
{
    match from {
        Register::Int(_) => Ok(0),
        Register::Reference(reference) => plus(reference, 1),
    }
}

/// The reference registers that an operation needs: those up to the last one that it writes or gives away, or to which
/// the result of a call comes if it is a reference.
fn ref_need(op: &Op) -> Result<u32, AllocError>
    ensures { IfOk result (λ n. n ≡ ref_need op.now) }
{
    match *op {
        Op::Null(reference)
        | Op::Local(reference, _)
        | Op::Pop(reference)
        | Op::LoadRef(reference, _, _)
        | Op::StoreRef(reference, _, _)
        | Op::New(reference, _, _, _)
        | Op::TakeCell(reference, _, _)
        | Op::Free(reference, _, _)
        | Op::Call(_, _, reference, _)
        | Op::Unlock(reference, _, _) => plus(reference, 1),
        Op::MoveReference(reference, other)
        | Op::Settle(reference, other)
        | Op::TakeLocal(reference, other, _) => plus(reference.max(other), 1),
        Op::Lock(cell, _) => base_need(cell),
        Op::Spawn(_, _, from, _) => handed_need(from),
        _ => Ok(0),
    }
}

/// The integer registers that lines need.
pub fn ints_in(lines: &[Op]) -> Result<u32, AllocError>
    ensures { IfOk result (λ n. n ≡ ints_in lines.now) }
{
    let mut most = 0;
    for op in lines {
        most = int_need(op)?.max(most);
    }
    Ok(most)
}

/// The reference registers that lines need.
pub fn refs_in(lines: &[Op]) -> Result<u32, AllocError>
    ensures { IfOk result (λ n. n ≡ refs_in lines.now) }
{
    let mut most = 0;
    for op in lines {
        most = ref_need(op)?.max(most);
    }
    Ok(most)
}
