//! Operations in words, with their registers, the lines and functions that they lead to, and their cells.

use sharc_code::{Cell, Register};
use sharc_flat::{Flat, Op};
use std::alloc::{AllocError, Global};

fn word(op: Op) -> &'static str {
    match op {
        Op::Enter => "enter",
        Op::Constant(_, _) => "constant",
        Op::Move(_, _) => "move",
        Op::Compute(_, _, _, _, _, _) => "compute",
        Op::Negate(_, _, _, _) => "negate",
        Op::Complement(_, _) => "complement",
        Op::IsFalse(_, _) => "is_false",
        Op::SameReference(_, _, _) => "same",
        Op::ChkWidth(_, _, _) => "chk_width",
        Op::Skip(_) => "skip",
        Op::SkipIfZero(_, _) => "skip_if_zero",
        Op::SkipIfNull(_, _) => "skip_if_null",
        Op::Jump(_) => "jump",
        Op::Call(_, _, _, _) => "call",
        Op::Return(_) => "return",
        Op::BlockEnd => "block_end",
        Op::Null(_) => "null",
        Op::Local(_, _) => "local",
        Op::MoveReference(_, _) => "move_reference",
        Op::Pop(_) => "pop",
        Op::Settle(_, _) => "settle",
        Op::ChkNull(_, _) => "chk_null",
        Op::ChkPositive(_, _) => "chk_positive",
        Op::ChkHeld(_, _) => "chk_held",
        Op::ChkNotHeld(_, _) => "chk_not_held",
        Op::ChkRoom(_) => "chk_room",
        Op::Bounds(_, _, _, _, _) => "bounds",
        Op::GlobalBounds(_, _, _, _, _) => "global_bounds",
        Op::Load(_, _, _) => "load",
        Op::Store(_, _, _) => "store",
        Op::LoadRef(_, _, _) => "load_ref",
        Op::StoreRef(_, _, _) => "store_ref",
        Op::LoadGuard(_, _) => "load_guard",
        Op::New(_, _, _, _) => "new",
        Op::TakeCell(_, _, _) => "take_cell",
        Op::TakeLocal(_, _, _) => "take_local",
        Op::Give(_, _, _) => "give",
        Op::Free(_, _, _) => "free",
        Op::Lock(_, _) => "lock",
        Op::Unlock(_, _, _) => "unlock",
        Op::CondEnter(_, _) => "cond_enter",
        Op::CondWait(_, _) => "cond_wait",
        Op::CondSignal(_, _) => "cond_signal",
        Op::CondBroadcast(_, _) => "cond_broadcast",
        Op::Spawn(_, _, _, _) => "spawn",
        Op::Join(_, _) => "join",
        Op::Print(_, _) => "print",
    }
}

/// Registers, and how many or which lines, functions, cells and layouts are meant.
fn numbers(op: Op) -> [Option<u32>; 4] {
    match op {
        Op::Constant(a, value) => [Some(a), u32::try_from(value).ok(), None, None],
        Op::Skip(a) | Op::Jump(a) | Op::Null(a) | Op::Pop(a) => [Some(a), None, None, None],
        Op::ChkWidth(_, a, _)
        | Op::ChkNull(a, _)
        | Op::ChkPositive(a, _)
        | Op::Load(a, _, _)
        | Op::Store(a, _, _)
        | Op::LoadRef(a, _, _)
        | Op::StoreRef(a, _, _)
        | Op::TakeCell(a, _, _)
        | Op::Unlock(a, _, _)
        | Op::Join(a, _)
        | Op::Print(a, _) => [Some(a), None, None, None],
        Op::Move(a, b)
        | Op::Complement(a, b)
        | Op::IsFalse(a, b)
        | Op::SkipIfZero(a, b)
        | Op::SkipIfNull(a, b)
        | Op::Local(a, b)
        | Op::MoveReference(a, b)
        | Op::Settle(a, b) => [Some(a), Some(b), None, None],
        Op::Negate(_, a, b, _)
        | Op::TakeLocal(a, b, _)
        | Op::Give(a, b, _)
        | Op::Free(a, b, _)
        | Op::Spawn(a, b, Register::Int(_), _)
        | Op::Spawn(a, b, Register::Reference(_), _) => [Some(a), Some(b), None, None],
        Op::Compute(_, _, a, b, c, _)
        | Op::SameReference(a, b, c)
        | Op::Call(a, b, c, _)
        | Op::New(a, b, c, _) => [Some(a), Some(b), Some(c), None],
        Op::Bounds(a, b, c, d, _) | Op::GlobalBounds(a, b, c, d, _) => {
            [Some(a), Some(b), Some(c), Some(d)]
        }
        _ => [None, None, None, None],
    }
}

fn cell(op: Op) -> Option<Cell> {
    match op {
        Op::ChkHeld(cell, _)
        | Op::ChkNotHeld(cell, _)
        | Op::Load(_, cell, _)
        | Op::Store(_, cell, _)
        | Op::LoadRef(_, cell, _)
        | Op::StoreRef(_, cell, _)
        | Op::LoadGuard(cell, _)
        | Op::TakeCell(_, cell, _)
        | Op::Lock(cell, _)
        | Op::Unlock(_, cell, _)
        | Op::CondEnter(cell, _)
        | Op::CondWait(cell, _)
        | Op::CondSignal(cell, _)
        | Op::CondBroadcast(cell, _) => Some(cell),
        _ => None,
    }
}

/// A cell of a global or of the object in a register: a number is a cell, one in brackets the register that has the
/// number of the cell.
fn cell_text(alloc: Global, cell: Cell) -> Result<String, AllocError> {
    match cell {
        Cell::Object(reference, cell) => format!(in alloc; " o{reference}.{cell}"),
        Cell::ObjectAt(reference, int) => format!(in alloc; " o{reference}[{int}]"),
        Cell::Global(global, cell) => format!(in alloc; " g{global}.{cell}"),
        Cell::GlobalAt(global, int) => format!(in alloc; " g{global}[{int}]"),
    }
}

fn add_op(alloc: Global, op: Op, text: &mut String) -> Result<(), AllocError> {
    text.push_str(word(op))?;
    for number in numbers(op) {
        if let Some(number) = number {
            let number = format!(in alloc; " {number}")?;
            text.push_str(number.as_str())?;
        }
    }
    if let Some(cell) = cell(op) {
        let cell = cell_text(alloc, cell)?;
        text.push_str(cell.as_str())?;
    }
    text.push_str(";")?;
    Ok(())
}

/// All lines, with `;` after each.
pub(crate) fn shown(alloc: Global, flat: &Flat) -> Result<String, AllocError> {
    let mut text = String::new(alloc);
    for op in &flat.lines {
        add_op(alloc, *op, &mut text)?;
    }
    Ok(text)
}
