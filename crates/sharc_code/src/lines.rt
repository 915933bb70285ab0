//! The text of code.

ghost use Rattle.std.specs.{Prelude.{◌≡◌, ◌++◌, IfOk, OnOk, decimal, codes}, List.flat_map, Fmt.signed_decimal};
ghost use Rattle.sharc_code.specs.Listing.{operator_text, width_text, pair_text, cell_text, register_text};
ghost use Rattle.sharc_code.specs.Listing.{operand_text, line, line_of, shared_line_of, listing_of};
ghost use Rattle.sharc_code.specs.declared.lines.Operand.TheVariants.{Index};

use crate::code::Code;
use crate::instr::{Cell, Instr, Operator, Register, Width};
use Operand::{By, Fits, InCell, Index, OfRegister, Value};
use itoa::Buffer;
use std::alloc::{AllocError, Global};

/// What an instruction names beside its word.
#[derive(Clone, Copy)]
pub enum Operand {
    /// A register, a place, a function, a layout, a site, or a number of cells or elements.
    Index(u32),
    Value(i64),
    InCell(Cell),
    OfRegister(Register),
    By(Operator),
    Fits(Width),
}

/// The text of the code: of each instruction its word and its operands, with a newline.
///
/// An `Err` says that memory was not found.
pub fn listing(alloc: Global, code: &Code) -> Result<Vec<u8>, AllocError>
    ensures { IfOk result (λ text. text.items ≡ listing_of code.now) }
{
    let mut text = Vec::new(alloc);
    for instr in &code.instrs {
        put_instr(&mut text, *instr)?;
    }
    Ok(text)
}

fn put_line(text: &mut Vec<u8>, word: &[u8], operands: &[Operand]) -> Result<(), AllocError>
    ensures { OnOk result (text.new.items ≡ text.old.items ++ line word.now operands.now) }
{
    text.extend_from_slice(word)?;
    for operand in operands {
        put_operand(text, *operand)?;
    }
    text.extend_from_slice(b"\n")
}

// The same where each operand is an index.
fn put_indices(text: &mut Vec<u8>, word: &[u8], indices: &[u32]) -> Result<(), AllocError>
    ensures { OnOk result (text.new.items
        ≡ text.old.items ++ (word.now ++ flat_map (λ n. operand_text (Index n)) indices.now ++ codes "\n")) }
{
    text.extend_from_slice(word)?;
    for index in indices {
        put_number(text, *index)?;
    }
    text.extend_from_slice(b"\n")
}

fn put_operand(text: &mut Vec<u8>, operand: Operand) -> Result<(), AllocError>
    ensures { OnOk result (text.new.items ≡ text.old.items ++ operand_text operand) }
{
    match operand {
        Operand::Index(number) => put_number(text, number),
        Operand::Value(value) => put_value(text, value),
        Operand::InCell(cell) => put_cell(text, cell),
        Operand::OfRegister(register) => put_register(text, register),
        Operand::By(operator) => text.extend_from_slice(operator_text(operator)),
        Operand::Fits(width) => text.extend_from_slice(width_text(width)),
    }
}

fn put_number(text: &mut Vec<u8>, number: u32) -> Result<(), AllocError>
    ensures { OnOk result (text.new.items ≡ text.old.items ++ (codes " " ++ decimal number)) }
{
    text.extend_from_slice(b" ")?;
    let mut buffer = Buffer::new();
    text.extend_from_slice(buffer.format(number).as_bytes())
}

fn put_value(text: &mut Vec<u8>, value: i64) -> Result<(), AllocError>
    ensures { OnOk result (text.new.items ≡ text.old.items ++ (codes " " ++ signed_decimal value)) }
{
    text.extend_from_slice(b" ")?;
    let mut buffer = Buffer::new();
    text.extend_from_slice(buffer.format(value).as_bytes())
}

fn put_pair(text: &mut Vec<u8>, word: &[u8], left: u32, right: u32) -> Result<(), AllocError>
    ensures { OnOk result (text.new.items ≡ text.old.items ++ pair_text word.now left right) }
{
    text.extend_from_slice(word)?;
    put_number(text, left)?;
    put_number(text, right)
}

fn put_cell(text: &mut Vec<u8>, cell: Cell) -> Result<(), AllocError>
    ensures { OnOk result (text.new.items ≡ text.old.items ++ cell_text cell) }
{
    match cell {
        Cell::Global(global, cell) => put_pair(text, b" global", global, cell),
        Cell::GlobalAt(global, register) => put_pair(text, b" global_at", global, register),
        Cell::Object(register, cell) => put_pair(text, b" object", register, cell),
        Cell::ObjectAt(register, index) => put_pair(text, b" object_at", register, index),
    }
}

fn put_register(text: &mut Vec<u8>, register: Register) -> Result<(), AllocError>
    ensures { OnOk result (text.new.items ≡ text.old.items ++ register_text register) }
{
    match register {
        Register::Int(register) => {
            text.extend_from_slice(b" int")?;
            put_number(text, register)
        }
        Register::Reference(register) => {
            text.extend_from_slice(b" reference")?;
            put_number(text, register)
        }
    }
}

fn operator_text(operator: Operator) -> &'static [u8]
    ensures { result.now ≡ operator_text operator }
{
    match operator {
        Operator::Add => b" +",
        Operator::Subtract => b" -",
        Operator::Multiply => b" *",
        Operator::Divide => b" /",
        Operator::Remainder => b" %",
        Operator::ShiftLeft => b" <<",
        Operator::ShiftRight => b" >>",
        Operator::And => b" &",
        Operator::Or => b" |",
        Operator::Xor => b" ^",
        Operator::Equal => b" ==",
        Operator::NotEqual => b" !=",
        Operator::Less => b" <",
        Operator::Greater => b" >",
        Operator::AtMost => b" <=",
        Operator::AtLeast => b" >=",
    }
}

fn width_text(width: Width) -> &'static [u8]
    ensures { result.now ≡ width_text width }
{
    match width {
        Width::Char => b" char",
        Width::Int => b" int",
        Width::Long => b" long",
    }
}

// The line of one instruction.
fn put_instr(text: &mut Vec<u8>, instr: Instr) -> Result<(), AllocError>
    ensures { OnOk result (text.new.items ≡ text.old.items ++ line_of instr) }
{
    match instr {
        Instr::Constant(a, b) => put_line(text, b"constant", &[Index(a), Value(b)]),
        Instr::Move(a, b) => put_indices(text, b"move", &[a, b]),
        Instr::MoveReference(a, b) => put_indices(text, b"move_reference", &[a, b]),
        Instr::Null(a) => put_indices(text, b"null", &[a]),
        Instr::ComputeInt(a, b, c, d, e) => put_line(
            text,
            b"compute_int",
            &[By(a), Index(b), Index(c), Index(d), Index(e)],
        ),
        Instr::ComputeLong(a, b, c, d, e) => put_line(
            text,
            b"compute_long",
            &[By(a), Index(b), Index(c), Index(d), Index(e)],
        ),
        Instr::NegateInt(a, b, c) => put_indices(text, b"negate_int", &[a, b, c]),
        Instr::NegateLong(a, b, c) => put_indices(text, b"negate_long", &[a, b, c]),
        Instr::Complement(a, b) => put_indices(text, b"complement", &[a, b]),
        Instr::Not(a, b) => put_indices(text, b"not", &[a, b]),
        Instr::SameReference(a, b, c) => put_indices(text, b"same_reference", &[a, b, c]),
        Instr::ChkWidth(a, b, c) => put_line(text, b"chk_width", &[Fits(a), Index(b), Index(c)]),
        Instr::Jump(a) => put_indices(text, b"jump", &[a]),
        Instr::JumpIfZero(a, b) => put_indices(text, b"jump_if_zero", &[a, b]),
        Instr::JumpIfNull(a, b) => put_indices(text, b"jump_if_null", &[a, b]),
        Instr::Call(a, b, c, d) => put_indices(text, b"call", &[a, b, c, d]),
        Instr::Return(a) => put_indices(text, b"return", &[a]),
        Instr::ChkNull(a, b) => put_indices(text, b"chk_null", &[a, b]),
        Instr::ChkHeld(a, b) => put_line(text, b"chk_held", &[InCell(a), Index(b)]),
        Instr::ChkNotHeld(a, b) => put_line(text, b"chk_not_held", &[InCell(a), Index(b)]),
        Instr::ChkPositive(a, b) => put_indices(text, b"chk_positive", &[a, b]),
        Instr::ChkRoom(a) => put_indices(text, b"chk_room", &[a]),
        Instr::ChkLock(a, b) => put_line(text, b"chk_lock", &[InCell(a), Index(b)]),
        Instr::ChkLockLoaded(a) => put_indices(text, b"chk_lock_loaded", &[a]),
        _ => put_shared(text, instr),
    }
}

// The line of an instruction of more than registers; nothing for one of registers alone.
fn put_shared(text: &mut Vec<u8>, instr: Instr) -> Result<(), AllocError>
    ensures { OnOk result (text.new.items ≡ text.old.items ++ shared_line_of instr) }
{
    match instr {
        Instr::Bounds(a, b, c, d, e) => put_indices(text, b"bounds", &[a, b, c, d, e]),
        Instr::GlobalBounds(a, b, c, d, e) => put_indices(text, b"global_bounds", &[a, b, c, d, e]),
        Instr::ChkRead(a, b) => put_line(text, b"chk_read", &[InCell(a), Index(b)]),
        Instr::ChkWrite(a, b) => put_line(text, b"chk_write", &[InCell(a), Index(b)]),
        Instr::Load(a, b, c) => put_line(text, b"load", &[Index(a), InCell(b), Index(c)]),
        Instr::Store(a, b, c) => put_line(text, b"store", &[Index(a), InCell(b), Index(c)]),
        Instr::LoadRef(a, b) => put_line(text, b"load_ref", &[InCell(a), Index(b)]),
        Instr::Exchange(a, b, c) => put_line(text, b"exchange", &[Index(a), InCell(b), Index(c)]),
        Instr::Raise(a, b) => put_indices(text, b"raise", &[a, b]),
        Instr::RaiseLoaded(a) => put_indices(text, b"raise_loaded", &[a]),
        Instr::Lower(a) => put_indices(text, b"lower", &[a]),
        Instr::New(a, b, c, d) => put_indices(text, b"new", &[a, b, c, d]),
        Instr::TakeCell(a, b, c) => put_line(text, b"take_cell", &[Index(a), InCell(b), Index(c)]),
        Instr::TakeLocal(a, b, c) => put_indices(text, b"take_local", &[a, b, c]),
        Instr::TestSole(a, b) => put_indices(text, b"test_sole", &[a, b]),
        Instr::Clear(a, b) => put_indices(text, b"clear", &[a, b]),
        Instr::Give(a, b) => put_indices(text, b"give", &[a, b]),
        Instr::Free(a, b, c) => put_indices(text, b"free", &[a, b, c]),
        Instr::Lock(a, b) => put_line(text, b"lock", &[InCell(a), Index(b)]),
        Instr::Unlock(a, b, c) => put_line(text, b"unlock", &[Index(a), InCell(b), Index(c)]),
        Instr::Spawn(a, b, c, d) => put_line(
            text,
            b"spawn",
            &[Index(a), Index(b), OfRegister(c), Index(d)],
        ),
        Instr::Join(a, b) => put_indices(text, b"join", &[a, b]),
        Instr::Print(a, b) => put_indices(text, b"print", &[a, b]),
        Instr::Start(a) => put_indices(text, b"start", &[a]),
        Instr::Exit => put_line(text, b"exit", &[]),
        Instr::CondEnter(a, b) => put_line(text, b"cond_enter", &[InCell(a), Index(b)]),
        Instr::CondWait(a, b) => put_line(text, b"cond_wait", &[InCell(a), Index(b)]),
        Instr::CondSignal(a, b) => put_line(text, b"cond_signal", &[InCell(a), Index(b)]),
        Instr::CondBroadcast(a, b) => put_line(text, b"cond_broadcast", &[InCell(a), Index(b)]),
        _ => Ok(()),
    }
}
