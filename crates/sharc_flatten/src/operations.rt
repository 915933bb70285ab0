// The operations of single values and calls, without their operands.

ghost use Rattle.std.specs.Prelude.{◌≡◌, ◌+◌, ◌++◌, [], ◌∷◌, ◌<◌, ◌^◌, IfOk, OnOk};
ghost use Rattle.sharc_tree.specs.View.{view_arguments, view_expr};
ghost use Rattle.sharc_names.specs.View.{view_kind, view_root};
ghost use Rattle.sharc_meaning.specs.{Reference.constant_value, State.is_reference, Expressions.number_named};
ghost use Rattle.sharc_flat.specs.{Places.{width_of, base_as_width, width_code}, Flattened.{constant_code, truth_code}};
ghost use Rattle.sharc_flat.specs.Flattened.{drop_code, zero_code, operator_of, differ_code, compare_code};
ghost use Rattle.sharc_flat.specs.Flattened.{first_cell_of, wait_code, with_words, argument_words, condition_code};
ghost use Rattle.sharc_flat.specs.{Flattened.{called_code, spawn_code, value_call_code}, Scope.{at_site, no_text}};
ghost use Rattle.sharc_flatten.specs.View.{wait_begin, evaluation_of, holds_references};

use crate::places::{Emitted, emit};
use crate::registers::{Bank, Registers};
use crate::spots::{at_site, no_text, tokens_in};
use sharc_code::{Cell, Operator, Register, Text, Width};
use sharc_flat::{Op, Spot};
use sharc_names::fault::Named;
use sharc_names::kind::{ExpressionKind, Root, is_integer, is_null, is_pointer};
use sharc_tree::token::Site;
use sharc_tree::tree::{BinaryOperator, Constant, Expr, Identifier, ValueCall};
use std::alloc::AllocError;

/// The bank of a value of this type.
pub fn bank_of(kind: ExpressionKind<'_>) -> Bank
    ensures { holds_references result ≡ is_reference (view_kind kind.entry) }
{
    if is_pointer(kind) || is_null(kind) {
        Bank::Reference
    } else {
        Bank::Int
    }
}

fn root_width(root: Root<'_>) -> Width
    ensures { result ≡ base_as_width (view_root root.entry) }
{
    match root {
        Root::Char => Width::Char,
        Root::Int => Width::Int,
        Root::Long => Width::Long,
        Root::Mutex => Width::Long,
        Root::Void => Width::Long,
        Root::Struct(_) => Width::Long,
    }
}

/// The width of an integer type.
pub(crate) fn width_of(kind: ExpressionKind<'_>) -> Width
    ensures { result ≡ width_of (view_kind kind.entry) }
{
    match kind {
        ExpressionKind::Object(root, _) => root_width(root),
        ExpressionKind::Array(root, _) => root_width(root),
        ExpressionKind::Null => Width::Long,
        ExpressionKind::Function => Width::Long,
    }
}

/// An integer that goes to something of this type is one that it holds.
pub(crate) fn narrow(
    register: u32,
    kind: ExpressionKind<'_>,
    site: Site,
    lines: &mut Vec<Op>,
) -> Emitted
    ensures { OnOk result (lines.new.items ≡ lines.old.items ++ width_code register (view_kind kind.entry) site) }
{
    if is_integer(kind) {
        emit(Op::ChkWidth(width_of(kind), register, at_site(site)), lines)
    } else {
        Ok(())
    }
}

/// The value of a constant.
pub(crate) fn constant_value(constant: Constant) -> i64
    ensures { result ≡ constant_value constant }
{
    match constant {
        Constant::Number(number) => number.value,
        Constant::Character(byte) => i64::from(byte),
        Constant::Null => 0,
    }
}

/// A constant.
pub(crate) fn constant(
    bank: Bank,
    at: Registers,
    constant: Constant,
    lines: &mut Vec<Op>,
) -> Emitted
    ensures { OnOk result (lines.new.items
        ≡ lines.old.items ++ constant_code (holds_references bank) at.int at.reference constant) }
{
    match bank {
        Bank::Int => emit(Op::Constant(at.int, constant_value(constant)), lines),
        Bank::Reference => emit(Op::Null(at.reference), lines),
    }
}

/// 0 or NULL.
pub(crate) fn zero(bank: Bank, at: Registers, lines: &mut Vec<Op>) -> Emitted
    ensures { OnOk result (lines.new.items ≡ lines.old.items ++ zero_code (holds_references bank) at.int at.reference) }
{
    match bank {
        Bank::Int => emit(Op::Constant(at.int, 0), lines),
        Bank::Reference => emit(Op::Null(at.reference), lines),
    }
}

/// A value that is not used ends.
pub(crate) fn drop_value(bank: Bank, register: u32, lines: &mut Vec<Op>) -> Emitted
    ensures { OnOk result (lines.new.items ≡ lines.old.items ++ drop_code (holds_references bank) register) }
{
    match bank {
        Bank::Int => Ok(()),
        Bank::Reference => emit(Op::Pop(register), lines),
    }
}

/// A value becomes an integer that is 0 exactly where it was 0 or NULL.
pub(crate) fn truth(bank: Bank, at: Registers, lines: &mut Vec<Op>) -> Emitted
    ensures { OnOk result (lines.new.items
        ≡ lines.old.items ++ truth_code (holds_references bank) at.int at.reference) }
{
    match bank {
        Bank::Int => Ok(()),
        Bank::Reference => {
            let other = at.reference + 1;
            emit(Op::Null(other), lines)?;
            emit(Op::SameReference(at.int, at.reference, other), lines)?;
            emit(Op::Pop(at.reference), lines)?;
            emit(Op::IsFalse(at.int, at.int), lines)
        }
    }
}

/// The operation of an operator.
pub(crate) fn operator_of(operator: BinaryOperator) -> Operator
    ensures { result ≡ operator_of operator }
{
    match operator {
        BinaryOperator::LogicalOr => Operator::Or,
        BinaryOperator::LogicalAnd => Operator::And,
        BinaryOperator::BitOr => Operator::Or,
        BinaryOperator::BitXor => Operator::Xor,
        BinaryOperator::BitAnd => Operator::And,
        BinaryOperator::Equal => Operator::Equal,
        BinaryOperator::NotEqual => Operator::NotEqual,
        BinaryOperator::Less => Operator::Less,
        BinaryOperator::Greater => Operator::Greater,
        BinaryOperator::LessOrEqual => Operator::AtMost,
        BinaryOperator::GreaterOrEqual => Operator::AtLeast,
        BinaryOperator::ShiftLeft => Operator::ShiftLeft,
        BinaryOperator::ShiftRight => Operator::ShiftRight,
        BinaryOperator::Add => Operator::Add,
        BinaryOperator::Subtract => Operator::Subtract,
        BinaryOperator::Multiply => Operator::Multiply,
        BinaryOperator::Divide => Operator::Divide,
        BinaryOperator::Remainder => Operator::Remainder,
    }
}

/// Which operands of an operator are evaluated: the right one where the left one is not 0, where it is 0, or both.
#[derive(Clone, Copy)]
pub enum Evaluation {
    And,
    Or,
    Both,
}

/// The evaluation of an operator.
pub(crate) fn evaluation_of(operator: BinaryOperator) -> Evaluation
    ensures { result ≡ evaluation_of operator }
{
    match operator {
        BinaryOperator::LogicalAnd => Evaluation::And,
        BinaryOperator::LogicalOr => Evaluation::Or,
        _ => Evaluation::Both,
    }
}

fn differ(operator: BinaryOperator, register: u32, lines: &mut Vec<Op>) -> Emitted
    ensures { OnOk result (lines.new.items ≡ lines.old.items ++ differ_code operator register) }
{
    match operator {
        BinaryOperator::NotEqual => emit(Op::IsFalse(register, register), lines),
        _ => Ok(()),
    }
}

/// Two references are compared and given up.
pub(crate) fn compare(operator: BinaryOperator, at: Registers, lines: &mut Vec<Op>) -> Emitted
    ensures { OnOk result (lines.new.items ≡ lines.old.items ++ compare_code operator at.int at.reference) }
{
    let other = at.reference + 1;
    emit(Op::SameReference(at.int, at.reference, other), lines)?;
    differ(operator, at.int, lines)?;
    emit(Op::Pop(at.reference), lines)?;
    emit(Op::Pop(other), lines)
}

/// The words of the first argument.
fn first_words(arguments: &[Expr]) -> Result<Text, AllocError>
    ensures { IfOk result (λ words. words ≡ argument_words 0 (view_arguments arguments.now)) }
{
    match arguments {
        [] => Ok(no_text()),
        [first, ..] => tokens_in(first.span()),
    }
}

/// The words of the second argument.
fn second_words(arguments: &[Expr]) -> Result<Text, AllocError>
    ensures { IfOk result (λ words. words ≡ argument_words 1 (view_arguments arguments.now)) }
{
    match arguments {
        [] => Ok(no_text()),
        [_, rest @ ..] => first_words(rest),
    }
}

fn with_words(spot: Spot, words: Text) -> Spot
    ensures { result ≡ with_words spot words }
{
    let mut told = spot;
    told.lvalue = words;
    told
}

/// What `wait` does before the thread waits.
fn wait_begins(register: u32, spot: Spot, lines: &mut Vec<Op>) -> Emitted
    requires { register < 2 ^ 31 }
    ensures { OnOk result (lines.new.items ≡ lines.old.items ++ wait_begin register spot) }
{
    let condition = Cell::Object(register, 0);
    let mutex = Cell::Object(register + 1, 0);
    emit(Op::ChkNull(register, spot), lines)?;
    emit(Op::ChkNull(register + 1, spot), lines)?;
    emit(Op::ChkHeld(mutex, spot), lines)?;
    emit(Op::CondEnter(condition, spot), lines)?;
    emit(Op::Unlock(register + 2, mutex, spot), lines)
}

/// `wait`
fn wait(register: u32, spot: Spot, arguments: &[Expr], lines: &mut Vec<Op>) -> Emitted
    requires { register < 2 ^ 31 }
    ensures { OnOk result (lines.new.items
        ≡ lines.old.items ++ wait_code register spot (with_words spot (argument_words 0 (view_arguments arguments.now)))
        (with_words spot (argument_words 1 (view_arguments arguments.now)))) }
{
    let of_condition = with_words(spot, first_words(arguments)?);
    let of_mutex = with_words(spot, second_words(arguments)?);
    wait_begins(register, spot, lines)?;
    emit(Op::CondWait(Cell::Object(register, 0), of_condition), lines)?;
    emit(Op::Lock(Cell::Object(register + 2, 0), of_mutex), lines)?;
    emit(Op::Pop(register), lines)?;
    emit(Op::Pop(register + 1), lines)
}

fn condition(
    register: u32,
    spot: Spot,
    name: &[u8],
    arguments: &[Expr],
    lines: &mut Vec<Op>,
) -> Emitted
    requires { register < 2 ^ 31 }
    ensures { OnOk result (lines.new.items
        ≡ lines.old.items ++ condition_code register spot name.now (view_arguments arguments.now)) }
{
    if name == b"wait".as_slice() {
        return wait(register, spot, arguments, lines);
    }
    emit(Op::ChkNull(register, spot), lines)?;
    let cell = Cell::Object(register, 0);
    if name == b"signal".as_slice() {
        emit(Op::CondSignal(cell, spot), lines)?;
    } else {
        emit(Op::CondBroadcast(cell, spot), lines)?;
    }
    emit(Op::Pop(register), lines)
}

/// A call, after its arguments.
pub(crate) fn called(
    at: Registers,
    spot: Spot,
    named: Named,
    of: &Identifier,
    arguments: &[Expr],
    lines: &mut Vec<Op>,
) -> Emitted
    ensures { OnOk result (lines.new.items
        ≡ lines.old.items ++ called_code at.int at.reference spot named of.now.text (view_arguments arguments.now)) }
{
    match named {
        Named::Function(number) => emit(Op::Call(number, at.int, at.reference, spot), lines),
        Named::Known => condition(at.reference, spot, of.text.as_slice(), arguments, lines),
        Named::Struct(_) => Ok(()),
        Named::Global(_) => Ok(()),
        Named::Variable(_) => Ok(()),
        Named::Field(_) => Ok(()),
    }
}

/// The number of a function that a name names.
pub(crate) fn number_named(named: Named) -> u32
    ensures { result ≡ number_named named }
{
    match named {
        Named::Function(number) => number,
        _ => 0,
    }
}

/// `spawn`, after its argument.
pub(crate) fn spawned(
    bank: Bank,
    at: Registers,
    function: u32,
    site: Site,
    lines: &mut Vec<Op>,
) -> Emitted
    ensures { OnOk result (lines.new.items
        ≡ lines.old.items ++ spawn_code (holds_references bank) at.int at.reference function (at_site site)) }
{
    let from = match bank {
        Bank::Int => Register::Int(at.int),
        Bank::Reference => Register::Reference(at.reference),
    };
    emit(Op::Spawn(at.int, function, from, at_site(site)), lines)
}

/// `join` or `print`, after its argument.
pub(crate) fn on_value(call: ValueCall, register: u32, site: Site, lines: &mut Vec<Op>) -> Emitted
    ensures { OnOk result (lines.new.items ≡ lines.old.items ++ value_call_code call register (at_site site)) }
{
    match call {
        ValueCall::Join => emit(Op::Join(register, at_site(site)), lines),
        ValueCall::Print => emit(Op::Print(register, at_site(site)), lines),
    }
}
