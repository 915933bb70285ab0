// What operators make of integers, and where they stop.

ghost use Rattle.std.specs.Prelude.{◌≡◌, ◌<◌, ◌+◌, ◌^◌, ◌*ℤ◌, pos};
ghost use Rattle.sharc_names.specs.View.{view_kind, view_root};
ghost use Rattle.sharc_tree.specs.declared.tree.expression.BinaryOperator.TheVariants as operators;
ghost use Rattle.sharc_meaning.specs.Arithmetic.{bits_of, bits_of_base, fits, is_held_by, is_zero, truth, in_range};
ghost use Rattle.sharc_meaning.specs.{Arithmetic.{operated, negated, complement}, Statements.is_positive};
ghost use Rattle.sharc_ask.specs.Width.{value_bits, is_count};

use sharc_names::kind::{ExpressionKind, Root, is_integer};
use sharc_tree::trap::Trap;
use sharc_tree::tree::BinaryOperator;

/// The integer types: signed, of 8, 32 and 64 bits.
#[derive(Clone, Copy)]
pub enum Width {
    Char,
    Int,
    Long,
}

fn width_of_root(root: Root<'_>) -> Width
    ensures { value_bits result ≡ bits_of_base (view_root root.entry) }
{
    match root {
        Root::Char => Width::Char,
        Root::Int => Width::Int,
        Root::Long => Width::Long,
        Root::Mutex => Width::Long,
        Root::Void => Width::Long,
        Root::Struct(_) => Width::Long,
    }
}

/// The width of a type; that of `long` for what is no integer.
pub fn width_of(kind: ExpressionKind<'_>) -> Width
    ensures { value_bits result ≡ bits_of (view_kind kind.entry) }
{
    match kind {
        ExpressionKind::Object(root, _) => width_of_root(root),
        ExpressionKind::Array(root, _) => width_of_root(root),
        ExpressionKind::Null => Width::Long,
        ExpressionKind::Function => Width::Long,
    }
}

fn is_held_by(width: Width, value: i64) -> bool
    ensures { result ≡ is_held_by (value_bits width) value }
{
    match width {
        Width::Char => -128 <= value && value <= 127,
        Width::Int => -2147483648 <= value && value <= 2147483647,
        Width::Long => true,
    }
}

/// Whether a variable or a cell of this type holds the value; every pointer holds every reference.
pub fn fits(kind: ExpressionKind<'_>, value: i64) -> bool
    ensures { result ≡ fits (view_kind kind.entry) value }
{
    !is_integer(kind) || is_held_by(width_of(kind), value)
}

/// Whether it is 0 or NULL.
pub fn is_zero(value: i64) -> bool
    ensures { result ≡ is_zero value }
{
    value == 0
}

/// Whether it is more than 0.
pub fn is_positive(value: i64) -> bool
    ensures { result ≡ is_positive value }
{
    value > 0
}

/// A truth as an `int`.
pub fn truth(is: bool) -> i64
    ensures { result ≡ truth is }
{
    if is { 1 } else { 0 }
}

/// All bits turned.
pub fn complement(value: i64) -> i64
    ensures { result ≡ complement value }
{
    !value
}

/// The negative, or the stop.
pub fn negated(width: Width, value: i64) -> Result<i64, Trap>
    ensures { result ≡ negated (value_bits width) value }
{
    match value.checked_neg() {
        Some(negative) if is_held_by(width, negative) => Ok(negative),
        _ => Err(Trap::OutOfRange),
    }
}

fn sum(width: Width, left: i64, right: i64) -> Result<i64, Trap>
    ensures { result ≡ operated (value_bits width) operators.Add left right }
{
    match left.checked_add(right) {
        Some(sum) if is_held_by(width, sum) => Ok(sum),
        _ => Err(Trap::OutOfRange),
    }
}

fn difference(width: Width, left: i64, right: i64) -> Result<i64, Trap>
    ensures { result ≡ operated (value_bits width) operators.Subtract left right }
{
    match left.checked_sub(right) {
        Some(difference) if is_held_by(width, difference) => Ok(difference),
        _ => Err(Trap::OutOfRange),
    }
}

fn product(width: Width, left: i64, right: i64) -> Result<i64, Trap>
    ensures { result ≡ operated (value_bits width) operators.Multiply left right }
{
    match left.checked_mul(right) {
        Some(product) if is_held_by(width, product) => Ok(product),
        _ => Err(Trap::OutOfRange),
    }
}

fn quotient(width: Width, left: i64, right: i64) -> Result<i64, Trap>
    ensures { result ≡ operated (value_bits width) operators.Divide left right }
{
    if right == 0 {
        return Err(Trap::DivisionByZero);
    }
    match left.checked_div(right) {
        Some(quotient) if is_held_by(width, quotient) => Ok(quotient),
        _ => Err(Trap::OutOfRange),
    }
}

fn remainder(width: Width, left: i64, right: i64) -> Result<i64, Trap>
    ensures { result ≡ operated (value_bits width) operators.Remainder left right }
{
    if right == 0 {
        return Err(Trap::DivisionByZero);
    }
    match left.checked_div(right) {
        Some(quotient) if is_held_by(width, quotient) => Ok(left % right),
        _ => Err(Trap::OutOfRange),
    }
}

// How many bits the type has.
fn bits(width: Width) -> u32
    ensures { result ≡ value_bits width + 1 }
{
    match width {
        Width::Char => 8,
        Width::Int => 32,
        Width::Long => 64,
    }
}

// Whether the count of a shift is one of the type's bits.
fn is_count(width: Width, by: i64) -> bool
    ensures { result ≡ is_count width by }
{
    0 <= by && by < i64::from(bits(width))
}

fn shifted_left(width: Width, left: i64, right: i64) -> Result<i64, Trap>
    ensures { result ≡ operated (value_bits width) operators.ShiftLeft left right }
{
    if is_count(width, right) {
        doubled(width, left, right as u32)
    } else {
        Err(Trap::OutOfRange)
    }
}

// So often doubled, in two halves, since 2 to the power of 63 is no integer.
fn doubled(width: Width, value: i64, by: u32) -> Result<i64, Trap>
    requires { by < 64 }
    ensures { result ≡ in_range (value_bits width) (value *ℤ pos (2 ^ by)) }
{
    let half = by / 2;
    match value.checked_mul(power(half)) {
        Some(product_so_far) => product(width, product_so_far, power(by - half)),
        None => Err(Trap::OutOfRange),
    }
}

// A power of two.
fn power(by: u32) -> i64
    requires { by < 63 }
    ensures { result ≡ pos (2 ^ by) }
{
    1 << by
}

fn shifted_right(width: Width, left: i64, right: i64) -> Result<i64, Trap>
    ensures { result ≡ operated (value_bits width) operators.ShiftRight left right }
{
    if is_count(width, right) {
        Ok(left >> right)
    } else {
        Err(Trap::OutOfRange)
    }
}

/// An operator in a type of this width.
pub fn operated(width: Width, operator: BinaryOperator, left: i64, right: i64) -> Result<i64, Trap>
    ensures { result ≡ operated (value_bits width) operator left right }
{
    match operator {
        BinaryOperator::LogicalOr => Ok(truth(!is_zero(left) || !is_zero(right))),
        BinaryOperator::LogicalAnd => Ok(truth(!is_zero(left) && !is_zero(right))),
        BinaryOperator::BitOr => Ok(left | right),
        BinaryOperator::BitXor => Ok(left ^ right),
        BinaryOperator::BitAnd => Ok(left & right),
        BinaryOperator::Equal => Ok(truth(left == right)),
        BinaryOperator::NotEqual => Ok(truth(left != right)),
        BinaryOperator::Less => Ok(truth(left < right)),
        BinaryOperator::Greater => Ok(truth(left > right)),
        BinaryOperator::LessOrEqual => Ok(truth(left <= right)),
        BinaryOperator::GreaterOrEqual => Ok(truth(left >= right)),
        BinaryOperator::ShiftLeft => shifted_left(width, left, right),
        BinaryOperator::ShiftRight => shifted_right(width, left, right),
        BinaryOperator::Add => sum(width, left, right),
        BinaryOperator::Subtract => difference(width, left, right),
        BinaryOperator::Multiply => product(width, left, right),
        BinaryOperator::Divide => quotient(width, left, right),
        BinaryOperator::Remainder => remainder(width, left, right),
    }
}
