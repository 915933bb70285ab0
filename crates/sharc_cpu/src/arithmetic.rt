//! What operators make of integers, and integers as words.

ghost use Rattle.std.specs.Prelude.{◌≡◌, ◌==◌, ◌<◌, ◌+◌, ◌^◌, ◌*ℤ◌, pos};
ghost use Rattle.sharc_cpu.specs.Shifts.{is_count};
ghost use Rattle.sharc_code.specs.declared.instr.Operator.TheVariants as operators;
ghost use Rattle.sharc_code.specs.Arithmetic.{word_of, int_of, holds, is_zero, truth, in_range, computed, negated};
ghost use Rattle.sharc_code.specs.Arithmetic.{complement, value_bits};

use sharc_code::{Operator, Width};
use sharc_tree::trap::Trap;

/// An integer as a word.
#[inline(always)]
pub(crate) fn word_of(value: i64) -> u64
    ensures { result ≡ word_of value }
{
    value.cast_unsigned()
}

/// A word as an integer.
#[inline(always)]
pub(crate) fn int_of(word: u64) -> i64
    ensures { result ≡ int_of word }
{
    word.cast_signed()
}

#[inline(always)]
pub(crate) fn is_zero(value: i64) -> bool
    ensures { result ≡ is_zero value }
{
    value == 0
}

// A truth as an integer.
#[inline(always)]
fn truth(is: bool) -> i64
    ensures { result ≡ truth is }
{
    if is { 1 } else { 0 }
}

/// 1 for 0, else 0.
#[inline(always)]
pub(crate) fn logical_not(value: i64) -> i64
    ensures { result ≡ truth (is_zero value) }
{
    truth(is_zero(value))
}

/// 1 where two references are the same, else 0.
#[inline(always)]
pub(crate) fn same(left: u64, right: u64) -> i64
    ensures { result ≡ truth (left == right) }
{
    truth(left == right)
}

/// All bits turned.
#[inline(always)]
pub(crate) fn complement(value: i64) -> i64
    ensures { result ≡ complement value }
{
    !value
}

/// Whether the type holds the value.
#[inline(always)]
pub(crate) fn holds(width: Width, value: i64) -> bool
    ensures { result ≡ holds width value }
{
    match width {
        Width::Char => -128 <= value && value <= 127,
        Width::Int => -2147483648 <= value && value <= 2147483647,
        Width::Long => true,
    }
}

/// The negative, or the trap.
#[inline(always)]
pub(crate) fn negated(width: Width, value: i64) -> Result<i64, Trap>
    ensures { result ≡ negated width value }
{
    match value.checked_neg() {
        Some(negative) if holds(width, negative) => Ok(negative),
        _ => Err(Trap::OutOfRange),
    }
}

#[inline(always)]
fn sum(width: Width, left: i64, right: i64) -> Result<i64, Trap>
    ensures { result ≡ computed width operators.Add left right }
{
    match left.checked_add(right) {
        Some(sum) if holds(width, sum) => Ok(sum),
        _ => Err(Trap::OutOfRange),
    }
}

#[inline(always)]
fn difference(width: Width, left: i64, right: i64) -> Result<i64, Trap>
    ensures { result ≡ computed width operators.Subtract left right }
{
    match left.checked_sub(right) {
        Some(difference) if holds(width, difference) => Ok(difference),
        _ => Err(Trap::OutOfRange),
    }
}

#[inline(always)]
fn product(width: Width, left: i64, right: i64) -> Result<i64, Trap>
    ensures { result ≡ computed width operators.Multiply left right }
{
    match left.checked_mul(right) {
        Some(product) if holds(width, product) => Ok(product),
        _ => Err(Trap::OutOfRange),
    }
}

#[inline(always)]
fn quotient(width: Width, left: i64, right: i64) -> Result<i64, Trap>
    ensures { result ≡ computed width operators.Divide left right }
{
    if right == 0 {
        return Err(Trap::DivisionByZero);
    }
    match left.checked_div(right) {
        Some(quotient) if holds(width, quotient) => Ok(quotient),
        _ => Err(Trap::OutOfRange),
    }
}

#[inline(always)]
fn remainder(width: Width, left: i64, right: i64) -> Result<i64, Trap>
    ensures { result ≡ computed width operators.Remainder left right }
{
    if right == 0 {
        return Err(Trap::DivisionByZero);
    }
    match left.checked_div(right) {
        Some(quotient) if holds(width, quotient) => Ok(left % right),
        _ => Err(Trap::OutOfRange),
    }
}

// How many bits the type has.
#[inline(always)]
fn bits(width: Width) -> u32
    ensures { result ≡ value_bits width + 1 }
{
    match width {
        Width::Char => 8,
        Width::Int => 32,
        Width::Long => 64,
    }
}

// Whether the count of a shift is one of the type's bits.
#[inline(always)]
fn is_count(width: Width, by: i64) -> bool
    ensures { result ≡ is_count width by }
{
    0 <= by && by < i64::from(bits(width))
}

#[inline(always)]
fn shifted_left(width: Width, left: i64, right: i64) -> Result<i64, Trap>
    ensures { result ≡ computed width operators.ShiftLeft left right }
{
    if is_count(width, right) {
        doubled(width, left, right as u32)
    } else {
        Err(Trap::OutOfRange)
    }
}

// So often doubled, in two halves, since 2 to the power of 63 is no integer.
fn doubled(width: Width, value: i64, by: u32) -> Result<i64, Trap>
    requires { by < 64 }
    ensures { result ≡ in_range width (value *ℤ pos (2 ^ by)) }
{
    let half = by / 2;
    match value.checked_mul(power(half)) {
        Some(product_so_far) => product(width, product_so_far, power(by - half)),
        None => Err(Trap::OutOfRange),
    }
}

// A power of two.
#[inline(always)]
fn power(by: u32) -> i64
    requires { by < 63 }
    ensures { result ≡ pos (2 ^ by) }
{
    1 << by
}

#[inline(always)]
fn shifted_right(width: Width, left: i64, right: i64) -> Result<i64, Trap>
    ensures { result ≡ computed width operators.ShiftRight left right }
{
    if is_count(width, right) {
        Ok(left >> right)
    } else {
        Err(Trap::OutOfRange)
    }
}

/// The value, or the trap.
#[inline(always)]
pub(crate) fn computed(width: Width, operator: Operator, left: i64, right: i64) -> Result<i64, Trap>
    ensures { result ≡ computed width operator left right }
{
    match operator {
        Operator::Add => sum(width, left, right),
        Operator::Subtract => difference(width, left, right),
        Operator::Multiply => product(width, left, right),
        Operator::Divide => quotient(width, left, right),
        Operator::Remainder => remainder(width, left, right),
        Operator::ShiftLeft => shifted_left(width, left, right),
        Operator::ShiftRight => shifted_right(width, left, right),
        Operator::And => Ok(left & right),
        Operator::Or => Ok(left | right),
        Operator::Xor => Ok(left ^ right),
        Operator::Equal => Ok(truth(left == right)),
        Operator::NotEqual => Ok(truth(left != right)),
        Operator::Less => Ok(truth(left < right)),
        Operator::Greater => Ok(truth(left > right)),
        Operator::AtMost => Ok(truth(left <= right)),
        Operator::AtLeast => Ok(truth(left >= right)),
    }
}

/// The same, not in line: most operations are parts of rows, and the loop over turns is the smaller for it.
#[inline(never)]
pub(crate) fn computed_apart(
    width: Width,
    operator: Operator,
    left: i64,
    right: i64,
) -> Result<i64, Trap>
    ensures { result ≡ computed width operator left right }
{
    computed(width, operator, left, right)
}
