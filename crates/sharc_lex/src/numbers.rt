//! Numbers (C11 6.4.4.1), decimal, octal and hexadecimal, with the suffix `l` or `L` or none.

ghost use Rattle.std.specs.Prelude.{◌≡◌, ℕ, ◌^◌, ◌<◌, ◌≤◌, length, nat_lt, if◌then◌else◌, option_and_then, IfSome};
ghost use Rattle.sharc_lex.specs.Numbers.{digit_value, value_behind, with_digit, small_value, has_suffix};
ghost use Rattle.sharc_lex.specs.Numbers.{without_suffix, hexadecimal, behind_zero, value, number};

use sharc_tree::token::{Number, NumberType};

/// The largest value of a number.
const LARGEST: u64 = 0x7fff_ffff_ffff_ffff;

/// The value of a digit, 16 where the byte is not one.
fn digit_value(byte: u8) -> u64
    ensures { result ≡ digit_value byte }
{
    match byte {
        b'0'..=b'9' => u64::from(byte - b'0'),
        b'a'..=b'f' => u64::from(byte - b'a') + 10,
        b'A'..=b'F' => u64::from(byte - b'A') + 10,
        _ => 16,
    }
}

/// The number with one digit more, where it is a digit of the base and the number is not too large.
fn with_digit(base: u64, high: u64, byte: u8) -> Option<u64>
    requires base_fits { base ≤ 16 }
    requires high_fits { high < 2 ^ 63 }
    ensures { result ≡ with_digit base high byte }
{
    let digit = digit_value(byte);
    if digit >= base {
        return None;
    }
    let shifted = high.checked_mul(base)?;
    let sum = shifted.checked_add(digit)?;
    if sum > LARGEST { None } else { Some(sum) }
}

/// The value of the digits of a base, where each byte is one and the value is not too large.
pub fn digits(base: u64, bytes: &[u8]) -> Option<u64>
    requires { base ≤ 16 }
    ensures { result ≡ small_value (value_behind base 0 bytes.now) }
{
    let mut high = 0;
    for byte in bytes {
        high = with_digit(base, high, *byte)?;
    }
    Some(high)
}

/// Whether the text ends in `l` or `L`.
fn has_suffix(text: &[u8]) -> bool
    ensures { result ≡ has_suffix text.now }
{
    matches!(text, [.., b'l' | b'L'])
}

/// The text without its suffix.
fn without_suffix(text: &[u8]) -> &[u8]
    ensures { result.now ≡ without_suffix text.now }
{
    if has_suffix(text) {
        &text[..text.len() - 1]
    } else {
        text
    }
}

/// The value of hexadecimal digits, at least one.
fn hexadecimal(bytes: &[u8]) -> Option<u64>
    ensures { result ≡ small_value (hexadecimal bytes.now) }
{
    if bytes.is_empty() {
        None
    } else {
        digits(16, bytes)
    }
}

/// The value of what follows a leading 0.
fn behind_zero(bytes: &[u8]) -> Option<u64>
    ensures { result ≡ small_value (behind_zero bytes.now) }
{
    match bytes {
        [b'x' | b'X', rest @ ..] => hexadecimal(rest),
        _ => digits(8, bytes),
    }
}

/// The value of a number's text without its suffix.
fn value(bytes: &[u8]) -> Option<u64>
    ensures { result ≡ small_value (value bytes.now) }
{
    match bytes {
        [] => None,
        [b'0', rest @ ..] => behind_zero(rest),
        _ => digits(10, bytes),
    }
}

/// The number that the text is.
pub fn number(text: &[u8]) -> Option<Number>
    ensures { result ≡ number text.now }
{
    let value = value(without_suffix(text))?;
    let number_type = if has_suffix(text) || value > 2_147_483_647 {
        NumberType::Long
    } else {
        NumberType::Int
    };
    let value = value as i64;
    Some(Number { value, number_type })
}
