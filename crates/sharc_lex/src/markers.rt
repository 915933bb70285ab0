//! Line markers, as GCC writes them: `# LINE "FILE" FLAGS`.

ghost use Rattle.std.specs.{Prelude.{◌≡◌, ◌≤◌, length, option_map, if◌then◌else◌}, List.{prefix_len, list_all}};
ghost use Rattle.sharc_lex.specs.{Bytes.{is_blank, is_digit, behind}, Markers.{is_name_byte, is_flag, line_number}};
ghost use Rattle.sharc_lex.specs.Markers.{closed_name, file_name, is_marker_line, marker};

use crate::bytes::{is_blank, is_digit, is_printable};
use crate::numbers::digits;

/// The place that a line marker gives to the next line.
#[derive(Clone, Copy)]
pub struct MarkedPlace<'a> {
    pub line: u32,
    pub file: &'a [u8],
}

fn is_name_byte(byte: u8) -> bool
    ensures { result ≡ is_name_byte byte }
{
    is_printable(byte) && byte != b'"' && byte != b'\\'
}

fn is_flag(byte: u8) -> bool
    ensures { result ≡ is_flag byte }
{
    is_blank(byte) || matches!(byte, b'1'..=b'4')
}

/// How many bytes at the front are blanks.
fn blanks(bytes: &[u8]) -> usize
    ensures len { result ≡ prefix_len is_blank bytes.now }
    ensures within { result ≤ length bytes.now }
{
    for (i, byte) in bytes.iter().enumerate() {
        if !is_blank(*byte) {
            return i;
        }
    }
    bytes.len()
}

/// How many bytes at the front are decimal digits.
fn digits_len(bytes: &[u8]) -> usize
    ensures { result ≡ prefix_len is_digit bytes.now }
{
    for (i, byte) in bytes.iter().enumerate() {
        if !is_digit(*byte) {
            return i;
        }
    }
    bytes.len()
}

/// How many bytes at the front may be in a file's name.
fn name_len(bytes: &[u8]) -> usize
    ensures { result ≡ prefix_len is_name_byte bytes.now }
{
    for (i, byte) in bytes.iter().enumerate() {
        if !is_name_byte(*byte) {
            return i;
        }
    }
    bytes.len()
}

/// Whether only blanks and flags are there.
fn are_flags(bytes: &[u8]) -> bool
    ensures { result ≡ list_all is_flag bytes.now }
{
    bytes.iter().all(|byte| is_flag(*byte))
}

/// What is left after the blanks at the front.
fn behind_blanks(bytes: &[u8]) -> &[u8]
    ensures { result.now ≡ behind is_blank bytes.now }
{
    let start = blanks(bytes);
    &bytes[start..]
}

/// A line's number, and what follows it.
fn line_number(bytes: &[u8]) -> Option<(u32, &[u8])>
    ensures { option_map (λ found. (found.0, found.1.now)) result ≡ line_number bytes.now }
{
    let len = digits_len(bytes);
    if len == 0 {
        return None;
    }
    let number = digits(10, &bytes[..len])?;
    if number < 0x8000_0000 {
        Some((number as u32, &bytes[len..]))
    } else {
        None
    }
}

/// A file's name whose opening quote comes just before these bytes, and what follows it.
fn closed_name(bytes: &[u8]) -> Option<(&[u8], &[u8])>
    ensures { option_map (λ found. (found.0.now, found.1.now)) result ≡ closed_name bytes.now }
{
    let len = name_len(bytes);
    if len >= 1 && len <= 255 && len < bytes.len() && bytes[len] == b'"' {
        Some((&bytes[..len], &bytes[len + 1..]))
    } else {
        None
    }
}

/// A file's name in double quotes, and what follows it.
fn file_name(bytes: &[u8]) -> Option<(&[u8], &[u8])>
    ensures { option_map (λ found. (found.0.now, found.1.now)) result ≡ file_name bytes.now }
{
    match bytes {
        [b'"', name @ ..] => closed_name(name),
        _ => None,
    }
}

/// Where a line is to be a marker, the offset of its `#`.
pub fn marker_at(line: &[u8]) -> Option<usize>
    ensures { result ≡ if is_marker_line line.now then Some (prefix_len is_blank line.now) else None }
{
    let start = blanks(line);
    if start < line.len() && line[start] == b'#' {
        Some(start)
    } else {
        None
    }
}

/// What the bytes after the `#` of a line say of the next line.
pub fn marker(bytes: &[u8]) -> Option<MarkedPlace<'_>>
    ensures { option_map (λ found. (found.line, found.file.now)) result ≡ marker bytes.now }
{
    let (line, rest) = line_number(behind_blanks(bytes))?;
    let (file, flags) = file_name(behind_blanks(rest))?;
    if are_flags(flags) {
        Some(MarkedPlace { line, file })
    } else {
        None
    }
}
