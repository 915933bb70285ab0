//! Recorded files, read.

ghost use Rattle.std.specs.Prelude.{◌≡◌, ◌≢◌, ◌<◌, ◌≤◌, ◌+◌, ◌-◌, ◌++◌, ◌∷◌, ℕ, List, [], decimal, take, drop, length};
ghost use Rattle.std.specs.Prelude.{IfOk, IfErr, IfSome, IfNone, true, false, get_or, Option, Some, None, Result, Ok};
ghost use Rattle.std.specs.{Prelude.Err, Str.Parse.digits_value};
ghost use Rattle.sharc_schedule.specs.{File.{FileView, IsFile, lines_in, schedule_word, text_line}, Reading.number_in};
ghost use Rattle.sharc_schedule.specs.Reading.{pair_of, word_of, after_word, rest_after, numbers_in, read_places};
ghost use Rattle.sharc_schedule.specs.{Reading.with_places, Shown.{PlacesShow, FileShows, FaultIs, view_of}};

use crate::file::{FileFault, Places, RecordFile};
use crate::files::file_laws;
use itoa::Buffer;
use std::alloc::Global;

// The value of the digits of a word, if there are no more than ten and nothing else.
fn value(word: &[u8]) -> Option<u64>
    ensures some { IfSome result (λ n. n ≡ digits_value 10 word.now) }
    ensures none { IfNone result ((n : ℕ) → n ≤ 4294967295 → word.now ≢ decimal n) }
{
    if word.len() > 10 {
        return None;
    }
    let mut n = 0u64;
    for i in 0..word.len() {
        let b = word[i];
        if b < b'0' || b > b'9' {
            return None;
        }
        n = n * 10 + u64::from(b - b'0');
    }
    Some(n)
}

// The number that a word writes, where it lies within the bounds.
fn number_in(word: &[u8], low: u32, high: u32) -> Option<u32>
    ensures { result ≡ number_in low high word.now }
{
    let n = value(word)?;
    let mut buffer = Buffer::new();
    if buffer.format(n).as_bytes() == word && u64::from(low) <= n && n <= u64::from(high) {
        Some(n as u32)
    } else {
        None
    }
}

// Where the first word of a line ends.
fn word_end(line: &[u8]) -> usize
    ensures within { result ≤ length line.now }
    ensures word { word_of line.now ≡ take result line.now }
    ensures rest { after_word line.now ≡ drop (result + 1) line.now }
{
    let mut end = 0;
    while end < line.len() && line[end] != b' ' {
        end += 1;
    }
    end
}

// The two numbers of a line, where each lies within its bounds.
fn pair_in(line: &[u8], least: u32, most: u32, low: u32, high: u32) -> Option<(u32, u32)>
    ensures { result ≡ pair_of (number_in least most (word_of line.now)) (number_in low high (after_word line.now)) }
{
    let end = word_end(line);
    let first = number_in(&line[..end], least, most)?;
    let rest = if end < line.len() {
        &line[end + 1..]
    } else {
        &line[end..]
    };
    let second = number_in(rest, low, high)?;
    Some((first, second))
}

// Where the line that begins there ends.
fn line_end(bytes: &[u8], start: usize) -> usize
    requires { start < length bytes.now }
    ensures order { start ≤ result }
    ensures within { result ≤ length bytes.now }
    ensures newline { result < length bytes.now → get_or bytes.now result 0 ≡ 10 }
    ensures line { lines_in (drop start bytes.now)
        ≡ take (result - start) (drop start bytes.now) ∷ lines_in (drop (result + 1) bytes.now) }
{
    let mut end = start;
    while end < bytes.len() && bytes[end] != b'\n' {
        end += 1;
    }
    end
}

// Whether a line begins the schedule.
fn begins_schedule(line: &[u8]) -> bool
    ensures begins { result ≡ true → rest_after schedule_word line.now ≡ Some (drop 11 line.now) }
    ensures length { result ≡ true → 11 ≤ length line.now }
    ensures other { result ≡ false → rest_after schedule_word line.now ≡ None }
{
    line.len() >= 11 && &line[..11] == b"%%schedule ".as_slice()
}

// The places from the line on that begins there, which has this number.
fn places_from(
    alloc: Global,
    bytes: &[u8],
    start: usize,
    first: u32,
) -> Result<Vec<(u32, u32)>, FileFault>
    requires small { length bytes.now ≤ 1073741824 }
    requires start { start ≤ length bytes.now + 1 }
    requires first { first ≤ start + 2 }
    ensures ok { IfOk result (λ p. read_places (lines_in (drop start bytes.now)) first ≡ Ok p.items) }
    ensures err { IfErr result (PlacesShow (read_places (lines_in (drop start bytes.now)) first)) }
{
    let mut places = Vec::new(alloc);
    let mut at = start;
    let mut line = first;
    while at < bytes.len() {
        let end = line_end(bytes, at);
        let text = &bytes[at..end];
        if text == b"%%text".as_slice() {
            return Ok(places);
        }
        let Some(place) = pair_in(text, 0, 30, 1, 4294967295) else {
            return Err(FileFault::Line(line));
        };
        if places.push(place).is_err() {
            return Err(FileFault::Memory);
        }
        at = end + 1;
        line += 1;
    }
    Err(FileFault::Line(line))
}

/// Reads a recorded file of at most 1,073,741,824 bytes, up to the line of the text.
///
/// An `Err` says the first line that continues no file, or that memory was not found.
pub fn read_file(alloc: Global, bytes: &[u8]) -> Result<RecordFile, FileFault>
    requires small { length bytes.now ≤ 1073741824 }
    ensures ok { IfOk result (λ f. IsFile bytes.now (view_of f)) }
    ensures err { IfErr result (FaultIs bytes.now) }
{
    // For the proof that the plain reader answers what the lines say.
    file_laws();
    if bytes.is_empty() {
        return Err(FileFault::Line(1));
    }
    let mut end = line_end(bytes, 0);
    let mut line = 2u32;
    while end + 1 < bytes.len() {
        let start = end + 1;
        let next = line_end(bytes, start);
        let text = &bytes[start..next];
        if begins_schedule(text) {
            return read_schedule(alloc, bytes, end, next, line);
        }
        end = next;
        line += 1;
    }
    Err(FileFault::Line(line))
}

// The rest of the file whose source ends there, and the line of whose schedule ends there.
fn read_schedule(
    alloc: Global,
    bytes: &[u8],
    end: usize,
    next: usize,
    line: u32,
) -> Result<RecordFile, FileFault>
    requires small { length bytes.now ≤ 1073741824 }
    requires next { next ≤ length bytes.now }
    requires word { end + 12 ≤ next }
    requires line { line ≤ end + 2 }
    ensures ok { IfOk result (λ f. with_places (take end bytes.now)
        (numbers_in (drop 11 (take (next - (end + 1)) (drop (end + 1) bytes.now)))) line
        (read_places (lines_in (drop (next + 1) bytes.now)) (line + 1)) ≡ Ok (view_of f)) }
    ensures err { IfErr result (FileShows
        (with_places (take end bytes.now) (numbers_in (drop 11 (take (next - (end + 1)) (drop (end + 1) bytes.now))))
        line (read_places (lines_in (drop (next + 1) bytes.now)) (line + 1)))) }
{
    let text = &bytes[end + 1..next];
    let Some((heap, limit)) = pair_in(&text[11..], 16, 65536, 1, 200000) else {
        return Err(FileFault::Line(line));
    };
    let places = places_from(alloc, bytes, next + 1, line + 1)?;
    let Ok(source) = Vec::from_slice(alloc, &bytes[..end]) else {
        return Err(FileFault::Memory);
    };
    Ok(RecordFile {
        source,
        heap,
        limit: u64::from(limit),
        places: Places::new(places),
    })
}
