// Event files, read.

ghost use Rattle.std.specs.Prelude.{◌≡◌, ◌≤◌, ◌<◌, ◌+◌, ◌++◌, length, IfOk, IfErr, MatchOption, false, nat_eq};
ghost use Rattle.std.specs.List.{starts_with};
ghost use Rattle.sharc_audit.specs.declared.file.FileFault.TheVariants.{Memory};
ghost use Rattle.sharc_audit.specs.Grammar.{mark, text_lines, AreEventLines, IsEventFile, IsFirstBad};
ghost use Rattle.sharc_audit.specs.Files.{IsFirstLine, IsHead, IsEventsFault, IsFault};

use crate::line::{EventLine, EventLines};
use crate::reading::event_line;
use crate::words::{cut, number};
use sharc_tree::listed::Listed;
use std::alloc::{AllocError, Global};

/// How many events are audited at most.
const MOST_EVENTS: usize = 4096;

/// A source, the fuel of each thread, and the events.
#[derive(Drop)]
pub struct EventFile {
    pub source: Vec<u8>,
    pub fuel: u64,
    pub events: EventLines,
}

/// Why a text is no event file that can be audited.
#[derive(Clone, Copy, PartialEq, Eq, Debug, Drop)]
pub enum FileFault {
    /// This line, from 1, is the first that continues no event file; the end counts as a line.
    Line(u32),
    /// There are more than 4,096 events.
    Many,
    /// There was not enough memory.
    Memory,
}

impl From<AllocError> for FileFault {
    ghost from_gives = { λ _ e. e ≡ Memory };

    fn from(_error: AllocError) -> Self {
        FileFault::Memory
    }
}

/// The first line, and what comes after it.
fn next_line(rest: &[u8]) -> (&[u8], &[u8])
    requires { 0 < length rest.now }
    ensures { IsFirstLine rest.now result.0.now result.1.now }
{
    match cut(rest, b'\n') {
        None => (rest, b"".as_slice()),
        Some(parts) => parts,
    }
}

/// What follows `%%events `.
fn header_of(line: &[u8]) -> Option<&[u8]>
    ensures { MatchOption result (starts_with nat_eq line.now mark ≡ false) (λ h. line.now ≡ mark ++ h.now) }
{
    line.strip_prefix(b"%%events ".as_slice())
}

/// The source, the fuel, what comes after the header, and the number of the line there.
fn head(bytes: &[u8]) -> Result<(&[u8], u64, &[u8], u32), u32>
    requires { length bytes.now ≤ 16777216 }
    ensures found { IfOk result (λ r. IsHead bytes.now r.0.now r.1 r.2.now r.3) }
    ensures bad { IfErr result (λ n. IsFirstBad (text_lines bytes.now) n) }
{
    let mut rest = bytes;
    let mut n: u32 = 1;
    while !rest.is_empty() {
        let (line, behind) = next_line(rest);
        if n > 1 {
            match header_of(line) {
                None => {}
                Some(header) => {
                    return match number(header, 1, 65536) {
                        None => Err(n),
                        Some(fuel) => Ok((
                            &bytes[..bytes.len() - rest.len() - 1],
                            fuel,
                            behind,
                            n + 1,
                        )),
                    };
                }
            }
        }
        n += 1;
        rest = behind;
    }
    Err(n)
}

/// The fault of a text after more events than are audited, whose first line has this number: its first line that is no
/// event, else that there are too many.
fn too_many(alloc: Global, bytes: &[u8], first: u32) -> FileFault
    requires { first + length bytes.now ≤ 16777219 }
    ensures { IsEventsFault 0 (text_lines bytes.now) first result }
{
    let mut rest = bytes;
    let mut n = first;
    while !rest.is_empty() {
        let (line, behind) = next_line(rest);
        match event_line(alloc, line) {
            Err(_) => return FileFault::Memory,
            Ok(None) => return FileFault::Line(n),
            Ok(Some(event)) => drop(event),
        }
        n += 1;
        rest = behind;
    }
    FileFault::Many
}

/// The events of these lines, the first of which has this number. Events after the last that is audited are read and
/// not kept.
fn events_of(alloc: Global, bytes: &[u8], first: u32) -> Result<Vec<EventLine>, FileFault>
    requires { first + length bytes.now ≤ 16777219 }
    ensures few { IfOk result (λ events. length events.items ≤ 4096) }
    ensures all { IfOk result (λ events. AreEventLines (text_lines bytes.now) events.items) }
    ensures bad { IfErr result (λ e. IsEventsFault 4097 (text_lines bytes.now) first e) }
{
    let mut events = Vec::new(alloc);
    let mut rest = bytes;
    let mut n = first;
    while !rest.is_empty() {
        let (line, behind) = next_line(rest);
        match event_line(alloc, line)? {
            None => return Err(FileFault::Line(n)),
            Some(event) => {
                if events.len() == MOST_EVENTS {
                    return Err(too_many(alloc, behind, n + 1));
                }
                if events.push(event).is_err() {
                    return Err(FileFault::Memory);
                }
            }
        }
        n += 1;
        rest = behind;
    }
    Ok(events)
}

/// Reads an event file: its source, up to the first newline that `%%events ` follows, its fuel and its events.
///
/// `Many` comes only of a file of the grammar; a line that continues no file comes first, wherever it is. The file has
/// at most 16,777,216 bytes.
pub fn read_events(alloc: Global, bytes: &[u8]) -> Result<EventFile, FileFault>
    requires { length bytes.now ≤ 16777216 }
    ensures few { IfOk result (λ f. length f.events ≤ 4096) }
    ensures file { IfOk result (λ f. IsEventFile (text_lines bytes.now) f.source.items f.fuel f.events) }
    ensures fuel { IfOk result (λ f. (1 ≤ f.fuel) × (f.fuel ≤ 65536)) }
    ensures bad { IfErr result (λ e. IsFault (text_lines bytes.now) e) }
{
    match head(bytes) {
        Err(n) => Err(FileFault::Line(n)),
        Ok((source, fuel, behind, n)) => {
            let events = events_of(alloc, behind, n)?;
            Ok(EventFile {
                source: Vec::from_slice(alloc, source)?,
                fuel,
                events: Listed::of(events),
            })
        }
    }
}
