//! The line of a thread that waits or was stopped.

ghost use Rattle.std.specs.Prelude.{◌≡◌};
ghost use Rattle.sharc_tree.specs.Texts.{Appends};
ghost use Rattle.sharc_history.specs.Places.{next_words, next_cell, waiting_line, refused_by, refused, conflict_code};
ghost use Rattle.sharc_history.specs.Places.{stop_words, stop_site, looked_at, refused_mode, stopped_line, last_line};

use crate::cells::{Origin, Where, place_at};
use crate::last::{Halt, Last};
use crate::next::{Coming, Next};
use crate::pieces::{put_cell, put_number, put_signed};
use crate::places::lvalues::{lvalue_of, site_of};
use crate::places::pieces::{bytes_of, mode_word, put_place, put_word};
use sharc_code::{Code, PlaceMode, Stop, Use};
use sharc_heap::Kind;
use std::alloc::AllocError;

fn put_next(text: &mut Vec<u8>, code: &Code, origin: Origin, next: Next) -> Result<(), AllocError>
    ensures { Appends result (next_words code.now origin next) text.old.items text.new.items }
{
    match next {
        Next::Locks(_) => put_word(text, b"next lock", lvalue_of(code, origin)),
        Next::Wakes(_) => put_word(text, b"next woken", lvalue_of(code, origin)),
        Next::Joins(number) => {
            text.extend_from_slice(b"next join ")?;
            put_signed(text, number)
        }
        _ => text.extend_from_slice(b"next"),
    }
}

fn put_next_cell(text: &mut Vec<u8>, next: Next) -> Result<(), AllocError>
    ensures { Appends result (next_cell next) text.old.items text.new.items }
{
    match next {
        Next::Locks(at) | Next::Wakes(at) => put_cell(text, at),
        _ => Ok(()),
    }
}

fn put_waiting(
    text: &mut Vec<u8>,
    code: &Code,
    thread: u32,
    coming: Coming,
) -> Result<(), AllocError>
    ensures { Appends result (waiting_line code.now thread coming) text.old.items text.new.items }
{
    put_place(text, code, thread, site_of(code, coming.origin))?;
    put_next(text, code, coming.origin, coming.next)?;
    text.push(b'\t')?;
    put_next_cell(text, coming.next)?;
    text.extend_from_slice(b"\t\n")
}

fn refused_by(at: Use) -> &'static [u8]
    ensures { result.now ≡ refused_by at }
{
    match at {
        Use::Write => b"refused write",
        Use::Cast(_) => b"refused cast",
        Use::Free(_) => b"refused free",
        Use::Read | Use::Other => b"refused read",
    }
}

// The act at this site, with the code of the report.
fn put_refused(text: &mut Vec<u8>, code: &Code, site: u32, report: &[u8]) -> Result<(), AllocError>
    ensures { Appends result (refused code.now site report.now) text.old.items text.new.items }
{
    let place = place_at(code, site);
    put_word(text, refused_by(place.at), bytes_of(code, place.lvalue))?;
    text.push(b' ')?;
    text.extend_from_slice(report)
}

fn conflict_code(kind: Kind) -> &'static [u8]
    ensures { result.now ≡ conflict_code kind }
{
    match kind {
        Kind::Read => b"A1",
        Kind::Write => b"A2",
    }
}

fn put_stop(text: &mut Vec<u8>, code: &Code, stop: Stop) -> Result<(), AllocError>
    ensures { Appends result (stop_words code.now stop) text.old.items text.new.items }
{
    match stop {
        Stop::Conflict(c) => put_refused(text, code, c.site, conflict_code(c.kind)),
        Stop::NoLock(site, _) => put_refused(text, code, site, b"A3"),
        Stop::NotSole(site, _) => put_refused(text, code, site, b"A4"),
        Stop::Trap(trap, _) => {
            text.extend_from_slice(b"stopped X")?;
            put_number(text, u64::from(trap.number()))
        }
    }
}

fn stop_site(stop: Stop) -> u32
    ensures { result ≡ stop_site stop }
{
    match stop {
        Stop::Conflict(c) => c.site,
        Stop::NoLock(site, _) | Stop::NotSole(site, _) | Stop::Trap(_, site) => site,
    }
}

fn put_looked_at(text: &mut Vec<u8>, cell: Option<Where>) -> Result<(), AllocError>
    ensures { Appends result (looked_at cell) text.old.items text.new.items }
{
    match cell {
        Some(cell) => put_cell(text, cell),
        None => Ok(()),
    }
}

// The mode of the cell, where an access of it was refused.
fn refused_mode(mode: PlaceMode, stop: Stop) -> &'static [u8]
    ensures { result.now ≡ refused_mode mode stop }
{
    match stop {
        Stop::Conflict(_) | Stop::NoLock(_, _) => mode_word(mode),
        Stop::NotSole(_, _) | Stop::Trap(_, _) => b"",
    }
}

fn put_stopped(
    text: &mut Vec<u8>,
    code: &Code,
    thread: u32,
    stop: Stop,
    cell: Option<Where>,
) -> Result<(), AllocError>
    ensures { Appends result (stopped_line code.now thread stop cell) text.old.items text.new.items }
{
    let place = place_at(code, stop_site(stop));
    put_place(text, code, thread, place.site)?;
    put_stop(text, code, stop)?;
    text.push(b'\t')?;
    put_looked_at(text, cell)?;
    text.push(b'\t')?;
    text.extend_from_slice(refused_mode(place.mode, stop))?;
    text.push(b'\n')?;
    Ok(())
}

/// The line of a thread that waits or was stopped.
pub(crate) fn put_last(text: &mut Vec<u8>, code: &Code, last: Last) -> Result<(), AllocError>
    ensures { Appends result (last_line code.now last) text.old.items text.new.items }
{
    let halt = last.halt;
    match halt {
        Halt::Waits(coming) => put_waiting(text, code, last.thread, coming),
        Halt::Stopped(stop, cell) => put_stopped(text, code, last.thread, stop, cell),
    }
}
