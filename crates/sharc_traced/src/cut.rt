//! How many of a run's events an event file has.

ghost use Rattle.std.specs.Prelude.{◌≡◌, ◌-◌, IfOk};
ghost use Rattle.sharc_traced.specs.Cut.{HasLines, IsFront};

use crate::lines::line_of;
use sharc_audit::audit::{EventFault, Verdict, audit};
use sharc_audit::line::{EventLine, EventLines};
use sharc_check::Checked;
use sharc_ctype::typed::Typed;
use sharc_history::Event;
use sharc_tree::listed::Listed;
use std::alloc::{AllocError, Global};

/// The fuel that an event file says: the greatest.
const FUEL: u64 = 65536;

/// How many events a file has at most.
const MOST_EVENTS: usize = 4096;

/// Why an event is the first that a file does not have.
#[derive(Clone, Copy)]
pub enum Cut {
    /// The file has all events.
    Whole,
    /// It has no line.
    NoLine,
    /// The file has as many events as one may have.
    Many,
    /// The fuel of its thread is spent before it.
    Fuel,
    /// `audit` refuses it.
    Refused(EventFault),
}

/// How many events the file has, and why no more.
#[derive(Clone, Copy)]
pub struct EventPrefix {
    pub count: usize,
    pub cut: Cut,
}

// The lines of the first events, up to the first that has none, or as many as a file may have.
fn lines_of(
    alloc: Global,
    typed: &Typed,
    events: &[Event],
) -> Result<(Vec<EventLine>, Cut), AllocError>
    ensures { IfOk result (λ (lines, cut). HasLines typed.now events.now lines.items cut) }
{
    let mut lines = Vec::new(alloc);
    for i in 0..events.len() {
        if i == MOST_EVENTS {
            return Ok((lines, Cut::Many));
        }
        match line_of(alloc, typed, &events[i])? {
            Some(line) => lines.push(line)?,
            None => return Ok((lines, Cut::NoLine)),
        }
    }
    Ok((lines, Cut::Whole))
}

// The events before this one, from 1.
fn before(n: u32, cut: Cut) -> EventPrefix
    ensures { result ≡ record { count = n - 1; cut = cut } }
{
    EventPrefix {
        count: (n as usize).saturating_sub(1),
        cut,
    }
}

/// How many events of the run an event file has: the longest front part of them that has lines, no more than a file may
/// have, and that `audit` accepts with the greatest fuel.
pub(crate) fn front_of(
    alloc: Global,
    checked: &Checked,
    events: &[Event],
) -> Result<EventPrefix, AllocError>
    ensures { IfOk result (IsFront checked.now events.now) }
{
    let (lines, cut) = lines_of(alloc, checked.moded().typed(), events)?;
    let lines: EventLines = Listed::of(lines);
    let count = lines.len();
    match audit(alloc, checked, &lines, FUEL)? {
        Verdict::Obeys(_) => Ok(EventPrefix { count, cut }),
        Verdict::Fuel(n) => Ok(before(n, Cut::Fuel)),
        Verdict::Fails(n, fault) => Ok(before(n, Cut::Refused(fault))),
    }
}
