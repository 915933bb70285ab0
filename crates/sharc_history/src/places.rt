//! The lines of a run in the words of its source.

ghost use Rattle.std.specs.{Prelude.{◌≡◌, [], IfOk}, List.flat_map};
ghost use Rattle.sharc_tree.specs.Texts.{Appends};
ghost use Rattle.sharc_history.specs.Places.{event_lines, last_line, places_text};

mod deeds;
mod lasts;
mod lvalues;
mod names;
mod pieces;

use crate::event::Event;
use crate::history::History;
use crate::last::Last;
use crate::places::deeds::put_event;
use crate::places::lasts::put_last;
use crate::places::names::LastOrigins;
use sharc_code::Code;
use std::alloc::{AllocError, Global};

fn put_events(
    alloc: Global,
    text: &mut Vec<u8>,
    code: &Code,
    events: &[Event],
) -> Result<(), AllocError>
    ensures { Appends result (event_lines code.now [] events.now) text.old.items text.new.items }
{
    let mut names = LastOrigins::new(alloc);
    for i in 0..events.len() {
        let event = &events[i];
        put_event(text, code, &names, event)?;
        names.note(event)?;
    }
    Ok(())
}

fn put_lasts(text: &mut Vec<u8>, code: &Code, lasts: &[Last]) -> Result<(), AllocError>
    ensures { Appends result (flat_map (last_line code.now) lasts.now) text.old.items text.new.items }
{
    for last in lasts {
        put_last(text, code, *last)?;
    }
    Ok(())
}

/// The lines of a run: of each event, and then of each thread that waits or was stopped.
///
/// An `Err` says that memory was not found.
pub fn places_text(alloc: Global, code: &Code, run: &History) -> Result<Vec<u8>, AllocError>
    ensures { IfOk result (λ text. text.items ≡ places_text code.now run.now.events.items run.now.lasts.items) }
{
    let mut text = Vec::new(alloc);
    put_events(alloc, &mut text, code, run.events.as_slice())?;
    put_lasts(&mut text, code, run.lasts.as_slice())?;
    Ok(text)
}
