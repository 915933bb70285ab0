//! The text of an event file.

ghost use Rattle.std.specs.{Prelude.{◌≡◌, ◌++◌, ◌∷◌, IfOk}, Fmt.signed_decimal};
ghost use Rattle.sharc_tree.specs.Texts.{Appends};
ghost use Rattle.sharc_history.specs.Cells.{cell_text, reference_text};
ghost use Rattle.sharc_traced.specs.Writing.{value_text, deed_text, event_text, events_text, file_text};

use crate::pieces::{put_name, put_value};
use sharc_ctype::typed::Typed;
use sharc_history::{
    Deed, Event, GivenValue, Reference, Where, put_cell, put_number, put_reference, put_signed,
};
use std::alloc::{AllocError, Global};

fn put_access(
    text: &mut Vec<u8>,
    word: &[u8],
    at: Where,
    value: GivenValue,
) -> Result<(), AllocError>
    ensures { Appends result (word.now ++ (cell_text at ++ 32 ∷ value_text value)) text.old.items text.new.items }
{
    text.extend_from_slice(word)?;
    put_cell(text, at)?;
    text.push(b' ')?;
    put_value(text, value)
}

fn put_object(text: &mut Vec<u8>, word: &[u8], reference: Reference) -> Result<(), AllocError>
    ensures { Appends result (word.now ++ reference_text reference) text.old.items text.new.items }
{
    text.extend_from_slice(word)?;
    put_reference(text, reference)
}

fn put_mutex(text: &mut Vec<u8>, word: &[u8], at: Where) -> Result<(), AllocError>
    ensures { Appends result (word.now ++ cell_text at) text.old.items text.new.items }
{
    text.extend_from_slice(word)?;
    put_cell(text, at)
}

fn put_spawn(
    text: &mut Vec<u8>,
    typed: &Typed,
    function: u32,
    value: GivenValue,
    thread: u32,
) -> Result<(), AllocError>
    ensures { Appends result (deed_text typed.now (Deed.Spawns function value thread)) text.old.items text.new.items }
{
    text.extend_from_slice(b"spawn ")?;
    put_name(text, typed, function)?;
    text.push(b' ')?;
    put_value(text, value)?;
    text.push(b' ')?;
    put_number(text, u64::from(thread))
}

fn put_worded(text: &mut Vec<u8>, word: &[u8], number: i64) -> Result<(), AllocError>
    ensures { Appends result (word.now ++ signed_decimal number) text.old.items text.new.items }
{
    text.extend_from_slice(word)?;
    put_signed(text, number)
}

fn put_deed(text: &mut Vec<u8>, typed: &Typed, deed: Deed) -> Result<(), AllocError>
    ensures { Appends result (deed_text typed.now deed) text.old.items text.new.items }
{
    match deed {
        Deed::Reads(at, value) => put_access(text, b"read ", at, value),
        Deed::Writes(at, value) => put_access(text, b"write ", at, value),
        Deed::Makes(reference) => put_object(text, b"new ", reference),
        Deed::Takes(reference) => put_object(text, b"take ", reference),
        Deed::Gives(reference) => put_object(text, b"give ", reference),
        Deed::Frees(reference) => put_object(text, b"freed ", reference),
        Deed::Locks(at) => put_mutex(text, b"lock ", at),
        Deed::Unlocks(at) => put_mutex(text, b"unlock ", at),
        Deed::Spawns(function, value, thread) => put_spawn(text, typed, function, value, thread),
        Deed::Starts(value) => {
            text.extend_from_slice(b"started ")?;
            put_value(text, value)
        }
        Deed::Joins(thread) => put_worded(text, b"join ", thread),
        Deed::Prints(value) => put_worded(text, b"print ", value),
        Deed::Returns => text.extend_from_slice(b"return"),
        Deed::Ends => text.extend_from_slice(b"gone"),
        Deed::Enters(_) | Deed::Wakes(_) | Deed::Signals(_, _) | Deed::Broadcasts(_) => Ok(()),
    }
}

fn put_event(text: &mut Vec<u8>, typed: &Typed, event: &Event) -> Result<(), AllocError>
    ensures { Appends result (event_text typed.now event.now) text.old.items text.new.items }
{
    put_number(text, u64::from(event.thread))?;
    text.push(b' ')?;
    put_deed(text, typed, event.deed)
}

fn put_events(text: &mut Vec<u8>, typed: &Typed, events: &[Event]) -> Result<(), AllocError>
    ensures { Appends result (events_text typed.now events.now) text.old.items text.new.items }
{
    for i in 0..events.len() {
        put_event(text, typed, &events[i])?;
        text.push(b'\n')?;
    }
    Ok(())
}

/// The event file of a source and these events, with the greatest fuel.
pub(crate) fn file_text(
    alloc: Global,
    typed: &Typed,
    source: &[u8],
    events: &[Event],
) -> Result<Vec<u8>, AllocError>
    ensures { IfOk result (λ text. text.items ≡ file_text typed.now source.now events.now) }
{
    let mut text = Vec::from_slice(alloc, source)?;
    text.extend_from_slice(b"\n%%events 65536\n")?;
    put_events(&mut text, typed, events)?;
    Ok(text)
}
