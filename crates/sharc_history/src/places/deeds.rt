//! The line of an event.

ghost use Rattle.std.specs.{Prelude.{◌≡◌, ◌++◌, List, codes, decimal}, Fmt.signed_decimal};
ghost use Rattle.sharc_tree.specs.Texts.{Appends};
ghost use Rattle.sharc_history.specs.{declared.event.Event.Event, Names.AreNames, Places.{seen_text, object_text}};
ghost use Rattle.sharc_history.specs.Places.{worded, taking, woken_text, deed_words, object_of, mode_of, event_line};

use crate::cells::{Origin, place_at};
use crate::event::{Deed, Event, GivenValue, Reference};
use crate::next::function_of;
use crate::pieces::{put_cell, put_number, put_reference, put_signed};
use crate::places::lvalues::site_of;
use crate::places::names::LastOrigins;
use crate::places::pieces::{bytes_of, mode_word, put_object, put_place, put_seen, put_word};
use sharc_code::{Code, Use};
use std::alloc::AllocError;

fn put_access(
    text: &mut Vec<u8>,
    word: &[u8],
    lvalue: &[u8],
    value: GivenValue,
) -> Result<(), AllocError>
    ensures { Appends result (worded word.now (worded lvalue.now (seen_text value))) text.old.items text.new.items }
{
    put_word(text, word, lvalue)?;
    text.push(b' ')?;
    put_seen(text, value)
}

fn put_taken(
    text: &mut Vec<u8>,
    word: &[u8],
    lvalue: &[u8],
    object: Reference,
) -> Result<(), AllocError>
    ensures { Appends result (worded word.now (worded lvalue.now (object_text object))) text.old.items text.new.items }
{
    put_word(text, word, lvalue)?;
    text.push(b' ')?;
    put_object(text, object)
}

fn put_word_object(text: &mut Vec<u8>, word: &[u8], object: Reference) -> Result<(), AllocError>
    ensures { Appends result (worded word.now (object_text object)) text.old.items text.new.items }
{
    text.extend_from_slice(word)?;
    text.push(b' ')?;
    put_object(text, object)
}

fn put_word_number(text: &mut Vec<u8>, word: &[u8], number: i64) -> Result<(), AllocError>
    ensures { Appends result (worded word.now (signed_decimal number)) text.old.items text.new.items }
{
    text.extend_from_slice(word)?;
    text.push(b' ')?;
    put_signed(text, number)
}

fn taking(code: &Code, origin: Origin) -> &'static [u8]
    ensures { result.now ≡ taking code.now origin }
{
    match origin {
        Origin::Site(site) => match place_at(code, site).at {
            Use::Free(_) => b"free",
            Use::Read | Use::Write | Use::Cast(_) | Use::Other => b"cast",
        },
        Origin::Lock(_, _) | Origin::Wait(_, _) | Origin::Function(_) => b"cast",
    }
}

fn put_woken(text: &mut Vec<u8>, woken: Option<u32>) -> Result<(), AllocError>
    ensures { Appends result (woken_text woken) text.old.items text.new.items }
{
    match woken {
        Some(thread) => {
            text.extend_from_slice(b" to ")?;
            put_number(text, u64::from(thread))
        }
        None => text.extend_from_slice(b" to nobody"),
    }
}

fn put_signal(text: &mut Vec<u8>, lvalue: &[u8], woken: Option<u32>) -> Result<(), AllocError>
    ensures { Appends result (worded (codes "signal") (lvalue.now ++ woken_text woken)) text.old.items text.new.items }
{
    put_word(text, b"signal", lvalue)?;
    put_woken(text, woken)
}

fn put_spawn(
    text: &mut Vec<u8>,
    name: &[u8],
    value: GivenValue,
    thread: u32,
) -> Result<(), AllocError>
    ensures { Appends result (worded (codes "spawn")
        (worded name.now (seen_text value ++ (codes " as " ++ decimal thread)))) text.old.items text.new.items }
{
    put_access(text, b"spawn", name, value)?;
    text.extend_from_slice(b" as ")?;
    put_number(text, u64::from(thread))
}

// What the event does, where what it is of is written so.
fn put_deed(
    text: &mut Vec<u8>,
    code: &Code,
    origin: Origin,
    lvalue: &[u8],
    deed: Deed,
) -> Result<(), AllocError>
    ensures { Appends result (deed_words code.now origin lvalue.now deed) text.old.items text.new.items }
{
    match deed {
        Deed::Reads(_, value) => put_access(text, b"read", lvalue, value),
        Deed::Writes(_, value) => put_access(text, b"write", lvalue, value),
        Deed::Makes(object) => put_word_object(text, b"malloc", object),
        Deed::Takes(object) => put_taken(text, taking(code, origin), lvalue, object),
        Deed::Gives(object) => put_word_object(text, b"given", object),
        Deed::Frees(object) => put_word_object(text, b"freed", object),
        Deed::Locks(_) => put_word(text, b"lock", lvalue),
        Deed::Unlocks(_) => put_word(text, b"unlock", lvalue),
        Deed::Spawns(function, value, thread) => {
            let name = bytes_of(code, function_of(code, u64::from(function)).name);
            put_spawn(text, name, value, thread)
        }
        Deed::Starts(value) => put_access(text, b"start", lvalue, value),
        Deed::Joins(thread) => put_word_number(text, b"join", thread),
        Deed::Prints(value) => put_word_number(text, b"print", value),
        Deed::Returns => put_word(text, b"return", lvalue),
        Deed::Ends => put_word(text, b"gone", lvalue),
        Deed::Enters(_) => put_word(text, b"wait", lvalue),
        Deed::Wakes(_) => put_word(text, b"woken", lvalue),
        Deed::Signals(_, woken) => put_signal(text, lvalue, woken),
        Deed::Broadcasts(_) => put_word(text, b"broadcast", lvalue),
    }
}

// The cell, or the reference.
fn put_object_of(text: &mut Vec<u8>, deed: Deed) -> Result<(), AllocError>
    ensures { Appends result (object_of deed) text.old.items text.new.items }
{
    match deed {
        Deed::Reads(at, _) | Deed::Writes(at, _) => put_cell(text, at),
        Deed::Locks(at) | Deed::Unlocks(at) => put_cell(text, at),
        Deed::Enters(at) | Deed::Wakes(at) => put_cell(text, at),
        Deed::Signals(at, _) | Deed::Broadcasts(at) => put_cell(text, at),
        Deed::Makes(object) | Deed::Takes(object) => put_reference(text, object),
        Deed::Gives(object) | Deed::Frees(object) => put_reference(text, object),
        Deed::Spawns(_, _, _) | Deed::Starts(_) | Deed::Joins(_) | Deed::Prints(_) => Ok(()),
        Deed::Returns | Deed::Ends => Ok(()),
    }
}

// The mode of what is read or written; `path` where the pointer of a lock path is read.
fn mode_of(code: &Code, origin: Origin, deed: Deed) -> &'static [u8]
    ensures { result.now ≡ mode_of code.now origin deed }
{
    match (deed, origin) {
        (Deed::Reads(_, _), Origin::Lock(_, _)) => b"path",
        (Deed::Reads(_, _), Origin::Site(site)) => mode_word(place_at(code, site).mode),
        (Deed::Writes(_, _), Origin::Site(site)) => mode_word(place_at(code, site).mode),
        _ => b"",
    }
}

/// The line of an event, where these are the names behind the events before it.
pub(crate) fn put_event(
    text: &mut Vec<u8>,
    code: &Code,
    names: &LastOrigins,
    event: &Event,
) -> Result<(), AllocError>
    ensures { (earlier : List Event) → AreNames names.now earlier
        → Appends result (event_line code.now earlier event.now) text.old.items text.new.items }
{
    let lvalue = names.name_of(code, event);
    put_place(text, code, event.thread, site_of(code, event.origin))?;
    put_deed(text, code, event.origin, lvalue, event.deed)?;
    text.push(b'\t')?;
    put_object_of(text, event.deed)?;
    text.push(b'\t')?;
    text.extend_from_slice(mode_of(code, event.origin, event.deed))?;
    text.push(b'\n')?;
    Ok(())
}
