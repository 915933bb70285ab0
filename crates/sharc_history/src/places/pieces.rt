//! Pieces of lines: places, objects, values and modes.

ghost use Rattle.std.specs.Prelude.{◌≡◌, ◌++◌, ◌∷◌, [], slice_index_or};
ghost use Rattle.sharc_tree.specs.Texts.{Appends};
ghost use Rattle.sharc_history.specs.Places.{text_of, place_text, object_text, seen_text, worded, mode_word, columns};

use crate::event::{GivenValue, Reference};
use crate::pieces::{put_number, put_signed};
use sharc_code::{Code, PlaceMode, Text};
use sharc_tree::token::Site;
use std::alloc::AllocError;

/// The bytes of a text; those past the last one are none.
pub(crate) fn bytes_of(code: &Code, text: Text) -> &[u8]
    ensures { result.now ≡ text_of code.now text }
{
    let bytes = code.texts.as_slice();
    let until = bytes.len().min(text.until as usize);
    let from = until.min(text.from as usize);
    &bytes[from..until]
}

// The name of a file; none past the last one.
fn file_name(code: &Code, file: u32) -> &[u8]
    ensures { result.now ≡ slice_index_or code.now.files file [] }
{
    let files = code.files.as_slice();
    let file = file as usize;
    if file < files.len() {
        files[file].as_slice()
    } else {
        &[]
    }
}

/// `THREAD FILE:LINE` and a tab.
pub(crate) fn put_place(
    text: &mut Vec<u8>,
    code: &Code,
    thread: u32,
    site: Site,
) -> Result<(), AllocError>
    ensures { Appends result (place_text code.now thread site) text.old.items text.new.items }
{
    put_number(text, u64::from(thread))?;
    text.push(b' ')?;
    text.extend_from_slice(file_name(code, site.file))?;
    text.push(b':')?;
    put_number(text, u64::from(site.line))?;
    text.push(b'\t')?;
    Ok(())
}

/// `NULL`, or the object with its elements.
pub(crate) fn put_object(text: &mut Vec<u8>, reference: Reference) -> Result<(), AllocError>
    ensures { Appends result (object_text reference) text.old.items text.new.items }
{
    if reference.number == 0 {
        return text.extend_from_slice(b"NULL");
    }
    text.extend_from_slice(b"o")?;
    put_number(text, reference.number)?;
    text.push(b'[')?;
    put_number(text, reference.elements)?;
    text.push(b']')?;
    Ok(())
}

pub(crate) fn put_seen(text: &mut Vec<u8>, value: GivenValue) -> Result<(), AllocError>
    ensures { Appends result (seen_text value) text.old.items text.new.items }
{
    match value {
        GivenValue::Int(value) => put_signed(text, value),
        GivenValue::Reference(reference) => put_object(text, reference),
    }
}

/// A word, a blank, and how what it is of is written.
pub(crate) fn put_word(text: &mut Vec<u8>, word: &[u8], lvalue: &[u8]) -> Result<(), AllocError>
    ensures { Appends result (worded word.now lvalue.now) text.old.items text.new.items }
{
    text.extend_from_slice(word)?;
    text.push(b' ')?;
    text.extend_from_slice(lvalue)
}

/// How a mode is called, of whatever lock.
pub(crate) fn mode_word(mode: PlaceMode) -> &'static [u8]
    ensures { result.now ≡ mode_word mode }
{
    match mode {
        PlaceMode::Private => b"private",
        PlaceMode::Readonly => b"readonly",
        PlaceMode::Racy => b"racy",
        PlaceMode::Dynamic => b"dynamic",
        PlaceMode::LockedGlobal(_, _)
        | PlaceMode::LockedSibling(_, _)
        | PlaceMode::LockedThrough(_, _)
        | PlaceMode::LockedLoaded => b"locked",
    }
}
