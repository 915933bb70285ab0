// Pieces of texts: numbers, places and lvalues.

ghost use Rattle.std.specs.Prelude.{◌≡◌, ◌++◌, [], codes, decimal, slice_index_or};
ghost use Rattle.sharc_tree.specs.Texts.{Appends};
ghost use Rattle.sharc_code.specs.Says.{place_at};
ghost use Rattle.sharc_run.specs.Places.{text_of, site_text, lvalue, lock_path, at_site, lvalue_at};

use itoa::Buffer;
use sharc_code::{Code, PlaceMode, SourcePlace, Text, Use};
use sharc_tree::token::Site;
use std::alloc::AllocError;

/// What a number has that is not one of a site.
const NO_PLACE: SourcePlace = SourcePlace {
    site: Site {
        file: 0,
        line: 0,
        token: 0,
    },
    lvalue: Text { from: 0, until: 0 },
    lock: Text { from: 0, until: 0 },
    mode: PlaceMode::Racy,
    at: Use::Other,
};

/// The site of this number.
pub(crate) fn place_at(code: &Code, site: u32) -> SourcePlace
    ensures { result ≡ place_at code.now site }
{
    match code.sites.get(site as usize).copied() {
        Some(place) => place,
        None => NO_PLACE,
    }
}

/// The bytes of a text; those past the last one are none.
fn bytes_of(code: &Code, text: Text) -> &[u8]
    ensures { result.now ≡ text_of code.now text }
{
    let bytes = code.texts.as_slice();
    let until = bytes.len().min(text.until as usize);
    let from = until.min(text.from as usize);
    &bytes[from..until]
}

pub(crate) fn put_number(text: &mut Vec<u8>, number: u64) -> Result<(), AllocError>
    ensures { Appends result (decimal number) text.old.items text.new.items }
{
    let mut buffer = Buffer::new();
    text.extend_from_slice(buffer.format(number).as_bytes())
}

/// The name of a file; none past the last one.
fn file_text(code: &Code, file: u32) -> &[u8]
    ensures { result.now ≡ slice_index_or code.now.files file [] }
{
    let files = code.files.as_slice();
    let file = file as usize;
    if file < files.len() {
        files[file].as_slice()
    } else {
        &[]
    }
}

/// `file:line`.
fn put_place(text: &mut Vec<u8>, code: &Code, site: Site) -> Result<(), AllocError>
    ensures { Appends result (site_text code.now site) text.old.items text.new.items }
{
    text.extend_from_slice(file_text(code, site.file))?;
    text.extend_from_slice(b":")?;
    put_number(text, u64::from(site.line))
}

/// ` at file:line`.
pub(crate) fn put_at(text: &mut Vec<u8>, code: &Code, site: u32) -> Result<(), AllocError>
    ensures { Appends result (at_site code.now site) text.old.items text.new.items }
{
    text.extend_from_slice(b" at ")?;
    put_place(text, code, place_at(code, site).site)
}

/// How the lock of a site's mode is written.
pub(crate) fn put_lock(text: &mut Vec<u8>, code: &Code, site: u32) -> Result<(), AllocError>
    ensures { Appends result (lock_path code.now site) text.old.items text.new.items }
{
    text.extend_from_slice(bytes_of(code, place_at(code, site).lock))
}

/// The lvalue of a site, and ` at file:line`.
pub(crate) fn put_lvalue_at(text: &mut Vec<u8>, code: &Code, site: u32) -> Result<(), AllocError>
    ensures { Appends result (lvalue_at code.now site) text.old.items text.new.items }
{
    text.extend_from_slice(bytes_of(code, place_at(code, site).lvalue))?;
    put_at(text, code, site)
}
