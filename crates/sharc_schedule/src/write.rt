//! Recorded files, written.

ghost use Rattle.std.specs.Prelude.{◌≡◌, ◌++◌, ◌∷◌, [], decimal, IfOk, OnOk};
ghost use Rattle.sharc_schedule.specs.File.{place_line, places_text, schedule_line, written};

use crate::file::Places;
use itoa::Buffer;
use std::alloc::{AllocError, Global};

// Appends a number.
fn put_number(text: &mut Vec<u8>, n: u64) -> Result<(), AllocError>
    ensures { OnOk result (text.new.items ≡ text.old.items ++ decimal n) }
{
    let mut buffer = Buffer::new();
    text.extend_from_slice(buffer.format(n).as_bytes())
}

// Appends the line of a place.
fn put_place(text: &mut Vec<u8>, place: u32, turns: u32) -> Result<(), AllocError>
    ensures { OnOk result (text.new.items ≡ text.old.items ++ (place_line (place, turns) ++ 10 ∷ [])) }
{
    put_number(text, u64::from(place))?;
    text.push(b' ')?;
    put_number(text, u64::from(turns))?;
    text.push(b'\n')?;
    Ok(())
}

// Appends the lines of all places.
fn put_places(text: &mut Vec<u8>, places: &[(u32, u32)]) -> Result<(), AllocError>
    ensures { OnOk result (text.new.items ≡ text.old.items ++ places_text places.now) }
{
    for i in 0..places.len() {
        let (place, turns) = places[i];
        put_place(text, place, turns)?;
    }
    Ok(())
}

/// The file of this source, number of heap granules, limit of events, schedule and text of the run.
///
/// An `Err` says that memory was not found.
pub fn write_file(
    alloc: Global,
    source: &[u8],
    heap: u32,
    limit: u64,
    places: &Places,
    text: &[u8],
) -> Result<Vec<u8>, AllocError>
    ensures { IfOk result (λ file. file.items
        ≡ written (record { source = source.now; heap = heap; limit = limit; places = places.now }) text.now) }
{
    let mut file = Vec::from_slice(alloc, source)?;
    file.extend_from_slice(b"\n%%schedule ")?;
    put_number(&mut file, u64::from(heap))?;
    file.push(b' ')?;
    put_number(&mut file, limit)?;
    file.push(b'\n')?;
    put_places(&mut file, places.as_slice())?;
    file.extend_from_slice(b"%%text\n")?;
    file.extend_from_slice(text)?;
    Ok(file)
}
