// A table of the places at which tokens come first in a list.

ghost use Rattle.std.specs.Prelude.{◌≡◌, OnOk, OnErr};
ghost use Rattle.sharc_ctype.specs.FirstPlaces.{HasPlace};

use indexmap::IndexMap;
use std::alloc::AllocError;

/// Writes the place of the first item with a token into a table.
pub fn note_first(
    first: &mut IndexMap<u32, usize>,
    token: u32,
    place: usize,
) -> Result<(), AllocError>
    ensures written { OnOk result (HasPlace token place first.old.entries first.new.entries) }
    ensures err { OnErr result (first.new.entries ≡ first.old.entries) }
{
    if first.get(&token).is_some() {
        return Ok(());
    }
    first.insert(token, place)?;
    Ok(())
}
