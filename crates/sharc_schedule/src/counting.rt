//! Places, and equal neighbours counted together.

ghost use Rattle.std.specs.Prelude.{◌≡◌, ◌<◌, ◌+◌, ◌++◌, ℕ, List, length, replicate, OnOk, slice_index_or};
ghost use Rattle.sharc_schedule.specs.Schedule.{counted_together};

use std::alloc::AllocError;

/// Writes a place so many times more.
///
/// An `Err` says that memory was not found.
pub(crate) fn count(places: &mut Vec<(u32, u32)>, place: u32, turns: u32) -> Result<(), AllocError>
    requires some { 0 < turns }
    requires room { (i : ℕ) (d : ℕ × ℕ) → i < length places.old.items
        → (slice_index_or places.old.items i d).1 + turns < 4294967296 }
    ensures { OnOk result ((before : List ℕ) → places.old.items ≡ counted_together before
        → places.new.items ≡ counted_together (before ++ replicate turns place)) }
{
    let n = places.len();
    if n > 0 && places[n - 1].0 == place {
        let count = places[n - 1].1;
        places[n - 1] = (place, count + turns);
    } else {
        places.push((place, turns))?;
    }
    Ok(())
}
