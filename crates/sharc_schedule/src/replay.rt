//! Runs by a stored schedule.

ghost use Rattle.std.specs.Prelude.{◌≡◌, ◌<◌, ◌≤◌, ◌+◌, ◌^◌, ℕ, length, take, IfOk, slice_index, get_or};
ghost use Rattle.sharc_code.specs.Layout.{Fits};
ghost use Rattle.sharc_seq.specs.Run.{IsSeqRun};
ghost use Rattle.sharc_schedule.specs.{Schedule.{one_by_one, stored, Stored}, Places.total};

use sharc_code::{Code, Shape};
use sharc_seq::{Chooser, SeqRun, run_seq};
use std::alloc::{AllocError, Global};

/// After how many turns each place ends.
///
/// An `Err` says that memory was not found.
pub fn ends_of(alloc: Global, places: &[(u32, u32)]) -> Result<Vec<u64>, AllocError>
    requires { length places.now ≤ 1073741824 }
    ensures count { IfOk result (λ ends. length ends.items ≡ length places.now) }
    ensures each { IfOk result (λ ends. (k : ℕ) → k < length places.now
        → get_or ends.items k 0 ≡ total (take (k + 1) places.now)) }
{
    let mut ends = Vec::with_capacity(alloc, places.len())?;
    let mut end = 0u64;
    for i in 0..places.len() {
        end += u64::from(places[i].1);
        ends.push(end)?;
    }
    Ok(ends)
}

/// The place of a turn, if one is written for it and is below the count, and else the first.
pub fn place_at(places: &[(u32, u32)], ends: &[u64], turn: u64, count: u64) -> u64
    requires count { length ends.now ≡ length places.now }
    requires each { (k : ℕ) → k < length places.now → get_or ends.now k 0 ≡ total (take (k + 1) places.now) }
    ensures is { result ≡ stored places.now turn count }
    ensures below { 1 ≤ count → result < count }
{
    let mut low = 0;
    let mut high = places.len();
    while low < high {
        let middle = low + (high - low) / 2;
        if ends[middle] <= turn {
            low = middle + 1;
        } else {
            high = middle;
        }
    }
    if low < places.len() && u64::from(places[low].0) < count {
        u64::from(places[low].0)
    } else {
        0
    }
}

/// Runs the code by a schedule: turn `i` is made by the thread at the place that is written for it, if there is one and
/// it is below the number of threads that are enabled, and else by the first.
///
/// An `Err` says that memory was not found.
pub fn run_schedule(
    alloc: Global,
    code: &Code,
    shape: &Shape,
    places: &[(u32, u32)],
    limit: u64,
) -> Result<SeqRun, AllocError>
    requires fits { Fits code.now shape.now }
    requires limit { limit ≤ 100000000 }
    requires few { length places.now ≤ 1073741824 }
    ensures { IfOk result (IsSeqRun (Stored places.now) code.now shape.now limit) }
{
    let ends = ends_of(alloc, places)?;
    let ends = ends.as_slice();
    let chooser = Chooser::new(
        |turn: u64, count: u64| -> u64
            requires count { length ends.now ≡ length places.now }
            requires each { (k : ℕ) → k < length places.now → get_or ends.now k 0 ≡ total (take (k + 1) places.now) }
            ensures is { result ≡ stored places.entry.now turn count }
            ensures below { 1 ≤ count → result < count }
        { place_at(places, ends, turn, count) },
    );
    run_seq(alloc, code, shape, &chooser, limit)
}
