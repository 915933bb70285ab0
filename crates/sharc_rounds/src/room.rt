//! Room for what threads print in a round.

ghost use Rattle.std.specs.Prelude.{◌≡◌, ◌<◌, ℕ, None, length, OnOk, slice_index_or};
ghost use Rattle.sharc_rounds.specs.Round.{HasRoom, HasRoomAt};

use sharc_cpu::Thread;
use sharc_threads::is_on;
use std::alloc::AllocError;

// Makes room for the prints of so many turns, if the thread goes on.
fn make_room(thread: &mut Thread, turns: u32) -> Result<(), AllocError>
    ensures { OnOk result (HasRoom turns thread.old thread.new) }
{
    if is_on(thread) {
        thread.reserve(turns)?;
    }
    Ok(())
}

// Makes room for the prints of so many turns of the thread that is there, if it goes on.
fn make_room_at(seat: &mut Option<Thread>, turns: u32) -> Result<(), AllocError>
    ensures { OnOk result (HasRoomAt turns seat.old seat.new) }
{
    match seat {
        None => Ok(()),
        Some(thread) => make_room(thread, turns),
    }
}

/// Makes room for the prints of so many turns in each thread that goes on.
///
/// An `Err` says that memory was not found.
pub fn reserve(seats: &mut Vec<Option<Thread>>, turns: u32) -> Result<(), AllocError>
    ensures count { length seats.new.items ≡ length seats.old.items }
    ensures each { OnOk result ((n : ℕ) → n < length seats.old.items
        → HasRoomAt turns (slice_index_or seats.old.items n None) (slice_index_or seats.new.items n None)) }
{
    for n in 0..seats.len() {
        make_room_at(&mut seats[n], turns)?;
    }
    Ok(())
}
