// How many events each thread has.

ghost use Rattle.std.specs.Prelude.{◌≡◌, ℕ, ◌+◌, ◌==◌, OnOk, if◌then◌else◌};
ghost use Rattle.sharc_judge.specs.Kept.{count_in};

use std::alloc::AllocError;
use std::collections::HashMap;

/// How many events each thread has.
pub(crate) type Counts = HashMap<u32, usize>;

/// One event more of the thread. Out of memory is answered also where a number of 64 bits cannot count them.
pub(crate) fn add_one(counts: &mut Counts, thread: u32) -> Result<(), AllocError>
    ensures { OnOk result ((q : ℕ)
        → count_in counts.new q ≡ (if thread == q then count_in counts.old q + 1 else count_in counts.old q)) }
{
    let count = counts.get(&thread).copied().unwrap_or(0);
    match count.checked_add(1) {
        None => Err(AllocError),
        Some(more) => {
            counts.insert(thread, more)?;
            Ok(())
        }
    }
}
