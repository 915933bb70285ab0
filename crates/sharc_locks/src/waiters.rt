//! The word of the threads that wait.

ghost use Rattle.std.specs.Prelude.{◌≡◌, ℕ, ◌<◌, ◌^◌, ◌↔◌, IsTrue, IsNone, IfSome, bit_or};
ghost use Rattle.sharc_word.specs.Words.{word_after};
ghost use Rattle.sharc_locks.specs.Waiters.{waits_in, woken, AddsWaiter, TakesAwayFirst};

use sharc_word::{THREADS, WordOp};

/// The operation by which a thread becomes a waiter (own; as the wait of a POSIX condition variable).
pub fn enter(thread: u32) -> WordOp
    requires { thread < THREADS }
    ensures bit { result ≡ WordOp.Or (2 ^ thread) }
    ensures enters { (word : ℕ) → AddsWaiter word (word_after result word) thread }
{
    WordOp::Or(1 << thread)
}

/// Whether the thread is a waiter.
pub fn waits(word: u64, thread: u32) -> bool
    requires { thread < THREADS }
    ensures { result ≡ waits_in word thread }
{
    (word >> thread) & 1 == 1
}

/// The lowest-numbered waiter, and the word without it. `None` comes exactly where the word is 0, which says that
/// nobody waits.
pub fn wake(word: u64) -> Option<(u32, u64)>
    ensures nobody { IsNone result ↔ (word ≡ 0) }
    ensures first { IfSome result (λ found. TakesAwayFirst word found.1 found.0) }
    ensures is { result ≡ woken word }
{
    if word == 0 {
        return None;
    }
    let first = word.trailing_zeros();
    Some((first, word & !(1 << first)))
}
