//! What the next turn of a thread can be.

ghost use Rattle.std.specs.Prelude.{◌≡◌, ◌<◌, slice_index};
ghost use Rattle.sharc_word.specs.declared.step.TheConstants.{THREADS as threads};
ghost use Rattle.sharc_code.specs.{Path.may_go, Waits.{is_held_up, held_up}};
ghost use Rattle.sharc_threads.specs.Seats.{is_end, may_turn};

use sharc_code::TurnState;
use sharc_cpu::{Thread, Wait};
use sharc_locks::waits as is_among;

// The word of this number, 0 where there is none.
pub(crate) fn word(words: &[u64], number: u64) -> u64
    ensures { result ≡ slice_index words.now number }
{
    if number < words.len() as u64 {
        words[number as usize]
    } else {
        0
    }
}

// Whether the mutex is held, the thread is not gone, or the thread of this number still waits to be woken.
fn is_held_up(words: &[u64], number: u32, wait: Wait) -> bool
    requires { number < threads }
    ensures { result ≡ is_held_up words.now number wait }
{
    match wait {
        Wait::Mutex(mutex, _) => word(words, u64::from(mutex)) != 0,
        Wait::Join(other, _) => {
            let state = word(words, 4 + 3 * u64::from(other));
            state == 1 || state == 2
        }
        Wait::Cond(cond, _) => is_among(word(words, u64::from(cond)), number),
    }
}

/// Whether the thread is neither gone nor stopped.
pub fn is_on(thread: &Thread) -> bool
    ensures { result ≡ may_go thread.now.machine.at.state }
{
    match thread.state() {
        TurnState::Runs | TurnState::Tries => true,
        TurnState::Stopped | TurnState::Ended => false,
    }
}

/// Whether the thread is gone.
pub fn is_gone(thread: &Thread) -> bool
    ensures { result ≡ is_end thread.now.machine.at.state }
{
    match thread.state() {
        TurnState::Ended => true,
        TurnState::Runs | TurnState::Tries | TurnState::Stopped => false,
    }
}

/// Whether the next turn of the thread would be a failed try where the words are these.
pub fn waits(thread: &Thread, words: &[u64]) -> bool
    requires { thread.now.machine.own.number < threads }
    ensures { result ≡ held_up words.now thread.now.machine.own.number thread.now.wait }
{
    match thread.wait() {
        None => false,
        Some(wait) => is_held_up(words, thread.number(), wait),
    }
}

/// Whether a thread that was started is enabled where the words are these and no thread may make more events than
/// `limit`.
pub fn may_turn(thread: &Thread, words: &[u64], limit: u64) -> bool
    requires { thread.now.machine.own.number < threads }
    ensures { result ≡ may_turn words.now limit thread.now }
{
    is_on(thread) && thread.made() < limit && !waits(thread, words)
}
