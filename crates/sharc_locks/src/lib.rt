//! The mutexes that a thread holds, and the threads that wait for a condition.
//!
//! The log of the mutexes that one thread holds.
//!
//! A contract sees a `HeldLog` as the list of its entries, oldest first. `specs/HeldLog.antt` says what it is to hold a
//! mutex, and what taking one and giving one up change. No call takes memory.
//!
//! The waiters of a condition variable, in one word: bit `k` is set where thread `k` waits.
//!
//! `specs/Waiters.antt` reads a word as the set of the threads that wait, and says what a thread that enters, and one
//! that is taken away, change in it. The laws of such words are the contract of `waiters_laws`. No call takes memory.
#![tactic(auto)]

mod held_log;
mod laws;
pub mod waiters;

pub use held_log::{HeldLog, HeldMutex, LIMIT};
pub use laws::waiters_laws;
pub use waiters::{enter, waits, wake};
