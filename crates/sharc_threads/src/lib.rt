//! The threads of a run, between two turns of it, and how a run ends.
//!
//! A `ThreadTable` has the threads that were started, each at the place of its number; `begin` makes those whose state
//! word has become 1. `is_on`, `is_gone`, `waits` and `may_turn` say what a thread's next turn can be, where the words
//! are these. `specs/Ends.antt` says who is enabled where a run is, how a run ends there (`EndIs`), and which threads
//! it had (`AreStarted`); `specs/Seats.antt` says that a table is the one of such a place (`AreSeats`).
#![tactic(auto)]

mod end;
mod laws;
mod state;
mod table;

pub use end::End;
pub use laws::table_laws;
pub use state::{is_gone, is_on, may_turn, waits};
pub use table::{ThreadTable, may_turn_at};
