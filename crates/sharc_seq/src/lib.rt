//! Runs of which one chooser chooses each turn.
//!
//! `run_seq` runs a code: among the threads that are enabled the `Chooser` says who makes the next turn, until none is.
//! `specs/Run.antt` says who is chosen, and what a run is that was chosen: a checked run of `sharc_code`, with the
//! threads and the end of `sharc_threads`. `seeded` is the choice by a number. A `Walk` is a run of which the caller
//! picks each turn: `specs/Walk.antt` says where it is, and `enabled_laws` what is known of the threads that it lists.
//! `Quiet` says how many turns without a word operation come from each place of a code (`specs/Quiet.antt`), and a walk
//! makes these at once.
#![tactic(auto)]

mod choice;
mod chooser;
mod laws;
mod quiet;
mod run;
mod table;
mod told;
mod turn;
mod walk;

pub use choice::seeded;
pub use chooser::Chooser;
pub use laws::enabled_laws;
pub use quiet::Quiet;
pub use run::{SeqRun, run_seq};
pub use sharc_threads::End;
pub use walk::Walk;
