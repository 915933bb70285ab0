//! Runs that workers make in rounds.
//!
//! `run_rounds` runs a code: the words lie on one bus, and in each round every worker gives each of its threads one
//! quantum of at most `QUANTUM` turns, which ends with no mutex held where it can. Between two rounds some words are
//! looked at, and none is copied. `IsRoundsRun` of `specs/Run.antt` says what is answered: there is a checked run of
//! `sharc_code` that ends so. A `Gate` is asked before each step of a port. Memory is taken between rounds alone.
#![tactic(auto)]

mod busy;
mod gate;
mod hand;
mod laws;
mod lent;
mod pace;
mod parts;
mod room;
mod round;
mod run;
mod share;
mod stint;
mod words;
mod worker;

pub use gate::{Gate, GatedPort};
pub use hand::Hand;
pub use laws::{quantum_laws, round_laws};
pub use lent::Lent;
pub use room::reserve;
pub use run::{RoundsRun, run_rounds};
pub use sharc_threads::End;
pub use share::most_events;
pub use stint::QUANTUM;
pub use worker::{Worker, deal, gather, workers_needed};
