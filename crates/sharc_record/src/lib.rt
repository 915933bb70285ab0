//! Recorded runs: by workers over a journal, words with all their events, with the schedule.
//!
//! A journal: the words of a run with all its events, kept by several ports, each step of which is made in its turn.
//!
//! `SharedJournal::open` takes a journal in and gives the ports' seats, `JournalPort::of` makes the port of a seat, and
//! `SharedJournal::close` takes all seats back and gives the journal. `specs/Shared.antt` says what holds then: the
//! events that were appended are one legal history, whose part for each port is that port's list (`OneJournal`). A
//! caller needs that file alone: `specs/Rule.antt` is for the proof. A step takes no memory. It waits for its turn.
//!
//! Recorded runs: runs that workers make in rounds over a journal.
//!
//! `record_run` runs a code: each round shares the journal, the words with all events so far, among the ports of all
//! threads; every worker gives each of its threads one quantum of turns, and the round takes the journal back.
//! `specs/Run.antt` says what there is at the end (`IsRecorded`): a checked run of `sharc_code` whose word events are
//! the journal, with its schedule. `specs/Laws.antt` says what the file of such a run replays. Memory is taken between
//! rounds alone. A step waits for its turn.
#![tactic(auto)]

mod hand;
mod journal;
mod journaled;
mod laws;
mod parts;
mod port;
mod round;
mod rule;
mod run;
mod seat;
mod shared;
mod step;
mod worker;

pub use journal::{Journal, QUANTUM};
pub use journaled::{journal_laws, turn_law};
pub use laws::record_laws;
pub use port::JournalPort;
pub use run::{Recorded, record_run};
pub use seat::JournalSeat;
pub use sharc_rounds::Gate;
pub use sharc_threads::End;
pub use shared::SharedJournal;
