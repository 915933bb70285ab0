//! The events of a recorded run: that of each turn, those of all turns, and their event file.
//!
//! Which event of the source a turn is, computed.
//!
//! `next_of` answers what is known of a thread's next turn before it is made, and `event_of` the event by what its step
//! found. `specs/Told.antt` says what both have in common with `says` of sharc_code, which tells the event of each turn
//! of a machine.
//!
//! The source events of the run that a schedule chooses.
//!
//! `history_by_schedule` makes that run, and answers its events in their order and where each thread then is;
//! `specs/History.antt` says what they are to the run. The law of src/laws.rt says that the run of a recorded run's
//! schedule tells what that run does.
//!
//! The lines of that run in the words of its source.
//!
//! `places_text` writes one for each event and one for each thread that waits or was stopped (specs/Places.antt).
#![tactic(auto)]

mod cells;
mod elements;
mod event;
mod going;
mod history;
mod last;
mod laws;
mod next;
mod pieces;
mod places;
mod refused;

pub use cells::{Origin, Where};
pub use event::{Deed, Event, GivenValue, Reference};
pub use history::{History, history_by_schedule};
pub use last::{Halt, Last};
pub use laws::history_laws;
pub use next::{Argument, Coming, Next};
pub use pieces::{put_cell, put_number, put_reference, put_signed};
pub use places::places_text;
