//! Schedules: made from the word events of a run, run again, and read and written as recorded files.
//!
//! Recorded files: a source with the schedule of a run, and the text of the run.
//!
//! `specs/File.antt` is the grammar, and says which line of other bytes is the first that continues no file.
//!
//! The schedule of a run: made from the journal of a run, and run again.
//!
//! `specs/Schedule.antt` says which turns a schedule lists, in which order, and as which places. `make_places` makes it
//! from the word events of a run, and `run_schedule` makes the run of a schedule; `place_at` answers the place of a
//! turn, by what `ends_of` answers. The laws of schedules are the contract of `schedule_laws`, which does nothing
//! (`specs/Laws.antt`).
#![tactic(auto)]

mod counting;
mod file;
mod files;
mod laws;
mod places;
mod read;
mod replay;
mod write;

pub use file::{FileFault, Places, RecordFile};
pub use files::file_laws;
pub use laws::schedule_laws;
pub use places::make_places;
pub use read::read_file;
pub use replay::{ends_of, place_at, run_schedule};
pub use write::write_file;
