//! Whole runs of code, with their outcome and their text.
//!
//! The text of a run that has ended: what it printed, and why each thread that is not gone is where it is.
//!
//! The layer above uses [`run_text`], whose text is that of specs/RunText.antt. The other access that a conflict names
//! is that of specs/Others.antt. The law that a run has one text is the contract of `text_is_one`, which does nothing
//! (specs/TextLaws.antt).
//!
//! Whole runs of checked code, with what they write and how they ended.
//!
//! `run_by_seed` has one chooser choose each turn by a number, `run_by_workers` has workers make the turns in rounds.
//! Both answer the text of the run and its outcome by causes: `IsSeededRun` and `IsWorkersRun` of `specs/Run.antt` say
//! that there is such a checked run of the code and that these are its text and outcome, `specs/Outcome.antt` what each
//! outcome means. `told` answers both for a run that was made elsewhere. `shape_of` is the shape of a code with this
//! many granules of heap. The law that a run has one outcome is the contract of `outcome_is_told`, which does nothing
//! (`specs/Laws.antt`).
#![tactic(auto)]

mod gate;
mod laws;
mod line;
mod other;
mod outcome;
mod printed;
mod put;
mod run;
mod shape;
mod text;
mod text_laws;

pub use gate::{OpenGate, TimedGate};
pub use laws::outcome_is_told;
pub use outcome::Outcome;
pub use run::{Ran, run_by_seed, run_by_workers, told};
pub use shape::shape_of;
pub use text::run_text;
pub use text_laws::text_is_one;
