//! Runs that are recorded, and runs by the schedule of a recorded file, each with its outcome.
//!
//! `record_by_workers` answers the file of a run that workers make over a journal (`IsRecord` of `specs/Run.antt`),
//! `run_by_schedule` the text of the run that the places of a file choose (`IsScheduledRun`). The laws of both are the
//! contract of `replay_laws`, which does nothing (`specs/Laws.antt`).
#![tactic(auto)]

mod laws;
mod record;
mod replay;

pub use laws::replay_laws;
pub use record::record_by_workers;
pub use replay::run_by_schedule;
