//! Event files, and whether their events are a run of the program that obeys the modes.
//!
//! The layer above may use `file::read_events` (`IsEventFile`, `IsFirstBad` and `HasMany` of specs/Grammar.antt),
//! `audit::audit` (`Audits` of specs/Audited.antt), the lines of `text` (specs/Texts.antt), and `is_name` (`IsName` of
//! specs/Grammar.antt). The laws of src/laws.rt say that a text is one event file at most, that a list of event lines
//! has one verdict, and that the lines of a run that obeys never fail.
#![tactic(auto)]

pub mod audit;
pub mod file;
pub mod laws;
pub mod line;
mod matching;
mod reading;
mod reported;
mod run;
mod runs;
pub mod text;
mod threads;
mod words;

pub use words::is_name;
