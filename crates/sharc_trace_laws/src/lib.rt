//! Laws of what `sharc_trace` writes.
//!
//! The layer above may call the laws of `src/laws.rt`, each the contract of a function that does nothing.
//! `specs/Laws.antt` has what they say.
#![tactic(auto)]

mod laws;

pub use laws::{files_are_audited, files_are_event_files, none_is_at_fault, recordings_are_traced};
