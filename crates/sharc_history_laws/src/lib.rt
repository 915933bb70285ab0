//! Laws of runs of typed code: what state words say, events that keep the modes, causes of reports.
//!
//! What the state words of threads say of a checked run.
//!
//! The layer above may call the laws of src/words.rt, each the contract of a function that does nothing.
//!
//! Checked runs of typed code: the paths of their threads have consistent results, their source events keep the rules
//! of the modes and may come one after the other, and their reports show causes.
//!
//! The layer above may call the laws of src/laws.rt, each the contract of a function that does nothing.
#![tactic(auto)]

mod laws;
mod words;

pub use laws::{
    awaits_law, causes_law, cells_seen_law, followed_law, grows_law, history_law, kept_law,
    paths_law, pointers_kept_law, pointers_made_law, reports_law, seen_law, starts_law, stores_law,
    stuck_law, threads_law, waiters_law,
};
pub use words::states_law;
