//! What a source means, apart from all code, checks and counts.
//!
//! A crate above cites specs/: Meaning (what a thread of a function asks for, by the answers that it gets), Store
//! (which lists of events are legal), Runs (the runs of a source), References (what holds a reference to an object) and
//! Obeys (what the modes demand of a run). The laws of src/laws.rt, each the contract of a function that does nothing,
//! say what these are to those who argue with them.
#![tactic(auto)]

pub mod given;
pub mod laws;
pub mod variable;
