//! That a program has one least assignment of modes, and what `well_formed` of sharc_mode says under it.
//!
//! The layer above may call the laws of src/laws.rt, each the contract of a function that does nothing.
#![tactic(auto)]

pub mod laws;
