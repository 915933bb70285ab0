//! That there are programs, runs and reports of which the laws of runs speak: one of each, with its proof.
//!
//! The layer above may call the laws of src/laws.rt, each the contract of a function that does nothing, and cite
//! specs/.
#![tactic(auto)]

pub mod laws;
