//! The invariant of every checked run of typed code, and the laws that each turn keeps it.
//!
//! The layer above may call the laws of src/laws.rt, each the contract of a function that does nothing. specs/Laws.antt
//! has what they say: `IsWellTyped` of specs/Typed.antt is what a code must meet, and `State` of specs/State.antt what
//! then stands at each place of a run.
#![tactic(auto)]

pub mod laws;
