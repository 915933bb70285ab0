//! Typed programs suit flat code: what sharc_flat asks of a program holds of each that is typed.
//!
//! The layer above may use the laws of src/laws.rt, stated in specs/Stands.antt and specs/Tables.antt.
#![tactic(auto)]

pub mod laws;
