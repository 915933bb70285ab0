//! What is well-moded, as a relation, and the mode checker, which decides it.
//!
//! What is well-moded, as a relation: eleven rules over what is written, transferred, cast, freed, called and spawned,
//! and that a program meets them exactly where the checker has nothing to report.
//!
//! The layer above may call the laws of src/rule_laws.rt, each the contract of a function that does nothing, and cite
//! specs/: Rules (the eleven rules), Constructs (the constructs of a program that they speak of) and Paths (which lock
//! paths are allowed where, and which a program has).
//!
//! The mode checker: one pass that says of each construct what is wrong with its modes, and the cases that arise in
//! order.
//!
//! The layer above may use `check`, `Checked`, `CheckFault` and `NamedVariables`, and, to go over calls and casts as
//! the checker does, `passing` and `rules`. What is answered is `Checks` of specs/Checks.antt.
#![tactic(auto)]

mod answer;
mod expr;
pub mod laws;
mod moved_variables;
pub mod named;
mod order;
pub mod passing;
pub mod rule_laws;
pub mod rules;
mod statement;
mod threads;
mod types;

pub use answer::{CheckFault, Checked, check};
