//! Sharing casts that repair a mismatch of modes: which M1 of a program has one, and what it is.
//!
//! The layer above may use `suggest_all`. What is answered is `AreSuggested` of specs/Casts.antt.
#![tactic(auto)]

mod answer;
mod expr;
pub mod laws;
mod repair;
mod statement;

pub use answer::suggest_all;
