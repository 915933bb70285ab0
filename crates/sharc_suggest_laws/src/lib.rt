//! Programs with a cast written in them; laws: where a suggested one is written its error is gone.
//!
//! A program with a sharing cast written round an expression that was passed, assigned or returned as it is.
//!
//! The layer above may use `apply`, which types the program again and keeps its modes, and `Recast`, which writes the
//! cast alone. What they give is `assignment_with` of specs/Applied.antt and `program_with_cast` of specs/Recast.antt.
//!
//! What a sharing cast does that is suggested for a mismatch of modes and written in its program.
//!
//! The layer above may call `is_repaired` with what `apply` of sharc_suggest_laws answered, and the laws of
//! src/laws.rt, each the contract of a function that does nothing. They speak of `assignment_with` of
//! sharc_suggest_laws; what is gone is `IsGone` of specs/Gone.antt.
#![tactic(auto)]

pub mod answered;
mod applied;
mod expression;
mod item;
pub mod laws;
mod modes;
mod statement;
mod written;

pub use applied::apply;
pub use written::Recast;
