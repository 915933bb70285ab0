//! Warnings of reads of locals that a sharing cast or `free` may have nulled.
//!
//! The layer above may use `nulled_uses`. Which warnings it gives is written in specs/Uses.antt, over the paths through
//! each function, which specs/Flows.antt gives by one clause for each form of expression and statement.
#![tactic(auto)]

mod expression;
mod statement;
mod variable;
mod warnings;

pub use warnings::nulled_uses;
