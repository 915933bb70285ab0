//! Code of typed flat code is typed, and what is known before each line of flattened expressions, statements,
//! functions and programs.
//!
//! - typed: code of typed flat code is typed: what is known at each place of it, by what is known before each line.
//! - labels: what is known before each line of flattened expressions, whatever checks are remembered.
//! - statements: the same of statements, functions and programs, where the types of the source say what is asked.
//!
//! The layer above may call the laws of the modules, each the contract of a function that does nothing.
#![tactic(auto)]

mod labels;
pub mod statements;
mod typed;

pub use labels::{
    blocks_law, decisions_law, ends_law, expressions_law, jumps_law, knows_law, labels_law,
    leaves_law, lines_law, locals_law, parts_law, returns_nothing_law, simples_law, stretches_law,
    tells_law, tests_law, values_return_law,
};
pub use typed::{anyhow_law, code_law, pieces_law, scopes_law, typed_law};
