//! Source to flat code: the code of each body, the tables and the texts.
//!
//! The flat code of a function's body, made from its source.
//!
//! The layer above may use `walk::function_lines`, whose contract is `function_code` of sharc_flat, and `Source` with
//! the other public functions: what is looked up in a program while it is flattened.
//!
//! From the meaning of a program to its flat form, with all its tables.
//!
//! The layer above may use `flatten`. `Flattens` of sharc_flat/specs/Flattens.antt says what it makes, and `FitsMade`
//! of sharc_flat/specs/Laws.antt how large that is; the laws of sharc_flat say what both are good for.
#![tactic(auto)]

mod bodies;
mod expressions;
mod functions;
mod globals;
mod layouts;
pub mod lookups;
mod need;
mod numbers;
pub mod operations;
mod patch;
mod places;
mod program;
pub mod registers;
mod row;
mod scope;
mod sizes;
pub mod source;
pub mod spots;
mod target;
mod texts;
mod tokens;
pub mod walk;

pub use program::flatten;
