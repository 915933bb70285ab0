//! The grammar of programs over tokens, with its laws, and the parser that reads by it.
//!
//! The grammar of programs over tokens, the machine that reads them word by word, and the laws that join the two.
//!
//! The layer above may use: the grammar (specs/Grammar), whose word for "is of the language" is IsProgram with
//! program_words, and whose word for a prefix is Begins; the limits (specs/Limits); and the machine (specs/Machine),
//! whose reads and reads_within a parser follows. The laws of src/laws say that the machine reads exactly the programs,
//! and where it stops.
//!
//! The parser: tokens into the tree of a program, or the first fault.
//!
//! The layer above may use `parse`, `ParseFault` and the laws. What `parse` answers is `Parses` of specs/Programs.antt:
//! the program that the tokens are by the grammar of sharc_parse within its limits (`Reads`), or the first fault
//! (`IsFaultOf`). The two exclude each other, and each is determined (src/laws.rt here, and `one_reading` of
//! sharc_parse). The functions go the way of the machine of sharc_parse by recursive descent, and each has a
//! contract that says so.
#![tactic(auto)]

mod expr;
pub mod fault;
mod field;
mod form;
pub mod grammar_laws;
mod head;
mod held;
mod item;
pub mod laws;
mod line;
mod local;
mod parameter;
mod plain;
mod program;
mod right;
mod simple;
mod statement;
mod token;
mod types;
mod word;

pub use program::{ParseFault, parse};
