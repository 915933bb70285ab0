//! The front end as one call.
//!
//! The front end as one call: from the bytes of a source to a program with its modes.
//!
//! The layer above uses `front`, `ReachedProgram` and `Refusal`. What it answers is written in specs/Front.antt, in
//! terms of the grammars, of C typing and of the least assignment. specs/Compiled.antt says which code a program with
//! its modes is compiled to; sharc_build makes it.
#![tactic(auto)]

mod program;

pub use program::{ReachedProgram, Refusal, front};
