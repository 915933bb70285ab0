//! The source of the programs on which speed is measured.
//!
//! `make` writes a program of the checked language with a given number of small functions. `specs/Source.antt` gives
//! its lines.
#![tactic(auto)]

mod source;

pub use source::make;
