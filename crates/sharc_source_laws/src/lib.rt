//! Laws of sources that are programs.
//!
//! The layer above may call the laws of `src/laws.rt`, each the contract of a function that does nothing.
//! `specs/Laws.antt` has what they say.
#![tactic(auto)]

pub mod laws;
