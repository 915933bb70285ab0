//! The code that is made of a source: tests alone, a folder for each crate that they are of.
//!
//! No crate depends on this one, and it has no code of its own.
#![tactic(auto)]

#[cfg(test)]
mod build;
#[cfg(test)]
mod flat;
