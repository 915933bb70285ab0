//! Tests of what sources mean, and the references to an object, by a plain program for them.
//!
//! The references to an object after a list of source events, with a fuel for what each thread holds: by a plain
//! program, which looks at every place.
//!
//! A crate above calls `references`: its contract is the set `ReferencesWith` of sharc_meaning, which is `References`
//! there where each thread comes to a want, a stop or its end with this fuel. It is for small lists: its time grows
//! with the third power of a list's length.
//!
//! What a source means, and which event lists are runs of it: tests alone, a folder for each crate that they are of.
//!
//! No crate depends on this one, and it has no code of its own.
#![tactic(auto)]

#[cfg(test)]
mod ask;
pub mod holder;
#[cfg(test)]
mod holders;
#[cfg(test)]
mod judge;
mod listed;
mod made;
mod pointers;
#[cfg(test)]
mod sources;
mod starts;

pub use listed::references;
