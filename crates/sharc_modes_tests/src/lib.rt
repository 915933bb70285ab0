//! What no text of the program shows of the checker: casts that are written into trees, copies, and long sources.
//!
//! Tests alone: no crate depends on this one, and it has no code of its own.
#![tactic(auto)]

#[cfg(test)]
mod copied;
#[cfg(test)]
mod long;
#[cfg(test)]
mod repaired;
#[cfg(test)]
mod sources;
#[cfg(test)]
mod told;
