//! The words and the streams of the program, and what it writes over them: tests alone.
//!
//! No crate depends on this one, and it has no code of its own.
#![tactic(auto)]

#[cfg(test)]
mod bytes;
#[cfg(test)]
mod failures;
#[cfg(test)]
mod gates;
#[cfg(test)]
mod outcome;
#[cfg(test)]
mod streams;
#[cfg(test)]
mod trace;
#[cfg(test)]
mod words;
