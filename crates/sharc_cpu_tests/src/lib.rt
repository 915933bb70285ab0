//! Single instructions over chosen words, and a step of another thread between two turns of one: tests alone.
//!
//! No crate depends on this one, and it has no code of its own.
#![tactic(auto)]

#[cfg(test)]
mod bench;
#[cfg(test)]
mod between;
#[cfg(test)]
mod checks;
#[cfg(test)]
mod code;
#[cfg(test)]
mod numbers;
#[cfg(test)]
mod objects;
#[cfg(test)]
mod registers;
#[cfg(test)]
mod rows;
#[cfg(test)]
mod script;
#[cfg(test)]
mod threads;
