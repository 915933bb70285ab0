//! The machine and the crates that it stands on: tests alone. README.md says what each folder tests.
//!
//! No crate depends on this one, and it has no code of its own.
#![tactic(auto)]

#[cfg(test)]
mod code;
#[cfg(test)]
mod leaf;
#[cfg(test)]
mod record;
#[cfg(test)]
mod run_text;
#[cfg(test)]
mod seq;
#[cfg(test)]
mod workers;
