//! From the bytes of a source to the checked code of the program that it is, as one call.
//!
//! The layer above uses `build`, `Built` and `BuildFault`; `Builds` of specs/Built.antt says what is answered, and
//! `fronts_are_typed` what the program is. What the code is to the program is a law of sharc_sound_laws,
//! `built_is_faithful`.
#![tactic(auto)]

mod building;
mod laws;

pub use building::{BuildFault, Built, build};
pub use laws::fronts_are_typed;
