//! Sharing modes: positions, what lock paths name, which modes expressions have, the least assignment of modes, and
//! what is wrong with the modes of a program.
#![tactic(auto)]

pub mod cell;
pub mod error;
pub mod finding;
pub mod laws;
pub mod moded;
pub mod place;
pub mod position;
pub mod read;
pub mod row;
pub mod sharing;
pub mod shown;
pub mod text;
pub mod types;
