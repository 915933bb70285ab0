// The trees that every crate above speaks of: tokens, types, programs, source events and traps.
#![tactic(auto)]

pub mod copy;
pub mod ctype;
pub mod event;
pub mod held;
pub mod listed;
pub mod name;
pub mod print;
pub mod token;
pub mod trap;
pub mod tree;
