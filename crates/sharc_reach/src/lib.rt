//! Which functions threads may run, and which globals they may touch.
//!
//! The layer above may use `reach` and `Reached`. What is answered is `AreReached` of specs/Reaching.antt, in the words
//! of what is reached and touched that come with the typed program. One walk over the functions lists the names in them
//! and whether each is called or spawned there; the functions are the nodes of a graph and their calls and spawns its
//! edges. The time is linear in the program.
#![tactic(auto)]

mod answer;
mod edges;
mod firsts;
mod mention;
mod names;
mod sources;
mod walk;

pub use answer::{Reached, reach};
