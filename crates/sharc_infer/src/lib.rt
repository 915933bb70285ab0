//! The inference of modes: which pointer targets and globals without a written mode are dynamic, and why.
//!
//! The layer above may use `infer`. What is answered is the least assignment (`IsLeastAssignment` of
//! sharc_mode/specs/Flows.antt). Roots, settled modes and links of a program are listed, each by one pass, and
//! sharc_graph finds which positions a path of links leads to. The time is linear in the program and its
//! positions, links among them.
#![tactic(auto)]

mod answer;
mod assigned;
mod casts;
mod links;
mod places;
mod roots;
mod settled;
mod transfers;

pub use answer::infer;
