//! Tables of sources, and what the front end makes of them that no text of the program shows: tests alone, over the
//! lexer, the parser and C typing as they work together.
//!
//! No crate depends on this one, and it has no code of its own. A table that needs the lexer to write what a later
//! stage of the front end is given is here too, so that a change of the top call proves none of them again.
#![tactic(auto)]

#[cfg(test)]
mod faults;
#[cfg(test)]
mod nodes;
#[cfg(test)]
mod parts;
#[cfg(test)]
mod reach;
#[cfg(test)]
mod sources;
#[cfg(test)]
mod tables;
#[cfg(test)]
mod tokens;
#[cfg(test)]
mod tree_tests;
#[cfg(test)]
mod typing;
#[cfg(test)]
mod typing_names;
