//! What names mean where they are written: C types, scopes, the structs of a file, written types, and the list of what
//! is to be said of them.
//!
//! The definitions are in specs/: Notes has the faults and what a token names, Kinds the C types, Names the scope,
//! Needs what the place of an expression needs of it, Types the written types and lock paths. The calls here are for
//! sharc_ctype, each with its definition as its contract.
#![tactic(auto)]

pub mod fault;
pub mod fields;
pub mod kind;
pub mod laws;
pub mod meaning;
pub mod names;
pub mod need;
pub mod scope;
pub mod structs;
pub mod types;
pub mod wanted;
