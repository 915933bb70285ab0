//! Typed programs without scopes: what holds of a program that C typing has accepted, stated by what its names name
//! alone.
//!
//! The layer above may call the laws of src/laws.rt, each the contract of a function that does nothing, and cite
//! specs/: Constraints (which types C11 gives to expressions), Rules (what it asks of statements), Initials (and of
//! globals), WrittenTypes, Declared (what the names of declarations name), Limits, Found, Places (each expression with
//! its scope) and Callable (what may be called and spawned).
#![tactic(auto)]

pub mod laws;
