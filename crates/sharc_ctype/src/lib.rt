//! C typing: which programs of the grammar are typed, what each name of them names, and the first fault of those that
//! are not.
//!
//! The layer above may use `type_program`, `Typed`, `TypeFault`, `Entity`, `Numbered`, `layout` and `StructCells`. What
//! `type_program` answers is `Types` of specs/Typings.antt. The faults of a program are one list (specs/Items.antt), to
//! which each form adds its own by the constraints of C11 6.5 to 6.9 (specs/Expressions.antt, Statements, Globals,
//! Heads); specs/Resolved.antt has what is seen of a typed program in place of scopes, which the calls of `Typed`
//! answer. What has a type with modes, and which variables are constant, is the matter of the crates above; it is found
//! here, once, so that their look-ups take no memory (specs/Entities.antt, Constants.antt). specs/Codes.antt is for the
//! logic alone: it tells programs apart, so that a `Typed` may be seen as one.
#![tactic(auto)]

mod casts;
mod collect;
mod condition;
mod constants;
mod declared;
mod entities;
pub mod entity;
pub mod expr;
pub mod first_place;
mod gather;
mod global;
pub mod head;
mod kinds;
pub mod layout;
mod locals;
mod program;
pub mod statement;
mod tables;
mod told;
pub mod typed;
mod variables;
