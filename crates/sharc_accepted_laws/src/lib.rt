//! The code of an accepted program is typed, and the steps to it: what references refer to, their types at each
//! place, accesses, what is typable.
//!
//! - targets: the table of targets of a program: what each shape of an element and each cell of a global refers to.
//! - references: the types of references at each place of a well-moded program: what is given to what has one type.
//! - accesses: accesses of the source, as typed code asks for them: in its mode, by the registers of its lvalue.
//! - typability: expressions of accepted programs are typable, as far as they access no cell.
//! - accepted: what typed code asks of expressions, statements and functions holds of accepted programs.
//!
//! The layer above may call the laws of the modules, each the contract of a function that does nothing.
#![tactic(auto)]

pub mod accepted;
pub mod accesses;
pub mod references;
pub mod targets;
pub mod typability;
