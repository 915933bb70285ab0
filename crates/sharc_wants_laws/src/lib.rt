//! Laws: what the source wants of a thread by its place; each check is before its access.
//!
//! Laws of what a program asks for: what holds of its threads by the types of C, and not by the meaning alone; and what
//! its `free`s do.
//!
//! The layer above may call the laws of src/meant.rt, each the contract of a function that does nothing, and cite
//! specs/: Held (what a thread holds is held on, or given up), Freeing (who has taken something frees it next).
//!
//! What the source wants of a thread of its code where it waits or was stopped, and which references are left where a
//! cast was refused.
//!
//! - wants: what the source wants of a thread of its code, by the place of that: its wait, its access, what was
//!   refused.
//! - follow: the code of a program has each check directly before its access, and waits after it enters a condition.
//! - sole: the references that are left where a cast was refused: what registers refer to, by what the program holds.
//!
//! The layer above may call the laws of the modules, each the contract of a function that does nothing.
#![tactic(auto)]

pub mod follow;
pub mod meant;
pub mod sole;
mod wants;

pub use follow::{followed_law, waits_law};
pub use wants::{path_wants, thread_wants};
