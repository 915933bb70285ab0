//! Reads of variables that were nulled before, in code of which only its paths matter.
//!
//! The layer above writes down a body as steps (src/step.rt): what is done with variables, where control goes, and how
//! pieces are put together. specs/Code.antt has the pieces and how each is written down, specs/Flow.antt the paths
//! through them. What is answered is in specs/Uses.antt. Nothing here knows of a language.
#![tactic(auto)]

mod back;
pub mod exits;
mod forth;
pub mod narrow;
mod ordered;
mod stack;
pub mod step;
mod uses;
pub mod way;

pub use ordered::firsts;
pub use uses::nulled_reads;
