//! Laws: what each checked run of the code of a source tells of it, and each reply that makes one.
//!
//! What a run tells: events of the thread of each turn, and prints that are its Print events, in their order.
//!
//! The layer above may call the laws of src/events.rt, each the contract of a function that does nothing, and cite
//! specs.
//!
//! There is one reply to words and input, and what `run`, `record` and `replay` write is of an interleaving that
//! keeps to the source.
//!
//! - replies: a source has one reply, and which it is where the source is a program.
//! - kept: what `run`, `record` and `replay` write of an accepted source is of an interleaving that keeps to it.
//!
//! The layer above may call the laws of the modules, each the contract of a function that does nothing.
//!
//! What is told of the source by every checked run of the code that is built of it, and by every reply that makes one.
//!
//! The layer above may call the laws of src/laws.rt, each the contract of a function that does nothing, and cite
//! specs/.
#![tactic(auto)]

pub mod events;
mod kept;
pub mod laws;
pub mod replies;

pub use kept::kept_laws;
