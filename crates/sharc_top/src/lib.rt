//! The command line and the top call.
//!
//! The program calls [`sharc_top`]; `Replies` of specs/Reply.antt says what it writes and with which status it ends. A
//! program beside it may use `built::built`, with the replies and statuses of a source that is refused.
#![tactic(auto)]

mod audited;
pub mod built;
mod ending;
mod input;
mod loaded;
mod ran;
mod recorded;
mod refused;
mod replayed;
pub mod reply;
mod returning;
pub mod status;
mod task;
mod text;
mod top;
mod verdict;
mod words;

pub use returning::without_waiting;
pub use top::sharc_top;
