//! What a recorded run did, as the event file that `audit` reads, or as a line for each event in the words of the
//! source.
//!
//! A program calls [`sharc_trace`]; `TraceReplies` of specs/Replies.antt says what it writes and with which status it
//! ends. specs/Cut.antt says which events an event file has, and specs/Writing.antt its text.
#![tactic(auto)]

mod call;
mod cut;
mod file;
mod file_laws;
mod lines;
mod pieces;
mod reply;
mod status;
mod traced;
mod words;

pub use call::{Ended, sharc_trace};
pub use cut::{Cut, EventPrefix};
pub use file_laws::lines_are_of_sources;
pub use reply::Stopped;
pub use status::Status;
