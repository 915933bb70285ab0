//! The words of the command line: which lists of words are a command, and its numbers.
//!
//! The layer above may use `read_words` and `Command`. `read_words` answers what `commands` of specs/Commands.antt says
//! of the words, or that memory ran out. specs/Written.antt says the same in another form, by how a command is written,
//! and src/laws.rt joins the two. The words are read through clap; specs/Line.antt has the command line as clap's
//! command, and nothing above needs it.
#![tactic(auto)]

mod command;
pub mod laws;
mod reader;

pub use command::Command;
pub use reader::read_words;
