//! Steps of 64-bit words, and ports that make them.
//!
//! A `WordStep` is one atomic operation on one word, and a `WordEvent` is a step that a thread made, with its answer:
//! the word that it found. `specs/Words.antt` says what operations make of words, and `specs/History.antt` which lists
//! of events are a legal history. A `Port` makes the steps of a thread; `MemPort` is the port that has its words for
//! itself. The laws of histories and of ports are the contracts of `history_laws`, `port_laws` and `place_laws`, which
//! do nothing. No call takes memory.
#![tactic(auto)]

mod laws;
mod mem_port;
mod port;
mod step;

pub use laws::{history_laws, place_laws, port_laws};
pub use mem_port::MemPort;
pub use port::Port;
pub use step::{THREADS, WordEvent, WordOp, WordStep};
