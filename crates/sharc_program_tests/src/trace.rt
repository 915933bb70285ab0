//! What sharc-trace writes where its streams fail or have little room: tests alone, over sources and sinks in memory.

mod cases;
mod outcome;
mod streams;
