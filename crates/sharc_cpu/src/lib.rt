//! One thread's machine: turns over a port, and quanta of them.
//!
//! `Thread` is what is kept between quanta, and `run_quantum` is its one step from outside; `run_trying` is the same,
//! but goes on behind failed tries. `specs/Thread.antt` says when a thread is one of a code and a shape (`IsThread`),
//! and `specs/Quantum.antt` what a quantum does and answers (`IsQuantum`): its turns are a path of `sharc_code`. `act`
//! makes one turn, by one small function for each kind that asks for a step. With a `RowPlan` of the code, which says
//! where rows of turns begin, the turns of a row are made in one go. `run_turn`, `run_in_line` and `run_rows` make
//! turns without a quantum around them. Only `Thread::new`, `Thread::reserve` and `RowPlan::of` take memory.
#![tactic(auto)]

mod act;
mod arithmetic;
mod begin;
mod brief;
mod cells;
mod checks;
mod counts;
mod laws;
mod leap;
mod locks;
mod objects;
mod pairs;
mod parts;
mod places;
mod quantum;
mod rows;
mod stretch;
mod strides;
mod thread;
mod threads;
mod turns;
mod waits;

pub use brief::{run_in_line, run_rows, run_turn};
pub use laws::{path_laws, thread_law};
pub use quantum::{Pause, run_quantum, run_trying};
pub use rows::RowPlan;
pub use sharc_code::{ConflictAt, Stop, Wait};
pub use thread::Thread;
