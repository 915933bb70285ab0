//! The instructions of checked code, and what a thread's turns make of its state.
//!
//! `specs/Machine.antt` says what one turn does: it changes the thread's own state alone, or asks for one step of a
//! word and goes on with its result. `specs/Path.antt` strings turns together, `specs/Says.antt` says which events of
//! the source they are, and `specs/Runs.antt` what a run of all threads is. A machine is total: a register that is not
//! within its bank reads as 0, a write of it changes nothing, and past the code there is `Exit`.
#![tactic(auto)]

mod code;
mod instr;
mod laws;
mod layout;
mod lines;
mod shape;
mod state;
mod words;

pub use code::{Code, Function, GlobalCells, Layout, Parameter, PlaceMode, SourcePlace, Text, Use};
pub use instr::{Cell, Instr, Operator, Register, Width};
pub use laws::{fits_law, range_laws, run_laws, standing_laws, thread_laws};
pub use layout::{NEXT_THREAD, PRINTS, TOP, argument_word, cell_of, function_word, state_word};
pub use lines::{Operand, listing};
pub use shape::Shape;
pub use state::{At, ConflictAt, FRAMES, Frame, Print, Stage, Stop, TurnState, Wait};
pub use words::opening;
