//! The flat form and its machine, and what the flat code of a source is: definitions and laws.
//!
//! The flat form of a program: its operations, and the machine of one thread that runs them.
//!
//! The layer above may use `Flat`, `Op` and `Spot`. `specs/Machine.antt` says what each operation does and what a
//! thread asks for by a list of answers (`exec`); specs/Path.antt has the same by paths, and the law that joins the
//! two; specs/Framed.antt says which flat code is well formed.
//!
//! From the meaning of a source to its flat form.
//!
//! The layer above may use the laws of src/laws.rt. `IsFlattened` of specs/Flattened.antt says what the flat code of a
//! program is, one clause for each form; `AsksTheSame` of specs/Correct.antt what it is to the program; `ProgramSuits`
//! of specs/Suits.antt what is asked of the program for that. `Flattens` of specs/Flattens.antt has the code with all
//! its tables, and its texts where they lie.
#![tactic(auto)]

mod flat;
pub mod form_laws;
pub mod laws;
mod op;
pub mod slot;

pub use flat::{Flat, LineTexts};
pub use op::{Op, Spot};
