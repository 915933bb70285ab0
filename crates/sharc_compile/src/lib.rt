//! Guarded code to instructions, and so flat code; laws that lead from their paths to the program.
//!
//! From guarded code to code.
//!
//! `generate` makes the code that `specs/Generated.antt` defines. `paths_law` says that the paths of the code are those
//! of the guarded code.
//!
//! Code from flat code, and what all steps to it keep.
//!
//! `code_of` makes the code (specs/Made.antt has what it is). `program_law` leads from a path of the code of a program
//! to the program (specs/Program.antt), and `run_law` from what a thread reports in a run (specs/Runs.antt).
//! `source_law` does so of any flat code that asks for what the program asks for (specs/Source.antt), and `made_law`
//! leads to the flat code (specs/Coded.antt); `checks_law` says which accesses come after their checks
//! (specs/Checked.antt).
#![tactic(auto)]

mod generated_laws;
mod generating;
mod laws;
mod making;

pub use generated_laws::{paths_law, run_paths_law};
pub use generating::generate;
pub use laws::{checks_law, coded_law, made_law, program_law, run_law, source_law};
pub use making::code_of;
