//! Guarded code and its machine; flat code to guarded code: adds counts, and the checks that repeat none.
//!
//! The guarded form: statements with their checks and counts, before they are code.
//!
//! `specs/Machine.antt` says what a statement does, in the words of the source: it goes on, asks for a source event,
//! checks, or halts. `specs/Form.antt` says which guarded code is well formed.
//!
//! From the flat form to guarded code: checks and counts.
//!
//! `guard` makes it (specs/Made.antt). specs/Guard.antt has the guarded code of flat code, whichever checks are
//! dropped, and specs/Known.antt which ones are: those that specs/Repeated.antt says in words. The laws say what holds
//! of it: `guarded_law` and `counted_law` that its paths are those of the flat code and that it counts what flat code
//! holds (specs/Correct.antt, specs/Counted.antt), `framed_law` and `tables_law` that it is well formed, `checked_law`,
//! `repeated_law` and `covered_law` that its accesses are checked (specs/Checked.antt, specs/Untargeted.antt,
//! specs/Covered.antt).
#![tactic(auto)]

mod guarded;
mod guarding;
mod laws;
mod marks;
mod operations;

pub use guarded::Guarded;
pub use guarding::guard;
pub use laws::{
    checked_law, counted_law, covered_law, example_law, framed_law, guarded_law, log_law,
    repeated_law, tables_law, turns_law,
};
