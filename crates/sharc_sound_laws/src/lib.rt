//! What every interleaving of the code of an accepted source keeps of it, of typed code and of the code that is built
//! of any source.
//!
//! - sound: every interleaving of typed code of an accepted program keeps to the program.
//! - stand: what stands of each checked run of such code.
//! - built: the same of the code that is built of any source, which is typed.
//! - causes: the other access that a report of a run names is its cause.
//! - alike: codes that differ in nothing but where their texts are run alike, as all codes of one program do.
//!
//! The layer above may call the laws of the modules, each the contract of a function that does nothing.
#![tactic(auto)]

mod alike;
pub mod built;
mod causes;
mod sound;
pub mod stand;

pub use alike::{compiled_are_alike, histories_are_alike, runs_are_alike};
pub use causes::others_law;
pub use sound::{
    built_is_faithful, built_is_sound_if_typed, built_is_source,
    built_obeying_is_unreported_if_typed, built_reports_show_if_typed,
    built_stuck_is_deadlock_if_typed, compiled_is_faithful, made_code_begins,
    obeying_is_unreported_if_typed, one_is_next, reports_show_if_typed, sound_if_typed,
    stuck_is_deadlock_if_typed, threads_stand_if_typed,
};
