//! Laws: flattened code names the mutexes of its locks, and threads report what the program asks for.
//!
//! What the laws of guarded code ask of the locks of flat code holds of what sharc_flat says of a program.
//!
//! The layer above may use the laws of src/flattened.rt, stated in specs/Laws.antt.
//!
//! Laws of the code of typed programs.
//!
//! `threads_tell` says that what the threads of a checked run of the code of a program report is what the program asks
//! for (specs/Threads.antt). `typed_threads_tell` says it of typed, well-moded programs (specs/Typed.antt);
//! `typed_paths_tell` says it of each path by itself, with how it is over and its pace (specs/Paths.antt), if its
//! function may be started; `threads_may_start`: those of threads may (specs/Started.antt).
#![tactic(auto)]

pub mod flattened;
mod laws;

pub use laws::{
    functions_are_named, own_are_told, spawned_are_threads, threads_may_start, threads_tell,
    typed_paths_tell, typed_threads_tell,
};
