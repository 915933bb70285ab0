//! The law of generated code.

ghost use Rattle.sharc_compile.specs.{Correct.GeneratedKeepsPaths, OfRuns.RunsHavePaths};

use sharc_code::{run_laws, thread_laws};
use sharc_guard::turns_law;

/// The paths of generated code with consistent results are those of its guarded code: the same events, the same place,
/// the same stop, the same counts lowered since the last event; and at most as many counted turns as the weights of the
/// guarded statements allow.
pub fn paths_law()
    ensures { GeneratedKeepsPaths }
{
    thread_laws();
    turns_law();
}

/// Each thread of a checked run has a path, which says what the run reports of the thread, by the elements of the run.
pub fn run_paths_law()
    ensures { RunsHavePaths }
{
    run_laws();
}
