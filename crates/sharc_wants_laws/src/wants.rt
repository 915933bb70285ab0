//! The laws, each the contract of a function that calls at most the laws that it joins.

ghost use Rattle.sharc_accepted_laws.specs.Accepted.{OfSources};
ghost use Rattle.sharc_wants_laws.specs.Wants.{PathsWant, ThreadsWant};

use sharc_accepted_laws::accepted::accepted_levels;
use sharc_compile::{paths_law, run_paths_law};
use sharc_compile_laws::flattened::made_counts;
use sharc_compile_laws::{functions_are_named, own_are_told};
use sharc_flat::form_laws::path_laws;
use sharc_flat_laws::laws::{typed_asks_the_same, typed_is_framed};
use sharc_guard::{framed_law, log_law};

/// Each path of a thread of the code of a typed, well-moded program, whose results are consistent, has not begun, or is
/// where the program is that was asked by the answers of its events: that wants next the Lock, the Join or the Woken
/// for which the thread waits, the access that it makes or that it checks, and what A1 to A4 refused; and it has ended
/// where the thread has.
pub fn path_wants()
    ensures { OfSources PathsWant }
{
    typed_asks_the_same();
    typed_is_framed();
    made_counts();
    functions_are_named();
    paths_law();
    framed_law();
    log_law();
    path_laws();
    accepted_levels();
}

/// So it is of each thread of a checked run of that code, by threads in any order, where the results of the paths of
/// all are consistent.
pub fn thread_wants()
    ensures { OfSources ThreadsWant }
{
    path_wants();
    run_paths_law();
    own_are_told();
}
