// The laws, each the contract of a function with calls of other laws alone.

ghost use Rattle.sharc_wants_laws.specs.Laws.{CodeIsFollowed};
ghost use Rattle.sharc_sound_laws.specs.StandStands.{TypedRunsStand};

use crate::others_law;
use sharc_code::run_laws;
use sharc_compile_laws::typed_paths_tell;
use sharc_history_laws::{causes_law, followed_law, paths_law, reports_law};
use sharc_invariant::laws::{runs_bits, runs_stand};

/// In the code of flat code each check is directly before the access that it is of.
pub fn made_is_followed()
    ensures { CodeIsFollowed }
{
    sharc_wants_laws::follow::followed_law();
}

/// Of each checked run of the code of a typed, well-moded program with its least assignment, if that code is typed:
/// each thread tells what the program asks for and keeps the pace; the machine invariant holds at each place that the
/// run comes to; and what A1 to A4 report is so, and has its cause.
pub fn typed_runs_stand()
    ensures { TypedRunsStand }
{
    made_is_followed();
    typed_paths_tell();
    run_laws();
    runs_stand();
    runs_bits();
    paths_law();
    reports_law();
    followed_law();
    causes_law();
    others_law();
}
