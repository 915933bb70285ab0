// The laws, each the contract of a function with calls of other laws alone.

ghost use Rattle.sharc_sound_laws.specs.{BuiltDeadlock.BuiltStuckIsDeadlock, BuiltReports.BuiltCastsShow};
ghost use Rattle.sharc_sound_laws.specs.BuiltReports.{BuiltObeyingIsUnreported, BuiltReportsShow};
ghost use Rattle.sharc_sound_laws.specs.{BuiltSound.BuiltIsSound, BuiltStands.BuiltRunsStand, Typed.BuiltIsTyped};

use crate::stand::typed_runs_stand;
use crate::{
    built_is_sound_if_typed, built_is_source, built_obeying_is_unreported_if_typed,
    built_reports_show_if_typed, built_stuck_is_deadlock_if_typed, made_code_begins,
};
use sharc_accepted_laws::accepted::accepted_law;
use sharc_build::fronts_are_typed;
use sharc_code::range_laws;
use sharc_wants_laws::sole::reports_show_cause;

/// The code that is built of a source is typed.
pub fn built_is_typed()
    ensures { BuiltIsTyped }
{
    built_is_source();
    accepted_law();
}

/// Every checked run of that code, by threads in any order, performs a run of the source without checks that keeps the
/// rules of the modes.
pub fn built_is_sound()
    ensures { BuiltIsSound }
{
    built_is_typed();
    built_is_sound_if_typed();
}

/// Where such a run is stuck the source is in a deadlock: no event of a thread that was not stopped extends the events
/// of the run to a source run.
pub fn built_stuck_is_deadlock()
    ensures { BuiltStuckIsDeadlock }
{
    built_is_typed();
    built_stuck_is_deadlock_if_typed();
}

/// Where every source run of the program obeys no such run has a report A1, A2 or A3.
pub fn built_obeying_is_unreported()
    ensures { BuiltObeyingIsUnreported }
{
    built_is_typed();
    built_obeying_is_unreported_if_typed();
}

/// Each report of such a run shows its cause, and comes at the event that the source wants next.
pub fn built_reports_show()
    ensures { BuiltReportsShow }
{
    built_is_typed();
    built_reports_show_if_typed();
}

/// Where a cast or `free` was refused, and no other thread has a reference to its object in flight, the references of
/// the history have another one than that which was tested.
pub fn built_casts_show()
    ensures { BuiltCastsShow }
{
    built_is_typed();
    built_is_source();
    range_laws();
    made_code_begins();
    reports_show_cause();
}

/// And what stands of each such run beside: its threads tell what the program asks for and keep the pace, the machine
/// invariant holds at each of its places, and what it reports is so.
pub fn built_runs_stand()
    ensures { BuiltRunsStand }
{
    built_is_typed();
    fronts_are_typed();
    range_laws();
    typed_runs_stand();
}
