//! The law, the contract of a function that does nothing.

ghost use Rattle.sharc_sound_laws.specs.CauseLaws.{OthersAreCauses};

use sharc_history_laws::causes_law;

/// Where a thread has stopped at the check of an access in a checked run of typed code whose checks are directly before
/// their accesses, the report of the run names another access, and that one is the cause.
pub fn others_law()
    ensures { OthersAreCauses }
{
    causes_law();
}
