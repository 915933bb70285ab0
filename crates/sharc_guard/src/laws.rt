//! The laws of guarded code.

ghost use Rattle.sharc_guard.specs.{Checked.AccessesAreChecked, Correct.GuardedKeepsPaths, Counted.GuardedCounts};
ghost use Rattle.sharc_guard.specs.{Covered.DroppedIsCovered, Example.HasExample, Framed.FramedIsGuarded};
ghost use Rattle.sharc_guard.specs.{Logged.{LogsAreHeld, TurnsLeave}, Repeated.{DropsRepeated, RepeatedCheckStands}};
ghost use Rattle.sharc_guard.specs.{Tables.TablesStay, Untargeted.DroppedIsNoTarget};

/// Guarded code asks for what flat code asks for, whichever checks are dropped: each of its paths is one of flat code
/// with the same events, the same registers and log but for what the next statement settles, and what it is about to
/// do, to check or to stop for, flat code wants. It makes at most four statements for a line of flat code, which count
/// for five turns at most.
pub fn guarded_law()
    ensures { GuardedKeepsPaths }
{}

/// Where the lines of flat code stay within their functions and frames, so do the statements of its guarded code.
pub fn framed_law()
    ensures { FramedIsGuarded }
{}

/// Each access of a dynamic or locked cell is no jump target and comes directly after its check, whichever checks of
/// dynamic cells are dropped. Where those are dropped that repeat one, an access without its check is no jump target
/// either.
pub fn checked_law()
    ensures checked { AccessesAreChecked }
    ensures dropped { DroppedIsNoTarget }
{}

/// What guarded code counts is what flat code holds: each path comes where one of flat code comes, by the same answers;
/// each check is of the cell, kind and mutex of the access that is wanted; each reference that flat code holds is
/// counted in its register, or loaded and next to be raised, or exchanged and next to be lowered; what it gave up is
/// lowered, one for one; no register that gets a reference loses one; and what is counted is held wherever flat code
/// comes next, or given up on the way.
pub fn counted_law()
    ensures { GuardedCounts }
{}

/// A turn of guarded code reports the event that it asks for, which the log follows, and has lowered nothing since; any
/// other turn leaves both, and only a Lower lowers something.
pub fn turns_law()
    ensures { TurnsLeave }
{}

/// On each path of guarded code the log has the mutexes that the events of the path hold.
pub fn log_law()
    ensures { LogsAreHeld }
{}

/// Exactly those checks are dropped that repeat one of their straight piece, and that one is not dropped.
pub fn repeated_law()
    ensures drops { DropsRepeated }
    ensures stands { RepeatedCheckStands }
{}

/// The tables of guarded code are in their ranges where those of its flat code are.
pub fn tables_law()
    ensures { TablesStay }
{}

/// Where a check is dropped, the same cell was checked before in the same straight piece, and the reference to its
/// object is held since.
pub fn covered_law()
    ensures { DroppedIsCovered }
{}

/// An example is well formed, and becomes what one would write.
pub fn example_law()
    ensures { HasExample }
{
    framed_law();
}
