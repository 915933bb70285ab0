//! The laws, each the contract of a function that does nothing.

ghost use Rattle.sharc_code.specs.Laws.{RunLaws};
ghost use Rattle.sharc_history_laws.specs.{Awaits.{AwaitedIsHeld, AwaitedIsNotGone}, Causes.AccessReportsBreakRules};
ghost use Rattle.sharc_history_laws.specs.Causes.{NamesAreCauses, ReportsHaveNamed, UnstartedAreBegun};
ghost use Rattle.sharc_history_laws.specs.Conflicts.{AccessReportsShow, NamedAreChecked, NotesAreOfChecks};
ghost use Rattle.sharc_history_laws.specs.Followed.{AccessesFollow, LockReportsBreakRules, LockReportsShowAccess};
ghost use Rattle.sharc_history_laws.specs.{History.HistoriesObey, Kept.{CellsAreKept, GlobalPointersAreKept}};
ghost use Rattle.sharc_history_laws.specs.Kept.{HistoriesGrow, LockedAreLogged, MadePointersAreKept, OthersAreInitial};
ghost use Rattle.sharc_history_laws.specs.{Kept.SpawnedAreGiven, Made.PointersAreMade, Paths.PathsAreConsistent};
ghost use Rattle.sharc_history_laws.specs.{Reports.{CastReportsShow, LockReportsShow}, Seen.ArgumentsAreGiven};
ghost use Rattle.sharc_history_laws.specs.{Seen.{LogsAreLocked, RunsBegin}, SeenCells.CellsAreSeen};
ghost use Rattle.sharc_history_laws.specs.{Starts.StartsAreSpawned, Stores.StoresAreLegal, Stuck.AwaitedMayNotCome};
ghost use Rattle.sharc_history_laws.specs.{Threads.RunsTellThreads, Waiters.EventsMayCome};
ghost use Rattle.sharc_invariant.specs.Laws.{AccessesAreAllowed, Begins, CellsAreThere, Keeps, PointersAreThere};
ghost use Rattle.sharc_invariant.specs.Laws.{StateStands};

use crate::words::states_law;
use sharc_code::{run_laws, standing_laws};
use sharc_heap::shadow_laws;
use sharc_invariant::laws::{begins, cells_are_there, keeps, runs_bits, runs_report, state_stands};
use sharc_locks::waiters_laws;

/// What the laws stand on: each run, and the invariant of typed code at each of its places.
fn invariant_laws()
    ensures runs { RunLaws }
    ensures opens { Begins }
    ensures keeps { Keeps }
    ensures states { StateStands }
    ensures cells { CellsAreThere }
    ensures pointers { PointersAreThere }
    ensures rights { AccessesAreAllowed }
{
    run_laws();
    begins();
    keeps();
    state_stands();
    cells_are_there();
}

/// The path of each thread of each checked run of typed code has consistent results: its references are numbers, Bounds
/// answers the elements of its object, a New makes no object to which the thread has a reference, and no other thread
/// makes one anew.
pub fn paths_law()
    ensures { PathsAreConsistent }
{
    invariant_laws();
}

/// The source events of each checked run of typed code keep the rules of the modes.
pub fn history_law()
    ensures { HistoriesObey }
{
    invariant_laws();
}

/// What reports of checked runs of typed code show. A thread that has stopped at a lock check does not hold the mutex
/// by its events; one that has stopped at a test of a sole reference found the number of references to its object, of
/// which another than the one tested is there; and one that has stopped at the check of an access found the bit of
/// another thread that had made a check of the granule. Each note of a thread is of a check that it made, and so is
/// each other access that a report may name.
pub fn reports_law()
    ensures locks { LockReportsShow }
    ensures casts { CastReportsShow }
    ensures accesses { AccessReportsShow }
    ensures notes { NotesAreOfChecks }
    ensures named { NamedAreChecked }
{
    invariant_laws();
    runs_bits();
    runs_report();
}

/// The source events of each checked run of typed code may come one after the other, if the cells of its globals hold
/// at first what the program says: each Read and Take answers what the last change of its cell left there, a New makes
/// an object that is not live, a Lock takes a mutex that nobody holds, an Unlock gives back one that its thread locked
/// last, a Spawn answers a new thread, and a Join comes after its thread has gone. Nothing is said of Woken and Signal.
pub fn stores_law()
    ensures { StoresAreLegal }
{
    invariant_laws();
    states_law();
}

/// Where the cells of the globals hold at first what the program says: each pointer cell that refers to an object in a
/// checked run of typed code, by the words, is one of a live object and refers to it by the source events, but while a
/// Free empties the cell's object.
pub fn cells_seen_law()
    ensures { CellsAreSeen }
{
    invariant_laws();
}

/// A pointer cell of an object that is made and live in a checked run of typed code is one of what is made at the token
/// of the object's last New.
pub fn pointers_made_law()
    ensures { PointersAreMade }
{
    invariant_laws();
}

/// So may Woken and Signal, where behind each CondEnter of the code the thread unlocks a mutex and waits: a Woken comes
/// to a thread that waits no longer, and a Signal answers the lowest-numbered thread that waits, or 0 where nobody
/// does.
pub fn waiters_law()
    ensures { EventsMayCome }
{
    invariant_laws();
    waiters_laws();
    stores_law();
}

/// The first event of each thread of each such run, if it is a Started, is that of main, or that of the function and
/// the argument that an earlier Spawn gave to the thread.
pub fn starts_law()
    ensures { StartsAreSpawned }
{
    invariant_laws();
    standing_laws();
}

/// Where each check of the code is directly before its access: each check of an access that a thread made in a checked
/// run of typed code, and that passed, is followed by that access, as its thread's next turn; where a thread has
/// stopped at a lock check, the mode of the access that was refused names the mutex that the check looks for, and no
/// history that keeps the rules of the modes goes on with that access.
pub fn followed_law()
    ensures accesses { AccessesFollow }
    ensures locks { LockReportsShowAccess }
    ensures rules { LockReportsBreakRules }
{
    invariant_laws();
}

/// Of each thread that has stopped at the check of an access in a checked run of typed code. Where each check of the
/// code is directly before its access: whatever check of another thread a report may name, by the notes and stops at
/// the end of the run, was made earlier than the one that was refused, of an access to the same granule of the same
/// object; since then the object had no New, Give or Freed, and that thread did not end; and with the access that was
/// refused first, behind the other one where that is next, no history that keeps the rules of the modes goes on. And
/// there is a check to name, of a thread that was started: the others are as they begin.
pub fn causes_law()
    ensures causes { NamesAreCauses }
    ensures rules { AccessReportsBreakRules }
    ensures named { ReportsHaveNamed }
    ensures unstarted { UnstartedAreBegun }
{
    invariant_laws();
    runs_bits();
    runs_report();
    shadow_laws();
}

/// What a thread waits for in a checked run of typed code: a mutex is held by a thread, by its events, and a thread
/// that is joined is not gone by the events.
pub fn awaits_law()
    ensures held { AwaitedIsHeld }
    ensures gone { AwaitedIsNotGone }
{
    invariant_laws();
    states_law();
}

/// A thread that waits at the end of such a run, at a Lock, a Join or a CondWait, waits for an event that may not come
/// after those of the run: its mutex is locked, its thread has not gone, it is still a waiter of its condition.
pub fn stuck_law()
    ensures { AwaitedMayNotCome }
{
    invariant_laws();
    states_law();
    waiters_laws();
    awaits_law();
}

/// Thread 0 and each thread that a Spawn has answered in such a run were started, a thread that has ended is gone by
/// the events, and one that was stopped goes on no more.
pub fn threads_law()
    ensures { RunsTellThreads }
{
    invariant_laws();
}

/// The turns of a checked run up to some turn are a checked run. Where the held log of a thread of a checked run of
/// typed code refers to an object, a mutex of that object is locked by the events; and a thread whose argument, not
/// read yet, refers to an object has had no event, and a Spawn has given it that reference.
pub fn seen_law()
    ensures begins { RunsBegin }
    ensures logs { LogsAreLocked }
    ensures arguments { ArgumentsAreGiven }
{
    invariant_laws();
    standing_laws();
    states_law();
}

/// The other way round: where a mutex of an object is locked by the events of such a run, the held log of a thread
/// refers to the object; where a thread has had no event, and a Spawn has given it a reference, the argument that it is
/// to read refers to the object; and where a pointer cell of a live object refers to an object by the events, its word
/// does, but while a Free empties the cell's object.
pub fn kept_law()
    ensures logs { LockedAreLogged }
    ensures arguments { SpawnedAreGiven }
    ensures cells { CellsAreKept }
{
    invariant_laws();
    standing_laws();
    states_law();
}

/// Where by the events a cell of a live object refers to an object, and it is one of the pointers of what is made at
/// the token of the object's last New, it is a pointer by the table, of an object that has it; so is a cell that a
/// global has and that is a pointer by the table; and one that a global does not have keeps the value that it begins
/// with.
pub fn pointers_kept_law()
    ensures made { MadePointersAreKept }
    ensures globals { GlobalPointersAreKept }
    ensures others { OthersAreInitial }
{
    invariant_laws();
}

/// A turn of a checked run has no event or one, and an object that it makes was not there before.
pub fn grows_law()
    ensures { HistoriesGrow }
{
    invariant_laws();
}
