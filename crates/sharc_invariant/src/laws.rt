//! Laws of the invariant.

ghost use Rattle.sharc_invariant.specs.Laws.{Begins, Keeps, EventsObey, RunsStay, RunsFromTheBeginning, RunsStand};
ghost use Rattle.sharc_invariant.specs.Laws.{RunsBits, StateStands, CellsAreThere, PointersAreThere};
ghost use Rattle.sharc_invariant.specs.Laws.{AccessesAreAllowed, NothingYet};
ghost use Rattle.sharc_invariant.specs.Reports.{RunsConflict, RunsTest};

use sharc_code::thread_laws;
use sharc_heap::{new_laws, shadow_laws};

/// A code opens in the invariant.
pub fn begins()
    ensures opens { Begins }
    ensures nothing_yet { NothingYet }
{
    shadow_laws();
}

/// Each turn keeps the invariant, and has an effect on its world.
pub fn keeps()
    ensures { Keeps }
{
    thread_laws();
    shadow_laws();
    new_laws();
}

/// Each run stays in the invariant, and its events obey the sharing rules.
pub fn runs_stay()
    ensures stay { RunsStay }
    ensures from_the_beginning { RunsFromTheBeginning }
{
    begins();
    keeps();
}

/// In the invariant counts, references and windows are as the machine invariant says.
pub fn state_stands()
    ensures { StateStands }
{}

/// In the invariant a cell that an instruction names is one of a live object, of the type that its place says, and an
/// access that typed code makes is one that its thread has a right to.
pub fn cells_are_there()
    ensures cells { CellsAreThere }
    ensures pointers { PointersAreThere }
    ensures rights { AccessesAreAllowed }
{}

/// The machine invariant holds at each place of each run of typed code.
pub fn runs_stand()
    ensures { RunsStand }
{
    runs_stay();
    state_stands();
}

/// The bits of shadow words are as the machine invariant says at each place of each run of typed code.
pub fn runs_bits()
    ensures { RunsBits }
{
    thread_laws();
    shadow_laws();
    runs_stay();
}

/// A check is refused exactly where another thread's check is in its way, and a test of a sole reference finds how many
/// references there are.
pub fn runs_report()
    ensures conflicts { RunsConflict }
    ensures tests { RunsTest }
{
    thread_laws();
    shadow_laws();
    runs_stay();
}

/// The source events obey the sharing rules, whatever effects a run has.
pub fn events_obey()
    ensures { EventsObey }
{}
