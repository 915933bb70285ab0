// Whether some event before a place meets a test that looks at what lies between them, too.

ghost use Rattle.std.specs.Prelude.{◌≡◌, option_map};
ghost use Rattle.sharc_meaning.specs.Events.{access_by};
ghost use Rattle.sharc_judge.specs.Deciding.{view_access, disagrees, conflicts, any_pair, pair_of};

use crate::access::{CellAccess, access_by, granule_of, locks};
use crate::history::{Test, any};
use crate::same::{is_dynamic, same_cell, same_mode, same_object};
use sharc_tree::event::{CellAt, SourceEvent};

/// How long an access counts.
#[derive(Clone, Copy, Drop)]
pub enum Until {
    /// Until its thread's function returns.
    Return,
    /// Until its thread is gone.
    Gone,
}

/// What is asked of an event before a place.
#[derive(Clone, Copy, Drop)]
pub enum Pair {
    /// By it the thread locks the mutex, and holds it.
    Holds(CellAt, u32),
    /// It is an access of the same cell under another mode, and the object was not made, given or freed since.
    OtherMode(CellAccess),
    /// It is an access by another thread than this, which still counts and must not be made beside the one that is
    /// given.
    Conflicts(Until, u32, CellAccess),
}

fn disagrees(b: CellAccess, with: Option<CellAccess>) -> bool
    ensures { result ≡ disagrees (view_access b) (option_map view_access with) }
{
    match with {
        None => false,
        Some(a) => same_cell(a.cell, b.cell) && !same_mode(a.mode, b.mode),
    }
}

fn conflicts(b: CellAccess, with: Option<CellAccess>) -> bool
    ensures { result ≡ conflicts (view_access b) (option_map view_access with) }
{
    match with {
        None => false,
        Some(a) => {
            is_dynamic(a.mode)
                && same_object(a.cell.object, b.cell.object)
                && granule_of(a.cell) == granule_of(b.cell)
                && (a.is_write || b.is_write)
        }
    }
}

impl Pair {
    /// Whether the event meets the test with those between it and the place.
    pub fn is_met(self, earlier: &SourceEvent, between: &[SourceEvent]) -> bool
        ensures { result ≡ pair_of self earlier.now between.now }
    {
        match self {
            Pair::Holds(c, thread) => {
                earlier.thread == thread
                    && locks(c, earlier)
                    && !any(Test::Unlocks(c, thread), between)
            }
            Pair::OtherMode(b) => {
                disagrees(b, access_by(earlier.act))
                    && !any(Test::BeginsOrFrees(b.cell.object), between)
            }
            Pair::Conflicts(until, thread, b) => {
                earlier.thread != thread
                    && conflicts(b, access_by(earlier.act))
                    && !any(Test::Begins(b.cell.object), between)
                    && !any(Test::Ends(until, earlier.thread), between)
            }
        }
    }
}

/// Whether any event meets the test with those after it.
pub fn any_pair(pair: Pair, events: &[SourceEvent]) -> bool
    ensures { result ≡ any_pair (pair_of pair) events.now }
{
    match events {
        [] => false,
        [d, rest @ ..] => pair.is_met(d, rest) || any_pair(pair, rest),
    }
}
