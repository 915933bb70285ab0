// Whether an event meets a test; the last event of a list that does, and whether any does.

ghost use Rattle.std.specs.{Prelude.◌≡◌, List.list_any};
ghost use Rattle.sharc_meaning.specs.Events.{latest};
ghost use Rattle.sharc_judge.specs.Deciding.{test_of, ends_of, meets_latest};

use crate::access::{
    begins, changes, enters, frees, is_gone, is_natural, locks, makes, spawns, takes_away, unlocks,
};
use crate::pair::Until;
use sharc_tree::event::{Act, CellAt, Object, SourceEvent};

/// What is asked of an event.
#[derive(Clone, Copy, Drop)]
pub enum Test {
    /// It gives the cell a value.
    Changes(CellAt),
    /// It makes the object.
    Makes(Object),
    /// It makes or frees the object.
    MakesOrFrees(Object),
    /// It makes or gives the object.
    Begins(Object),
    /// It makes, gives or frees the object.
    BeginsOrFrees(Object),
    /// It locks the mutex.
    Locks(CellAt),
    /// It locks or unlocks the mutex.
    LocksOrUnlocks(CellAt),
    /// This thread unlocks the mutex by it.
    Unlocks(CellAt, u32),
    /// The thread makes itself a waiter of the cell by it.
    Enters(CellAt, u32),
    /// The thread makes itself a waiter of the cell by it, or is taken away.
    EntersOrLeaves(CellAt, u32),
    /// It is this thread's.
    IsOf(u32),
    /// It is a Spawn that answered this number.
    Spawns(u64),
    /// The thread of this number is gone by it.
    Goes(i64),
    /// The thread's accesses count no more from it on.
    Ends(Until, u32),
}

/// Whether accesses no longer count after the act of their thread.
fn ends(until: Until, act: Act) -> bool
    ensures { result ≡ ends_of until act }
{
    match (until, act) {
        (Until::Return, Act::Return) => true,
        (Until::Gone, Act::Gone) => true,
        _ => false,
    }
}

impl Test {
    /// Whether the event meets the test.
    pub fn is_met(self, event: &SourceEvent) -> bool
        ensures { result ≡ test_of self event.now }
    {
        match self {
            Test::Changes(c) => changes(c, event),
            Test::Makes(o) => makes(o, event),
            Test::MakesOrFrees(o) => makes(o, event) || frees(o, event),
            Test::Begins(o) => begins(o, event),
            Test::BeginsOrFrees(o) => begins(o, event) || frees(o, event),
            Test::Locks(c) => locks(c, event),
            Test::LocksOrUnlocks(c) => locks(c, event) || unlocks(c, event),
            Test::Unlocks(c, thread) => event.thread == thread && unlocks(c, event),
            Test::Enters(c, thread) => enters(c, thread, event),
            Test::EntersOrLeaves(c, thread) => enters(c, thread, event)
                || takes_away(c, thread, event),
            Test::IsOf(thread) => event.thread == thread,
            Test::Spawns(thread) => spawns(thread, event),
            Test::Goes(thread) => is_gone(event.act) && is_natural(event.thread as u64, thread),
            Test::Ends(until, thread) => event.thread == thread && ends(until, event.act),
        }
    }
}

/// The last event that meets the test.
pub fn latest(test: Test, events: &[SourceEvent]) -> Option<SourceEvent>
    ensures { result ≡ latest (test_of test) events.now }
{
    let mut last = None;
    for e in events {
        if test.is_met(e) {
            last = Some(*e);
        }
    }
    last
}

/// Whether any event meets the test.
pub fn any(test: Test, events: &[SourceEvent]) -> bool
    ensures { result ≡ list_any (test_of test) events.now }
{
    for e in events {
        if test.is_met(e) {
            return true;
        }
    }
    false
}

/// Whether the last event that meets the one test is there and meets the other.
pub fn meets_latest(test: Test, among: Test, events: &[SourceEvent]) -> bool
    ensures { result ≡ meets_latest test among events.now }
{
    match latest(among, events) {
        None => false,
        Some(e) => test.is_met(&e),
    }
}
