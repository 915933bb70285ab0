// The rules of the modes, each at each access.

ghost use Rattle.std.specs.Prelude.{◌≡◌, [], IsTrue, ◌↔◌, false, true, MatchOption, option_map};
ghost use Rattle.sharc_meaning.specs.{Events.access_by, Obeys.{Obeys, is_owner}};
ghost use Rattle.sharc_judge.specs.Deciding.{view_access, view_until, is_there, breaks, breaks_by, any_place};
ghost use Rattle.sharc_judge.specs.Judged.{Holds, IsLowestBroken};

use crate::access::{CellAccess, access_by};
use crate::history::{Test, meets_latest};
use crate::pair::{Pair, Until, any_pair};
use crate::store::is_live;
use sharc_tree::event::{CellMode, Object, SourceEvent};

/// The rules of the modes (the SharC paper).
#[derive(Clone, Copy, PartialEq, Eq, Debug, Drop)]
pub enum Rule {
    /// Each access is to a global or to a live object.
    Live,
    /// From a New or Give of an object to its next Give or Freed each cell is accessed under one mode, and a cell of a
    /// global always.
    OneMode,
    /// A private cell is accessed by its owner alone.
    Owner,
    /// No write is made under mode readonly.
    NotWritten,
    /// At an access under a lock the thread holds that mutex.
    UnderItsLock,
    /// Accesses of a dynamic granule that count at one time are all reads, or all by one thread.
    ReadSharedOrOneThread,
}

/// Whether the object is a global, or live.
pub fn is_there(before: &[SourceEvent], object: Object) -> bool
    ensures { result ≡ is_there before.now object }
{
    match object {
        Object::Global(_) => true,
        Object::Made(_) => is_live(before, object),
    }
}

/// Whether the thread made the last New or Give of the object; a global is owned by thread 0.
pub fn is_owner(before: &[SourceEvent], object: Object, thread: u32) -> bool
    ensures { result ≡ is_owner before.now object thread }
{
    match object {
        Object::Global(_) => thread == 0,
        Object::Made(_) => meets_latest(Test::IsOf(thread), Test::Begins(object), before),
    }
}

/// Whether the access breaks the rule after the events before.
fn breaks(rule: Rule, until: Until, before: &[SourceEvent], thread: u32, a: CellAccess) -> bool
    ensures { result ≡ breaks rule until before.now thread a }
{
    match rule {
        Rule::Live => !is_there(before, a.cell.object),
        Rule::OneMode => any_pair(Pair::OtherMode(a), before),
        Rule::Owner => match a.mode {
            CellMode::Private => !is_owner(before, a.cell.object, thread),
            _ => false,
        },
        Rule::NotWritten => match a.mode {
            CellMode::Readonly => a.is_write,
            _ => false,
        },
        Rule::UnderItsLock => match a.mode {
            CellMode::Locked(Some(mutex)) => !any_pair(Pair::Holds(mutex, thread), before),
            _ => false,
        },
        Rule::ReadSharedOrOneThread => match a.mode {
            CellMode::Dynamic => any_pair(Pair::Conflicts(until, thread, a), before),
            _ => false,
        },
    }
}

fn breaks_by(rule: Rule, until: Until, before: &[SourceEvent], event: &SourceEvent) -> bool
    ensures { result ≡ breaks_by rule until before.now event.now }
{
    match access_by(event.act) {
        None => false,
        Some(a) => breaks(rule, until, before, event.thread, a),
    }
}

/// Whether any access breaks the rule.
fn any_breaks(rule: Rule, until: Until, events: &[SourceEvent]) -> bool
    ensures { result ≡ any_place (breaks_by rule until) [] events.now }
{
    for i in 0..events.len() {
        if breaks_by(rule, until, &events[..i], &events[i]) {
            return true;
        }
    }
    false
}

/// Whether the rule holds.
fn holds(rule: Rule, until: Until, events: &[SourceEvent]) -> bool
    ensures { IsTrue result ↔ Holds events.now (view_until until) rule }
{
    !any_breaks(rule, until, events)
}

/// The lowest rule that does not hold, where accesses count so long; none where all hold.
pub fn lowest_broken(events: &[SourceEvent], until: Until) -> Option<Rule>
    ensures { MatchOption result (Obeys events.now (view_until until))
        (λ rule. IsLowestBroken events.now (view_until until) rule) }
{
    if !holds(Rule::Live, until, events) {
        Some(Rule::Live)
    } else if !holds(Rule::OneMode, until, events) {
        Some(Rule::OneMode)
    } else if !holds(Rule::Owner, until, events) {
        Some(Rule::Owner)
    } else if !holds(Rule::NotWritten, until, events) {
        Some(Rule::NotWritten)
    } else if !holds(Rule::UnderItsLock, until, events) {
        Some(Rule::UnderItsLock)
    } else if !holds(Rule::ReadSharedOrOneThread, until, events) {
        Some(Rule::ReadSharedOrOneThread)
    } else {
        None
    }
}
