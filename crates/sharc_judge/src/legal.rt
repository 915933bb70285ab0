// Which events may come after which, and how much of a list of events is a legal store.

ghost use Rattle.std.specs.Prelude.{◌≡◌, IsTrue, ◌↔◌, false, true, MatchOption};
ghost use Rattle.sharc_meaning.specs.Store.{MayCome, LegalStore};
ghost use Rattle.sharc_judge.specs.Judged.{IsFirstIllegal};

use crate::store::{
    is_fresh, is_locked, is_new_thread, is_waiter, signals, tells_value, was_locked_by, went,
};
use sharc_ctype::typed::Typed;
use sharc_meaning::laws::store_laws;
use sharc_tree::event::{Act, SourceEvent, Taken};

/// Whether the event may come after those before it.
pub fn may_come(typed: &Typed, before: &[SourceEvent], event: &SourceEvent) -> bool
    ensures { IsTrue result ↔ MayCome typed.now before.now event.now event.now.act }
{
    match event.act {
        Act::Read(c, _) => tells_value(typed, before, c, event.answer),
        Act::Take(Taken::Cell(c, _), _) => tells_value(typed, before, c, event.answer),
        Act::New(_, elements, _) => is_fresh(before, elements, event.answer),
        Act::Lock(c) => !is_locked(before, c),
        Act::Unlock(c) => was_locked_by(before, c, event.thread),
        Act::Spawn(_, _) => is_new_thread(before, event.answer),
        Act::Join(thread) => went(before, thread),
        Act::Woken(c) => !is_waiter(before, c, event.thread),
        Act::Signal(c) => signals(before, c, event.answer),
        Act::Take(Taken::Local(_), _) => true,
        Act::Write(_, _, _) | Act::Give(_, _) | Act::Freed(_) | Act::Started(_) => true,
        Act::Print(_) | Act::Return | Act::Gone | Act::Enter(_) | Act::Broadcast(_) => true,
    }
}

/// The place of the first event that may not come after those before it; none where the list is a legal store.
pub fn first_illegal(typed: &Typed, events: &[SourceEvent]) -> Option<usize>
    ensures { MatchOption result (LegalStore typed.now events.now) (λ i. IsFirstIllegal typed.now events.now i) }
{
    store_laws();
    for i in 0..events.len() {
        if !may_come(typed, &events[..i], &events[i]) {
            return Some(i);
        }
    }
    None
}
