// Whether an event may come after those before it.

ghost use Rattle.std.specs.Prelude.{◌≡◌, IsTrue, ◌↔◌, false, true, find};
ghost use Rattle.sharc_meaning.specs.Store.{value_after, is_live, is_locked, was_locked_by, spawns, went, MayCome};
ghost use Rattle.sharc_meaning.specs.Store.{IsFresh, IsNewThread};
ghost use Rattle.sharc_judge.specs.{Kept.IsSpawnedOnce, Latest.last_make};

use crate::access::{locks, makes, number_of, value_left};
use crate::keys::cell_key;
use crate::legal::may_come;
use crate::past::Past;
use crate::store::value_after;
use crate::table::{Noted, is_behind};
use crate::topics::Topic;
use sharc_ctype::typed::Typed;
use sharc_tree::event::{Act, CellAt, Object, SourceEvent, Taken};

impl Past {
    // The last event that made the object.
    fn last_make(&self, object: Object) -> Option<Noted>
        ensures { result ≡ last_make object self.now }
    {
        match object {
            Object::Global(_) => None,
            Object::Made(n) => self.latest(Topic::Make(n)),
        }
    }

    /// The last value that was given to the cell, else its initial value.
    fn value_after(&self, typed: &Typed, cell: CellAt) -> i128
        ensures { result ≡ value_after typed.now self.now cell }
    {
        match self.latest(Topic::Change(cell_key(cell))) {
            Some(noted) if is_behind(noted.place, self.last_make(cell.object)) => {
                value_left(noted.event.act) as i128
            }
            _ => value_after(typed, &[], cell),
        }
    }

    /// Whether the answer is the cell's value.
    fn tells_value(&self, typed: &Typed, cell: CellAt, answer: i64) -> bool
        ensures { IsTrue result ↔ (answer ≡ value_after typed.now self.now cell) }
    {
        self.value_after(typed, cell) == answer as i128
    }

    /// Whether the object is live: of its events New and Freed the last is a New.
    pub(crate) fn is_live(&self, object: Object) -> bool
        ensures { result ≡ is_live self.now object }
    {
        match object {
            Object::Global(_) => false,
            Object::Made(n) => match self.latest(Topic::Life(n)) {
                None => false,
                Some(noted) => makes(object, &noted.event),
            },
        }
    }

    /// Whether the answer is a reference to an object that is not live, with these elements.
    fn is_fresh(&self, elements: u64, answer: i64) -> bool
        ensures { IsTrue result ↔ IsFresh self.now elements answer }
    {
        let number = number_of(answer);
        answer > 0
            && number > 0
            && answer.unsigned_abs() / 4294967296 == elements
            && !self.is_live(Object::Made(number))
    }

    /// Whether the last event of the mutex is a Lock.
    fn is_locked(&self, cell: CellAt) -> bool
        ensures { result ≡ is_locked self.now cell }
    {
        match self.latest(Topic::Mutex(cell_key(cell))) {
            None => false,
            Some(noted) => locks(cell, &noted.event),
        }
    }

    /// Whether the last Lock of the mutex is this thread's.
    fn was_locked_by(&self, cell: CellAt, thread: u32) -> bool
        ensures { result ≡ was_locked_by self.now cell thread }
    {
        match self.latest(Topic::Lock(cell_key(cell))) {
            None => false,
            Some(noted) => noted.event.thread == thread,
        }
    }

    /// Whether the answer is the number of a thread that was not spawned before, and is not the first.
    fn is_new_thread(&self, answer: i64) -> bool
        ensures { IsTrue result ↔ IsNewThread self.now answer }
    {
        answer > 0 && self.latest(Topic::Spawn(answer)).is_none()
    }

    /// The event by which the thread was spawned.
    pub fn spawn_of(&self, thread: u32) -> Option<SourceEvent>
        requires { IsSpawnedOnce self.now }
        ensures { result ≡ find (spawns thread) self.now }
    {
        match self.latest(Topic::Spawn(thread as i64)) {
            None => None,
            Some(noted) => Some(noted.event),
        }
    }

    /// Whether the thread of this number is gone.
    fn went(&self, thread: i64) -> bool
        ensures { result ≡ went self.now thread }
    {
        self.latest(Topic::Gone(thread)).is_some()
    }

    /// Whether the event may come after these. Of an event of a condition variable all of them are looked at: no line
    /// of an event file is one.
    pub fn may_come(&self, typed: &Typed, event: &SourceEvent) -> bool
        ensures { IsTrue result ↔ MayCome typed.now self.now event.now event.now.act }
    {
        match event.act {
            Act::Read(c, _) => self.tells_value(typed, c, event.answer),
            Act::Take(Taken::Cell(c, _), _) => self.tells_value(typed, c, event.answer),
            Act::New(_, elements, _) => self.is_fresh(elements, event.answer),
            Act::Lock(c) => !self.is_locked(c),
            Act::Unlock(c) => self.was_locked_by(c, event.thread),
            Act::Spawn(_, _) => self.is_new_thread(event.answer),
            Act::Join(thread) => self.went(thread),
            _ => may_come(typed, self.as_slice(), event),
        }
    }
}
