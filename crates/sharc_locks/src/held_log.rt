//! A list of at most sixteen held mutexes, each with the object that it lies in.

ghost use Rattle.std.specs.Prelude.{◌≡◌, ◌<◌, ◌≤◌, ◌↔◌, ◌++◌, [], ◌∷◌, length, position, IsTrue, IfSome, IfNone, ◌==◌};
ghost use Rattle.std.specs.Bool.{OnTrue, OnFalse};

use arrayvec::ArrayVec;
use std::marker::Model;

/// How many mutexes one thread may hold.
pub const LIMIT: usize = 16;

/// A held mutex: the number of its word, and the object that it lies in, to which holding it holds a reference.
#[derive(Clone, Copy, Debug, Default, PartialEq, Eq)]
pub struct HeldMutex {
    pub word: u32,
    pub object: u64,
}

/// The mutexes that one thread holds, in the order in which it took them: at most sixteen, and none twice.
#[derive(Drop)]
pub struct HeldLog {
    entries: ArrayVec<HeldMutex, LIMIT>,
}

impl Model for HeldLog {
    ghost use Rattle.std.specs.Prelude.{List};
    ghost use Rattle.sharc_locks.specs.{declared.held_log.HeldMutex.HeldMutex, HeldLog.IsHeldLog};

    ghost Value = { List HeldMutex };

    ghost view = { λ log. log.entries.items };

    ghost invariant = { λ log. IsHeldLog log.entries.items };
}

impl HeldLog {
    ghost use Rattle.sharc_locks.specs.HeldLog.{Holds, IsHeldLog, GivesUp, with_mutex, without, object_of};

    /// The log of a thread that holds no mutex.
    pub fn new() -> Self
        ensures { result ≡ [] }
    {
        HeldLog {
            entries: ArrayVec::new(),
        }
    }

    /// Whether the thread holds no mutex.
    pub fn is_empty(&self) -> bool
        ensures { IsTrue result ↔ (self.now ≡ []) }
    {
        self.entries.is_empty()
    }

    /// Whether sixteen mutexes are held, so that there is no room for another.
    pub fn is_full(&self) -> bool
        ensures { IsTrue result ↔ (16 ≤ length self.now) }
    {
        self.entries.is_full()
    }

    /// Whether the thread holds the mutex at this word.
    pub fn holds(&self, word: u32) -> bool
        ensures held { IsTrue result ↔ Holds self.now word }
        ensures log { IsHeldLog self.now }
    {
        self.entries.iter().any(|held| held.word == word)
    }

    /// Adds the mutex at this word, which lies in this object, to the log.
    ///
    /// The answer is false exactly where sixteen mutexes are held, and the log is then as it was.
    pub fn take(&mut self, word: u32, object: u64) -> bool
        requires { ¬ Holds self.old word }
        ensures room { IsTrue result ↔ (length self.old < 16) }
        ensures full { OnFalse result (length self.old ≡ 16) }
        ensures taken { OnTrue result (self.new ≡ self.old ++ record { word = word; object = object } ∷ []) }
        ensures refused { OnFalse result (self.new ≡ self.old) }
        ensures is { self.new ≡ with_mutex self.old word object }
        ensures log { IsHeldLog self.new }
    {
        if self.entries.is_full() {
            return false;
        }
        self.entries.push(HeldMutex { word, object });
        true
    }

    /// Takes the mutex at this word out of the log, and answers its object.
    ///
    /// The answer is `None` exactly where the mutex is not held, and the log is then as it was.
    pub fn give(&mut self, word: u32) -> Option<u64>
        ensures given { IfSome result (λ object. GivesUp self.old self.new record { word = word; object = object }) }
        ensures released { ¬ Holds self.new word }
        ensures absent { IfNone result (¬ Holds self.old word) }
        ensures refused { IfNone result (self.new ≡ self.old) }
        ensures is { result ≡ object_of self.old word }
        ensures left { self.new ≡ without self.old word }
        ensures log { IsHeldLog self.new }
    {
        let place = self.place_of(word)?;
        Some(self.entries.remove(place).object)
    }

    // The place of the entry of the mutex at this word.
    fn place_of(&self, word: u32) -> Option<usize>
        ensures place { result ≡ position (λ held. held.word == word) self.now }
        ensures absent { IfNone result (¬ Holds self.now word) }
    {
        self.entries.iter().position(|held| held.word == word)
    }
}
