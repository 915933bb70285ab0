//! The words of a run with its events.

ghost use Rattle.std.specs.Prelude.{◌≡◌, ◌<◌, ◌++◌, ◌∷◌, [], true, length, slice_index, vec_len, vec_capacity, OnOk};
ghost use Rattle.sharc_word.specs.{Words.words_after_step, Place.event_of};
ghost use Rattle.sharc_word.specs.declared.step.TheConstants.{THREADS as threads};
ghost use Rattle.sharc_record.specs.Room.{HasRoomFor};

use sharc_word::{MemPort, Port, THREADS, WordEvent, WordStep};
use std::alloc::AllocError;

/// How many steps each port may make at a journal that has room for them.
pub const QUANTUM: u32 = 5_000;

// The events for which room is made: a quantum of each of the 31 ports that there may be.
const ROOM: usize = THREADS as usize * QUANTUM as usize;

/// Words, and the events that led to them, oldest first.
#[derive(Drop)]
pub struct Journal {
    pub words: MemPort,
    pub events: Vec<WordEvent>,
}

impl Journal {
    /// Makes room for the events of a quantum of each port.
    ///
    /// An `Err` says that memory was not found.
    pub fn make_room(&mut self) -> Result<(), AllocError>
        ensures room { OnOk result (HasRoomFor threads self.new) }
        ensures words { self.new.words ≡ self.old.words }
        ensures events { self.new.events.items ≡ self.old.events.items }
    {
        self.events.reserve(ROOM)
    }

    // Whether another event fits without memory.
    pub(crate) fn has_room(&self) -> bool
        ensures { result ≡ true → vec_len self.now.events < vec_capacity self.now.events }
    {
        self.events.len() < self.events.capacity()
    }

    // Makes a step of this thread, and appends its event.
    pub(crate) fn step(&mut self, thread: u32, step: WordStep) -> u64
        requires word { step.word < length self.old.words }
        requires room { vec_len self.old.events < vec_capacity self.old.events }
        ensures found { result ≡ slice_index self.old.words step.word }
        ensures words { self.new.words ≡ words_after_step self.old.words step }
        ensures events { self.new.events.items ≡ self.old.events.items ++ event_of thread step result ∷ [] }
    {
        let result = self.words.step(step);
        self.events.push_reserved(WordEvent {
            thread,
            step,
            result,
        });
        result
    }
}
