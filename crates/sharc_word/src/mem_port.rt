//! The port that has its words for itself.

ghost use Rattle.std.specs.Prelude.{◌≡◌};

use crate::port::Port;
use crate::step::WordStep;
use std::alloc::{Allocator, Global};
use std::marker::Model;

/// Words for which one thread at a time makes steps. Contracts see it as the list of its words.
#[derive(Drop)]
pub struct MemPort<A: Allocator = Global> {
    words: Vec<u64, A>,
}

impl<A: Allocator> Model for MemPort<A> {
    ghost use Rattle.std.specs.Prelude.{ℕ, List};

    ghost Value = { List ℕ };

    ghost view = { λ port. port.words.items };
}

impl<A: Allocator> MemPort<A> {
    /// The port of these words.
    pub fn new(words: Vec<u64, A>) -> Self
        ensures { result ≡ words.items }
    {
        MemPort { words }
    }

    /// The words as they now are.
    pub fn words(&self) -> &[u64]
        ensures { result.now ≡ self.now }
    {
        self.words.as_slice()
    }

    /// Gives the words, as they now are, back.
    pub fn into_words(self) -> Vec<u64, A>
        ensures { result.items ≡ self }
    {
        let MemPort { words } = self;
        words
    }
}

impl<A: Allocator> Port for MemPort<A> {
    ghost use Rattle.std.specs.Prelude.{◌<◌, [], length, slice_index};
    ghost use Rattle.sharc_word.specs.{Words.words_after_step, Place.{place_of_words, LeadsInWords}};

    ghost count = { λ port. length port };

    ghost name = { λ port. [] };

    ghost serves = { λ port thread. Unit {0} };

    ghost place = { place_of_words };

    ghost leads = { LeadsInWords };

    ghost serves_some = { λ port. (0, tt) };

    fn step(&mut self, step: WordStep) -> u64
        requires { step.word < length self.old }
        ensures found { result ≡ slice_index self.old step.word }
        ensures words { self.new ≡ words_after_step self.old step }
    {
        let at = step.word as usize;
        let found = self.words[at];
        self.words[at] = step.op.word_after(found);
        found
    }
}
