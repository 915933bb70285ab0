//! What makes the steps of a thread.

use crate::step::WordStep;

/// A way to some words, by which a thread makes its steps. A step takes no memory. Whether it waits for the steps of
/// others, each port says.
pub trait Port {
    ghost use Rattle.std.specs.Prelude.{ℕ, ◌≡◌, ◌<◌, List};
    ghost use Rattle.sharc_word.specs.{declared.step.WordEvent.WordEvent, Place.{PortState, event_of}};

    // The number of its words, which no step changes.
    ghost count: { Self → ℕ };

    // What distinguishes it from other ports of its type, which no step changes.
    ghost name: { Self → List ℕ };

    // The threads for which it makes steps, by their numbers.
    ghost serves: { Self → ℕ → Type 0 };

    // Where it is.
    ghost place: { Self → PortState };

    // Which events lead from one place to another.
    ghost leads: { PortState → WordEvent → PortState → Type 0 };

    /// Makes one step, and answers the word that it found.
    fn step(&mut self, step: WordStep) -> u64
        requires { step.word < count self.old }
        ensures count { count self.new ≡ count self.old }
        ensures name { name self.new ≡ name self.old }
        ensures serves { (thread : ℕ) → serves self.old thread → serves self.new thread }
        ensures leads { (thread : ℕ) → serves self.old thread
            → leads (place self.old) (event_of thread step result) (place self.new) };

    // No port is without a thread.
    ghost serves_some: { (port : Self) → (thread : ℕ) × serves port thread };
}
