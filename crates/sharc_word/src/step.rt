//! One operation on one word, and the event that it leaves.

ghost use Rattle.std.specs.Prelude.{◌≡◌};
ghost use Rattle.sharc_word.specs.Words.{word_after};

/// The number of threads that a checked program may have: their numbers are from 0 to 30.
pub const THREADS: u32 = 31;

/// An atomic operation on a 64-bit word. Each answers the word that it found.
#[derive(Debug, Clone, Copy, PartialEq, Eq)]
pub enum WordOp {
    /// Leaves the word as it is.
    Load,
    /// Writes this word.
    Swap(u64),
    /// Adds this number modulo 2^64.
    Add(u64),
    /// Takes this number away modulo 2^64.
    Sub(u64),
    /// Sets the bits that are set here.
    Or(u64),
    /// Clears the bits that are clear here.
    And(u64),
    /// Writes the second word where the word is the first, and else leaves it as it is.
    Cas(u64, u64),
}

/// An operation on the word of this number.
#[derive(Debug, Clone, Copy, PartialEq, Eq)]
pub struct WordStep {
    /// The number of the word, from 0.
    pub word: u32,
    pub op: WordOp,
}

/// A step that a thread made, with its answer: the word that it found.
#[derive(Debug, Clone, Copy, PartialEq, Eq)]
pub struct WordEvent {
    /// The number of the thread.
    pub thread: u32,
    pub step: WordStep,
    /// The word that the step found.
    pub result: u64,
}

impl WordOp {
    /// The word that the operation leaves where it found this one.
    pub fn word_after(self, found: u64) -> u64
        ensures { result ≡ word_after self found }
    {
        match self {
            WordOp::Load => found,
            WordOp::Swap(new) => new,
            WordOp::Add(number) => found.wrapping_add(number),
            WordOp::Sub(number) => found.wrapping_sub(number),
            WordOp::Or(bits) => found | bits,
            WordOp::And(bits) => found & bits,
            WordOp::Cas(expected, new) => { if found == expected { new } else { found } }
        }
    }
}
