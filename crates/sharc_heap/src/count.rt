//! The steps of an object's count word: how many references to the object there are.
//!
//! Each function names one step of the word, or tests what such a step found. `specs/Count.antt` says what they are,
//! and `count_laws` what they make of a count. No call takes memory.

ghost use Rattle.std.specs.Prelude.{◌≡◌, ℕ, ◌+◌, ◌^◌, ◌<◌, ◌↔◌, IsTrue};
ghost use Rattle.sharc_heap.specs.Count.{raise_of, lower_of, test_of};
ghost use Rattle.sharc_word.specs.Words.{word_after};

use sharc_word::{WordOp, WordStep};

/// The step by which one reference more is counted; `word` is the object's count word.
pub fn raise(word: u32) -> WordStep
    ensures step { result ≡ raise_of word }
    ensures counts { (count : ℕ) → count + 1 < 2 ^ 64 → word_after result.op count ≡ count + 1 }
{
    WordStep {
        word,
        op: WordOp::Add(1),
    }
}

/// The step by which one reference less is counted.
pub fn lower(word: u32) -> WordStep
    ensures step { result ≡ lower_of word }
    ensures counts { (count : ℕ) → count + 1 < 2 ^ 64 → word_after result.op (count + 1) ≡ count }
{
    WordStep {
        word,
        op: WordOp::Sub(1),
    }
}

/// The step that reads the count and leaves it.
pub fn test(word: u32) -> WordStep
    ensures step { result ≡ test_of word }
    ensures counts { (count : ℕ) → word_after result.op count ≡ count }
{
    WordStep {
        word,
        op: WordOp::Load,
    }
}

/// Whether a count that was read says that there is one reference alone, so that a sharing cast may go on (the SharC
/// paper).
pub fn sole(count: u64) -> bool
    ensures { IsTrue result ↔ (count ≡ 1) }
{
    count == 1
}
