//! The numbers of words, and of granules.

ghost use Rattle.std.specs.Prelude.{◌≡◌, ◌+◌, ◌<◌, ◌↔◌, IsTrue, min, ◌^◌, ◌-◌};
ghost use Rattle.sharc_word.specs.declared.step.TheConstants.{THREADS as threads};
ghost use Rattle.sharc_code.specs.Layout.{Fits, IsShape, granules, first_cell, words_of, granule_at, word_at};
ghost use Rattle.sharc_code.specs.Layout.{function_at, state_word, function_word, argument_word, shadow_word};
ghost use Rattle.sharc_code.specs.Layout.{count_word, length_word, cell_word, cell_of, granule_of};

use crate::code::Code;
use crate::shape::Shape;
use sharc_word::THREADS;

/// The word of the first heap granule that is not yet handed out.
pub const TOP: u32 = 1;
/// The word of the next thread's number.
pub const NEXT_THREAD: u32 = 2;
/// The word of the number of prints.
pub const PRINTS: u32 = 3;

impl Shape {
    /// Whether the shape is one of this code.
    pub fn fits(&self, code: &Code) -> bool
        ensures { IsTrue result ↔ Fits code.now self.now }
    {
        self.threads == THREADS
            && self.globals == code.granules
            && 16 <= self.heap
            && self.heap <= 65536
    }

    /// How many granules there are: granule 0, those of the globals and those of the heap.
    #[inline(always)]
    pub fn granules(&self) -> u32
        requires { IsShape self.now }
        ensures { result ≡ granules self.now }
    {
        1 + self.globals + self.heap
    }

    /// The word of the first cell of granule 0.
    #[inline(always)]
    pub fn first_cell(&self) -> u32
        requires { IsShape self.now }
        ensures { result ≡ first_cell self.now }
    {
        97 + self.granules()
    }

    /// How many words there are.
    #[inline(always)]
    pub fn words(&self) -> u32
        requires { IsShape self.now }
        ensures { result ≡ words_of self.now }
    {
        97 + 3 * self.granules()
    }

    /// The number of a granule, 0 where it is none.
    #[inline(always)]
    pub fn granule_at(&self, granule: u64) -> u32
        requires { IsShape self.now }
        ensures is { result ≡ granule_at self.now granule }
        ensures within { result < granules self.now }
    {
        if granule < u64::from(self.granules()) {
            granule as u32
        } else {
            0
        }
    }

    /// The number of a word, 0 where it is none.
    #[inline(always)]
    pub fn word_at(&self, word: u64) -> u32
        requires { IsShape self.now }
        ensures is { result ≡ word_at self.now word }
        ensures within { result < words_of self.now }
    {
        if word < u64::from(self.words()) {
            word as u32
        } else {
            0
        }
    }

    /// The shadow word of a granule.
    #[inline(always)]
    pub fn shadow_word(&self, granule: u64) -> u32
        requires { IsShape self.now }
        ensures is { result ≡ shadow_word self.now granule }
        ensures within { result < words_of self.now }
    {
        97 + self.granule_at(granule)
    }

    /// The count word of the object with this header granule.
    #[inline(always)]
    pub fn count_word(&self, header: u64) -> u32
        requires { IsShape self.now }
        ensures is { result ≡ count_word self.now header }
        ensures within { result < words_of self.now }
    {
        self.first_cell() + 2 * self.granule_at(header)
    }

    /// Its length word.
    #[inline(always)]
    pub fn length_word(&self, header: u64) -> u32
        requires { IsShape self.now }
        ensures is { result ≡ length_word self.now header }
        ensures within { result < words_of self.now }
    {
        self.count_word(header) + 1
    }

    /// The word of the cell that has this number, counted from the first cell of granule 0.
    #[inline(always)]
    pub fn cell_word(&self, place: u64) -> u32
        requires { IsShape self.now }
        ensures is { result ≡ cell_word self.now place }
        ensures within { result < words_of self.now }
    {
        self.word_at(place.saturating_add(u64::from(self.first_cell())))
    }
}

/// The word of a thread's state.
#[inline(always)]
pub fn state_word(thread: u32) -> u32
    requires { thread < threads }
    ensures { result ≡ state_word thread }
{
    4 + 3 * thread
}

/// The word of its function.
#[inline(always)]
pub fn function_word(thread: u32) -> u32
    requires { thread < threads }
    ensures { result ≡ function_word thread }
{
    5 + 3 * thread
}

/// The word of its argument.
#[inline(always)]
pub fn argument_word(thread: u32) -> u32
    requires { thread < threads }
    ensures { result ≡ argument_word thread }
{
    6 + 3 * thread
}

/// The number of cell `j` of the object with this header granule, counted from the first cell of granule 0: the largest
/// number where it is larger.
#[inline(always)]
pub fn cell_of(header: u64, index: u64) -> u64
    ensures { result ≡ min (cell_of header index) (2 ^ 64 - 1) }
{
    header
        .saturating_add(1)
        .saturating_mul(2)
        .saturating_add(index)
}
