//! What a New is given, and the numbers of its words.

ghost use Rattle.std.specs.Prelude.{◌≡◌, ◌+◌, ◌*◌, ◌-◌, ◌^◌, min};
ghost use Rattle.sharc_heap.specs.Asks.{HasFewWords, word_number, count_word, length_word, cell_word};

/// What a New is given at its start.
#[derive(Clone, Copy)]
pub struct NewArguments {
    /// The object's elements.
    pub elements: u64,
    /// The object's cells in all.
    pub cells: u64,
    /// The granule after the arena.
    pub end: u64,
    /// The number of the word of the first cell of granule 0.
    pub first: u32,
    /// The first block of the own list, or 0.
    pub head: u64,
    /// The granules of a block for this many cells.
    pub block: u64,
}

impl NewArguments {
    pub(crate) fn count_word(&self, header: u64) -> u32
        requires { HasFewWords self.now }
        ensures { result ≡ count_word self.now header }
    {
        self.word(self.place(header))
    }

    pub(crate) fn length_word(&self, header: u64) -> u32
        requires { HasFewWords self.now }
        ensures { result ≡ length_word self.now header }
    {
        self.word(self.place(header).saturating_add(1))
    }

    pub(crate) fn cell_word(&self, header: u64, cell: u64) -> u32
        requires { HasFewWords self.now }
        ensures { result ≡ cell_word self.now header cell }
    {
        self.word(self.place(header).saturating_add(2).saturating_add(cell))
    }

    // The number of a word, 0 where it is none.
    fn word(&self, place: u64) -> u32
        requires { HasFewWords self.now }
        ensures { result ≡ word_number self.now place }
    {
        if place < u64::from(self.first) + 2 * self.end {
            place as u32
        } else {
            0
        }
    }

    // The word of the first cell of a granule, or one too large.
    fn place(&self, granule: u64) -> u64
        ensures { result ≡ min (self.now.first + 2 * granule) (2 ^ 64 - 1) }
    {
        granule
            .saturating_mul(2)
            .saturating_add(u64::from(self.first))
    }
}
