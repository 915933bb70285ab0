//! The chooser of turns.

ghost use Rattle.std.specs.Prelude.{◌≡◌, ◌<◌, ◌≤◌};
ghost use Rattle.sharc_seq.specs.Choice.{Chooses};

/// Chooses, for the turn of each number and each number of threads that may make it, the place of one of them.
#[derive(Drop)]
pub struct Chooser<F> {
    f: F,
}

impl<F: Fn(u64, u64) -> u64> Chooser<F> {
    /// The chooser that asks this closure.
    pub fn new(f: F) -> Chooser<F>
        requires { Chooses F.pre F.post f }
        ensures { result.f ≡ f }
    {
        Chooser { f }
    }

    // The place, among this many threads, of the one that makes the turn of this number.
    pub(crate) fn place(&self, turn: u64, count: u64) -> u64
        requires chooses { Chooses F.pre F.post self.now.f }
        requires some { 1 ≤ count }
        ensures answered { F.post self.now.f turn count result }
        ensures below { result < count }
    {
        (self.f)(turn, count)
    }
}
