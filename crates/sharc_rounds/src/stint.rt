//! How many turns a thread makes in one go.

ghost use Rattle.std.specs.Prelude.{◌≡◌};
ghost use Rattle.sharc_rounds.specs.declared.stint.TheConstants.{QUANTUM as quantum};
ghost use Rattle.sharc_rounds.specs.Shares.{first_turns, further_turns};

/// The most turns of a quantum.
pub const QUANTUM: u32 = 50_000;

/// The failed tries in a row that a thread makes behind the first one, where workers work at the same time: whom it
/// waits for may go on meanwhile.
const TRIES: u32 = 64;

/// The turns of a stint that are kept back from its first go: with them a thread comes out of a critical section. They
/// are enough for most sections, which are short, and few beside the turns of a stint.
pub(crate) const KEPT: u32 = 64;

/// The least turns of a further go, if so many are left. It is looked behind each whether the thread is out.
pub(crate) const FURTHER: u32 = 4;

/// What a thread makes in a stint, or in one go of it: at most so many turns, and so many failed tries in a row behind
/// the first one.
#[derive(Clone, Copy)]
pub(crate) struct Stint {
    pub(crate) turns: u32,
    pub(crate) tries: u32,
}

impl Stint {
    /// A quantum, while others work.
    pub(crate) fn beside() -> Stint
        ensures { result.turns ≡ quantum }
    {
        Stint {
            turns: QUANTUM,
            tries: TRIES,
        }
    }

    /// So many turns, while nobody else works. Nobody goes on meanwhile, so no failed try is made again.
    pub(crate) fn alone(turns: u32) -> Stint
        ensures { result.turns ≡ turns }
    {
        Stint { turns, tries: 0 }
    }

    /// Its first go: all of its turns but those that are kept back. Of a stint of few turns none are.
    pub(crate) fn first(self) -> Stint
        ensures { result.turns ≡ first_turns self.turns }
    {
        let turns = if self.turns <= 2 * KEPT {
            self.turns
        } else {
            self.turns - KEPT
        };
        Stint { turns, ..self }
    }

    /// A further go, out of so many turns that are left. Each has fewer than the one before, so a loop of the thread is
    /// not at the same place at the end of each.
    pub(crate) fn further(self, left: u32) -> Stint
        ensures { result.turns ≡ further_turns left }
    {
        Stint {
            turns: left.min(FURTHER + left / 8),
            ..self
        }
    }
}
