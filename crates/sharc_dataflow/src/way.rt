// What a piece of code does to one variable, on all the paths through it.

ghost use Rattle.std.specs.Prelude.{◌≡◌};
ghost use Rattle.sharc_dataflow.specs.Sums.{lower as lower_of, free, closed, follow as followed, either as joined};
ghost use Rattle.sharc_dataflow.specs.Sums.{only, then_of, either_of, caught_of, loop_of};

/// The paths through a piece of code to one of its exits: the least token of a nulling in it that holds there, and
/// whether a path from the start comes there with no write.
#[derive(Clone, Copy, Drop)]
pub struct Way {
    pub least: Option<u32>,
    pub clear: bool,
}

/// The lower of two tokens.
pub(crate) fn lower(a: Option<u32>, b: Option<u32>) -> Option<u32>
    ensures { result ≡ lower_of a b }
{
    match a {
        None => b,
        Some(x) => match b {
            None => Some(x),
            Some(y) => Some(if y < x { y } else { x }),
        },
    }
}

impl Way {
    /// The way of code that does nothing to the variable.
    pub(crate) fn free() -> Way
        ensures { result ≡ free }
    {
        Way {
            least: None,
            clear: true,
        }
    }

    /// The way to an exit to which no path leads, or only paths with a write.
    pub(crate) fn closed() -> Way
        ensures { result ≡ closed }
    {
        Way {
            least: None,
            clear: false,
        }
    }

    /// This way and then the other.
    pub(crate) fn follow(self, next: Way) -> Way
        ensures { result ≡ followed self next }
    {
        Way {
            least: if next.clear {
                lower(next.least, self.least)
            } else {
                next.least
            },
            clear: self.clear && next.clear,
        }
    }

    /// This way or the other.
    pub(crate) fn either(self, other: Way) -> Way
        ensures { result ≡ joined self other }
    {
        Way {
            least: lower(self.least, other.least),
            clear: self.clear || other.clear,
        }
    }
}

/// The exits that lead on.
#[derive(Clone, Copy, Drop)]
pub struct Ways {
    pub next: Way,
    pub broken: Way,
    pub continued: Way,
}

impl Ways {
    /// Code that leads to what comes next alone.
    pub(crate) fn only(next: Way) -> Ways
        ensures { result ≡ only next }
    {
        Ways {
            next,
            broken: Way::closed(),
            continued: Way::closed(),
        }
    }

    /// The one piece and then the other.
    pub(crate) fn then(self, other: Ways) -> Ways
        ensures { result ≡ then_of self other }
    {
        Ways {
            next: self.next.follow(other.next),
            broken: self.broken.either(self.next.follow(other.broken)),
            continued: self.continued.either(self.next.follow(other.continued)),
        }
    }

    /// The one piece or the other.
    pub(crate) fn either(self, other: Ways) -> Ways
        ensures { result ≡ either_of self other }
    {
        Ways {
            next: self.next.either(other.next),
            broken: self.broken.either(other.broken),
            continued: self.continued.either(other.continued),
        }
    }

    /// The piece, whose continue leads to its end.
    pub(crate) fn caught(self) -> Ways
        ensures { result ≡ caught_of self }
    {
        Ways {
            next: self.next.either(self.continued),
            broken: self.broken,
            continued: self.continued,
        }
    }

    /// The piece again and again, until a break.
    pub(crate) fn repeated(self) -> Ways
        ensures { result ≡ loop_of self }
    {
        let turns = Way {
            least: self.next.least,
            clear: true,
        };
        Ways::only(turns.follow(self.broken))
    }
}

/// The least token of a nulling that holds here, and at the exits to which breaks and continues have led.
#[derive(Clone, Copy, Drop)]
pub struct StandingNullings {
    pub next: Option<u32>,
    pub broken: Option<u32>,
    pub continued: Option<u32>,
}

/// A read, and the first nulling that holds there on some path, each by its token.
#[derive(Clone, Copy, PartialEq, Eq, Debug, Drop)]
pub struct FlowWarning {
    pub read: u32,
    pub since: u32,
}
