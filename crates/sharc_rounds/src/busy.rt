//! How many workers have something to do in a round.

ghost use Rattle.std.specs.Prelude.{◌≡◌, ◌≢◌, true, false};

/// How many workers have a thread that is enabled.
#[derive(Clone, Copy, PartialEq, Eq)]
pub(crate) enum Busy {
    Nobody,
    One,
    Several,
}

impl Busy {
    /// Whether none has.
    pub(crate) fn is_nobody(self) -> bool
        ensures yes { result ≡ true → self ≡ Busy.Nobody }
        ensures no { result ≡ false → self ≢ Busy.Nobody }
    {
        match self {
            Busy::Nobody => true,
            Busy::One | Busy::Several => false,
        }
    }
}
