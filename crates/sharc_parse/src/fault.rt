//! What is wrong with tokens that are no program.

ghost use Rattle.std.specs.Prelude.{◌≡◌};
ghost use Rattle.sharc_parse.specs.Faults.{digit_of};

/// A fault of the grammar.
#[derive(Clone, Copy, PartialEq, Eq, Debug)]
pub enum GrammarFault {
    /// P1: no program goes on with the token, or the tokens end too early.
    Unexpected,
    /// P2: a program goes on with it, but none within the limits.
    Deep,
    /// P3: as P1, at a word that C11 has and the language leaves out.
    LeftOut,
}

impl GrammarFault {
    /// The digit of the code.
    pub fn digit(self) -> u8
        ensures { result ≡ digit_of self }
    {
        match self {
            GrammarFault::Unexpected => 1,
            GrammarFault::Deep => 2,
            GrammarFault::LeftOut => 3,
        }
    }
}
