//! The laws of readings, each the contract of a function that does nothing.

ghost use Rattle.std.specs.Prelude.{◌≡◌, ℕ, List, Ok, Err};
ghost use Rattle.sharc_lex.specs.{declared.fault.TokenFault.TokenFault, Grammar.reading, Laws.{AreTokensOf, IsFaultIn}};
ghost use Rattle.sharc_tree.specs.{declared.token.FaultAt.FaultAt, declared.token.Tokens.Tokens};

/// The tokens that the grammar reads lie in the source in their order, each the longest there, in its file and line.
pub fn tokens_stand()
    ensures { (source : List ℕ) → (tokens : Tokens) → reading source ≡ Ok tokens → AreTokensOf source tokens }
{}

/// The fault of a source lies in it, in its file and line.
pub fn fault_stands()
    ensures { (source : List ℕ) → (found : FaultAt TokenFault) → reading source ≡ Err found → IsFaultIn source found }
{}
