//! The laws of what the parser answers, each the contract of a function that does nothing.

ghost use Rattle.std.specs.Prelude.{◌≡◌};
ghost use Rattle.sharc_tree.specs.{Tree.Program, declared.token.FaultAt.FaultAt, declared.token.Tokens.Tokens};
ghost use Rattle.sharc_parse.specs.{declared.fault.GrammarFault.GrammarFault, Places.Reads, Programs.IsFaultOf};

/// Tokens that are a program have no fault.
pub fn programs_have_no_fault()
    ensures { (tokens : Tokens) → (p : Program) → (fault : FaultAt GrammarFault) → Reads tokens p
        → IsFaultOf tokens fault → ⊥ }
{}

/// Tokens have one fault at most: its code, its place and what it reports are determined.
pub fn one_fault()
    ensures { (tokens : Tokens) → (a : FaultAt GrammarFault) → (b : FaultAt GrammarFault) → IsFaultOf tokens a
        → IsFaultOf tokens b → a ≡ b }
{}
