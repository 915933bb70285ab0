// The laws, each the contract of a function that does nothing.

ghost use Rattle.std.specs.Prelude.{◌≡◌, List, fold, None};
ghost use Rattle.sharc_names.specs.Notes.{Note, Findings, noted, faults, IsAnswer};

/// The fault that is kept over a list of notes is the first among them, by place and then by code, and there is none
/// where they have none.
#[tactic(auto, using(crate::proofs::FirstLemmas::kept_is_answer))]
pub fn kept_is_first()
    ensures { (f : Findings) → (list : List Note) → f.first ≡ None → IsAnswer (fold noted f list).first (faults list) }
{}
