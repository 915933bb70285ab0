//! The laws, each the contract of a function that calls the laws that it joins.

ghost use Rattle.sharc_reply_laws.specs.Kept.{KeptLaws};

use crate::replies::{records_are_told, verdicts_are_told};
use sharc_sound_laws::built::built_is_sound;

/// Where the modes of a source are accepted, each reply to `run` and to `replay` is the text of an interleaving of its
/// code that performs a run of the source without checks and keeps the rules of the modes, with the status of its
/// outcome; and each reply to `record` is the file of one.
pub fn kept_laws()
    ensures { KeptLaws }
{
    built_is_sound();
    verdicts_are_told();
    records_are_told();
}
