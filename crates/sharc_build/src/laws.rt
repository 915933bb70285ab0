//! The laws of the program that a source is.

ghost use Rattle.sharc_build.specs.Laws.{FrontsAreTyped};

use sharc_check::rule_laws::rules_are_met;
use sharc_parse::grammar_laws::{programs_are_low, programs_are_placed};

/// The program that a source is lies at its tokens, is within the limits, typed and, if its modes are accepted,
/// well-moded.
pub fn fronts_are_typed()
    ensures { FrontsAreTyped }
{
    programs_are_placed();
    programs_are_low();
    rules_are_met();
}
