//! The laws, each the contract of a function that calls at most the laws that it joins.

ghost use Rattle.sharc_sound_laws.specs.AlikeLaws.{RunsAreAlike, HistoriesAreAlike, CompiledAreAlike};

use sharc_ctype_laws::laws::one_function_of_name;

/// The run by a schedule of a code is that of each code that differs from it in nothing but where its texts are, with
/// the same text and the same outcome.
pub fn runs_are_alike()
    ensures { RunsAreAlike }
{}

/// And its turns tell the same source events of both.
pub fn histories_are_alike()
    ensures { HistoriesAreAlike }
{}

/// All codes to which a typed program is compiled differ in nothing but that.
pub fn compiled_are_alike()
    ensures { CompiledAreAlike }
{
    one_function_of_name();
}
