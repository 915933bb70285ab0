// The laws, each the contract of a function that does nothing.

ghost use Rattle.sharc_reply_laws.specs.{AuditLaws.AuditLaws, Laws.{WarningsAreOne, SourceLaws, ReplyLaws}};
ghost use Rattle.sharc_reply_laws.specs.{Laws.VerdictLaws, RecordLaws.RecordLaws, Suggestions.SuggestionLaws};

use sharc_audit::laws::{audit_laws, file_laws};
use sharc_check::laws::check_laws;
use sharc_cli::laws::numbers_are_within;
use sharc_infer_laws::laws::least_is_one;
use sharc_parse::grammar_laws::{one_reading, programs_are_low, programs_are_placed};
use sharc_parse::laws::{one_fault, programs_have_no_fault};
use sharc_replay::replay_laws;
use sharc_schedule::file_laws as recorded_laws;
use sharc_sound_laws::{compiled_are_alike, runs_are_alike};
use sharc_source_laws::laws::programs_hold_no_schedule;
use sharc_suggest::laws::suggest_laws;
use sharc_suggest_laws::laws::least_is_repaired;

/// A program has one list of warnings.
pub fn warnings_are_one()
    ensures { WarningsAreOne }
{}

/// A source is one program with one assignment of modes, or has one first fault, and never both.
pub fn sources_are_one()
    ensures { SourceLaws }
{
    one_reading();
    programs_are_low();
    programs_are_placed();
    programs_have_no_fault();
    one_fault();
    least_is_one();
}

/// Words that run nothing have, with the input, one reply: its status and its text are determined.
pub fn replies_are_one()
    ensures { ReplyLaws }
{
    sources_are_one();
    warnings_are_one();
    check_laws();
    suggest_laws();
    file_laws();
    audit_laws();
}

/// Of a source that is a program: where its modes are accepted, no reply to `check` and `explain` is another than their
/// full text with status 0, and each reply to `run` is the text of a run of the program's code with the status of that
/// run; where they are not, the status of `check`, `explain` and `run` is 1.
pub fn verdicts_are_told()
    ensures { VerdictLaws }
{
    sources_are_one();
}

/// Of a source that is a program with refused modes: beside each error that is written is no cast, or one with which
/// the program is typed and has no M1 at the place of that error; and each reply to `check` is such a text, with status
/// 1.
pub fn suggestions_repair()
    ensures { SuggestionLaws }
{
    sources_are_one();
    programs_are_low();
    programs_are_placed();
    least_is_repaired();
}

/// Of an event file whose source is a program with accepted modes: the reply to `audit` is the line of the verdict of
/// its events, with the status of that verdict, and no other.
pub fn audits_are_told()
    ensures { AuditLaws }
{
    sources_are_one();
    warnings_are_one();
    check_laws();
    suggest_laws();
    file_laws();
    audit_laws();
}

/// Of a source that is a program with accepted modes: the reply to `record` is one recorded file, with the status of a
/// run of its code; it says the source, the heap, the limit and a schedule by which the same code has the text that
/// follows in the file, and ends alike. And of such a file, the reply to `replay` is the text of the run of the code by
/// the file's schedule, with the status of that run, whatever follows the schedule. So the reply to `replay` of what
/// `record` wrote, if that is within the limit of a recorded file, is what follows the schedule in it, with the same
/// status.
pub fn records_are_told()
    ensures { RecordLaws }
{
    compiled_are_alike();
    runs_are_alike();
    sources_are_one();
    replay_laws();
    recorded_laws();
    programs_hold_no_schedule();
    numbers_are_within();
}
