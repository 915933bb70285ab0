//! The laws: each is the contract of a function that does nothing.

ghost use Rattle.sharc_trace_laws.specs.Laws.{FilesAreAudited, FilesAreEventFiles, NoneIsAtFault, RecordingsAreTraced};

use sharc_audit::laws::{file_laws, runs_never_fail};
use sharc_build::fronts_are_typed;
use sharc_history::history_laws;
use sharc_meaning::laws::run_laws;
use sharc_replay::replay_laws;
use sharc_reply_laws::replies::{audits_are_told, records_are_told, sources_are_one};
use sharc_sound_laws::built::built_is_sound;
use sharc_sound_laws::{compiled_are_alike, histories_are_alike};
use sharc_source_laws::laws::{programs_hold_no_events, programs_hold_no_schedule};
use sharc_traced::lines_are_of_sources;

/// What is written of a run of a program is an event file of its source with the greatest fuel and the lines of the
/// run's first events.
pub fn files_are_event_files()
    ensures { FilesAreEventFiles }
{
    programs_hold_no_events();
    file_laws();
}

/// So `audit` answers it with `obeys N events`, with as many events as were written, and ends with 0.
pub fn files_are_audited()
    ensures { FilesAreAudited }
{
    files_are_event_files();
    audits_are_told();
}

/// The file ends where the run does, before an event that has no line, at the greatest number of events, or where the
/// fuel is spent: never before an event that `audit` finds to be at fault.
pub fn none_is_at_fault()
    ensures { NoneIsAtFault }
{
    fronts_are_typed();
    built_is_sound();
    lines_are_of_sources();
    run_laws();
    runs_never_fail();
}

/// Of a program, the event file of what `record` wrote is of the events of the run that was recorded, in their order.
pub fn recordings_are_traced()
    ensures { RecordingsAreTraced }
{
    sources_are_one();
    records_are_told();
    replay_laws();
    programs_hold_no_schedule();
    compiled_are_alike();
    histories_are_alike();
    history_laws();
}
