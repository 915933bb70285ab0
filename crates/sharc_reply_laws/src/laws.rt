//! The laws, each the contract of a function that calls at most the laws that it joins.

ghost use Rattle.sharc_reply_laws.specs.{Few.ChosenAreFew, Replies.{CutRepliesTell, RepliesTell, WholeRepliesTell}};
ghost use Rattle.sharc_reply_laws.specs.Reports.{TypedAccessesAreWanted, TypedGivenAreTested, TypedLocksAreWanted};
ghost use Rattle.sharc_reply_laws.specs.{Reports.TypedRefusedAreWanted, Runs.BuiltRunsTell, Threads.TypedThreadsTell};

use crate::events::{prints_law, refused_stay, stops_law, texts_begin_with_prints, turns_tell_own};
use crate::replies::{records_are_told, sources_are_one, verdicts_are_told};
use sharc_code::{range_laws, run_laws};
use sharc_compile_laws::typed_paths_tell;
use sharc_history_laws::{paths_law, seen_law};
use sharc_seq::enabled_laws;
use sharc_sound_laws::built::built_is_typed;
use sharc_sound_laws::stand::typed_runs_stand;
use sharc_sound_laws::{
    built_is_sound_if_typed, built_is_source, built_obeying_is_unreported_if_typed,
    built_reports_show_if_typed, built_stuck_is_deadlock_if_typed, made_code_begins,
    threads_stand_if_typed,
};
use sharc_wants_laws::followed_law;
use sharc_wants_laws::sole::{
    functions_are_one_by_name, reports_show_cause, tested_are_only, testers_give,
    threads_have_begun,
};

/// Where each turn is made by a thread that is chosen among those that may make one, none makes more events than the
/// limit.
pub fn chosen_are_few()
    ensures { ChosenAreFew }
{
    run_laws();
    enabled_laws();
}

/// Each thread of a checked run has told nothing, or is where its function is by the thread's own events, is over as
/// that is, and keeps the pace: of no thread is it asked that its function may be started.
pub fn threads_tell()
    ensures { TypedThreadsTell }
{
    functions_are_one_by_name();
    paths_law();
    threads_have_begun();
    turns_tell_own();
    typed_paths_tell();
}

/// The access of which a check is made is the one that the source wants there.
pub fn accesses_are_wanted()
    ensures { TypedAccessesAreWanted }
{
    followed_law();
    threads_stand_if_typed();
}

/// So is the access of a check that was refused, by the events of the whole run.
pub fn refused_are_wanted()
    ensures { TypedRefusedAreWanted }
{
    followed_law();
    refused_stay();
    threads_stand_if_typed();
}

/// Where a lock check was refused the source wants an access under the mutex that the check looks for.
pub fn locks_are_wanted()
    ensures { TypedLocksAreWanted }
{
    threads_stand_if_typed();
}

/// Where a test of a sole reference was refused, what the source wants to give or to free is the object that was
/// tested.
pub fn given_are_tested()
    ensures { TypedGivenAreTested }
{
    functions_are_one_by_name();
    paths_law();
    testers_give();
    refused_stay();
    threads_have_begun();
}

/// Each checked run of the code that is built of a source, by threads in any order and with every shape that fits the
/// code, tells all that `RunTells` says.
pub fn built_runs_tell()
    ensures { BuiltRunsTell }
{
    built_is_typed();
    built_is_source();
    range_laws();
    made_code_begins();
    built_is_sound_if_typed();
    built_obeying_is_unreported_if_typed();
    built_reports_show_if_typed();
    built_stuck_is_deadlock_if_typed();
    reports_show_cause();
    tested_are_only();
    seen_law();
    typed_runs_stand();
    prints_law();
    stops_law();
    threads_tell();
    accesses_are_wanted();
    refused_are_wanted();
    locks_are_wanted();
    given_are_tested();
}

/// Where the modes of the source are accepted, each reply to `run`, `load`, `record` and `replay` tells all that
/// `ReplyTells` says.
pub fn replies_tell()
    ensures { RepliesTell }
{
    chosen_are_few();
    built_runs_tell();
    records_are_told();
    sources_are_one();
    stops_law();
    texts_begin_with_prints();
    verdicts_are_told();
}

/// So it is of each reply that was written whole, with its exit status, and of each that was cut off.
pub fn written_replies_tell()
    ensures whole { WholeRepliesTell }
    ensures cut { CutRepliesTell }
{
    replies_tell();
}
