//! The laws, each the contract of a function that calls at most the laws that it joins.

ghost use Rattle.sharc_sound_laws.specs.{Begins.MadeCodeBegins, Built.BuiltIsSoundIfTyped};
ghost use Rattle.sharc_sound_laws.specs.Deadlock.{BuiltStuckIsDeadlockIfTyped, StuckIsDeadlockIfTyped};
ghost use Rattle.sharc_sound_laws.specs.{Faithful.{BuiltIsFaithful, CompiledIsFaithful}, Next.OneIsNext};
ghost use Rattle.sharc_sound_laws.specs.Obeying.{BuiltObeyingIsUnreportedIfTyped, ObeyingIsUnreportedIfTyped};
ghost use Rattle.sharc_sound_laws.specs.{Reports.{BuiltReportsShowIfTyped, ReportsShowIfTyped}, Sound.SoundIfTyped};
ghost use Rattle.sharc_sound_laws.specs.{Standing.ThreadsStandIfTyped, Typed.BuiltIsSource};

use sharc_build::fronts_are_typed;
use sharc_code::{range_laws, run_laws};
use sharc_compile_laws::{threads_may_start, typed_paths_tell, typed_threads_tell};
use sharc_ctype_laws::laws::meets_globals;
use sharc_history_laws::{
    causes_law, followed_law, history_law, paths_law, reports_law, stuck_law, threads_law,
    waiters_law,
};
use sharc_meaning::laws::{ask_laws, run_laws as source_run_laws};
use sharc_source_laws::laws::{each_constant_is_held, numbers_have_no_sign};
use sharc_wants_laws::sole::{functions_are_one_by_name, threads_begin_by_right};
use sharc_wants_laws::{followed_law as code_is_followed, thread_wants, waits_law};

/// The code that a source is compiled to, if its modes are accepted, is faithful to the program that the source is.
pub fn compiled_is_faithful()
    ensures { CompiledIsFaithful }
{
    fronts_are_typed();
    typed_paths_tell();
    typed_threads_tell();
    threads_may_start();
}

/// So is the code that is built of a source.
pub fn built_is_faithful()
    ensures { BuiltIsFaithful }
{
    compiled_is_faithful();
}

/// The source of such code is a typed, well-moded program, whose constants are held by their types and whose numbers
/// have no sign.
pub fn built_is_source()
    ensures { BuiltIsSource }
{
    fronts_are_typed();
    each_constant_is_held();
    numbers_have_no_sign();
}

/// The globals of the code of a typed program hold at first what their definitions say, if the numbers at which they
/// begin have no sign of their own.
pub fn made_code_begins()
    ensures { MadeCodeBegins }
{
    meets_globals();
}

/// The source events of every checked run of the code of a typed, well-moded program with its least assignment, if that
/// code is typed, are a run of the source without checks: each thread asks for the events that are its own, after the
/// Started with which main or an earlier Spawn began it, and each event may come after those before it. And they keep
/// the rules of the modes.
pub fn sound_if_typed()
    ensures { SoundIfTyped }
{
    made_code_begins();
    threads_begin_by_right();
    typed_threads_tell();
    paths_law();
    history_law();
    waits_law();
    waiters_law();
}

/// Every checked run of the code that is built of a source, by threads in any order, if that code is typed, performs a
/// run of the source without checks that keeps the rules of the modes: nothing else is asked of the source, the code or
/// the run, and the shape is any that fits the code.
pub fn built_is_sound_if_typed()
    ensures { BuiltIsSoundIfTyped }
{
    fronts_are_typed();
    numbers_have_no_sign();
    range_laws();
    sound_if_typed();
}

/// What a thread of a program asks for next, behind as many events as it has answers, is one act at one place: neither
/// the answer nor the fuel changes it.
pub fn one_is_next()
    ensures { OneIsNext }
{
    ask_laws();
}

/// Each thread of every checked run of such code, if it is typed, has made no event and is at the code's first
/// instruction, or stands in the source run: by its events it wants next what the instruction at its place is about,
/// and what A1 to A4 refused, and has ended where the thread has.
pub fn threads_stand_if_typed()
    ensures { ThreadsStandIfTyped }
{
    threads_begin_by_right();
    paths_law();
    thread_wants();
}

/// Where a checked run of such code is stuck, if the code is typed, the source is in a deadlock: no event of a thread
/// that was not stopped extends the events of the run to a source run. What a thread waits for is what the source wants
/// of it, and may not come; one that has ended or was not started asks for nothing.
pub fn stuck_is_deadlock_if_typed()
    ensures { StuckIsDeadlockIfTyped }
{
    ask_laws();
    functions_are_one_by_name();
    made_code_begins();
    threads_law();
    threads_stand_if_typed();
    stuck_law();
    waits_law();
}

/// So it is of the code that is built of a source.
pub fn built_stuck_is_deadlock_if_typed()
    ensures { BuiltStuckIsDeadlockIfTyped }
{
    built_is_source();
    range_laws();
    stuck_is_deadlock_if_typed();
}

/// Where every source run of the program obeys, an access counting until its thread is gone, no checked run of its
/// code, by threads in any order, if that code is typed, has a report A1, A2 or A3: with the access that was refused,
/// behind the other one where that is next, the source run would go on and not obey.
pub fn obeying_is_unreported_if_typed()
    ensures { ObeyingIsUnreportedIfTyped }
{
    ask_laws();
    source_run_laws();
    run_laws();
    causes_law();
    reports_law();
    threads_law();
    code_is_followed();
    sound_if_typed();
    threads_stand_if_typed();
}

/// So it is of the code that is built of a source.
pub fn built_obeying_is_unreported_if_typed()
    ensures { BuiltObeyingIsUnreportedIfTyped }
{
    built_is_source();
    range_laws();
    obeying_is_unreported_if_typed();
}

/// Each report of every checked run of such code, by threads in any order, if the code is typed, shows its cause: A1
/// and A2 the other access, A3 that the thread does not hold the mutex which the mode of the access names, A4 that
/// another reference is there; and by the events of the run the thread of the source wants next what was refused, at
/// the site of the report.
pub fn reports_show_if_typed()
    ensures { ReportsShowIfTyped }
{
    run_laws();
    causes_law();
    reports_law();
    followed_law();
    code_is_followed();
    threads_stand_if_typed();
}

/// So it is of the code that is built of a source.
pub fn built_reports_show_if_typed()
    ensures { BuiltReportsShowIfTyped }
{
    built_is_source();
    range_laws();
    reports_show_if_typed();
}
