//! The laws, each the contract of a function that calls at most the laws that it joins.

ghost use Rattle.sharc_accepted_laws.specs.Accepted.{OfSources};
ghost use Rattle.sharc_compile_laws.specs.Paths.{OfTyped};
ghost use Rattle.sharc_wants_laws.specs.{Alone.PassedAreAlone, Cause.CastReportsShowCause};
ghost use Rattle.sharc_wants_laws.specs.Beginning.{FunctionsAreOneByName, ThreadsBeginByRight, ThreadsHaveBegun};
ghost use Rattle.sharc_wants_laws.specs.{Elsewhere.{ArgumentsSee, LogsSee}, Hands.{FreesEmpty, HandsFly}};
ghost use Rattle.sharc_wants_laws.specs.{Cells.CellsSee, Holding.{PathsHold, ThreadsHold}};
ghost use Rattle.sharc_wants_laws.specs.Only.{
  ArgumentsHoldNone,
  CellsHoldNone,
  FreedAreTaken,
  MutexesHoldNone,
  TakenAreLive,
  TestedAreOnly,
  ThreadsHoldNone,
};
ghost use Rattle.sharc_wants_laws.specs.{Registered.HeldAreRegistered, Seeing.{CastersHold, TestersGive, ThreadsSee}};
ghost use Rattle.sharc_wants_laws.specs.{Silent.SilentHaveNothing, Sole.RegistersAreSeen};

use crate::meant::{held_are_held_on, last_takers, taken_are_being_taken};
use sharc_accepted_laws::accepted::accepted_levels;
use sharc_accepted_laws::targets::{global_pointers_are, globals_point};
use sharc_code::run_laws;
use sharc_compile::{paths_law, run_paths_law};
use sharc_compile_laws::flattened::made_counts;
use sharc_compile_laws::{
    functions_are_named, own_are_told, spawned_are_threads, threads_may_start, typed_threads_tell,
};
use sharc_ctype_laws::laws::each_names_itself;
use sharc_flat::form_laws::path_laws;
use sharc_flat_laws::laws::{typed_asks_the_same, typed_is_framed};
use sharc_guard::framed_law;
use sharc_history_laws::{
    causes_law, cells_seen_law, grows_law, kept_law, paths_law as history_paths_law,
    pointers_kept_law, pointers_made_law, reports_law, seen_law, starts_law,
};
use sharc_invariant::laws::{runs_report, runs_stand, runs_stay};
use sharc_meaning::laws::ask_laws;

/// What the registers of a thread of the code of a typed, well-moded program refer to, on each path whose results are
/// consistent, the program holds or has given up that was asked by the answers of the thread's own events.
pub fn path_holds()
    ensures { OfSources PathsHold }
{
    typed_asks_the_same();
    typed_is_framed();
    made_counts();
    accepted_levels();
    functions_are_named();
    paths_law();
    framed_law();
    path_laws();
}

/// So it is of each thread of a checked run of that code, by threads in any order, where the results of the paths of
/// all are consistent.
pub fn thread_holds()
    ensures { OfSources ThreadsHold }
{
    path_holds();
    run_paths_law();
    own_are_told();
}

/// So what the registers of a thread refer to is among the references of its history, where no reference to it is in
/// flight.
pub fn threads_see()
    ensures { OfSources ThreadsSee }
{
    thread_holds();
    each_names_itself();
    ask_laws();
    held_are_held_on();
}

/// The other way round: what the program holds, with any fuel from some fuel on, a register of the thread refers to, or
/// the thread has loaded it and raises it next. Where the thread looks whether a reference is the only one, each is in
/// the register of its own place.
pub fn held_registered()
    ensures { OfSources HeldAreRegistered }
{
    path_holds();
    typed_asks_the_same();
    typed_is_framed();
    made_counts();
    accepted_levels();
    functions_are_named();
    each_names_itself();
    paths_law();
    run_paths_law();
    own_are_told();
    framed_law();
    path_laws();
}

/// And where a thread looks whether a reference is the only one, and two of its registers refer to the object, it holds
/// two references to it.
pub fn casters_hold()
    ensures { OfSources CastersHold }
{
    thread_holds();
    each_names_itself();
    ask_laws();
}

/// And what it wants to give or to free there is the object of the reference that it looks at.
pub fn testers_give()
    ensures { OfSources TestersGive }
{
    thread_holds();
    each_names_itself();
    ask_laws();
}

/// What a Free of a thread has taken out of a cell and not lowered yet is in flight.
pub fn hands_fly()
    ensures { OfSources HandsFly }
{
    thread_holds();
    each_names_itself();
}

/// And wherever a thread is at a Free before the Freed of the object, the program gives up the pointer cells of that.
pub fn frees_empty()
    ensures { OfSources FreesEmpty }
{
    thread_holds();
    each_names_itself();
}

/// What a cell refers to at a place of a checked run of code that is typed by the program's targets: a cell of a global
/// is among the references of the history, and so is one of an object that is made, if no `free` has taken that or the
/// cell refers to it; but while a Free empties the object.
pub fn cells_see()
    ensures { CellsSee }
{
    cells_seen_law();
    pointers_made_law();
    global_pointers_are();
}

/// Where a thread looks whether a reference is the only one to its object, another register with one is another
/// thread's that the history shows, or shows that the thread holds two: if each thread has begun or has nothing, and no
/// other thread has one in flight.
pub fn registers_seen()
    ensures { OfSources RegistersAreSeen }
{
    threads_see();
    casters_hold();
}

/// Two functions at one name are one.
pub fn functions_are_one_by_name()
    ensures { FunctionsAreOneByName }
{
    each_names_itself();
}

/// A thread of a checked run of typed code begins with a function that may be started: with main, or by a Spawn before.
pub fn threads_begin_by_right()
    ensures { OfTyped ThreadsBeginByRight }
{
    each_names_itself();
    functions_are_named();
    spawned_are_threads();
    threads_may_start();
    starts_law();
}

/// So one that has told an event has begun with a function that may be started.
pub fn threads_have_begun()
    ensures { OfTyped ThreadsHaveBegun }
{
    threads_begin_by_right();
    typed_threads_tell();
    history_paths_law();
}

/// One that has told no event has nothing in its registers or in hand.
pub fn silent_have_nothing()
    ensures { OfSources SilentHaveNothing }
{
    path_holds();
    run_paths_law();
    own_are_told();
    typed_is_framed();
    framed_law();
}

/// Where the argument of a thread that has not read it refers to an object, the argument is among the references of the
/// history.
pub fn arguments_see()
    ensures { ArgumentsSee }
{
    seen_law();
}

/// Where the log of a thread's held mutexes refers to an object, a mutex of it is.
pub fn logs_see()
    ensures { LogsSee }
{
    seen_law();
}

/// What the report of a refused cast shows: the number was found where the thread tested a reference, and at that place
/// the references of the history have another one, if no other thread has one in flight.
pub fn reports_show_cause()
    ensures { OfSources CastReportsShowCause }
{
    history_paths_law();
    reports_law();
    seen_law();
    registers_seen();
    threads_have_begun();
    silent_have_nothing();
    hands_fly();
    frees_empty();
    testers_give();
    taken_are_being_taken();
    cells_see();
    arguments_see();
    logs_see();
}

/// Where a thread of typed code looks whether a reference is the only one to its object, and the count that it finds is
/// 1, no other register, cell, argument, log or hand of any thread refers to the object.
pub fn passed_are_alone()
    ensures { PassedAreAlone }
{
    run_laws();
    runs_stay();
    runs_stand();
    runs_report();
}

/// By the history no other thread holds a reference to the object there, and the thread that tests holds none but the
/// one that it tests.
pub fn threads_hold_none()
    ensures { OfSources ThreadsHoldNone }
{
    run_laws();
    runs_stand();
    history_paths_law();
    causes_law();
    seen_law();
    each_names_itself();
    threads_have_begun();
    held_registered();
    passed_are_alone();
}

/// Nor is an argument one that is not read yet.
pub fn arguments_hold_none()
    ensures { OfTyped ArgumentsHoldNone }
{
    seen_law();
    kept_law();
    passed_are_alone();
}

/// No mutex of the object is held there.
pub fn mutexes_hold_none()
    ensures { MutexesHoldNone }
{
    seen_law();
    kept_law();
    passed_are_alone();
}

/// And where a cell that is a pointer of a live object, by the table of targets, refers to it, a thread is in the
/// middle of a Free of the cell's object, which is another one.
pub fn cells_hold_none()
    ensures { CellsHoldNone }
{
    seen_law();
    kept_law();
    passed_are_alone();
}

/// What the last event of a thread has taken to free it is live.
pub fn taken_are_live()
    ensures { OfSources TakenAreLive }
{
    run_laws();
    runs_stand();
    history_paths_law();
    causes_law();
    each_names_itself();
    threads_have_begun();
    held_registered();
    ask_laws();
    last_takers();
}

/// By the history a `free` has taken an object that a Free is emptying.
pub fn freed_are_taken()
    ensures { OfSources FreedAreTaken }
{
    history_paths_law();
    seen_law();
    grows_law();
    threads_have_begun();
    silent_have_nothing();
    frees_empty();
    last_takers();
    taken_are_live();
}

/// So where a test of a cast or a `free` passed, the reference that it is about is the only one to its object by the
/// history.
pub fn tested_are_only()
    ensures { OfSources TestedAreOnly }
{
    seen_law();
    pointers_kept_law();
    globals_point();
    threads_hold_none();
    arguments_hold_none();
    mutexes_hold_none();
    cells_hold_none();
    freed_are_taken();
}
