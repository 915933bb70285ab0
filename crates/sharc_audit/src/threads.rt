// What threads ask for: each is asked with all that the lines report to it, and walked no further than its lines need.

ghost use Rattle.std.specs.Prelude.{◌≡◌, ◌+◌, ◌-◌, ◌<◌, ◌≤◌, ◌==◌, ◌∷◌, ◌++◌, [], IfOk, OnOk, length, drop, find};
ghost use Rattle.std.specs.{Prelude.{MatchOption, IsTrue, true, false, slice_get, Some}, List.list_any};
ghost use Rattle.sharc_meaning.specs.{Events.{is_of, events_of}, Meaning.asks, Store.spawns};
ghost use Rattle.sharc_ctype.specs.Resolved.{Resolution, function_at};
ghost use Rattle.sharc_audit.specs.Judging.{has_begun, start_of, start_at, next_asked, next_in};
ghost use Rattle.sharc_audit.specs.{Judging.{own_answers, event_at}, Known.{AreKnown, ArePlaces}, Reported.AreTold};
ghost use Rattle.sharc_audit.specs.{Reported.told_in, Walks.IsWalk, Lines.{told, told_to, IsLine}};
ghost use Rattle.sharc_audit.specs.declared.threads.NextEvent.TheVariants.{Wants};
ghost use Rattle.sharc_judge.specs.{Kept.IsSpawnedOnce, Starting.{main_of, entry}};
ghost use Rattle.sharc_tree.specs.declared.event.SourceEvent.{SourceEvent};

use crate::line::EventLine;
use crate::reported::{Reported, told_behind_first};
use crate::run::{ThreadRun, first_fuel, walk_to, walked};
use crate::runs::Runs;
use sharc_ctype::typed::Typed;
use sharc_judge::Past;
use sharc_meaning::laws::ask_laws;
use sharc_mode::moded::Moded;
use sharc_tree::event::{Act, SourceEvent};
use std::alloc::{AllocError, Global};

/// What a thread asks for.
#[derive(Clone, Copy)]
pub enum NextEvent {
    /// This event.
    Wants(SourceEvent),
    /// Its fuel is spent before.
    Spent,
    /// Nothing.
    Nothing,
}

/// The function and the argument of a thread.
fn entry(main: Option<u32>, past: &Past, thread: u32) -> Option<(u32, i64)>
    requires { IsSpawnedOnce past.now }
    ensures { (r : Resolution) → main ≡ main_of r → result ≡ entry r past.now thread }
{
    if thread == 0 {
        return match main {
            None => None,
            Some(f) => Some((f, 0)),
        };
    }
    match past.spawn_of(thread) {
        None => None,
        Some(e) => match e.act {
            Act::Spawn(f, v) => Some((f, v)),
            _ => None,
        },
    }
}

fn start_at(typed: &Typed, thread: u32, function: u32, argument: i64) -> NextEvent
    ensures { result ≡ start_at thread argument (function_at typed.now function) }
{
    match typed.function_at(function) {
        None => NextEvent::Nothing,
        Some(f) => NextEvent::Wants(SourceEvent {
            thread,
            site: f.name.site,
            answer: 0,
            act: Act::Started(argument),
        }),
    }
}

/// The first event of a thread.
fn start_of(typed: &Typed, main: Option<u32>, past: &Past, thread: u32) -> NextEvent
    requires main { main ≡ main_of typed.now }
    requires once { IsSpawnedOnce past.now }
    ensures { result ≡ start_of typed.now thread (entry typed.now past.now thread) }
{
    match entry(main, past, thread) {
        None => NextEvent::Nothing,
        Some(with) => start_at(typed, thread, with.0, with.1),
    }
}

fn event_at(run: &ThreadRun, place: usize) -> NextEvent
    ensures { result ≡ event_at run.now.thread run.now.walk.spent (slice_get run.now.walk.events place) }
{
    if place < run.walk.events.len() {
        let mut e = *run.walk.events.at(place);
        e.thread = run.thread;
        NextEvent::Wants(e)
    } else if run.walk.spent {
        NextEvent::Spent
    } else {
        NextEvent::Nothing
    }
}

/// What the thread asks for at this place behind its start.
fn next_of(
    alloc: Global,
    program: &Moded,
    place: usize,
    fuel: u64,
    run: &mut ThreadRun,
) -> Result<NextEvent, AllocError>
    requires walk { IsWalk program.now run.old.function run.old.argument run.old.answers.items run.old.walk }
    requires within { run.old.walk.fuel ≤ fuel }
    ensures same { run.new ≡ record run.old { walk = run.new.walk } }
    ensures walk { OnOk result
        (IsWalk program.now run.old.function run.old.argument run.old.answers.items run.new.walk) }
    ensures within { OnOk result (run.new.walk.fuel ≤ fuel) }
    ensures next { IfOk result (λ next. next ≡ next_in run.old.thread place
        (asks program.now run.old.function run.old.argument run.old.answers.items fuel)) }
{
    ask_laws();
    walk_to(alloc, program, place, fuel, run)?;
    Ok(event_at(run, place))
}

/// What the thread of the line asks for after these events.
pub(crate) fn next_asked(
    alloc: Global,
    program: &Moded,
    main: Option<u32>,
    fuel: u64,
    past: &Past,
    line: &EventLine,
    rest: &[EventLine],
    runs: &mut Runs,
) -> Result<NextEvent, AllocError>
    requires main { main ≡ main_of program.now.typed }
    requires known { AreKnown program.now fuel past.now (line.now ∷ rest.now) runs.old.runs.items }
    requires places { ArePlaces runs.old.places runs.old.runs.items }
    requires once { IsSpawnedOnce past.now }
    ensures next { IfOk result (λ next. next ≡ next_asked program.now fuel past.now line.now) }
    ensures known { OnOk result (AreKnown program.now fuel past.now (line.now ∷ rest.now) runs.new.runs.items) }
    ensures places { OnOk result (ArePlaces runs.new.places runs.new.runs.items) }
{
    ask_laws();
    match runs.place_of(line.thread) {
        None => Ok(start_of(program.typed(), main, past, line.thread)),
        Some(i) => {
            let count = past.count(line.thread);
            if count == 0 {
                return Ok(NextEvent::Nothing);
            }
            next_of(alloc, program, count - 1, fuel, &mut runs.runs[i])
        }
    }
}

/// The run of a thread that starts, with all that the lines report to it behind its first.
fn begin(
    alloc: Global,
    program: &Moded,
    fuel: u64,
    thread: u32,
    with: (u32, i64),
    all: &Reported,
) -> Result<ThreadRun, AllocError>
    ensures thread { IfOk result (λ run. run.thread ≡ thread) }
    ensures function { IfOk result (λ run. run.function ≡ with.0) }
    ensures argument { IfOk result (λ run. run.argument ≡ with.1) }
    ensures answers { IfOk result (λ run. run.answers.items ≡ drop 1 (told_in all.now thread)) }
    ensures walk { IfOk result (λ run. IsWalk program.now with.0 with.1 (drop 1 (told_in all.now thread)) run.walk) }
    ensures within { IfOk result (λ run. run.walk.fuel ≤ fuel) }
{
    let answers = told_behind_first(alloc, all, thread)?;
    let walk = walked(
        alloc,
        program,
        with.0,
        with.1,
        answers.as_slice(),
        first_fuel(fuel),
    )?;
    Ok(ThreadRun {
        thread,
        function: with.0,
        argument: with.1,
        answers,
        walk,
    })
}

/// Takes note of an event that is accepted: where its thread starts by it, what it asks for.
pub(crate) fn accept(
    alloc: Global,
    program: &Moded,
    main: Option<u32>,
    fuel: u64,
    past: &Past,
    line: &EventLine,
    rest: &[EventLine],
    all: &Reported,
    runs: &mut Runs,
) -> Result<(), AllocError>
    requires main { main ≡ main_of program.now.typed }
    requires known { AreKnown program.now fuel past.now (line.now ∷ rest.now) runs.old.runs.items }
    requires places { ArePlaces runs.old.places runs.old.runs.items }
    requires told { AreTold all.now past.now (line.now ∷ rest.now) }
    requires once { IsSpawnedOnce past.now }
    ensures known { OnOk result ((e : SourceEvent) → next_asked program.now fuel past.now line.now ≡ Wants e
        → line.now.thread ≡ e.thread → told line.now ≡ e.answer
        → AreKnown program.now fuel (past.now ++ e ∷ []) rest.now runs.new.runs.items) }
    ensures places { OnOk result (ArePlaces runs.new.places runs.new.runs.items) }
{
    match runs.place_of(line.thread) {
        Some(_) => Ok(()),
        None => match entry(main, past, line.thread) {
            None => Ok(()),
            Some(with) => {
                let run = begin(alloc, program, fuel, line.thread, with, all)?;
                runs.add(run)?;
                Ok(())
            }
        },
    }
}
