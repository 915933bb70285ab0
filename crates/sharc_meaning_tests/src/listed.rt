// The references to an object, each listed at one place of the events.

ghost use Rattle.std.specs.{Prelude.{◌≡◌, ◌++◌, ◌||◌, IfOk, OnOk, map}, List.list_any};
ghost use Rattle.sharc_ctype.specs.Resolved.{function_at};
ghost use Rattle.sharc_meaning.specs.{Events.is_of, References.{takes_to_free, is_taken_to_free, takes_reference}};
ghost use Rattle.sharc_meaning.specs.{References.{has_pointer, passes}, Runs.SourceRun};
ghost use Rattle.sharc_meaning_tests.specs.{Answered.AreReferences, Listed.{at_places, counts, cell_refers, cell_at}};
ghost use Rattle.sharc_meaning_tests.specs.Listed.{mutex_at, is_passed, argument_at, in_thread_all, thread_at, by_act};
ghost use Rattle.sharc_meaning_tests.specs.Listed.{holders_at, holders};
ghost use Rattle.sharc_judge.specs.Starting.{main_of};
ghost use Rattle.sharc_tree.specs.declared.event.Object.TheVariants.{Made};

use crate::holder::Holder;
use crate::pointers::is_pointer_of;
use crate::starts::{refers, thread_count};
use sharc_ctype::typed::Typed;
use sharc_ctype_laws::laws::meets_globals;
use sharc_judge::access::{makes, spawns};
use sharc_judge::history::{Test, any};
use sharc_judge::laws::same_laws;
use sharc_judge::same::same_object;
use sharc_judge::starts::main_of;
use sharc_judge::store::{is_live, value_after};
use sharc_mode::moded::Moded;
use sharc_names::kind::{declared_kind, is_pointer};
use sharc_tree::event::{Act, CellAt, Object, SourceEvent, TakeKind};
use sharc_tree::tree::Declaration;
use std::alloc::{AllocError, Global};

/// Whether by the event a `free` takes the object.
fn takes_to_free(number: u32, e: &SourceEvent) -> bool
    ensures { result ≡ takes_to_free (Made number) e.now }
{
    match e.act {
        Act::Take(_, TakeKind::Free) => refers(number, e.answer as i128),
        _ => false,
    }
}

/// Whether a `free` has taken the object, and it was not made again since.
fn is_taken_to_free(events: &[SourceEvent], number: u32) -> bool
    ensures { result ≡ is_taken_to_free events.now number }
{
    let mut taken = false;
    for e in events {
        if makes(Object::Made(number), e) || takes_to_free(number, e) {
            taken = takes_to_free(number, e);
        }
    }
    taken
}

/// Whether the cells of the object count among the references to the object of this number.
fn counts(events: &[SourceEvent], number: u32, object: Object) -> bool
    ensures { result ≡ counts events.now number object }
{
    match object {
        Object::Global(_) => true,
        Object::Made(k) => {
            is_live(events, object) && (k == number || !is_taken_to_free(events, k))
        }
    }
}

/// Whether the cell is a pointer that counts and refers to the object.
fn cell_refers(typed: &Typed, events: &[SourceEvent], number: u32, c: CellAt) -> bool
    ensures { result ≡ cell_refers typed.now events.now number c }
{
    is_pointer_of(typed, events, c.object, c.cell)
        && counts(events, number, c.object)
        && refers(number, value_after(typed, events, c))
}

fn takes_reference(parameters: &[Declaration]) -> bool
    ensures { result ≡ takes_reference parameters.now }
{
    match parameters {
        [] => false,
        [first, ..] => is_pointer(declared_kind(&first.written)),
    }
}

fn has_pointer(typed: &Typed, function: u32) -> bool
    ensures { result ≡ has_pointer (function_at typed.now function) }
{
    match typed.function_at(function) {
        None => false,
        Some(function) => takes_reference(function.parameters.as_slice()),
    }
}

/// Whether the act is a Spawn that passes a reference to the object.
fn passes(typed: &Typed, number: u32, act: Act) -> bool
    ensures { result ≡ passes typed.now number act }
{
    match act {
        Act::Spawn(function, argument) => {
            has_pointer(typed, function) && refers(number, argument as i128)
        }
        _ => false,
    }
}

fn is_passed(typed: &Typed, number: u32, thread: u64, e: &SourceEvent) -> bool
    ensures { result ≡ is_passed typed.now number thread e.now }
{
    spawns(thread, e) && passes(typed, number, e.act)
}

fn any_passed(typed: &Typed, number: u32, thread: u64, events: &[SourceEvent]) -> bool
    ensures { result ≡ list_any (is_passed typed.now number thread) events.now }
{
    for e in events {
        if is_passed(typed, number, thread, e) {
            return true;
        }
    }
    false
}

/// Whether the thread of this number has an event.
fn has_events(thread: u64, events: &[SourceEvent]) -> bool
    ensures { result ≡ list_any (is_of thread) events.now }
{
    for e in events {
        if e.thread as u64 == thread {
            return true;
        }
    }
    false
}

fn add_cell(
    typed: &Typed,
    events: &[SourceEvent],
    number: u32,
    c: CellAt,
    after: &[SourceEvent],
    list: &mut Vec<Holder>,
) -> Result<(), AllocError>
    ensures { OnOk result (list.new.items ≡ list.old.items ++ cell_at typed.now events.now number c after.now) }
{
    if !any(Test::Changes(c), after) && cell_refers(typed, events, number, c) {
        list.push(Holder::InCell(c))?;
    }
    Ok(())
}

fn add_mutex(
    number: u32,
    c: CellAt,
    after: &[SourceEvent],
    list: &mut Vec<Holder>,
) -> Result<(), AllocError>
    ensures { OnOk result (list.new.items ≡ list.old.items ++ mutex_at number c after.now) }
{
    if same_object(c.object, Object::Made(number)) && !any(Test::LocksOrUnlocks(c), after) {
        list.push(Holder::InMutex(c))?;
    }
    Ok(())
}

fn add_argument(
    typed: &Typed,
    events: &[SourceEvent],
    number: u32,
    e: &SourceEvent,
    after: &[SourceEvent],
    list: &mut Vec<Holder>,
) -> Result<(), AllocError>
    ensures { OnOk result (list.new.items
        ≡ list.old.items ++ argument_at typed.now events.now number e.now after.now e.now.answer) }
{
    if e.answer < 0 {
        return Ok(());
    }
    let thread = e.answer.unsigned_abs();
    if passes(typed, number, e.act)
        && !has_events(thread, events)
        && !any_passed(typed, number, thread, after)
    {
        list.push(Holder::InArgument(thread))?;
    }
    Ok(())
}

fn add_by_act(
    typed: &Typed,
    events: &[SourceEvent],
    number: u32,
    e: &SourceEvent,
    after: &[SourceEvent],
    list: &mut Vec<Holder>,
) -> Result<(), AllocError>
    ensures { OnOk result (list.new.items
        ≡ list.old.items ++ by_act typed.now events.now number e.now after.now e.now.act) }
{
    match e.act {
        Act::Write(c, _, _) => add_cell(typed, events, number, c, after, list),
        Act::Lock(c) => add_mutex(number, c, after, list),
        Act::Spawn(_, _) => add_argument(typed, events, number, e, after, list),
        _ => Ok(()),
    }
}

fn push_thread(thread: u32, count: usize, list: &mut Vec<Holder>) -> Result<(), AllocError>
    ensures { OnOk result (list.new.items ≡ list.old.items ++ in_thread_all thread count) }
{
    for which in 0..count {
        list.push(Holder::InThread(thread, which as u64))?;
    }
    Ok(())
}

/// What the threads are asked with.
#[derive(Clone, Copy)]
struct Threads<'a> {
    alloc: Global,
    m: &'a Moded,
    main: Option<u32>,
    fuel: u64,
}

fn add_thread(
    threads: Threads<'_>,
    events: &[SourceEvent],
    number: u32,
    thread: u32,
    after: &[SourceEvent],
    list: &mut Vec<Holder>,
) -> Result<(), AllocError>
    requires { threads.main ≡ main_of threads.m.now.typed }
    ensures { OnOk result (list.new.items
        ≡ list.old.items ++ thread_at threads.entry.fuel threads.entry.m.now events.now number thread after.now) }
{
    if has_events(thread as u64, after) {
        return Ok(());
    }
    let count = thread_count(
        threads.alloc,
        threads.m,
        threads.main,
        threads.fuel,
        events,
        thread,
        number,
    )?;
    push_thread(thread, count, list)
}

/// Adds the holders of each place.
fn add_all(
    threads: Threads<'_>,
    events: &[SourceEvent],
    number: u32,
    rest: &[SourceEvent],
    list: &mut Vec<Holder>,
) -> Result<(), AllocError>
    requires { threads.main ≡ main_of threads.m.now.typed }
    ensures { OnOk result (list.new.items
        ≡ list.old.items ++ at_places (holders_at threads.entry.fuel threads.entry.m.now events.now number) rest.now) }
{
    match rest {
        [] => Ok(()),
        [e, after @ ..] => {
            add_by_act(threads.m.typed(), events, number, e, after, list)?;
            add_thread(threads, events, number, e.thread, after, list)?;
            add_all(threads, events, number, after, list)
        }
    }
}

/// The references to the made object of this number after the events, where threads have come as far as they do with
/// this fuel: each once. The events are those of a source run; of any other list nothing is said. Out of memory is
/// answered, too, where there are more functions than a number of 32 bits counts.
pub fn references(
    alloc: Global,
    program: &Moded,
    events: &[SourceEvent],
    number: u32,
    fuel: u64,
) -> Result<Vec<Holder>, AllocError>
    ensures { IfOk result (λ all. SourceRun program.now events.now
        → AreReferences fuel program.now events.now number all.items) }
{
    meets_globals();
    same_laws();
    let main = main_of(program.typed())?;
    let threads = Threads {
        alloc,
        m: program,
        main,
        fuel,
    };
    program.typed().program();
    let mut list = Vec::new(alloc);
    add_all(threads, events, number, events, &mut list)?;
    Ok(list)
}
