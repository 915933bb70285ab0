// What threads that have begun hold.

ghost use Rattle.std.specs.Prelude.{◌≡◌, IfOk, count_by, drop, find};
ghost use Rattle.sharc_ctype.specs.Resolved.{Resolution};
ghost use Rattle.sharc_meaning.specs.{Events.events_of, Meaning.asks, References.{refers, held_count}, Runs.answers_of};
ghost use Rattle.sharc_meaning.specs.Store.{spawns};
ghost use Rattle.sharc_judge.specs.Starting.{main_of, entry};
ghost use Rattle.sharc_meaning_tests.specs.Starting.{thread_count};

use sharc_ask::thread::held;
use sharc_ctype::typed::Typed;
use sharc_judge::access::spawns;
use sharc_mode::moded::Moded;
use sharc_tree::event::{Act, SourceEvent};
use std::alloc::{AllocError, Global};

/// Whether the value is a reference to the object of this number.
pub(crate) fn refers(number: u32, value: i128) -> bool
    ensures { result ≡ refers number value }
{
    value != 0 && value.unsigned_abs() % 4294967296 == number as u128
}

/// The event by which the thread was spawned.
fn spawn_of(thread: u32, events: &[SourceEvent]) -> Option<SourceEvent>
    ensures { result ≡ find (spawns thread) events.now }
{
    for e in events {
        if spawns(thread as u64, e) {
            return Some(*e);
        }
    }
    None
}

/// The function and the argument of a thread.
fn entry(main: Option<u32>, events: &[SourceEvent], thread: u32) -> Option<(u32, i64)>
    ensures { (r : Resolution) → main ≡ main_of r → result ≡ entry r events.now thread }
{
    if thread == 0 {
        return match main {
            None => None,
            Some(f) => Some((f, 0)),
        };
    }
    match spawn_of(thread, events) {
        None => None,
        Some(e) => match e.act {
            Act::Spawn(f, v) => Some((f, v)),
            _ => None,
        },
    }
}

/// The answers of the thread's events.
fn answers_to(alloc: Global, events: &[SourceEvent], thread: u32) -> Result<Vec<i64>, AllocError>
    ensures { IfOk result (λ all. all.items ≡ answers_of (events_of thread events.now)) }
{
    let mut answers = Vec::new(alloc);
    for e in events {
        if e.thread == thread {
            answers.push(e.answer)?;
        }
    }
    Ok(answers)
}

/// All but the first.
fn behind_first(answers: &[i64]) -> &[i64]
    ensures { result.now ≡ drop 1 answers.now }
{
    match answers {
        [] => &[],
        [_, rest @ ..] => rest,
    }
}

/// How many of the pointers refer to the object.
fn count_of(number: u32, held: &[i64]) -> usize
    ensures { result ≡ count_by (refers number) held.now }
{
    let mut count = 0;
    for value in held {
        if refers(number, *value as i128) {
            count += 1;
        }
    }
    count
}

/// How many references to the object a thread of the function holds that has this argument and these answers.
fn held_count(
    alloc: Global,
    program: &Moded,
    fuel: u64,
    with: (u32, i64),
    answers: &[i64],
    number: u32,
) -> Result<usize, AllocError>
    ensures { IfOk result (λ count. count ≡ held_count (asks program.now with.0 with.1 answers.now fuel) number) }
{
    let held = held(alloc, program, with.0, with.1, answers, fuel)?;
    let count = count_of(number, held.as_slice());
    drop(held);
    Ok(count)
}

/// How many references to the object a thread that has begun holds with this fuel.
pub(crate) fn thread_count(
    alloc: Global,
    program: &Moded,
    main: Option<u32>,
    fuel: u64,
    events: &[SourceEvent],
    thread: u32,
    number: u32,
) -> Result<usize, AllocError>
    requires { main ≡ main_of program.now.typed }
    ensures { IfOk result (λ count. count ≡ thread_count fuel program.now events.now thread number) }
{
    match entry(main, events, thread) {
        None => Ok(0),
        Some(with) => {
            let answers = answers_to(alloc, events, thread)?;
            held_count(
                alloc,
                program,
                fuel,
                with,
                behind_first(answers.as_slice()),
                number,
            )
        }
    }
}
