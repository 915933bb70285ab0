//! The events of threads, one after the other in a given order.

use crate::ask::question::function_named;
use sharc_ask::asked::Outcome;
use sharc_ask::thread::ask;
use sharc_ctype::typed::Typed;
use sharc_judge::access::spawns;
use sharc_judge::store::value_after;
use sharc_mode::moded::Moded;
use sharc_tree::event::{Act, CellAt, SourceEvent, Taken};
use std::alloc::{AllocError, Global};

/// The function and the argument of a thread.
fn entry(t: &Typed, events: &[SourceEvent], thread: u32) -> (u32, i64) {
    for e in events {
        if spawns(thread as u64, e) {
            if let Act::Spawn(function, argument) = e.act {
                return (function, argument);
            }
        }
    }
    (function_named(t, "main"), 0)
}

/// The thread's first event.
fn started(t: &Typed, events: &[SourceEvent], thread: u32) -> Option<SourceEvent> {
    let (function, argument) = entry(t, events, thread);
    match t.function_at(function) {
        None => None,
        Some(definition) => Some(SourceEvent {
            thread,
            site: definition.name.site,
            answer: 0,
            act: Act::Started(argument),
        }),
    }
}

/// How many objects were made, or threads spawned.
fn count_like(events: &[SourceEvent], spawned: bool) -> i64 {
    let mut count = 0i64;
    for e in events {
        let counts = match e.act {
            Act::New(_, _, _) => !spawned,
            Act::Spawn(_, _) => spawned,
            _ => false,
        };
        if counts {
            count = count.wrapping_add(1);
        }
    }
    count
}

/// What the store answers: objects and threads are counted from 1.
fn answer_to(t: &Typed, events: &[SourceEvent], act: Act) -> i64 {
    match act {
        Act::Read(c, _) | Act::Take(Taken::Cell(c, _), _) => i64::try_from(value_after(
            t, events, c,
        )).unwrap_or(0),
        Act::New(_, elements, _) => i64::try_from(elements)
            .unwrap_or(0)
            .wrapping_mul(4_294_967_296)
            .wrapping_add(count_like(events, false))
            .wrapping_add(1),
        Act::Spawn(_, _) => count_like(events, true).wrapping_add(1),
        _ => 0,
    }
}

/// The answers of the thread's events after its first; none where it has not begun.
fn answers_of(
    alloc: Global,
    events: &[SourceEvent],
    thread: u32,
) -> Result<Option<Vec<i64>>, AllocError> {
    let mut begun = false;
    let mut answers = Vec::new(alloc);
    for e in events {
        if e.thread == thread {
            if begun {
                answers.push(e.answer)?;
            }
            begun = true;
        }
    }
    if begun { Ok(Some(answers)) } else { Ok(None) }
}

/// The event that comes with these answers, of which the last is its own.
fn last_asked(
    alloc: Global,
    m: &Moded,
    with: (u32, i64),
    thread: u32,
    answers: &[i64],
) -> Result<Option<SourceEvent>, AllocError> {
    let asked = ask(alloc, m, with.0, with.1, answers, 1000)?;
    match asked.events.as_slice() {
        [] => Ok(None),
        [.., last] => {
            let mut event = *last;
            event.thread = thread;
            Ok(Some(event))
        }
    }
}

/// The next event of a thread.
pub(crate) fn next_event(
    alloc: Global,
    m: &Moded,
    events: &[SourceEvent],
    thread: u32,
) -> Result<Option<SourceEvent>, AllocError> {
    match answers_of(alloc, events, thread)? {
        None => Ok(started(m.typed(), events, thread)),
        Some(mut answers) => {
            let with = entry(m.typed(), events, thread);
            let asked = ask(alloc, m, with.0, with.1, answers.as_slice(), 1000)?;
            match asked.outcome {
                Outcome::Wants(wanted, _) => {
                    answers.push(answer_to(m.typed(), events, wanted.act))?;
                    last_asked(alloc, m, with, thread, answers.as_slice())
                }
                _ => Ok(None),
            }
        }
    }
}
