//! What a thread asks for, in words.

use sharc_ask::asked::{Asked, Outcome};
use sharc_meaning::given::GivenUp;
use sharc_tree::event::{Act, CellAt, CellMode, Object, SourceEvent, TakeKind, Taken};
use std::alloc::{AllocError, Global};

/// A reference as its object and its elements, another value as a number.
fn value_text(alloc: Global, value: i64) -> Result<String, AllocError> {
    let object = value.unsigned_abs() % 4_294_967_296;
    let elements = value.unsigned_abs() / 4_294_967_296;
    if value < 0 || object == 0 || elements == 0 {
        format!(in alloc; "{value}")
    } else {
        format!(in alloc; "{object}:{elements}")
    }
}

/// An object and a cell of it.
pub(crate) fn cell_text(alloc: Global, c: CellAt) -> Result<String, AllocError> {
    let cell = c.cell;
    match c.object {
        Object::Global(number) => format!(in alloc; "g{number}.{cell}"),
        Object::Made(number) => format!(in alloc; "o{number}.{cell}"),
    }
}

fn mode_text(alloc: Global, mode: CellMode) -> Result<String, AllocError> {
    match mode {
        CellMode::Private => format!(in alloc; "private"),
        CellMode::Readonly => format!(in alloc; "readonly"),
        CellMode::Racy => format!(in alloc; "racy"),
        CellMode::Dynamic => format!(in alloc; "dynamic"),
        CellMode::Locked(None) => format!(in alloc; "locked by none"),
        CellMode::Locked(Some(c)) => {
            let cell = cell_text(alloc, c)?;
            let cell = cell.as_str();
            format!(in alloc; "locked by {cell}")
        }
    }
}

/// An access: what is done, the cell, the mode.
fn access_text(alloc: Global, word: &str, c: CellAt, mode: CellMode) -> Result<String, AllocError> {
    let cell = cell_text(alloc, c)?;
    let cell = cell.as_str();
    let mode = mode_text(alloc, mode)?;
    let mode = mode.as_str();
    format!(in alloc; "{word} {cell} {mode}")
}

fn on_cell(alloc: Global, word: &str, c: CellAt) -> Result<String, AllocError> {
    let cell = cell_text(alloc, c)?;
    let cell = cell.as_str();
    format!(in alloc; "{word} {cell}")
}

fn with_value(alloc: Global, words: &str, value: i64) -> Result<String, AllocError> {
    let value = value_text(alloc, value)?;
    let value = value.as_str();
    format!(in alloc; "{words} {value}")
}

fn with_mode(alloc: Global, words: &str, mode: CellMode) -> Result<String, AllocError> {
    let mode = mode_text(alloc, mode)?;
    let mode = mode.as_str();
    format!(in alloc; "{words} {mode}")
}

fn take_text(alloc: Global, taken: Taken, kind: TakeKind) -> Result<String, AllocError> {
    let word = match kind {
        TakeKind::Cast => "cast of",
        TakeKind::Free => "free of",
    };
    match taken {
        Taken::Local(_) => format!(in alloc; "{word} local"),
        Taken::Cell(c, mode) => access_text(alloc, word, c, mode),
    }
}

fn made_text(
    alloc: Global,
    cells: u64,
    elements: u64,
    mode: CellMode,
) -> Result<String, AllocError> {
    let words = format!(in alloc; "new {cells}x{elements}")?;
    with_mode(alloc, words.as_str(), mode)
}

fn given_text(alloc: Global, reference: i64, mode: CellMode) -> Result<String, AllocError> {
    let words = with_value(alloc, "give", reference)?;
    with_mode(alloc, words.as_str(), mode)
}

fn written_text(
    alloc: Global,
    c: CellAt,
    mode: CellMode,
    value: i64,
) -> Result<String, AllocError> {
    let words = access_text(alloc, "write", c, mode)?;
    with_value(alloc, words.as_str(), value)
}

fn spawn_text(alloc: Global, function: u32, argument: i64) -> Result<String, AllocError> {
    let words = format!(in alloc; "spawn f{function}")?;
    with_value(alloc, words.as_str(), argument)
}

/// An act with the value or the reference that it has.
fn act_text(alloc: Global, act: Act) -> Result<String, AllocError> {
    match act {
        Act::Read(c, mode) => access_text(alloc, "read", c, mode),
        Act::Write(c, mode, value) => written_text(alloc, c, mode, value),
        Act::New(cells, elements, mode) => made_text(alloc, cells, elements, mode),
        Act::Take(taken, kind) => take_text(alloc, taken, kind),
        Act::Give(reference, mode) => given_text(alloc, reference, mode),
        Act::Freed(reference) => with_value(alloc, "freed", reference),
        Act::Lock(c) => on_cell(alloc, "lock", c),
        Act::Unlock(c) => on_cell(alloc, "unlock", c),
        Act::Spawn(function, argument) => spawn_text(alloc, function, argument),
        Act::Started(argument) => with_value(alloc, "started", argument),
        Act::Join(number) => with_value(alloc, "join", number),
        Act::Print(value) => with_value(alloc, "print", value),
        Act::Return => format!(in alloc; "return"),
        Act::Gone => format!(in alloc; "gone"),
        Act::Enter(c) => on_cell(alloc, "enter", c),
        Act::Woken(c) => on_cell(alloc, "woken", c),
        Act::Signal(c) => on_cell(alloc, "signal", c),
        Act::Broadcast(c) => on_cell(alloc, "broadcast", c),
    }
}

/// Whether the act names an answer.
fn answers(act: Act) -> bool {
    match act {
        Act::Read(_, _) => true,
        Act::New(_, _, _) => true,
        Act::Take(_, _) => true,
        Act::Spawn(_, _) => true,
        Act::Signal(_) => true,
        _ => false,
    }
}

/// An event, with its answer where it names one.
fn event_text(alloc: Global, event: SourceEvent) -> Result<String, AllocError> {
    let words = act_text(alloc, event.act)?;
    if answers(event.act) {
        let words = format!(in alloc; "{words} is")?;
        with_value(alloc, words.as_str(), event.answer)
    } else {
        Ok(words)
    }
}

fn add_held(alloc: Global, held: &[i64], text: &mut String) -> Result<(), AllocError> {
    for value in held {
        let value = value_text(alloc, *value)?;
        text.push_str(" ")?;
        text.push_str(value.as_str())?;
    }
    Ok(())
}

fn wanted_text(alloc: Global, event: SourceEvent, held: &[i64]) -> Result<String, AllocError> {
    let words = act_text(alloc, event.act)?;
    let words = words.as_str();
    let mut text = format!(in alloc; "wants {words}, holds")?;
    add_held(alloc, held, &mut text)?;
    Ok(text)
}

fn outcome_text(alloc: Global, outcome: &Outcome) -> Result<String, AllocError> {
    match outcome {
        Outcome::Wants(event, held) => wanted_text(alloc, *event, held.as_slice()),
        Outcome::Ended => format!(in alloc; "ended"),
        Outcome::StoppedX(code, site) => {
            let line = site.line;
            format!(in alloc; "X{code} at line {line}")
        }
        Outcome::Fuel => format!(in alloc; "fuel"),
    }
}

fn released_text(alloc: Global, given: GivenUp) -> Result<String, AllocError> {
    match given {
        GivenUp::Released(number) => format!(in alloc; "{number}"),
        GivenUp::Replaced(c) => cell_text(alloc, c),
        GivenUp::Emptied(number) => format!(in alloc; "all of {number}"),
    }
}

/// What was given up since the last event.
pub(crate) fn given_up_text(alloc: Global, asked: &Asked) -> Result<String, AllocError> {
    if asked.given_up.as_slice().is_empty() {
        return format!(in alloc; "nothing");
    }
    let mut text = String::new(alloc);
    for given in asked.given_up.as_slice() {
        if !text.is_empty() {
            text.push_str(", ")?;
        }
        let given = released_text(alloc, *given)?;
        text.push_str(given.as_str())?;
    }
    Ok(text)
}

/// The events, and how far it came.
pub(crate) fn asked_text(alloc: Global, asked: &Asked) -> Result<String, AllocError> {
    let mut text = String::new(alloc);
    for event in asked.events.as_slice() {
        let event = event_text(alloc, *event)?;
        text.push_str(event.as_str())?;
        text.push_str("; ")?;
    }
    let outcome = outcome_text(alloc, &asked.outcome)?;
    text.push_str(outcome.as_str())?;
    Ok(text)
}
