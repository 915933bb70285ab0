//! Tables of sources as one text: a source, a line `--`, and lines with the digits of the threads in the order of their
//! events, the fuel, the number of the object, ` = ` and the references; a line `==` separates two cases.

use crate::ask::told::cell_text;
use crate::holder::Holder;
use crate::holders::threads::next_event;
use crate::listed::references;
use crate::sources::{inferred, parts};
use sharc_judge::first_illegal;
use sharc_mode::moded::Moded;
use sharc_tree::event::SourceEvent;
use std::alloc::{AllocError, Global};
use std::process::Abort;
use std::test::Fail;

/// A cell, `m` and a mutex, `a` and a thread's number for its argument, `t` and a thread's number with which of its
/// references it is.
fn holder_text(alloc: Global, holder: Holder) -> Result<String, AllocError> {
    match holder {
        Holder::InCell(c) => cell_text(alloc, c),
        Holder::InArgument(thread) => format!(in alloc; "a{thread}"),
        Holder::InMutex(c) => {
            let cell = cell_text(alloc, c)?;
            let cell = cell.as_str();
            format!(in alloc; "m {cell}")
        }
        Holder::InThread(thread, which) => format!(in alloc; "t{thread}.{which}"),
    }
}

fn holders_text(alloc: Global, holders: &[Holder]) -> Result<String, AllocError> {
    if holders.is_empty() {
        return format!(in alloc; "none");
    }
    let mut text = String::new(alloc);
    for holder in holders {
        if !text.is_empty() {
            text.push_str("; ")?;
        }
        let holder = holder_text(alloc, *holder)?;
        text.push_str(holder.as_str())?;
    }
    Ok(text)
}

/// The events of the threads whose digits are in the word.
fn events_of(
    rt: &(impl Abort + AllocGlobal),
    m: &Moded,
    word: &str,
) -> Result<Vec<SourceEvent>, Fail> {
    let mut events = Vec::new(rt.alloc());
    for digit in word.as_bytes() {
        let thread = digit.wrapping_sub(48) as u32;
        match next_event(rt.alloc(), m, events.as_slice(), thread)? {
            None => panic!(rt; "thread {thread} has no event in {word}"),
            Some(event) => events.push(event)?,
        }
    }
    assert!(rt;
        first_illegal(m.typed(), events.as_slice()).is_none(),
        "{word}"
    );
    Ok(events)
}

fn assert_line(
    rt: &(impl Abort + AllocGlobal),
    m: &Moded,
    source: &str,
    question: &str,
    wanted: &str,
) -> Result<(), Fail> {
    let mut words = question.split(" ");
    let events = events_of(rt, m, words.next().unwrap_or(""))?;
    let fuel = words.next().unwrap_or("").parse::<u64>().unwrap_or(0);
    let number = words.next().unwrap_or("").parse::<u32>().unwrap_or(0);
    let found = references(rt.alloc(), m, events.as_slice(), number, fuel)?;
    let text = holders_text(rt.alloc(), found.as_slice())?;
    assert_eq!(rt; text.as_str(), wanted, "{question} of {source}");
    Ok(())
}

fn assert_lines(rt: &(impl Abort + AllocGlobal), source: &str, lines: &str) -> Result<(), Fail> {
    let m = inferred(rt, source)?;
    for line in lines.lines() {
        let (question, wanted) = parts(rt, line, " = ")?;
        assert_line(rt, &m, source, question, wanted)?;
    }
    Ok(())
}

/// Asserts the references of each line of each case.
pub(crate) fn assert_table(rt: &(impl Abort + AllocGlobal), table: &str) -> Result<(), Fail> {
    for case in table.split("==\n") {
        let (source, lines) = parts(rt, case, "--\n")?;
        assert_lines(rt, source, lines)?;
    }
    Ok(())
}
