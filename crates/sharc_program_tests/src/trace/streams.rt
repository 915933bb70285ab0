//! A source that fails, a sink that fails, and one with little room: whole replies, worked out by hand.

use crate::trace::cases::{CONFLICT, SIGNAL, STUCK};
use crate::trace::outcome::{Outcome, failing, full};
use std::process::Abort;
use std::test::Fail;

const USAGE: &str = "usage: [--places]\n";

/// The words of the three kinds of replies.
static WORDS: [&[&str]; 3] = [&[], &["--places"], &["--turns"]];

/// Words, a recorded file, and what a sink with little room has of the reply.
struct Full {
    words: &'static [&'static str],
    input: &'static str,
    text: &'static str,
}

/// What a sink with room for nine bytes has.
static FULL: [Full; 2] = [
    Full {
        words: &[],
        input: SIGNAL,
        text: "int main(",
    },
    Full {
        words: &["--places"],
        input: STUCK,
        text: "0 input:3",
    },
];

/// Asserts how a call ended that gives no reason, and what was written.
fn assert_ended(rt: &impl Abort, found: &Outcome, status: u8, text: &str) {
    assert!(rt; found.text.as_slice() == text.as_bytes());
    assert!(rt; found.ended.status.code() == status);
    assert!(rt; found.ended.why.is_none());
}

/// Asserts what is written where a call of the source fails, the first or the second.
fn assert_read_fault(
    rt: &(impl Abort + AllocGlobal),
    words: &[&str],
    status: u8,
    text: &str,
) -> Result<(), Fail> {
    for fails in 0..2 {
        let found = failing(rt.alloc(), words, CONFLICT.as_bytes(), &[fails], &[])?;
        assert_ended(rt, &found, status, text);
    }
    Ok(())
}

#[test]
fn a_read_that_fails_is_told_alone(rt: HostRuntime) -> Result<(), Fail> {
    assert_read_fault(&rt, &[], 9, "")?;
    assert_read_fault(&rt, &["--places"], 9, "")?;
    assert_read_fault(&rt, &["--turns"], 8, USAGE)
}

#[test]
fn a_sink_that_fails_has_nothing(rt: HostRuntime) -> Result<(), Fail> {
    for words in &WORDS {
        let found = failing(rt.alloc(), words, SIGNAL.as_bytes(), &[], &[0])?;
        assert_ended(&rt, &found, 10, "");
    }
    Ok(())
}

#[test]
fn a_sink_that_is_full_has_the_front(rt: HostRuntime) -> Result<(), Fail> {
    for case in &FULL {
        let found = full(rt.alloc(), case.words, case.input.as_bytes(), 9)?;
        assert_ended(&rt, &found, 10, case.text);
    }
    Ok(())
}
