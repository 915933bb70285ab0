//! Sources and sinks that give little, fail and stall: whole replies over them.

use crate::outcome::{Outcome, READERS, assert_outcome, called};
use crate::streams::{Dripping, Trickling};
use sharc_io::{MemSink, MemSource, SureSink, SureSource};
use sharc_run::OpenGate;
use std::alloc::{AllocError, Global};
use std::sync::Wait;
use std::test::Fail;
use std::thread::Threads;

/// The program that prints 6 * 7.
const ANSWER: &str = "int main(void) { print(6 * 7); return 0; }";

/// A program that prints 9 three times.
const NINES: &str = "int main(void) { print(9); print(3 * 3); print(4 + 5); return 0; }";

/// The outcome where these calls of the source and of the sink fail, counted from 0.
fn failing<R: Threads + Wait + Sync>(
    rt: &R,
    alloc: Global,
    line: &str,
    input: &str,
    read_fails: &[u64],
    write_fails: &[u64],
) -> Result<Outcome, AllocError> {
    let bytes = input.as_bytes().to_vec(alloc)?;
    let mut source = MemSource::new(bytes, read_fails.to_vec(alloc)?);
    let mut sink = MemSink::new(alloc, 1_000, write_fails.to_vec(alloc)?)?;
    let status = called(rt, &OpenGate, alloc, line, &mut source, &mut sink)?;
    let text = sink.bytes().to_vec(alloc)?;
    Ok(Outcome { status, text })
}

/// The outcome over a source that gives one byte at each call, and a sink with this much room.
fn dripped<R: Threads + Wait + Sync>(
    rt: &R,
    alloc: Global,
    line: &str,
    input: &str,
    room: usize,
) -> Result<Outcome, AllocError> {
    let mut source = Dripping(SureSource::new(input.as_bytes().to_vec(alloc)?));
    let mut sink = SureSink::new(alloc, room)?;
    let status = called(rt, &OpenGate, alloc, line, &mut source, &mut sink)?;
    let text = sink.bytes().to_vec(alloc)?;
    Ok(Outcome { status, text })
}

/// The outcome over a sink that takes one byte at each call, and nothing at this one.
fn trickled<R: Threads + Wait + Sync>(
    rt: &R,
    alloc: Global,
    line: &str,
    nothing_at: u64,
) -> Result<Outcome, AllocError> {
    let mut source = SureSource::new(READERS.as_bytes().to_vec(alloc)?);
    let mut sink = Trickling {
        sink: SureSink::new(alloc, 100)?,
        nothing_at,
        calls: 0,
        stalls: 0,
    };
    let status = called(rt, &OpenGate, alloc, line, &mut source, &mut sink)?;
    let text = sink.sink.bytes().to_vec(alloc)?;
    Ok(Outcome { status, text })
}

/// How the interleaving of a run is chosen.
static RUNS: [&str; 4] = ["run", "run --workers 1", "run --workers 16", "run --seed 1"];

/// For the call of the sink that fails, counted from 0: the status and the text of a run that makes three.
static CUT_SHORT: [(u64, u8, &str); 4] = [
    (0, 10, ""),
    (1, 10, "9\n"),
    (2, 10, "9\n9\n"),
    (3, 0, "9\n9\n9\n"),
];

#[test]
fn a_sink_that_fails_has_the_lines_before(rt: HostRuntime) -> Result<(), Fail> {
    for line in RUNS {
        for input in [READERS, NINES] {
            for (call, status, text) in CUT_SHORT {
                let found = failing(&rt, rt.alloc(), line, input, &[], &[call])?;
                assert_outcome(&rt, &found, line, status, text);
            }
        }
    }
    Ok(())
}

/// For the byte that the sink does not take: the status and the text.
static STALLED: [(u64, u8, &str); 4] = [
    (1, 10, ""),
    (3, 10, "9\n"),
    (6, 10, "9\n9\n9"),
    (7, 0, "9\n9\n9\n"),
];

#[test]
fn a_sink_that_stalls_has_the_bytes_before(rt: HostRuntime) -> Result<(), Fail> {
    for line in RUNS {
        for (byte, status, text) in STALLED {
            let found = trickled(&rt, rt.alloc(), line, byte)?;
            assert_outcome(&rt, &found, line, status, text);
        }
    }
    Ok(())
}

#[test]
fn a_sink_without_room_has_a_front_part(rt: HostRuntime) -> Result<(), Fail> {
    let found = dripped(&rt, rt.alloc(), "run", NINES, 3)?;
    assert_outcome(&rt, &found, "run", 10, "9\n9");
    Ok(())
}

/// Words and sources, separated by bars: the first write fails, whatever was to be written.
const UNWRITTEN: &str =
    "check|int main(void) { return 0; }\ncheck|@\nrun|@\nexplain|int g; int main(void) { return 0; }\naudit|%%events 0\nhelp|\nload 1|\nrun|int main(void) { print(1 / 0); return 0; }";

#[test]
fn a_failed_write_is_told_last(rt: HostRuntime) -> Result<(), Fail> {
    for case in UNWRITTEN.split('\n') {
        if let Some((line, input)) = case.split_once('|') {
            let found = failing(&rt, rt.alloc(), line, input, &[], &[0])?;
            assert_outcome(&rt, &found, case, 10, "");
        }
    }
    let source = "int g; int main(void) { return 0; }";
    let found = failing(&rt, rt.alloc(), "explain", source, &[], &[1])?;
    assert_outcome(
        &rt,
        &found,
        "explain",
        10,
        "input:1: global g: int private\n",
    );
    Ok(())
}

/// Commands that read.
static READING: [&str; 5] = ["check", "explain", "run", "run --seed 3", "audit"];

/// What they read, and the call that fails, counted from 0.
static UNREAD: [(&str, u64); 7] = [
    (ANSWER, 0),
    (ANSWER, 1),
    ("@", 0),
    ("@", 1),
    ("int main(void) { print(y); return 0; }", 0),
    ("int main(void) { print(y); return 0; }", 1),
    ("", 0),
];

#[test]
fn a_failed_read_is_told_before_any_fault_of_the_source(rt: HostRuntime) -> Result<(), Fail> {
    for line in READING {
        for (input, call) in UNREAD {
            let found = failing(&rt, rt.alloc(), line, input, &[call], &[])?;
            assert_outcome(&rt, &found, line, 9, "");
        }
    }
    Ok(())
}

/// The reply to words that are no command.
const USAGE: &str =
    "usage: check | explain | run [--workers N] [--granules N] [--events N] [--seed N] | load N [--workers N] | record [--workers N] [--granules N] [--events N] | replay | audit\n";

#[test]
fn a_source_that_is_not_read_cannot_fail(rt: HostRuntime) -> Result<(), Fail> {
    let found = failing(&rt, rt.alloc(), "load 1", ANSWER, &[0], &[])?;
    assert_outcome(&rt, &found, "load", 0, "bytes 486\nfunctions 3\n36\n");
    for line in ["run --workers 17", "check check", "run --events 0", "Run"] {
        let found = failing(&rt, rt.alloc(), line, "@", &[0], &[])?;
        assert_outcome(&rt, &found, line, 8, USAGE);
    }
    Ok(())
}

#[test]
fn a_source_may_give_a_byte_at_a_time(rt: HostRuntime) -> Result<(), Fail> {
    for line in RUNS {
        let found = dripped(&rt, rt.alloc(), line, ANSWER, 100)?;
        assert_outcome(&rt, &found, line, 0, "42\n");
    }
    let found = dripped(&rt, rt.alloc(), "check", ANSWER, 100)?;
    assert_outcome(&rt, &found, "check", 0, "accepted\n");
    let found = dripped(&rt, rt.alloc(), "check", "\n\n@", 100)?;
    assert_outcome(&rt, &found, "check", 2, "input:3: L1 byte 64 at offset 2\n");
    Ok(())
}
