//! Runs by two workers whose steps a gate holds.

use crate::outcome::{Outcome, READERS, assert_outcome, called};
use sharc_io::{SureSink, SureSource};
use sharc_rounds::Gate;
use std::alloc::{AllocError, Global};
use std::process::Abort;
use std::sync::Wait;
use std::sync::atomic::{AtomicU64, Ordering};
use std::test::Fail;
use std::thread::Threads;

/// A gate looks this many times, and then gives up.
const LOOKS: u64 = 100_000_000;

/// Holds the first step of thread 1 until this many steps of thread 2 were asked for, and the other way round, and
/// counts how often it gave up.
#[derive(Drop)]
struct Holds {
    for_1: u64,
    for_2: u64,
    asked_1: AtomicU64,
    asked_2: AtomicU64,
    given_up: AtomicU64,
}

impl Holds {
    fn new(for_1: u64, for_2: u64) -> Holds {
        Holds {
            for_1,
            for_2,
            asked_1: AtomicU64::new(0),
            asked_2: AtomicU64::new(0),
            given_up: AtomicU64::new(0),
        }
    }

    /// How often it gave up.
    fn given_up(&self) -> u64 {
        self.given_up.load(Ordering::SeqCst)
    }

    /// Counts the step, and holds it, if it is the first, until the other has asked for that many.
    fn hold(&self, own: &AtomicU64, other: &AtomicU64, count: u64) {
        if own.fetch_add(1, Ordering::SeqCst) > 0 {
            return;
        }
        for _ in 0..LOOKS {
            if other.load(Ordering::SeqCst) >= count {
                return;
            }
        }
        self.given_up.fetch_add(1, Ordering::SeqCst);
    }
}

impl Gate for Holds {
    fn step(&self, _worker: u32, thread: u32) {
        if thread == 1 {
            self.hold(&self.asked_1, &self.asked_2, self.for_1);
        }
        if thread == 2 {
            self.hold(&self.asked_2, &self.asked_1, self.for_2);
        }
    }
}

/// Two threads write a racy global by their third step.
const WRITERS: &str =
    "int racy f; void w(int k) { f = k; } int main(void) { int a = spawn(w, 1); int b = spawn(w, 2); join(a); join(b); print(f); return 0; }";

/// The outcome of the call with two workers under a gate, over a source and a sink that do not fail.
fn gated<R: Threads + Wait + Sync>(
    rt: &R,
    gate: &Holds,
    alloc: Global,
    line: &str,
    input: &[u8],
) -> Result<Outcome, AllocError> {
    let mut source = SureSource::new(input.to_vec(alloc)?);
    let mut sink = SureSink::new(alloc, 1_000)?;
    let status = called(rt, gate, alloc, line, &mut source, &mut sink)?;
    let text = sink.bytes().to_vec(alloc)?;
    Ok(Outcome { status, text })
}

/// Asserts what is written by a run that ends well under such a gate, which never gives up.
fn assert_held(
    rt: &(impl Abort + AllocGlobal + Threads + Wait + Sync),
    source: &str,
    gate: &Holds,
    wanted: &str,
) -> Result<(), Fail> {
    let found = gated(rt, gate, rt.alloc(), "run --workers 2", source.as_bytes())?;
    assert_outcome(rt, &found, source, 0, wanted);
    assert_eq!(rt; gate.given_up(), 0);
    Ok(())
}

#[test]
fn two_workers_work_at_once(rt: HostRuntime) -> Result<(), Fail> {
    assert_held(&rt, READERS, &Holds::new(1, 1), "9\n9\n9\n")
}

#[test]
fn the_thread_that_is_held_writes_last(rt: HostRuntime) -> Result<(), Fail> {
    assert_held(&rt, WRITERS, &Holds::new(4, 0), "1\n")?;
    assert_held(&rt, WRITERS, &Holds::new(0, 4), "2\n")
}

/// Asserts that a recorded run under such a gate is replayed with this text, which its file ends with.
fn assert_replayed(
    rt: &(impl Abort + AllocGlobal + Threads + Wait + Sync),
    gate: &Holds,
    wanted: &str,
) -> Result<(), Fail> {
    let file = gated(
        rt,
        gate,
        rt.alloc(),
        "record --workers 2",
        WRITERS.as_bytes(),
    )?;
    assert_eq!(rt; file.status, 0);
    assert_eq!(rt; gate.given_up(), 0);
    let start = format!(in rt.alloc(); "{WRITERS}\n%%schedule ")?;
    let end = format!(in rt.alloc(); "\n%%text\n{wanted}")?;
    assert!(rt; file.text.starts_with(start.as_bytes()) && file.text.ends_with(end.as_bytes()));
    let again = gated(rt, gate, rt.alloc(), "replay", &file.text)?;
    assert_outcome(rt, &again, "replay", 0, wanted);
    Ok(())
}

#[test]
fn the_thread_that_is_held_writes_last_in_a_record_too(rt: HostRuntime) -> Result<(), Fail> {
    assert_replayed(&rt, &Holds::new(4, 0), "1\n")?;
    assert_replayed(&rt, &Holds::new(0, 4), "2\n")
}
