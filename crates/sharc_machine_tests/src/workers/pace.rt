//! Who makes the rounds: workers, where a gate may hold a thread; else the caller or workers, by how fast they were.

ghost use Rattle.std.specs.Prelude.{◌<◌};

use crate::code::function;
use crate::workers::bench::{A, BOTH, LIMIT, VALUE, in_rounds};
use crate::workers::gates::LOOKS;
use crate::workers::starts::{keeps, own_number};
use sharc_code::{Instr, Parameter, Register};
use sharc_rounds::{End, Gate};
use std::process::Abort;
use std::sync::atomic::{AtomicU64, Ordering};
use std::test::Fail;

// `main` starts two threads and joins both. Each goes round and round: a step, and then 14 turns without one.
const LOOPS: [Instr; 21] = [
    Instr::Spawn(1, 1, Register::Int(0), 3),
    Instr::Spawn(2, 1, Register::Int(0), 3),
    Instr::Join(1, 4),
    Instr::Join(2, 4),
    Instr::Return(6),
    // The thread, at place 7.
    Instr::Store(0, VALUE, 7),
    Instr::Constant(1, 1),
    Instr::Constant(1, 2),
    Instr::Constant(1, 3),
    Instr::Constant(1, 4),
    Instr::Constant(1, 5),
    Instr::Constant(1, 6),
    Instr::Constant(1, 7),
    Instr::Constant(1, 8),
    Instr::Constant(1, 9),
    Instr::Constant(1, 10),
    Instr::Constant(1, 11),
    Instr::Constant(1, 12),
    Instr::Constant(1, 13),
    Instr::Jump(7),
    Instr::Exit,
];

// Holds each step of thread 1 until thread 2 has asked for as many, and the other way round. It counts how often it
// gave up; then it holds nobody any more.
#[derive(Drop)]
struct SideBySide {
    asked_1: AtomicU64,
    asked_2: AtomicU64,
    given_up: AtomicU64,
}

impl SideBySide {
    fn hold(&self, own: &AtomicU64, other: &AtomicU64) {
        let asked = own.fetch_add(1, Ordering::SeqCst);
        if self.given_up.load(Ordering::SeqCst) > 0 {
            return;
        }
        for _ in 0..LOOKS {
            if other.load(Ordering::SeqCst) > asked {
                return;
            }
        }
        self.given_up.fetch_add(1, Ordering::SeqCst);
    }
}

impl Gate for SideBySide {
    fn step(&self, _worker: u32, thread: u32) {
        if thread == 1 {
            self.hold(&self.asked_1, &self.asked_2);
        }
        if thread == 2 {
            self.hold(&self.asked_2, &self.asked_1);
        }
    }
}

// A gate that tells no time may hold a thread until another has made a step. So in each of a dozen rounds two workers
// work at once: the caller alone would wait for ever.
#[test]
fn rounds_with_a_gate_that_holds_are_made_by_workers(rt: HostRuntime) -> Result<(), Fail> {
    let gate = SideBySide {
        asked_1: AtomicU64::new(0),
        asked_2: AtomicU64::new(0),
        given_up: AtomicU64::new(0),
    };
    let others = [function(7, Parameter::None)];
    let ran = in_rounds(&rt, rt.alloc(), &LOOPS, &others, 2, 12_000, &gate)?;
    assert_eq!(rt; ran.end, End::Budget);
    assert_eq!(rt; gate.given_up.load(Ordering::SeqCst), 0);
    let asked = gate.asked_1.load(Ordering::SeqCst);
    assert!(rt; asked >= 800);
    assert_eq!(rt; gate.asked_2.load(Ordering::SeqCst), asked);
    Ok(())
}

// Tells a time of its own, which goes on with each step of a thread of the system other than the first that came. It
// counts the steps of the first one and of others.
#[derive(Drop)]
struct Timed<'a> {
    rt: &'a HostRuntime,
    first: AtomicU64,
    by_first: AtomicU64,
    by_others: AtomicU64,
    time: AtomicU64,
}

impl<'a> Timed<'a> {
    fn new(rt: &'a HostRuntime) -> Timed<'a> {
        Timed {
            rt,
            first: AtomicU64::new(0),
            by_first: AtomicU64::new(0),
            by_others: AtomicU64::new(0),
            time: AtomicU64::new(0),
        }
    }

    fn counts(&self) -> (u64, u64) {
        (
            self.by_first.load(Ordering::SeqCst),
            self.by_others.load(Ordering::SeqCst),
        )
    }
}

impl<'a> Gate for Timed<'a> {
    fn step(&self, _worker: u32, _thread: u32) {
        if keeps(&self.first, own_number(self.rt).unwrap_or(0)) {
            self.by_first.fetch_add(1, Ordering::SeqCst);
        } else {
            self.by_others.fetch_add(1, Ordering::SeqCst);
            self.time.fetch_add(1_000, Ordering::SeqCst);
        }
    }

    fn nanoseconds(&self) -> Option<u64> {
        Some(self.time.fetch_add(1, Ordering::SeqCst))
    }
}

// Where the gate tells the time, the caller makes the first round in which two workers have something to do.
#[test]
fn the_caller_makes_the_first_round(rt: HostRuntime) -> Result<(), Fail> {
    let others = [function(7, Parameter::None)];
    for workers in [2, 4, 16] {
        let gate = Timed::new(&rt);
        let ran = in_rounds(&rt, rt.alloc(), &BOTH, &others, workers, LIMIT, &gate)?;
        assert_eq!(rt; ran.end, End::AllDone);
        assert_eq!(rt; gate.counts().1, 0, "{workers}");
    }
    Ok(())
}

// Workers make a round then; where that took longer, the caller makes those behind it.
#[test]
fn the_slower_ones_are_left(rt: HostRuntime) -> Result<(), Fail> {
    let others = [function(7, Parameter::None)];
    let gate = Timed::new(&rt);
    let ran = in_rounds(&rt, rt.alloc(), &LOOPS, &others, 2, 2_000_000, &gate)?;
    let (by_first, by_others) = gate.counts();
    assert_eq!(rt; ran.end, End::Budget);
    assert!(rt; by_others > 0);
    assert!(rt; by_others < by_first / 5, "{by_first} {by_others}");
    Ok(())
}

// Tells a time that goes on with the steps of others alone, so that workers never are faster. It counts how often the
// first thread of the system goes from one thread to another, and the steps of thread 2.
#[derive(Drop)]
struct Switches<'a> {
    timed: Timed<'a>,
    last: AtomicU64,
    switches: AtomicU64,
    of_2: AtomicU64,
}

impl<'a> Switches<'a> {
    fn new(rt: &'a HostRuntime) -> Switches<'a> {
        Switches {
            timed: Timed::new(rt),
            last: AtomicU64::new(0),
            switches: AtomicU64::new(0),
            of_2: AtomicU64::new(0),
        }
    }
}

impl<'a> Gate for Switches<'a> {
    fn step(&self, worker: u32, thread: u32) {
        let others = self.timed.counts().1;
        self.timed.step(worker, thread);
        if thread == 2 {
            self.of_2.fetch_add(1, Ordering::SeqCst);
        }
        if self.timed.counts().1 == others {
            let last = self.last.swap(u64::from(thread), Ordering::SeqCst);
            if last != u64::from(thread) {
                self.switches.fetch_add(1, Ordering::SeqCst);
            }
        }
    }

    fn nanoseconds(&self) -> Option<u64> {
        self.timed.nanoseconds()
    }
}

// Some hundred rounds without a thread that waits for a mutex or a condition. The caller makes the first sixteen by
// parts, in each of which it goes from one of three threads to the next some hundred and fifty times, and the others by
// whole quanta: 2,463 times in all. By parts alone it would be twice as often, by whole quanta some 300 times.
#[test]
fn the_caller_makes_whole_quanta_where_no_thread_waits(rt: HostRuntime) -> Result<(), Fail> {
    let others = [function(7, Parameter::None)];
    let gate = Switches::new(&rt);
    let ran = in_rounds(&rt, rt.alloc(), &LOOPS, &others, 2, 2_000_000, &gate)?;
    let switches = gate.switches.load(Ordering::SeqCst);
    assert_eq!(rt; ran.end, End::Budget);
    assert!(rt; switches > 1_000, "{switches}");
    assert!(rt; switches < 4_000, "{switches}");
    Ok(())
}

// `main` starts two threads and joins both. The first takes a mutex and goes round and round, the second waits for it.
const HOLDS: [Instr; 12] = [
    Instr::Spawn(1, 1, Register::Int(0), 3),
    Instr::Spawn(2, 2, Register::Int(0), 3),
    Instr::Join(1, 4),
    Instr::Join(2, 4),
    Instr::Return(6),
    // The first thread, at place 7.
    Instr::Lock(A, 8),
    Instr::Constant(1, 1),
    Instr::Constant(1, 2),
    Instr::Jump(8),
    // The second thread, at place 11.
    Instr::Lock(A, 12),
    Instr::Return(12),
    Instr::Exit,
];

// Where a thread waits at the end of each round, the caller makes all rounds by parts: the thread tries in each part,
// some two thousand times in all. By whole quanta it would be some hundred times.
#[test]
fn the_caller_makes_parts_where_a_thread_waits(rt: HostRuntime) -> Result<(), Fail> {
    let others = [function(7, Parameter::None), function(11, Parameter::None)];
    let gate = Switches::new(&rt);
    let ran = in_rounds(&rt, rt.alloc(), &HOLDS, &others, 2, 2_000_000, &gate)?;
    let tries = gate.of_2.load(Ordering::SeqCst);
    assert_eq!(rt; ran.end, End::Budget);
    assert!(rt; tries > 1_000, "{tries}");
    Ok(())
}
