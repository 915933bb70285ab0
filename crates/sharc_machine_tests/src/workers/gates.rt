//! Gates that hold the steps of one thread for those of another.

ghost use Rattle.std.specs.Prelude.{◌<◌};

use crate::code::function;
use crate::workers::bench::{LIMIT, VALUE, Worked, in_rounds, recorded};
use sharc_code::{Instr, Parameter, Register};
use sharc_rounds::{End, Gate};
use std::alloc::{AllocError, Global};
use std::process::Abort;
use std::sync::Wait;
use std::sync::atomic::{AtomicU64, Ordering};
use std::test::Fail;
use std::thread::Threads;

/// A gate looks this many times, and then gives up.
pub const LOOKS: u64 = 100_000_000;

// Holds the first step of thread 1 until this many steps of thread 2 were asked for, and the other way round. It counts
// how often it gave up, and how often a worker came with a thread that is not its own.
#[derive(Drop)]
struct Holds {
    workers: u32,
    for_1: u64,
    for_2: u64,
    asked_1: AtomicU64,
    asked_2: AtomicU64,
    given_up: AtomicU64,
    strange: AtomicU64,
}

impl Holds {
    fn new(workers: u32, for_1: u64, for_2: u64) -> Holds {
        Holds {
            workers,
            for_1,
            for_2,
            asked_1: AtomicU64::new(0),
            asked_2: AtomicU64::new(0),
            given_up: AtomicU64::new(0),
            strange: AtomicU64::new(0),
        }
    }

    // Counts the step, and holds it, if it is the first, until the other has asked for this many.
    fn hold(&self, own: &AtomicU64, other: &AtomicU64, count: u64) {
        if own.fetch_add(1, Ordering::SeqCst) > 0 {
            return;
        }
        for _ in 0..LOOKS {
            if other.load(Ordering::SeqCst) >= count {
                return;
            }
        }
        self.given_up.fetch_add(1, Ordering::SeqCst);
    }

    fn counts(&self) -> [u64; 4] {
        [
            self.asked_1.load(Ordering::SeqCst),
            self.asked_2.load(Ordering::SeqCst),
            self.given_up.load(Ordering::SeqCst),
            self.strange.load(Ordering::SeqCst),
        ]
    }
}

impl Gate for Holds {
    fn step(&self, worker: u32, thread: u32) {
        if thread.checked_rem(self.workers) != Some(worker) {
            self.strange.fetch_add(1, Ordering::SeqCst);
        }
        if thread == 1 {
            self.hold(&self.asked_1, &self.asked_2, self.for_1);
        }
        if thread == 2 {
            self.hold(&self.asked_2, &self.asked_1, self.for_2);
        }
    }
}

// `main` starts two threads, which are handed 1 and 2 and write that to the value; then it joins both and prints the
// value. A thread makes five steps, of which the third writes.
const WRITES: [Instr; 12] = [
    Instr::Constant(0, 1),
    Instr::Spawn(1, 1, Register::Int(0), 3),
    Instr::Constant(0, 2),
    Instr::Spawn(2, 1, Register::Int(0), 3),
    Instr::Join(1, 4),
    Instr::Join(2, 4),
    Instr::Load(3, VALUE, 5),
    Instr::Print(3, 5),
    Instr::Return(6),
    // The thread, at place 11.
    Instr::Store(0, VALUE, 7),
    Instr::Return(8),
    Instr::Exit,
];

// What was seen of a run, and how many steps each thread asked for, how often the gate gave up, and how often a worker
// was strange.
#[derive(Clone, Copy)]
struct Held {
    ran: Worked,
    counts: [u64; 4],
}

// A run in rounds and a recorded one, and whether the recorded one replays.
#[derive(Clone, Copy)]
struct Both {
    held: [Held; 2],
    replays: bool,
}

fn run_both<R: Threads + Wait + Sync>(
    rt: &R,
    alloc: Global,
    workers: u32,
    for_1: u64,
    for_2: u64,
) -> Result<Both, AllocError>
    requires { 0 < workers }
{
    let others = [function(11, Parameter::Int)];
    let gate = Holds::new(workers, for_1, for_2);
    let ran = in_rounds(rt, alloc, &WRITES, &others, workers, LIMIT, &gate)?;
    let counts = gate.counts();
    let gate = Holds::new(workers, for_1, for_2);
    let (again, replays) = recorded(rt, alloc, &WRITES, &others, workers, LIMIT, &gate)?;
    let held = [
        Held { ran, counts },
        Held {
            ran: again,
            counts: gate.counts(),
        },
    ];
    Ok(Both { held, replays })
}

// Each of two threads is held until the other asks: so two workers work at once.
#[test]
fn two_threads_wait_for_one_another(rt: HostRuntime) -> Result<(), Fail> {
    let both = run_both(&rt, rt.alloc(), 2, 1, 1)?;
    assert!(rt; both.replays);
    for held in both.held {
        assert_eq!(rt; held.ran.end, End::AllDone);
        assert_eq!(rt; held.ran.threads, 3);
        assert_eq!(rt; held.counts, [5, 5, 0, 0]);
    }
    Ok(())
}

// The thread that is held writes last.
#[test]
fn the_held_thread_writes_last(rt: HostRuntime) -> Result<(), Fail> {
    let both = run_both(&rt, rt.alloc(), 2, 4, 0)?;
    assert!(rt; both.replays);
    for held in both.held {
        assert_eq!(rt; held.ran.printed, [Some(1), None, None]);
        assert_eq!(rt; held.counts, [5, 5, 0, 0]);
    }
    let both = run_both(&rt, rt.alloc(), 2, 0, 4)?;
    assert!(rt; both.replays);
    for held in both.held {
        assert_eq!(rt; held.ran.printed, [Some(2), None, None]);
        assert_eq!(rt; held.counts, [5, 5, 0, 0]);
    }
    Ok(())
}

// One worker takes the threads in rising order, so the second writes last, and each worker comes with its own threads
// alone.
#[test]
fn each_worker_has_its_own_threads(rt: HostRuntime) -> Result<(), Fail> {
    let both = run_both(&rt, rt.alloc(), 1, 0, 0)?;
    assert!(rt; both.replays);
    for held in both.held {
        assert_eq!(rt; held.ran.printed, [Some(2), None, None]);
        assert_eq!(rt; held.counts, [5, 5, 0, 0]);
    }
    for workers in [2, 3, 4, 16, 31, 40] {
        let both = run_both(&rt, rt.alloc(), workers, 0, 0)?;
        assert!(rt; both.replays);
        for held in both.held {
            assert_eq!(rt; held.ran.end, End::AllDone);
            assert_eq!(rt; held.counts, [5, 5, 0, 0], "{workers}");
        }
    }
    Ok(())
}
