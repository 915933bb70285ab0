//! In how many threads of the system the steps of a run are made, and how large a place of the table of threads is.

use crate::code::function;
use crate::workers::bench::{BOTH, LIMIT, in_rounds};
use sharc_code::{Instr, Parameter, Register};
use sharc_cpu::Thread;
use sharc_rounds::{End, Gate};
use std::fs;
use std::mem::size_of;
use std::process::Abort;
use std::sync::atomic::{AtomicU64, Ordering};
use std::test::Fail;

// A place of the table has a line of the cache: what a thread has is in a box, and is not moved with it. In the place
// it would be ten times as much.
const _: () = prove!(size_of::<Option<Thread>>() <= 64);

// Keeps the numbers of the first threads of the system that come, 0 where fewer came, and counts the steps whose thread
// is not known.
#[derive(Drop)]
struct Callers<'a> {
    rt: &'a HostRuntime,
    first: AtomicU64,
    second: AtomicU64,
    unknown: AtomicU64,
}

/// The number that Linux gave the thread which calls this.
pub fn own_number(rt: &HostRuntime) -> Option<u64> {
    match fs::read_link(rt, "/proc/thread-self") {
        Ok(path) => match path.file_name() {
            Some(name) => match name.parse::<u64>() {
                Ok(number) => Some(number),
                Err(_) => None,
            },
            None => None,
        },
        Err(_) => None,
    }
}

/// Keeps the number at this place, if none is there; answers whether it is there now.
pub fn keeps(place: &AtomicU64, number: u64) -> bool {
    match place.compare_exchange(0, number, Ordering::SeqCst, Ordering::SeqCst) {
        Ok(_) => true,
        Err(other) => other == number,
    }
}

impl<'a> Gate for Callers<'a> {
    fn step(&self, _worker: u32, _thread: u32) {
        match own_number(self.rt) {
            Some(number) => {
                if !keeps(&self.first, number) {
                    keeps(&self.second, number);
                }
            }
            None => {
                self.unknown.fetch_add(1, Ordering::SeqCst);
            }
        }
    }
}

impl<'a> Callers<'a> {
    fn new(rt: &'a HostRuntime) -> Callers<'a> {
        Callers {
            rt,
            first: AtomicU64::new(0),
            second: AtomicU64::new(0),
            unknown: AtomicU64::new(0),
        }
    }

    // Whether more than one thread of the system came.
    fn are_several(&self) -> bool {
        self.second.load(Ordering::SeqCst) != 0
    }
}

// `main` starts a thread and joins it, twice: in each round one thread alone is enabled.
const ONE_BY_ONE: [Instr; 7] = [
    Instr::Spawn(1, 1, Register::Int(0), 3),
    Instr::Join(1, 4),
    Instr::Spawn(1, 1, Register::Int(0), 3),
    Instr::Join(1, 4),
    Instr::Return(6),
    // The thread, at place 7.
    Instr::Return(8),
    Instr::Exit,
];

// Where one worker alone has an enabled thread, the caller makes all steps, whichever worker it is; where two have,
// another thread is started.
#[test]
fn workers_are_started_where_two_are_busy(rt: HostRuntime) -> Result<(), Fail> {
    let others = [function(7, Parameter::None)];
    for workers in [1, 2, 4, 16] {
        let gate = Callers::new(&rt);
        let ran = in_rounds(&rt, rt.alloc(), &ONE_BY_ONE, &others, workers, LIMIT, &gate)?;
        assert_eq!(rt; ran.end, End::AllDone);
        assert_eq!(rt; ran.threads, 3);
        assert_eq!(rt; gate.are_several(), false, "{workers}");
        assert_eq!(rt; gate.unknown.load(Ordering::SeqCst), 0);
        let gate = Callers::new(&rt);
        let ran = in_rounds(&rt, rt.alloc(), &BOTH, &others, workers, LIMIT, &gate)?;
        assert_eq!(rt; ran.end, End::AllDone);
        assert_eq!(rt; gate.are_several(), workers > 1, "{workers}");
    }
    Ok(())
}
