//! How often a thread tries again that finds a mutex held.

use crate::code::function;
use crate::workers::bench::{A, LIMIT, VALUE, in_rounds};
use crate::workers::gates::LOOKS;
use sharc_code::{Instr, Parameter, Register};
use sharc_rounds::{End, Gate};
use std::process::Abort;
use std::sync::atomic::{AtomicU64, Ordering};
use std::test::Fail;

// Holds thread 2 until thread 1 has the mutex and is about to make its next step, and thread 1 there until thread 2 has
// asked for it so often; then it looks on for a while, in case that more tries come.
#[derive(Drop)]
struct HoldsMutex {
    tries: u64,
    asked_1: AtomicU64,
    asked_2: AtomicU64,
    seen: AtomicU64,
    given_up: AtomicU64,
}

// A thread makes two steps before the one that asks for the mutex.
const BEFORE: u64 = 2;

// Looks at a count until it is this great.
fn look_for(count: &AtomicU64, least: u64, given_up: &AtomicU64) {
    for _ in 0..LOOKS {
        if count.load(Ordering::SeqCst) >= least {
            return;
        }
    }
    given_up.fetch_add(1, Ordering::SeqCst);
}

impl HoldsMutex {
    fn hold_1(&self) {
        look_for(&self.asked_2, self.tries, &self.given_up);
        for _ in 0..1_000_000u64 {
            self.seen
                .store(self.asked_2.load(Ordering::SeqCst), Ordering::SeqCst);
        }
    }
}

impl Gate for HoldsMutex {
    fn step(&self, _worker: u32, thread: u32) {
        if thread == 1 && self.asked_1.fetch_add(1, Ordering::SeqCst) == BEFORE + 1 {
            self.hold_1();
        }
        if thread == 2 && self.asked_2.fetch_add(1, Ordering::SeqCst) == 0 {
            look_for(&self.asked_1, BEFORE + 2, &self.given_up);
        }
    }
}

// A thread that finds the mutex held tries 64 times more before it is out of the round, where another works at the same
// time.
#[test]
fn a_thread_tries_again(rt: HostRuntime) -> Result<(), Fail> {
    let body = [
        Instr::Spawn(1, 1, Register::Int(0), 3),
        Instr::Spawn(2, 1, Register::Int(0), 3),
        Instr::Join(1, 4),
        Instr::Join(2, 4),
        Instr::Return(6),
        // The thread, at place 7.
        Instr::Lock(A, 7),
        Instr::Store(0, VALUE, 7),
        Instr::Unlock(0, A, 7),
        Instr::Return(8),
        Instr::Exit,
    ];
    let gate = HoldsMutex {
        tries: BEFORE + 1 + 64,
        asked_1: AtomicU64::new(0),
        asked_2: AtomicU64::new(0),
        seen: AtomicU64::new(0),
        given_up: AtomicU64::new(0),
    };
    let ran = in_rounds(
        &rt,
        rt.alloc(),
        &body,
        &[function(7, Parameter::None)],
        2,
        LIMIT,
        &gate,
    )?;
    assert_eq!(rt; ran.end, End::AllDone);
    assert_eq!(rt; gate.given_up.load(Ordering::SeqCst), 0);
    assert_eq!(rt; gate.seen.load(Ordering::SeqCst), BEFORE + 1 + 64);
    Ok(())
}
