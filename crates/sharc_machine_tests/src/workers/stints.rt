//! A stint of a thread ends, where it can, with no mutex held.

use crate::code::function;
use crate::workers::bench::{A, LIMIT, VALUE, in_rounds};
use sharc_code::{Instr, Operator, Parameter, Register};
use sharc_rounds::{End, Gate};
use std::process::Abort;
use std::sync::atomic::{AtomicU64, Ordering};
use std::test::Fail;

// `main` starts two threads and joins both. Each adds 1 to the value under the mutex, forty thousand times: that takes
// several quanta.
const ADDS: [Instr; 16] = [
    Instr::Spawn(1, 1, Register::Int(0), 3),
    Instr::Spawn(2, 1, Register::Int(0), 3),
    Instr::Join(1, 4),
    Instr::Join(2, 4),
    Instr::Return(6),
    // The thread, at place 7.
    Instr::Constant(3, 1),
    Instr::Constant(4, 40_000),
    // Its loop, at place 9.
    Instr::Lock(A, 3),
    Instr::Load(2, VALUE, 3),
    Instr::ComputeInt(Operator::Add, 2, 2, 3, 3),
    Instr::Store(2, VALUE, 3),
    Instr::Unlock(0, A, 3),
    Instr::ComputeInt(Operator::Subtract, 4, 4, 3, 3),
    Instr::JumpIfZero(4, 17),
    Instr::Jump(9),
    // At place 17.
    Instr::Return(6),
];

// Counts the steps of threads 1 and 2.
#[derive(Drop)]
struct Steps {
    of_1: AtomicU64,
    of_2: AtomicU64,
}

impl Gate for Steps {
    fn step(&self, _worker: u32, thread: u32) {
        if thread == 1 {
            self.of_1.fetch_add(1, Ordering::SeqCst);
        }
        if thread == 2 {
            self.of_2.fetch_add(1, Ordering::SeqCst);
        }
    }
}

// By one worker a thread would try in vain where a quantum of the other ended in the section, and so make a step more.
// As it is, each makes the steps of its code: four in each round of its loop, and four to begin and to end.
#[test]
fn no_try_fails(rt: HostRuntime) -> Result<(), Fail> {
    let gate = Steps {
        of_1: AtomicU64::new(0),
        of_2: AtomicU64::new(0),
    };
    let others = [function(7, Parameter::None)];
    let ran = in_rounds(&rt, rt.alloc(), &ADDS, &others, 1, LIMIT, &gate)?;
    assert_eq!(rt; ran.end, End::AllDone);
    assert_eq!(rt; ran.value, 80_000);
    assert_eq!(rt; gate.of_1.load(Ordering::SeqCst), 4 + 40_000 * 4);
    assert_eq!(rt; gate.of_2.load(Ordering::SeqCst), 4 + 40_000 * 4);
    Ok(())
}
