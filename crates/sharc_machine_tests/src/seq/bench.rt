//! Threads of code that make their turns by turns.

ghost use Rattle.std.specs.Prelude.{◌≡◌, ◌≤◌, length};
ghost use Rattle.sharc_code.specs.Layout.{Fits, words_of};
ghost use Rattle.sharc_cpu.specs.Thread.{IsThread};

use crate::code::{Printed, add_prints, code, shape, trap_of};
use sharc_code::{Code, Function, Instr, Shape, TOP, opening, state_word};
use sharc_cpu::{Pause, Stop, Thread, Wait, run_quantum};
use sharc_tree::trap::Trap;
use sharc_word::{MemPort, Port, WordOp, WordStep};
use std::alloc::{AllocError, Global};

/// More events than any thread here makes.
pub const LIMIT: u64 = 10000;

/// What is looked at of a run: what was printed, where both threads stopped, the last answer of each, what thread 0
/// waits for and how many events it made, and the top of the heap. It holds nothing, so a test that ends early drops
/// nothing.
#[derive(Clone, Copy)]
pub struct Seen {
    pub printed: Printed,
    pub stops: (Option<Stop>, Option<Stop>),
    pub answers: (Pause, Pause),
    pub wait: Option<Wait>,
    pub made: u64,
    pub top: u64,
}

impl Seen {
    /// The trap at which thread 0 stopped, and its site.
    pub fn trap(&self) -> Option<(Trap, u32)> {
        trap_of(self.stops.0)
    }
}

// One turn of a thread that was started.
fn turn(
    code: &Code,
    shape: &Shape,
    thread: &mut Thread,
    port: &mut MemPort,
    limit: u64,
) -> Result<Pause, AllocError>
    requires fits { Fits code.now shape.now }
    requires thread { IsThread code.now shape.now thread.old }
    requires words { length port.old ≡ words_of shape.now }
    ensures thread { IsThread code.now shape.now thread.new }
    ensures words { length port.new ≡ words_of shape.now }
{
    let state = port.step(WordStep {
        word: state_word(thread.number()),
        op: WordOp::Load,
    });
    if state == 0 || limit < thread.made() {
        return Ok(Pause::Blocked);
    }
    thread.reserve(1)?;
    Ok(run_quantum(code, shape, thread, port, 1, limit))
}

/// This many turns of thread 0 and, once it is started, of thread 1, a turn of each in turn. Each makes at most `limit`
/// events.
pub fn run(
    alloc: Global,
    body: &[Instr],
    others: &[Function],
    turns: u32,
    limit: u64,
) -> Result<Seen, AllocError> {
    let code = code(alloc, body, others)?;
    run_in(alloc, &code, &shape(), turns, limit)
}

fn run_in(
    alloc: Global,
    code: &Code,
    shape: &Shape,
    turns: u32,
    limit: u64,
) -> Result<Seen, AllocError>
    requires { Fits code.now shape.now }
{
    let mut port = MemPort::new(opening(alloc, code, shape)?);
    let mut first = Thread::new(alloc, code, shape, 0)?;
    let mut second = Thread::new(alloc, code, shape, 1)?;
    let mut answers = (Pause::Ran, Pause::Ran);
    for _turn in 0..turns {
        answers.0 = turn(code, shape, &mut first, &mut port, limit)?;
        answers.1 = turn(code, shape, &mut second, &mut port, limit)?;
    }
    let words = port.into_words();
    Ok(Seen {
        printed: add_prints(add_prints([None, None, None], &first), &second),
        stops: (first.stop(), second.stop()),
        answers,
        wait: first.wait(),
        made: first.made(),
        top: words.get(TOP as usize).copied().unwrap_or(0),
    })
}
