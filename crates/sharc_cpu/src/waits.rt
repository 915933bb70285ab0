//! What a thread waits for.

ghost use Rattle.std.specs.Prelude.{◌≡◌};
ghost use Rattle.sharc_code.specs.{Layout.IsShape, Path.may_go, Waits.{joins, wait_of}};
ghost use Rattle.sharc_cpu.specs.View.{machine_of};

use crate::cells::word;
use crate::parts::ThreadParts;
use sharc_code::{At, Code, Instr, Shape, TurnState, Wait};
use sharc_word::THREADS;

// A join of a number that a thread may have.
fn joins(number: i64, site: u32) -> Option<Wait>
    ensures { result ≡ joins number site }
{
    if 0 <= number && number < i64::from(THREADS) {
        Some(Wait::Join(number as u32, site))
    } else {
        None
    }
}

// Whether another turn may come.
fn may_go(state: TurnState) -> bool
    ensures { result ≡ may_go state }
{
    match state {
        TurnState::Runs | TurnState::Tries => true,
        TurnState::Stopped | TurnState::Ended => false,
    }
}

/// What the thread's next turn asks for that it may have to wait for, if it makes one.
pub(crate) fn wait_of(code: &Code, shape: Shape, at: At, parts: &ThreadParts) -> Option<Wait>
    requires { IsShape shape }
    ensures { result ≡ wait_of code.now shape (machine_of at parts.now) }
{
    if !may_go(at.state) {
        return None;
    }
    match code.instrs.get(at.pc).copied() {
        Some(Instr::Lock(cell, site)) => { Some(Wait::Mutex(word(shape, at, parts, cell), site)) }
        Some(Instr::Join(of, site)) => joins(parts.int(at, of), site),
        Some(Instr::CondWait(cell, site)) => {
            Some(Wait::Cond(word(shape, at, parts, cell), site))
        }
        _ => None,
    }
}
