//! Where the threads are at the end of a run.

ghost use Rattle.std.specs.Prelude.{◌≡◌, ◌<◌, ◌+◌, List, Some, false, IfOk, OnOk, MatchOption};
ghost use Rattle.sharc_word.specs.declared.step.TheConstants.{THREADS as threads};
ghost use Rattle.sharc_code.specs.{declared.code.Code.Code, declared.shape.Shape.Shape, Runs.Turn, Whole.place_after};
ghost use Rattle.sharc_seq.specs.Walk.{IsThreadThere, IsWalk, StandsAt};
ghost use Rattle.sharc_history.specs.Lasts.{is_held, is_last, IsHaltAt, AreLasts, AreLastsUpTo};

use crate::cells::Where;
use crate::next::{Coming, next_of};
use crate::refused::refused_at;
use sharc_code::{Code, Stop, TurnState, run_laws};
use sharc_cpu::Thread;
use sharc_seq::Walk;
use sharc_word::THREADS;
use std::alloc::{AllocError, Global};

/// Why a thread that is not gone makes no turn.
#[derive(Clone, Copy)]
pub enum Halt {
    /// It waits, to make this turn.
    Waits(Coming),
    /// It was stopped; and what it looked at, where it was a check that stopped it.
    Stopped(Stop, Option<Where>),
}

/// A thread that is not gone at the end of a run, and has not made all the events that it may.
#[derive(Clone, Copy)]
pub struct Last {
    pub thread: u32,
    pub halt: Halt,
}

// More events than a thread may make, so that a thread that is not enabled with this limit waits, is stopped or is
// gone.
const NO_LIMIT: u64 = 100_000_001;

// Whether the thread of this number, which is this one, is neither gone nor stopped, and waits.
fn is_held(walk: &Walk, thread: &Thread, number: u8) -> bool
    requires number { number < threads }
    requires walk { (code : Code) × (s : Shape) × IsWalk code s walk.now }
    ensures { (code : Code) (s : Shape) (turns : List Turn) → StandsAt code s turns walk.now
        → IsThreadThere code s turns number (Some thread.now)
        → result ≡ is_held code s (place_after code s turns) number }
{
    run_laws();
    match thread.state() {
        TurnState::Runs | TurnState::Tries => !walk.may_turn(number, NO_LIMIT),
        TurnState::Stopped | TurnState::Ended => false,
    }
}

// Why this thread, which has this number, makes no turn, if it waits or was stopped.
fn halt_of(code: &Code, walk: &Walk, thread: &Thread, number: u8) -> Option<Halt>
    requires number { number < threads }
    requires walk { (s : Shape) × IsWalk code.now s walk.now }
    ensures { (s : Shape) (turns : List Turn) → StandsAt code.now s turns walk.now
        → IsThreadThere code.now s turns number (Some thread.now)
        → MatchOption result (is_last code.now s (place_after code.now s turns) number ≡ false)
        (IsHaltAt code.now s (place_after code.now s turns) number) }
{
    match thread.stop() {
        Some(stop) => Some(Halt::Stopped(stop, refused_at(code, thread))),
        None => {
            if is_held(walk, thread, number) {
                Some(Halt::Waits(next_of(code, thread)))
            } else {
                None
            }
        }
    }
}

// The same of the thread of this number, if it was started.
fn halt_at(code: &Code, walk: &Walk, number: u8) -> Option<Halt>
    requires number { number < threads }
    requires walk { (s : Shape) × IsWalk code.now s walk.now }
    ensures { (s : Shape) (turns : List Turn) → StandsAt code.now s turns walk.now
        → MatchOption result (is_last code.now s (place_after code.now s turns) number ≡ false)
        (IsHaltAt code.now s (place_after code.now s turns) number) }
{
    match walk.thread(number) {
        Some(thread) => halt_of(code, walk, thread, number),
        None => None,
    }
}

// Lists the thread of this number, if it waits or was stopped, behind those with lower numbers.
fn list(lasts: &mut Vec<Last>, code: &Code, walk: &Walk, number: u8) -> Result<(), AllocError>
    requires number { number < threads }
    requires walk { (s : Shape) × IsWalk code.now s walk.now }
    ensures { OnOk result ((s : Shape) (turns : List Turn) → StandsAt code.now s turns walk.now
        → AreLastsUpTo code.now s (place_after code.now s turns) number lasts.old.items
        → AreLastsUpTo code.now s (place_after code.now s turns) (number + 1) lasts.new.items) }
{
    match halt_at(code, walk, number) {
        Some(halt) => {
            lasts.push(Last {
                thread: u32::from(number),
                halt,
            })?;
            Ok(())
        }
        None => Ok(()),
    }
}

/// The threads that wait or were stopped, in rising order of their numbers.
///
/// An `Err` says that memory was not found.
pub(crate) fn lasts(alloc: Global, code: &Code, walk: &Walk) -> Result<Vec<Last>, AllocError>
    requires { (s : Shape) × IsWalk code.now s walk.now }
    ensures { IfOk result (λ lasts. (s : Shape) (turns : List Turn) → StandsAt code.now s turns walk.now
        → AreLasts code.now s (place_after code.now s turns) lasts.items) }
{
    let mut lasts = Vec::new(alloc);
    for number in 0..THREADS {
        list(&mut lasts, code, walk, number as u8)?;
    }
    Ok(lasts)
}
