//! Mutexes and condition variables.

ghost use Rattle.std.specs.Prelude.{◌≡◌, ◌<◌, ◌+◌, ◌^◌, ◌==◌, if◌then◌else◌, nat_lt, length, vec_capacity};
ghost use Rattle.sharc_word.specs.declared.step.WordOp.TheVariants as ops;
ghost use Rattle.sharc_word.specs.declared.step.TheConstants.{THREADS as threads};
ghost use Rattle.sharc_code.specs.Machine.{Asks, step_of, word, goes, taken, locked};
ghost use Rattle.sharc_code.specs.Machine.{unlocked, rests, woken, wakes, signal};
ghost use Rattle.sharc_locks.specs.Waiters.{without_lowest};
ghost use Rattle.sharc_cpu.specs.View.{rest_of, machine_of, IsWithin, MayTurn, MakesTurn};

use crate::cells::{ask, give_up_base, object, step_of, word};
use crate::checks::is_held;
use crate::parts::ThreadParts;
use crate::places::{Done, after_step, next, tries};
use crate::turns::{at_stage, rests};
use sharc_code::{At, Cell, Shape, Stage};
use sharc_word::{Port, WordOp};

/// Whether one mutex more may be held.
#[inline(always)]
pub(crate) fn has_room(parts: &ThreadParts) -> bool
    ensures { result ≡ nat_lt (length parts.now.held) 16 }
{
    !parts.held.is_full()
}

// The log has the mutex as well.
#[inline(always)]
fn taken(at: At, parts: &mut ThreadParts, mutex: u32, object: u64)
    ensures rest { rest_of parts.new ≡ record (rest_of
        parts.old) { own = record (rest_of parts.old).own { held = taken (machine_of at parts.old) mutex object } } }
    ensures room { vec_capacity parts.new.prints ≡ vec_capacity parts.old.prints }
{
    if !is_held(parts, mutex) {
        parts.held.take(mutex, object);
    }
}

// The mutex is the thread's where it was free, and its cell's reference goes to the log.
#[inline(always)]
fn locked(at: At, parts: &mut ThreadParts, cell: Cell, mutex: u32, found: u64) -> At
    requires place { at.pc + 1 < 2 ^ 64 }
    ensures turn { machine_of result parts.new ≡ locked (machine_of at parts.old) cell mutex found }
    ensures room { vec_capacity parts.new.prints ≡ vec_capacity parts.old.prints }
{
    if found != 0 {
        return tries(at);
    }
    let object = object(at, parts, cell);
    give_up_base(at, parts, cell);
    taken(at, parts, mutex, object);
    next(at)
}

// The mutex is no longer the thread's, and the log's reference goes to the register.
fn unlocked(at: At, parts: &mut ThreadParts, register: u32, mutex: u32) -> At
    requires place { at.pc + 1 < 2 ^ 64 }
    ensures turn { machine_of result parts.new ≡ unlocked (machine_of at parts.old) register mutex }
    ensures room { vec_capacity parts.new.prints ≡ vec_capacity parts.old.prints }
{
    let reference = parts.held.give(mutex).unwrap_or(0);
    parts.set_reference(at, register, reference);
    next(at)
}

// A failed try where the thread's own bit is set.
#[inline(always)]
fn woken(at: At, parts: &ThreadParts, found: u64) -> At
    requires thread { parts.now.number < threads }
    requires place { at.pc + 1 < 2 ^ 64 }
    ensures { machine_of result parts.now ≡ woken (machine_of at parts.now) found }
{
    if sharc_locks::waiters::waits(found, parts.number) {
        tries(at)
    } else {
        next(at)
    }
}

// Nobody waits, or the lowest waiter is to be taken away.
fn wakes(at: At, parts: &mut ThreadParts, found: u64) -> At
    requires place { at.pc + 1 < 2 ^ 64 }
    ensures turn { machine_of result parts.new ≡ wakes (machine_of at parts.old) found }
    ensures room { vec_capacity parts.new.prints ≡ vec_capacity parts.old.prints }
{
    if found == 0 {
        rests(at, parts)
    } else {
        at_stage(at, parts, Stage::Wakes(found))
    }
}

// The word without its lowest waiter.
fn without_lowest(waiters: u64) -> u64
    ensures { result ≡ without_lowest waiters }
{
    match sharc_locks::waiters::wake(waiters) {
        Some((_, others)) => others,
        None => 0,
    }
}

// The waiter that was seen is taken away, or the word is another now.
fn signalled(at: At, parts: &mut ThreadParts, seen: u64, found: u64) -> At
    requires place { at.pc + 1 < 2 ^ 64 }
    ensures turn { machine_of result parts.new ≡ (if found == seen then rests (machine_of at parts.old)
        else wakes (machine_of at parts.old) found) }
    ensures room { vec_capacity parts.new.prints ≡ vec_capacity parts.old.prints }
{
    if found == seen {
        rests(at, parts)
    } else {
        wakes(at, parts, found)
    }
}

/// Takes the mutex in this cell.
#[inline(always)]
pub(crate) fn lock<P: Port>(
    shape: Shape,
    at: At,
    parts: &mut ThreadParts,
    port: &mut P,
    cell: Cell,
) -> Done
    requires { MayTurn P.Port shape at port.old }
    ensures { MakesTurn P.Port (λ m. Asks (step_of (word shape m cell) (ops.Cas 0 (parts.old.number + 1)))
        (locked m cell (word shape m cell)))
        at parts.old result.at parts.new result.found port.old port.new }
{
    let word = word(shape, at, parts, cell);
    let holder = u64::from(parts.number) + 1;
    let found = ask(port, step_of(word, WordOp::Cas(0, holder)));
    after_step(locked(at, parts, cell, word, found), found)
}

/// Gives the mutex in the cell back.
#[inline(always)]
pub(crate) fn unlock<P: Port>(
    shape: Shape,
    at: At,
    parts: &mut ThreadParts,
    port: &mut P,
    register: u32,
    cell: Cell,
) -> Done
    requires { MayTurn P.Port shape at port.old }
    ensures { MakesTurn P.Port (λ m. Asks (step_of (word shape m cell) (ops.Swap 0))
        (λ found. unlocked m register (word shape m cell)))
        at parts.old result.at parts.new result.found port.old port.new }
{
    let word = word(shape, at, parts, cell);
    let found = ask(port, step_of(word, WordOp::Swap(0)));
    after_step(unlocked(at, parts, register, word), found)
}

/// The thread is among the waiters in this cell.
#[inline(always)]
pub(crate) fn enter<P: Port>(
    shape: Shape,
    at: At,
    parts: &mut ThreadParts,
    port: &mut P,
    cell: Cell,
) -> Done
    requires may { MayTurn P.Port shape at port.old }
    requires within { IsWithin shape (rest_of parts.old).own }
    ensures { MakesTurn P.Port (λ m. Asks (step_of (word shape m cell) (ops.Or (2 ^ parts.old.number)))
        (λ found. goes m))
        at parts.old result.at parts.new result.found port.old port.new }
{
    let word = word(shape, at, parts, cell);
    let op = sharc_locks::waiters::enter(parts.number);
    let found = ask(port, step_of(word, op));
    after_step(next(at), found)
}

/// Waits until it is not.
#[inline(always)]
pub(crate) fn wait<P: Port>(
    shape: Shape,
    at: At,
    parts: &mut ThreadParts,
    port: &mut P,
    cell: Cell,
) -> Done
    requires may { MayTurn P.Port shape at port.old }
    requires within { IsWithin shape (rest_of parts.old).own }
    ensures { MakesTurn P.Port (λ m. Asks (step_of (word shape m cell) ops.Load) (woken m))
        at parts.old result.at parts.new result.found port.old port.new }
{
    let word = word(shape, at, parts, cell);
    let found = ask(port, step_of(word, WordOp::Load));
    after_step(woken(at, parts, found), found)
}

/// Takes the lowest waiter away.
#[inline(always)]
pub(crate) fn signal<P: Port>(
    shape: Shape,
    at: At,
    parts: &mut ThreadParts,
    port: &mut P,
    cell: Cell,
) -> Done
    requires { MayTurn P.Port shape at port.old }
    ensures { MakesTurn P.Port (λ m. signal m (word shape m cell) parts.old.stage)
        at parts.old result.at parts.new result.found port.old port.new }
{
    let word = word(shape, at, parts, cell);
    match parts.stage {
        Stage::Wakes(seen) => {
            let op = WordOp::Cas(seen, without_lowest(seen));
            let found = ask(port, step_of(word, op));
            after_step(signalled(at, parts, seen, found), found)
        }
        _ => {
            let found = ask(port, step_of(word, WordOp::Load));
            after_step(wakes(at, parts, found), found)
        }
    }
}

/// Takes all waiters away.
#[inline(always)]
pub(crate) fn broadcast<P: Port>(
    shape: Shape,
    at: At,
    parts: &mut ThreadParts,
    port: &mut P,
    cell: Cell,
) -> Done
    requires { MayTurn P.Port shape at port.old }
    ensures { MakesTurn P.Port (λ m. Asks (step_of (word shape m cell) (ops.Swap 0)) (λ found. goes m))
        at parts.old result.at parts.new result.found port.old port.new }
{
    let word = word(shape, at, parts, cell);
    let found = ask(port, step_of(word, WordOp::Swap(0)));
    after_step(next(at), found)
}
