//! What turns make of a thread beside its words: how it goes on, stops, calls and returns.

ghost use Rattle.std.specs.Prelude.{◌≡◌, ◌==◌, ◌<◌, ◌+◌, ◌^◌, vec_capacity};
ghost use Rattle.sharc_code.specs.Arithmetic.{complement, negated, truth};
ghost use Rattle.sharc_code.specs.Machine.{with_result, at_stage, rests, stopped, trapped, called, returned, goes};
ghost use Rattle.sharc_code.specs.Machine.{has_room, holds_none, indexed, int, ref, set_int, field_of};
ghost use Rattle.sharc_cpu.specs.View.{machine_of};

use crate::arithmetic::{complement, int_of, negated, same};
use crate::parts::ThreadParts;
use crate::places::{jumps, next, stays, stops};
use sharc_code::{At, Code, Frame, Stage, Stop, TurnState, Width};
use sharc_tree::trap::Trap;

/// Stops.
#[inline(always)]
pub(crate) fn stopped(at: At, parts: &mut ThreadParts, stop: Stop) -> At
    ensures turn { machine_of result parts.new ≡ stopped (machine_of at parts.old) stop }
    ensures room { vec_capacity parts.new.prints ≡ vec_capacity parts.old.prints }
{
    parts.set_stop(stop);
    stops(at)
}

/// Stops with this trap.
#[inline(always)]
pub(crate) fn trapped(at: At, parts: &mut ThreadParts, trap: Trap, site: u32) -> At
    ensures turn { machine_of result parts.new ≡ trapped (machine_of at parts.old) trap site }
    ensures room { vec_capacity parts.new.prints ≡ vec_capacity parts.old.prints }
{
    stopped(at, parts, Stop::Trap(trap, site))
}

/// Keeps the value, or stops with the trap.
#[inline(always)]
pub(crate) fn keep(
    at: At,
    parts: &mut ThreadParts,
    register: u32,
    site: u32,
    value: Result<i64, Trap>,
) -> At
    requires place { at.pc + 1 < 2 ^ 64 }
    ensures turn { machine_of result parts.new ≡ with_result (machine_of at parts.old) register site value }
    ensures room { vec_capacity parts.new.prints ≡ vec_capacity parts.old.prints }
{
    match value {
        Ok(value) => {
            parts.set_int(at, register, value);
            next(at)
        }
        Err(trap) => trapped(at, parts, trap, site),
    }
}

/// To the first integer register, the negative of the second in this width.
#[inline(always)]
pub(crate) fn negates(
    at: At,
    parts: &mut ThreadParts,
    width: Width,
    to: u32,
    from: u32,
    site: u32,
) -> At
    requires place { at.pc + 1 < 2 ^ 64 }
    ensures turn { machine_of result parts.new
        ≡ with_result (machine_of at parts.old) to site (negated width (int (machine_of at parts.old) from)) }
    ensures room { vec_capacity parts.new.prints ≡ vec_capacity parts.old.prints }
{
    let value = negated(width, parts.int(at, from));
    keep(at, parts, to, site, value)
}

/// To the first integer register, all bits of the second turned.
#[inline(always)]
pub(crate) fn complements(at: At, parts: &mut ThreadParts, to: u32, from: u32) -> At
    requires place { at.pc + 1 < 2 ^ 64 }
    ensures turn { machine_of result parts.new
        ≡ goes (set_int (machine_of at parts.old) to (complement (int (machine_of at parts.old) from))) }
    ensures room { vec_capacity parts.new.prints ≡ vec_capacity parts.old.prints }
{
    let value = complement(parts.int(at, from));
    parts.set_int(at, to, value);
    next(at)
}

/// To this integer register, whether two reference registers are the same.
#[inline(always)]
pub(crate) fn compares(at: At, parts: &mut ThreadParts, to: u32, left: u32, right: u32) -> At
    requires place { at.pc + 1 < 2 ^ 64 }
    ensures turn { machine_of result parts.new ≡ goes (set_int (machine_of at parts.old) to
        (truth (ref (machine_of at parts.old) left == ref (machine_of at parts.old) right))) }
    ensures room { vec_capacity parts.new.prints ≡ vec_capacity parts.old.prints }
{
    let value = same(parts.reference(at, left), parts.reference(at, right));
    parts.set_int(at, to, value);
    next(at)
}

/// The instruction has another turn.
#[inline(always)]
pub(crate) fn at_stage(at: At, parts: &mut ThreadParts, stage: Stage) -> At
    ensures turn { machine_of result parts.new ≡ at_stage (machine_of at parts.old) stage }
    ensures room { vec_capacity parts.new.prints ≡ vec_capacity parts.old.prints }
{
    parts.set_stage(stage);
    stays(at)
}

/// It has none.
#[inline(always)]
pub(crate) fn rests(at: At, parts: &mut ThreadParts) -> At
    requires place { at.pc + 1 < 2 ^ 64 }
    ensures turn { machine_of result parts.new ≡ rests (machine_of at parts.old) }
    ensures room { vec_capacity parts.new.prints ≡ vec_capacity parts.old.prints }
{
    parts.set_stage(Stage::Rests);
    next(at)
}

// Whether one more frame has room.
#[inline(always)]
fn has_room(at: At, parts: &ThreadParts, ints: u32, refs: u32) -> bool
    ensures { result ≡ has_room (machine_of at parts.now) ints refs }
{
    (at.depth as usize) < parts.frames.len()
        && at.depth < u32::MAX
        && (at.ints as usize + ints as usize) < 4294967296
        && (at.refs as usize + refs as usize) < 4294967296
}

/// To this place, with frames that begin at these registers.
#[inline(always)]
pub(crate) fn called(
    at: At,
    parts: &mut ThreadParts,
    pc: u32,
    ints: u32,
    refs: u32,
    site: u32,
) -> At
    requires place { at.pc + 1 < 2 ^ 64 }
    ensures turn { machine_of result parts.new ≡ called (machine_of at parts.old) pc ints refs site }
    ensures room { vec_capacity parts.new.prints ≡ vec_capacity parts.old.prints }
{
    if has_room(at, parts, ints, refs) {
        parts.set_frame(
            at.depth as usize,
            Frame {
                pc: at.pc + 1,
                ints: at.ints,
                refs: at.refs,
            },
        );
        At {
            pc: pc as usize,
            ints: at.ints + ints,
            refs: at.refs + refs,
            depth: at.depth + 1,
            state: TurnState::Runs,
        }
    } else {
        trapped(at, parts, Trap::CallDepth, site)
    }
}

// Whether no mutex is held.
#[inline(always)]
fn holds_none(parts: &ThreadParts) -> bool
    ensures { result ≡ holds_none parts.now.held }
{
    parts.held.is_empty()
}

/// Back to the caller; where there is no frame, past the code.
#[inline(always)]
pub(crate) fn returned(code: &Code, at: At, parts: &mut ThreadParts, site: u32) -> At
    ensures turn { machine_of result parts.new ≡ returned code.now (machine_of at parts.old) site }
    ensures room { vec_capacity parts.new.prints ≡ vec_capacity parts.old.prints }
{
    if at.depth == 0 {
        return jumps(at, code.instrs.len());
    }
    if at.depth == 1 && !holds_none(parts) {
        return trapped(at, parts, Trap::ReturnWithLockHeld, site);
    }
    let depth = at.depth - 1;
    let frame = parts.frame(depth as usize);
    At {
        pc: frame.pc,
        ints: frame.ints,
        refs: frame.refs,
        depth,
        state: TurnState::Runs,
    }
}

/// The register, which holds an index of this many elements, becomes the number of a field of that element; X2 where
/// there is no such element.
#[inline(always)]
pub(crate) fn indexed(
    at: At,
    parts: &mut ThreadParts,
    register: u32,
    cells: u32,
    field: u32,
    site: u32,
    elements: u64,
) -> At
    requires place { at.pc + 1 < 2 ^ 64 }
    ensures turn { machine_of result parts.new ≡ indexed (machine_of at parts.old) register
        (int (machine_of at parts.old) register) cells field site elements }
    ensures room { vec_capacity parts.new.prints ≡ vec_capacity parts.old.prints }
{
    let index = parts.int(at, register);
    if index < 0 || index.cast_unsigned() >= elements {
        return trapped(at, parts, Trap::IndexOutOfBounds, site);
    }
    let field = field_of(index.cast_unsigned(), cells, field);
    parts.set_int(at, register, int_of(field));
    next(at)
}

/// The number of a field of an element, or the largest number where it is larger.
#[inline(always)]
pub(crate) fn field_of(index: u64, cells: u32, field: u32) -> u64
    ensures { result ≡ field_of index cells field }
{
    index
        .saturating_mul(u64::from(cells))
        .saturating_add(u64::from(field))
}
