//! What an operation of flat code does to its piece: whether it ends it, what it writes, and what it checks.

ghost use Rattle.std.specs.Prelude.{◌≡◌, ◌<◌, ◌^◌, ℕ};
ghost use Rattle.sharc_guard.specs.Known.{access, is_dynamic, is_straight, leads_to, tells, writes_int, writes_ref};
ghost use Rattle.sharc_guard.specs.Marked.{access_of, copy_of, is_one, is_written};

use sharc_code::{Cell, PlaceMode};
use sharc_flat::{Op, Spot};
use sharc_heap::Kind;

/// The registers of one bank that an operation writes.
#[derive(Clone, Copy)]
pub(crate) enum Written {
    None,
    One(u32),
    Two(u32, u32),
}

/// An access of a cell, and whether its check is one of a simple place of mode dynamic.
#[derive(Clone, Copy)]
pub(crate) struct CheckedAccess {
    pub kind: Kind,
    pub cell: Cell,
    pub tells: bool,
}

/// A reference register that becomes a copy of another one.
#[derive(Clone, Copy)]
pub(crate) struct Copying {
    pub register: u32,
    pub variable: u32,
}

/// Whether an operation goes on in its straight piece.
pub(crate) fn is_straight(op: Op) -> bool
    ensures { result ≡ is_straight op }
{
    match op {
        Op::Skip(_) => false,
        Op::SkipIfZero(_, _) => false,
        Op::SkipIfNull(_, _) => false,
        Op::Jump(_) => false,
        Op::Call(_, _, _, _) => false,
        Op::Return(_) => false,
        Op::BlockEnd => false,
        Op::TakeCell(_, _, _) => false,
        Op::TakeLocal(_, _, _) => false,
        Op::Give(_, _, _) => false,
        Op::Free(_, _, _) => false,
        Op::Lock(_, _) => false,
        Op::Unlock(_, _, _) => false,
        Op::CondEnter(_, _) => false,
        Op::CondWait(_, _) => false,
        Op::Spawn(_, _, _, _) => false,
        Op::Join(_, _) => false,
        _ => true,
    }
}

/// The reference registers that an operation of a straight piece writes.
pub(crate) fn written_references(op: Op) -> Written
    ensures { (k : ℕ) → is_written result k ≡ writes_ref op k }
{
    match op {
        Op::Null(r) => Written::One(r),
        Op::Local(r, _) => Written::One(r),
        Op::MoveReference(r, from) => Written::Two(r, from),
        Op::Pop(r) => Written::One(r),
        Op::Settle(x, from) => Written::Two(x, from),
        Op::LoadRef(r, _, _) => Written::One(r),
        Op::StoreRef(r, _, _) => Written::One(r),
        Op::New(r, _, _, _) => Written::One(r),
        _ => Written::None,
    }
}

/// The integer register that it writes.
pub(crate) fn written_integer(op: Op) -> Option<u32>
    ensures { (k : ℕ) → is_one result k ≡ writes_int op k }
{
    match op {
        Op::Constant(i, _) => Some(i),
        Op::Move(i, _) => Some(i),
        Op::Compute(_, _, i, _, _, _) => Some(i),
        Op::Negate(_, i, _, _) => Some(i),
        Op::Complement(i, _) => Some(i),
        Op::IsFalse(i, _) => Some(i),
        Op::SameReference(i, _, _) => Some(i),
        Op::Bounds(i, _, _, _, _) => Some(i),
        Op::GlobalBounds(i, _, _, _, _) => Some(i),
        Op::Load(i, _, _) => Some(i),
        _ => None,
    }
}

/// The access that an operation makes.
pub(crate) fn access(op: Op) -> Option<CheckedAccess>
    ensures { result ≡ access_of (access op) }
{
    match op {
        Op::Load(_, cell, spot) => Some(accessed(Kind::Read, cell, spot)),
        Op::Store(_, cell, spot) => Some(accessed(Kind::Write, cell, spot)),
        Op::LoadRef(_, cell, spot) => Some(accessed(Kind::Read, cell, spot)),
        Op::StoreRef(_, cell, spot) => Some(accessed(Kind::Write, cell, spot)),
        _ => None,
    }
}

fn accessed(kind: Kind, cell: Cell, spot: Spot) -> CheckedAccess
    ensures { result ≡ record { kind = kind; cell = cell; tells = tells spot } }
{
    CheckedAccess {
        kind,
        cell,
        tells: is_dynamic(spot.mode) && spot.is_simple,
    }
}

fn is_dynamic(mode: PlaceMode) -> bool
    ensures { result ≡ is_dynamic mode }
{
    match mode {
        PlaceMode::Dynamic => true,
        _ => false,
    }
}

/// The copy of a variable's reference that an operation makes.
pub(crate) fn copy_made(op: Op) -> Option<Copying>
    ensures { result ≡ copy_of op }
{
    match op {
        Op::Local(register, variable) => {
            if register == variable {
                None
            } else {
                Some(Copying { register, variable })
            }
        }
        _ => None,
    }
}

/// The line to which an operation leads, other than the next one.
pub(crate) fn led_to(op: Op, n: usize) -> Option<usize>
    requires { n < 2 ^ 30 }
    ensures { (to : ℕ) → is_one result to ≡ leads_to n op to }
{
    match op {
        Op::Skip(k) => Some(n + 1 + k as usize),
        Op::SkipIfZero(_, k) => Some(n + 1 + k as usize),
        Op::SkipIfNull(_, k) => Some(n + 1 + k as usize),
        Op::Jump(to) => Some(to as usize),
        _ => None,
    }
}
