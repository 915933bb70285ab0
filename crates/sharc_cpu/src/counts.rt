//! The counts of references.

ghost use Rattle.std.specs.Prelude.{◌≡◌, ◌<◌, ◌+◌, ◌^◌, vec_capacity};
ghost use Rattle.sharc_heap.specs.Count.{test_of};
ghost use Rattle.sharc_code.specs.Layout.{count_word};
ghost use Rattle.sharc_code.specs.Machine.{Asks, ref, set_ref, move_ref, goes, accessed, raise, lower, test, tested};
ghost use Rattle.sharc_cpu.specs.View.{machine_of, MayTurn, MakesTurn};

use crate::cells::ask;
use crate::parts::ThreadParts;
use crate::places::{Done, after_step, local, next};
use crate::turns::stopped;
use sharc_code::{At, Shape, Stop};
use sharc_word::Port;

// A4 where the count is another than 1.
#[inline(always)]
fn tested(at: At, parts: &mut ThreadParts, site: u32, count: u64) -> At
    requires place { at.pc + 1 < 2 ^ 64 }
    ensures turn { machine_of result parts.new ≡ tested (machine_of at parts.old) site count }
    ensures room { vec_capacity parts.new.prints ≡ vec_capacity parts.old.prints }
{
    if sharc_heap::count::sole(count) {
        next(at)
    } else {
        stopped(at, parts, Stop::NotSole(site, count))
    }
}

/// To this reference register, the reference of that one, which is counted once more.
#[inline(always)]
pub(crate) fn raise<P: Port>(
    shape: Shape,
    at: At,
    parts: &mut ThreadParts,
    port: &mut P,
    register: u32,
    from: u32,
) -> Done
    requires { MayTurn P.Port shape at port.old }
    ensures { MakesTurn P.Port (λ m. raise shape (ref m from) (goes (set_ref m register (ref m from))))
        at parts.old result.at parts.new result.found port.old port.new }
{
    let header = parts.reference(at, from);
    parts.set_reference(at, register, header);
    if header == 0 {
        return local(next(at));
    }
    let found = ask(port, sharc_heap::count::raise(shape.count_word(header)));
    after_step(next(at), found)
}

/// To this reference register, the reference that was loaded, which is counted.
#[inline(always)]
pub(crate) fn raise_loaded<P: Port>(
    shape: Shape,
    at: At,
    parts: &mut ThreadParts,
    port: &mut P,
    register: u32,
) -> Done
    requires { MayTurn P.Port shape at port.old }
    ensures { MakesTurn P.Port (λ m. raise shape m.pending (goes (accessed (set_ref m register m.pending))))
        at parts.old result.at parts.new result.found port.old port.new }
{
    let header = parts.pending;
    parts.set_reference(at, register, header);
    parts.set_pending(0);
    if header == 0 {
        return local(next(at));
    }
    let found = ask(port, sharc_heap::count::raise(shape.count_word(header)));
    after_step(next(at), found)
}

/// The reference of this register is counted once less, and the register is NULL.
#[inline(always)]
pub(crate) fn lower<P: Port>(
    shape: Shape,
    at: At,
    parts: &mut ThreadParts,
    port: &mut P,
    register: u32,
) -> Done
    requires { MayTurn P.Port shape at port.old }
    ensures { MakesTurn P.Port (λ m. lower shape (ref m register) (goes (set_ref m register 0)))
        at parts.old result.at parts.new result.found port.old port.new }
{
    let header = parts.reference(at, register);
    parts.set_reference(at, register, 0);
    if header == 0 {
        return local(next(at));
    }
    let found = ask(port, sharc_heap::count::lower(shape.count_word(header)));
    after_step(next(at), found)
}

/// To this reference register, that of the local in the other one, which is then NULL.
#[inline(always)]
pub(crate) fn take_local<P: Port>(
    shape: Shape,
    at: At,
    parts: &mut ThreadParts,
    port: &mut P,
    register: u32,
    from: u32,
) -> Done
    requires { MayTurn P.Port shape at port.old }
    ensures { MakesTurn P.Port (λ m. test shape (ref m from) (goes (move_ref m register from)))
        at parts.old result.at parts.new result.found port.old port.new }
{
    let header = parts.reference(at, from);
    parts.set_reference(at, from, 0);
    parts.set_reference(at, register, header);
    if header == 0 {
        return local(next(at));
    }
    let found = ask(port, sharc_heap::count::test(shape.count_word(header)));
    after_step(next(at), found)
}

/// A4 where the object in this register has another count than 1.
#[inline(always)]
pub(crate) fn test_sole<P: Port>(
    shape: Shape,
    at: At,
    parts: &mut ThreadParts,
    port: &mut P,
    register: u32,
    site: u32,
) -> Done
    requires { MayTurn P.Port shape at port.old }
    ensures { MakesTurn P.Port (λ m. Asks (test_of (count_word shape (ref m register))) (tested m site))
        at parts.old result.at parts.new result.found port.old port.new }
{
    let word = shape.count_word(parts.reference(at, register));
    let found = ask(port, sharc_heap::count::test(word));
    after_step(tested(at, parts, site, found), found)
}

/// The object in this register has a new mode.
#[inline(always)]
pub(crate) fn give<P: Port>(
    shape: Shape,
    at: At,
    parts: &mut ThreadParts,
    port: &mut P,
    register: u32,
) -> Done
    requires { MayTurn P.Port shape at port.old }
    ensures { MakesTurn P.Port (λ m. Asks (test_of (count_word shape (ref m register))) (λ found. goes m))
        at parts.old result.at parts.new result.found port.old port.new }
{
    let word = shape.count_word(parts.reference(at, register));
    let found = ask(port, sharc_heap::count::test(word));
    after_step(next(at), found)
}
