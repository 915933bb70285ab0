//! Cells: their words, and the instructions that access them.

ghost use Rattle.std.specs.Prelude.{◌≡◌, ◌<◌, ◌+◌, ◌/◌, ◌^◌, min, vec_capacity};
ghost use Rattle.sharc_word.specs.Place.{event_of};
ghost use Rattle.sharc_word.specs.declared.step.WordOp.TheVariants as ops;
ghost use Rattle.sharc_code.specs.Layout.{IsShape, granules, words_of, granule_at, granule_of, length_word};
ghost use Rattle.sharc_code.specs.Arithmetic.{word_of, int_of};
ghost use Rattle.sharc_code.specs.Machine.{Asks, step_of, int, ref, set_int, set_ref, goes, accessed, place, word};
ghost use Rattle.sharc_code.specs.Machine.{is_of_null, object, without_base, indexed, largest};
ghost use Rattle.sharc_cpu.specs.View.{machine_of, KeepsPort, MayTurn, MakesTurn};

use crate::arithmetic::{int_of, word_of};
use crate::parts::ThreadParts;
use crate::places::{Done, after_step, go_on, next};
use crate::turns::indexed;
use sharc_code::{At, Cell, Shape, cell_of};
use sharc_word::{Port, WordOp, WordStep};

/// Makes a step for the thread.
#[inline(always)]
pub(crate) fn ask<P: Port>(port: &mut P, step: WordStep) -> u64
    requires { step.word < P.count port.old }
    ensures leads { (thread : _) → P.serves port.old thread
        → P.leads (P.place port.old) (event_of thread step result) (P.place port.new) }
    ensures port { KeepsPort P.count P.name P.serves port.old port.new }
{
    port.step(step)
}

/// A step of a thread on a word.
#[inline(always)]
pub(crate) fn step_of(word: u32, op: WordOp) -> WordStep
    ensures { result ≡ step_of word op }
{
    WordStep { word, op }
}

// The number of a cell, counted from the first cell of granule 0, or the largest number where it is larger.
#[inline(always)]
fn place(at: At, parts: &ThreadParts, cell: Cell) -> u64
    ensures { result ≡ min (place (machine_of at parts.now) cell) largest }
{
    match cell {
        Cell::Global(_, cell) => u64::from(cell),
        Cell::GlobalAt(_, register) => word_of(parts.int(at, register)),
        Cell::Object(register, cell) => cell_of(parts.reference(at, register), u64::from(cell)),
        Cell::ObjectAt(register, index) => {
            cell_of(parts.reference(at, register), word_of(parts.int(at, index)))
        }
    }
}

/// The word of a cell.
#[inline(always)]
pub(crate) fn word(shape: Shape, at: At, parts: &ThreadParts, cell: Cell) -> u32
    requires { IsShape shape }
    ensures is { result ≡ word shape (machine_of at parts.now) cell }
    ensures within { result < words_of shape }
{
    shape.cell_word(place(at, parts, cell))
}

/// The granule of a cell, 0 where it is none.
#[inline(always)]
pub(crate) fn granule(shape: Shape, at: At, parts: &ThreadParts, cell: Cell) -> u32
    requires { IsShape shape }
    ensures is { result ≡ granule_at shape (granule_of (place (machine_of at parts.now) cell)) }
    ensures within { result < granules shape }
{
    shape.granule_at(place(at, parts, cell) / 2)
}

/// The granule and the word of a cell.
#[derive(Clone, Copy)]
pub(crate) struct CellAddress {
    pub granule: u32,
    pub word: u32,
}

/// Both, from one look at the registers of the cell.
#[inline(always)]
pub(crate) fn spot_of(shape: Shape, at: At, parts: &ThreadParts, cell: Cell) -> CellAddress
    requires { IsShape shape }
    ensures granule { result.granule ≡ granule_at shape (granule_of (place (machine_of at parts.now) cell)) }
    ensures word { result.word ≡ word shape (machine_of at parts.now) cell }
    ensures inside { result.granule < granules shape }
    ensures within { result.word < words_of shape }
{
    let place = place(at, parts, cell);
    CellAddress {
        granule: shape.granule_at(place / 2),
        word: shape.cell_word(place),
    }
}

/// Whether the cell is one of NULL.
#[inline(always)]
pub(crate) fn is_of_null(at: At, parts: &ThreadParts, cell: Cell) -> bool
    ensures { result ≡ is_of_null (machine_of at parts.now) cell }
{
    match cell {
        Cell::Global(..) | Cell::GlobalAt(..) => false,
        Cell::Object(register, _) | Cell::ObjectAt(register, _) => parts.reference(at, register)
            == 0,
    }
}

/// The object in which the cell lies, 0 for a global.
#[inline(always)]
pub(crate) fn object(at: At, parts: &ThreadParts, cell: Cell) -> u64
    ensures { result ≡ object (machine_of at parts.now) cell }
{
    match cell {
        Cell::Global(..) | Cell::GlobalAt(..) => 0,
        Cell::Object(register, _) | Cell::ObjectAt(register, _) => parts.reference(at, register),
    }
}

/// Gives up the reference to that object.
#[inline(always)]
pub(crate) fn give_up_base(at: At, parts: &mut ThreadParts, cell: Cell)
    ensures turn { machine_of at parts.new ≡ without_base (machine_of at parts.old) cell }
    ensures room { vec_capacity parts.new.prints ≡ vec_capacity parts.old.prints }
{
    match cell {
        Cell::Global(..) | Cell::GlobalAt(..) => {}
        Cell::Object(register, _) | Cell::ObjectAt(register, _) => {
            parts.set_reference(at, register, 0);
        }
    }
}

/// To this integer register, the value of the cell with this word.
#[inline(always)]
pub(crate) fn load_word<P: Port>(
    at: &mut At,
    parts: &mut ThreadParts,
    port: &mut P,
    register: u32,
    word: u32,
) -> u64
    requires place { at.old.pc + 1 < 2 ^ 64 }
    requires word { word < P.count port.old }
    ensures { MakesTurn P.Port (λ m. Asks (step_of word ops.Load)
        (λ found. goes (accessed (set_int m register (int_of found)))))
        at.old parts.old at.new parts.new result port.old port.new }
{
    let found = ask(port, step_of(word, WordOp::Load));
    parts.set_int(*at, register, int_of(found));
    parts.set_pending(0);
    go_on(at);
    found
}

/// To this integer register, the value of the cell.
#[inline(always)]
pub(crate) fn load<P: Port>(
    shape: Shape,
    at: &mut At,
    parts: &mut ThreadParts,
    port: &mut P,
    register: u32,
    cell: Cell,
) -> u64
    requires { MayTurn P.Port shape at.old port.old }
    ensures { MakesTurn P.Port (λ m. Asks (step_of (word shape m cell) ops.Load)
        (λ found. goes (accessed (set_int m register (int_of found)))))
        at.old parts.old at.new parts.new result port.old port.new }
{
    let word = word(shape, *at, parts, cell);
    load_word(at, parts, port, register, word)
}

/// To the cell with this word, the value of this integer register.
#[inline(always)]
pub(crate) fn store_word<P: Port>(
    at: &mut At,
    parts: &mut ThreadParts,
    port: &mut P,
    register: u32,
    word: u32,
) -> u64
    requires place { at.old.pc + 1 < 2 ^ 64 }
    requires word { word < P.count port.old }
    ensures { MakesTurn P.Port (λ m. Asks (step_of word (ops.Swap (word_of (int m register))))
        (λ found. goes (accessed m)))
        at.old parts.old at.new parts.new result port.old port.new }
{
    let value = word_of(parts.int(*at, register));
    let found = ask(port, step_of(word, WordOp::Swap(value)));
    parts.set_pending(0);
    go_on(at);
    found
}

/// To this cell, the value of this integer register.
#[inline(always)]
pub(crate) fn store<P: Port>(
    shape: Shape,
    at: &mut At,
    parts: &mut ThreadParts,
    port: &mut P,
    register: u32,
    cell: Cell,
) -> u64
    requires { MayTurn P.Port shape at.old port.old }
    ensures { MakesTurn P.Port (λ m. Asks (step_of (word shape m cell) (ops.Swap (word_of (int m register))))
        (λ found. goes (accessed m)))
        at.old parts.old at.new parts.new result port.old port.new }
{
    let word = word(shape, *at, parts, cell);
    store_word(at, parts, port, register, word)
}

/// The reference in this cell is loaded, and not counted.
#[inline(always)]
pub(crate) fn load_reference<P: Port>(
    shape: Shape,
    at: At,
    parts: &mut ThreadParts,
    port: &mut P,
    cell: Cell,
) -> Done
    requires { MayTurn P.Port shape at port.old }
    ensures { MakesTurn P.Port (λ m. Asks (step_of (word shape m cell) ops.Load)
        (λ found. goes (record m { pending = found })))
        at parts.old result.at parts.new result.found port.old port.new }
{
    let word = word(shape, at, parts, cell);
    let found = ask(port, step_of(word, WordOp::Load));
    parts.set_pending(found);
    after_step(next(at), found)
}

/// The reference of this register goes to the cell, and that of the cell to the register.
#[inline(always)]
pub(crate) fn exchange<P: Port>(
    shape: Shape,
    at: At,
    parts: &mut ThreadParts,
    port: &mut P,
    register: u32,
    cell: Cell,
) -> Done
    requires { MayTurn P.Port shape at port.old }
    ensures { MakesTurn P.Port (λ m. Asks (step_of (word shape m cell) (ops.Swap (ref m register)))
        (λ found. goes (accessed (set_ref m register found))))
        at parts.old result.at parts.new result.found port.old port.new }
{
    let word = word(shape, at, parts, cell);
    let reference = parts.reference(at, register);
    let found = ask(port, step_of(word, WordOp::Swap(reference)));
    parts.set_reference(at, register, found);
    parts.set_pending(0);
    after_step(next(at), found)
}

/// To this reference register, the reference of the cell, which is then NULL.
#[inline(always)]
pub(crate) fn take_cell<P: Port>(
    shape: Shape,
    at: At,
    parts: &mut ThreadParts,
    port: &mut P,
    register: u32,
    cell: Cell,
) -> Done
    requires { MayTurn P.Port shape at port.old }
    ensures { MakesTurn P.Port (λ m. Asks (step_of (word shape m cell) (ops.Swap 0))
        (λ found. goes (accessed (set_ref m register found))))
        at parts.old result.at parts.new result.found port.old port.new }
{
    let word = word(shape, at, parts, cell);
    let found = ask(port, step_of(word, WordOp::Swap(0)));
    parts.set_reference(at, register, found);
    parts.set_pending(0);
    after_step(next(at), found)
}

/// The register, an index of the object, becomes the number of a field of that element.
#[inline(always)]
pub(crate) fn bounds<P: Port>(
    shape: Shape,
    at: At,
    parts: &mut ThreadParts,
    port: &mut P,
    register: u32,
    base: u32,
    cells: u32,
    field: u32,
    site: u32,
) -> Done
    requires { MayTurn P.Port shape at port.old }
    ensures { MakesTurn P.Port (λ m. Asks (step_of (length_word shape (ref m base)) ops.Load)
        (indexed m register (int m register) cells field site))
        at parts.old result.at parts.new result.found port.old port.new }
{
    let word = shape.length_word(parts.reference(at, base));
    let found = ask(port, step_of(word, WordOp::Load));
    after_step(
        indexed(at, parts, register, cells, field, site, found),
        found,
    )
}
