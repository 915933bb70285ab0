//! Objects: how they are made, cleared and freed.

ghost use Rattle.std.specs.Prelude.{◌≡◌, ◌<◌, ◌≤◌, ◌+◌, ◌*◌, ◌^◌, max, slice_index, vec_capacity};
ghost use Rattle.sharc_word.specs.declared.step.WordOp.TheVariants as ops;
ghost use Rattle.sharc_heap.specs.{State.{begun, told, turn_of}, Block.block_of};
ghost use Rattle.sharc_code.specs.Layout.{IsShape, granules, first_cell, granule_at, words_of, shadow_word, cell_word};
ghost use Rattle.sharc_code.specs.{Layout.cell_of, Machine.{size_of, elements_of, all_cells, made, goes_on_new}};
ghost use Rattle.sharc_code.specs.Machine.{asks_new, new, data_granules, data_granule, looks, clear, layout_at};
ghost use Rattle.sharc_code.specs.Machine.{pointer_cell, fields, free_looks, empties, emptied, free_size, free_head};
ghost use Rattle.sharc_code.specs.Machine.{freed, free, ref, int};
ghost use Rattle.sharc_cpu.specs.View.{rest_of, machine_of, IsWithin, MayTurn, MakesTurn};

use crate::cells::{ask, step_of};
use crate::parts::ThreadParts;
use crate::places::{Done, after_step, local};
use crate::turns::{at_stage, field_of, rests, trapped};
use sharc_code::{At, Code, Layout, Shape, Stage, cell_of};
use sharc_heap::{NewState, NewTurn, block, cleared};
use sharc_tree::trap::Trap;
use sharc_word::{Port, WordOp};

// ---- new objects

// The elements that a count asks for: at least one.
fn elements_of(count: i64) -> u64
    ensures is { result ≡ elements_of count }
    ensures some { 1 ≤ result }
{
    if count < 1 { 1 } else { count.cast_unsigned() }
}

// The cells of this many elements, too many where they pass 2 ^ 32.
fn all_cells(elements: u64, cells: u32) -> u64
    ensures is { result ≡ all_cells elements cells }
    ensures least { 1 ≤ result }
    ensures most { result ≤ 2 ^ 32 }
{
    elements
        .saturating_mul(u64::from(cells))
        .max(1)
        .min(4294967296)
}

// The place of a block size among the heads, of which the first is of two granules.
fn size_of(block: u64) -> u32
    ensures { result ≡ size_of block }
{
    block.trailing_zeros().saturating_sub(1)
}

// A New that has not had a turn, after the first call of `next`.
fn opened(shape: Shape, parts: &ThreadParts, elements: u64, cells: u32) -> NewState
    requires shape { IsShape shape }
    requires some { 1 ≤ elements }
    ensures is { let all = all_cells elements cells in result ≡ told (begun record {
      elements = elements;
      cells = all;
      end = granules shape;
      first = first_cell shape;
      head = granule_at shape (slice_index parts.now.heads.items (size_of (block_of all)));
      block = block_of all;
    }) 0 }
    ensures arena { result.arguments.first + 2 * result.arguments.end ≡ words_of shape }
{
    let all = all_cells(elements, cells);
    let head = shape.granule_at(parts.head(size_of(block(all))));
    let mut state = NewState::new(
        elements,
        all,
        u64::from(shape.granules()),
        shape.first_cell(),
        u64::from(head),
    );
    let _ = state.next(0);
    state
}

// The object is made; the head of its list is what the New says.
fn made(at: At, parts: &mut ThreadParts, register: u32, state: NewState, header: u64) -> At
    requires place { at.pc + 1 < 2 ^ 64 }
    ensures turn { machine_of result parts.new ≡ made (machine_of at parts.old) register state header }
    ensures room { vec_capacity parts.new.prints ≡ vec_capacity parts.old.prints }
{
    parts.set_reference(at, register, header);
    parts.set_head(size_of(state.block()), state.head());
    rests(at, parts)
}

// The New after its step.
fn goes_on_new(at: At, parts: &mut ThreadParts, register: u32, site: u32, state: NewState) -> At
    requires place { at.pc + 1 < 2 ^ 64 }
    ensures turn { machine_of result parts.new ≡ goes_on_new (machine_of at parts.old) register site state }
    ensures room { vec_capacity parts.new.prints ≡ vec_capacity parts.old.prints }
{
    match state.turn() {
        NewTurn::Do(_) => at_stage(at, parts, Stage::Makes(state)),
        NewTurn::Made(header) => made(at, parts, register, state, header),
        NewTurn::HeapFull => trapped(at, parts, Trap::HeapFull, site),
    }
}

// Makes the step that the New asks for.
fn asks_new<P: Port>(
    shape: Shape,
    at: At,
    parts: &mut ThreadParts,
    port: &mut P,
    register: u32,
    site: u32,
    state: NewState,
) -> Done
    requires may { MayTurn P.Port shape at port.old }
    requires arena { state.arguments.first + 2 * state.arguments.end ≡ words_of shape }
    ensures { MakesTurn P.Port (λ m. asks_new m register site state (turn_of state))
        at parts.old result.at parts.new result.found port.old port.new }
{
    match state.turn() {
        NewTurn::Do(step) => {
            let found = ask(port, step);
            let mut told = state;
            let _ = told.next(found);
            after_step(goes_on_new(at, parts, register, site, told), found)
        }
        NewTurn::Made(header) => local(made(at, parts, register, state, header)),
        NewTurn::HeapFull => local(trapped(at, parts, Trap::HeapFull, site)),
    }
}

// ---- clearing

// The data granules of this many elements.
fn data_granules(elements: u64, cells: u32) -> u64
    ensures { result ≡ data_granules elements cells }
{
    let all = elements.saturating_mul(u64::from(cells));
    all / 2 + all % 2
}

// The shadow word of the granule of this number among the data granules of an object.
fn data_word(shape: Shape, header: u64, place: u64) -> u32
    requires { IsShape shape }
    ensures is { result ≡ shadow_word shape (data_granule header place) }
    ensures within { result < words_of shape }
{
    shape.shadow_word(header.saturating_add(1).saturating_add(place))
}

fn looks(at: At, parts: &mut ThreadParts, done: u64, all: u64) -> At
    requires place { at.pc + 1 < 2 ^ 64 }
    ensures turn { machine_of result parts.new ≡ looks (machine_of at parts.old) done all }
    ensures room { vec_capacity parts.new.prints ≡ vec_capacity parts.old.prints }
{
    if done < all {
        at_stage(at, parts, Stage::Looks(done, all))
    } else {
        rests(at, parts)
    }
}

// The same after one granule more.
fn looks_on(at: At, parts: &mut ThreadParts, done: u64, all: u64) -> At
    requires place { at.pc + 1 < 2 ^ 64 }
    ensures turn { machine_of result parts.new ≡ looks (machine_of at parts.old) (done + 1) all }
    ensures room { vec_capacity parts.new.prints ≡ vec_capacity parts.old.prints }
{
    looks(at, parts, done.saturating_add(1), all)
}

// ---- freeing

/// The layout of this number, or that of no cells.
fn layout_at(code: &Code, layout: u32) -> Layout
    ensures { result ≡ layout_at code.now layout }
{
    let layouts = code.layouts.as_slice();
    if (layout as usize) < layouts.len() {
        layouts[layout as usize]
    } else {
        Layout {
            cells: 0,
            from: 0,
            until: 0,
        }
    }
}

// How many pointer fields an element has.
fn fields(layout: Layout) -> u64
    ensures { result ≡ fields layout }
{
    u64::from(layout.until.saturating_sub(layout.from))
}

// The pointer cell of this number among those of all elements.
fn pointer_cell(code: &Code, layout: Layout, i: u64) -> u64
    ensures { result ≡ pointer_cell code.now layout i }
{
    let fields = fields(layout);
    let (element, field) = if fields == 0 {
        (0, i)
    } else {
        (i / fields, i % fields)
    };
    field_of(element, layout.cells, pointer(code, layout, field))
}

// The pointer field of this number.
fn pointer(code: &Code, layout: Layout, field: u64) -> u32
    ensures { result ≡ slice_index code.now.pointers.items (layout.from + field) }
{
    let place = u64::from(layout.from).saturating_add(field);
    let pointers = code.pointers.as_slice();
    if (place as usize) < pointers.len() {
        pointers[place as usize]
    } else {
        0
    }
}

fn free_looks(at: At, parts: &mut ThreadParts, layout: Layout, done: u64, elements: u64) -> At
    ensures turn { machine_of result parts.new ≡ free_looks (machine_of at parts.old) layout done elements }
    ensures room { vec_capacity parts.new.prints ≡ vec_capacity parts.old.prints }
{
    if done < data_granules(elements, layout.cells) {
        at_stage(at, parts, Stage::FreeLooks(done, elements))
    } else {
        at_stage(at, parts, Stage::Uncounts(elements))
    }
}

// The same after one granule more.
fn free_looks_on(at: At, parts: &mut ThreadParts, layout: Layout, done: u64, elements: u64) -> At
    ensures turn { machine_of result parts.new ≡ free_looks (machine_of at parts.old) layout (done + 1) elements }
    ensures room { vec_capacity parts.new.prints ≡ vec_capacity parts.old.prints }
{
    free_looks(at, parts, layout, done.saturating_add(1), elements)
}

fn empties(at: At, parts: &mut ThreadParts, layout: Layout, i: u64, elements: u64) -> At
    ensures turn { machine_of result parts.new ≡ empties (machine_of at parts.old) layout i elements }
    ensures room { vec_capacity parts.new.prints ≡ vec_capacity parts.old.prints }
{
    if i < elements.saturating_mul(fields(layout)) {
        at_stage(at, parts, Stage::Empties(i, elements))
    } else {
        free_looks(at, parts, layout, 0, elements)
    }
}

// The same after one cell more.
fn empties_on(at: At, parts: &mut ThreadParts, layout: Layout, i: u64, elements: u64) -> At
    ensures turn { machine_of result parts.new ≡ empties (machine_of at parts.old) layout (i + 1) elements }
    ensures room { vec_capacity parts.new.prints ≡ vec_capacity parts.old.prints }
{
    empties(at, parts, layout, i.saturating_add(1), elements)
}

// After the Swap of a pointer cell comes the Lower of what it held.
fn emptied(at: At, parts: &mut ThreadParts, layout: Layout, i: u64, elements: u64, found: u64) -> At
    ensures turn { machine_of result parts.new ≡ emptied (machine_of at parts.old) layout i elements found }
    ensures room { vec_capacity parts.new.prints ≡ vec_capacity parts.old.prints }
{
    if found == 0 {
        empties_on(at, parts, layout, i, elements)
    } else {
        at_stage(at, parts, Stage::Lowers(i, elements, found))
    }
}

// The place of the object's block among the heads.
fn free_size(layout: Layout, elements: u64) -> u32
    ensures { result ≡ free_size layout elements }
{
    size_of(block(all_cells(elements, layout.cells)))
}

// The block becomes the head of its list.
fn freed(at: At, parts: &mut ThreadParts, register: u32, layout: Layout, elements: u64) -> At
    requires place { at.pc + 1 < 2 ^ 64 }
    ensures turn { machine_of result parts.new ≡ freed (machine_of at parts.old) register layout elements }
    ensures room { vec_capacity parts.new.prints ≡ vec_capacity parts.old.prints }
{
    let header = parts.reference(at, register);
    parts.set_reference(at, register, 0);
    parts.set_head(free_size(layout, elements), header);
    rests(at, parts)
}

/// A new object of as many elements as this integer register has, each of this many cells.
#[inline(always)]
pub(crate) fn new<P: Port>(
    shape: Shape,
    at: At,
    parts: &mut ThreadParts,
    port: &mut P,
    register: u32,
    count: u32,
    cells: u32,
    site: u32,
) -> Done
    requires may { MayTurn P.Port shape at port.old }
    requires within { IsWithin shape (rest_of parts.old).own }
    ensures { MakesTurn P.Port (λ m. new shape m register (elements_of (int m count)) cells site parts.old.stage)
        at parts.old result.at parts.new result.found port.old port.new }
{
    let stage = parts.stage;
    let state = match stage {
        Stage::Makes(state) => state,
        _ => opened(shape, parts, elements_of(parts.int(at, count)), cells),
    };
    asks_new(shape, at, parts, port, register, site, state)
}

/// Clears the granules of the object in this register, whose elements have this many cells.
#[inline(always)]
pub(crate) fn clear<P: Port>(
    shape: Shape,
    at: At,
    parts: &mut ThreadParts,
    port: &mut P,
    register: u32,
    cells: u32,
) -> Done
    requires { MayTurn P.Port shape at port.old }
    ensures { MakesTurn P.Port (λ m. clear shape m (ref m register) cells parts.old.stage)
        at parts.old result.at parts.new result.found port.old port.new }
{
    let header = parts.reference(at, register);
    match parts.stage {
        Stage::Looks(done, all) => {
            let found = ask(port, step_of(data_word(shape, header, done), WordOp::Load));
            after_step(at_stage(at, parts, Stage::Clears(done, all, found)), found)
        }
        Stage::Clears(done, all, seen) => {
            let word = data_word(shape, header, done);
            let found = ask(port, step_of(word, WordOp::Swap(cleared(seen))));
            after_step(looks_on(at, parts, done, all), found)
        }
        _ => {
            let found = ask(port, step_of(shape.length_word(header), WordOp::Load));
            after_step(looks(at, parts, 0, data_granules(found, cells)), found)
        }
    }
}

/// Frees the object in this register, whose elements have this layout.
#[inline(always)]
pub(crate) fn free<P: Port>(
    shape: Shape,
    at: At,
    parts: &mut ThreadParts,
    port: &mut P,
    code: &Code,
    register: u32,
    layout: u32,
) -> Done
    requires { MayTurn P.Port shape at port.old }
    ensures { MakesTurn P.Port (λ m. free code.now shape m register (layout_at code.now layout) parts.old.stage)
        at parts.old result.at parts.new result.found port.old port.new }
{
    let header = parts.reference(at, register);
    let layout = layout_at(code, layout);
    match parts.stage {
        Stage::Empties(i, elements) => {
            let cell = cell_of(header, pointer_cell(code, layout, i));
            let found = ask(port, step_of(shape.cell_word(cell), WordOp::Swap(0)));
            after_step(emptied(at, parts, layout, i, elements, found), found)
        }
        Stage::Lowers(i, elements, of) => {
            let found = ask(port, sharc_heap::count::lower(shape.count_word(of)));
            after_step(empties_on(at, parts, layout, i, elements), found)
        }
        Stage::FreeLooks(done, elements) => {
            let found = ask(port, step_of(data_word(shape, header, done), WordOp::Load));
            let looked = Stage::FreeClears(done, elements, found);
            after_step(at_stage(at, parts, looked), found)
        }
        Stage::FreeClears(done, elements, seen) => {
            let word = data_word(shape, header, done);
            let found = ask(port, step_of(word, WordOp::Swap(cleared(seen))));
            after_step(free_looks_on(at, parts, layout, done, elements), found)
        }
        Stage::Uncounts(elements) => {
            let found = ask(port, step_of(shape.count_word(header), WordOp::Swap(0)));
            after_step(at_stage(at, parts, Stage::Links(elements)), found)
        }
        Stage::Links(elements) => {
            let word = shape.length_word(header);
            let head = parts.head(free_size(layout, elements));
            let found = ask(port, step_of(word, WordOp::Swap(head)));
            after_step(freed(at, parts, register, layout, elements), found)
        }
        _ => {
            let found = ask(port, step_of(shape.length_word(header), WordOp::Load));
            after_step(empties(at, parts, layout, 0, found), found)
        }
    }
}
