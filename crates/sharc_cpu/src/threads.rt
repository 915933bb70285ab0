//! The beginning and the end of threads, and what they print.

ghost use Rattle.std.specs.Prelude.{◌≡◌, ◌<◌, ◌+◌, ◌^◌, length, slice_index, vec_len, vec_capacity};
ghost use Rattle.sharc_word.specs.declared.step.WordOp.TheVariants as ops;
ghost use Rattle.sharc_word.specs.declared.step.TheConstants.{THREADS as threads};
ghost use Rattle.sharc_code.specs.Layout.{IsShape, granules, words_of, function_at, prints_word};
ghost use Rattle.sharc_code.specs.{declared.state.Stage.TheVariants.Rests, Machine.{Asks, step_of, int, argument}};
ghost use Rattle.sharc_code.specs.Machine.{handed, numbered, spawn, joined, join, printed, function_of, with_parameter};
ghost use Rattle.sharc_code.specs.Machine.{entered, start, row_of, without_own, withdraws, withdrew, ends, exit};
ghost use Rattle.sharc_cpu.specs.View.{rest_of, machine_of, AreOfShape, IsWithin, MayTurn, MakesTurn};

use crate::arithmetic::{int_of, word_of};
use crate::cells::{ask, step_of};
use crate::checks::wrote;
use crate::parts::ThreadParts;
use crate::places::{Done, after_step, ends, local, next, settle, tries};
use crate::turns::{at_stage, called, rests, trapped};
use sharc_code::{
    At, Code, NEXT_THREAD, PRINTS, Parameter, Register, Shape, Stage, argument_word, function_word,
    state_word,
};
use sharc_heap::withdrawn;
use sharc_tree::trap::Trap;
use sharc_word::{Port, THREADS, WordOp};

// ---- spawn

// An argument as a word.
fn argument(at: At, parts: &ThreadParts, register: Register) -> u64
    ensures { result ≡ argument (machine_of at parts.now) register }
{
    match register {
        Register::Int(register) => word_of(parts.int(at, register)),
        Register::Reference(register) => parts.reference(at, register),
    }
}

// It is handed over.
fn hand(at: At, parts: &mut ThreadParts, register: Register)
    ensures turn { machine_of at parts.new ≡ handed (machine_of at parts.old) register }
    ensures room { vec_capacity parts.new.prints ≡ vec_capacity parts.old.prints }
{
    match register {
        Register::Int(_) => {}
        Register::Reference(register) => parts.set_reference(at, register, 0),
    }
}

// The new thread has this number, or there is none.
fn numbered(at: At, parts: &mut ThreadParts, site: u32, found: u64) -> At
    ensures turn { machine_of result parts.new ≡ numbered (machine_of at parts.old) site found }
    ensures room { vec_capacity parts.new.prints ≡ vec_capacity parts.old.prints }
{
    if found < u64::from(THREADS) {
        at_stage(at, parts, Stage::Names(found as u32))
    } else {
        trapped(at, parts, Trap::ThreadLimit, site)
    }
}

// ---- join

fn joined(at: At, parts: &mut ThreadParts, site: u32, found: u64) -> At
    requires place { at.pc + 1 < 2 ^ 64 }
    ensures turn { machine_of result parts.new ≡ joined (machine_of at parts.old) site found }
    ensures room { vec_capacity parts.new.prints ≡ vec_capacity parts.old.prints }
{
    if found == 0 {
        trapped(at, parts, Trap::NoSuchThread, site)
    } else if found == 1 || found == 2 {
        tries(at)
    } else {
        next(at)
    }
}

// ---- the beginning

// The first place of the function of this number, or 0.
fn entry_of(code: &Code, function: u64) -> u32
    ensures { result ≡ (function_of code.now function).entry }
{
    let functions = code.functions.as_slice();
    if (function as usize) < functions.len() {
        functions[function as usize].entry
    } else {
        0
    }
}

// What its parameter is.
fn parameter_of(code: &Code, function: u64) -> Parameter
    ensures { result ≡ (function_of code.now function).parameter }
{
    let functions = code.functions.as_slice();
    if (function as usize) < functions.len() {
        functions[function as usize].parameter
    } else {
        Parameter::None
    }
}

// The number of a function, that of `main` where the code has none of this number.
fn function_at(code: &Code, function: u64) -> u64
    ensures { result ≡ function_at code.now function }
{
    if (function as usize) < code.functions.len() {
        function
    } else {
        u64::from(code.main)
    }
}

// The first parameter, if there is one.
fn set_parameter(at: At, parts: &mut ThreadParts, parameter: Parameter, argument: u64)
    ensures turn { machine_of at parts.new ≡ with_parameter (machine_of at parts.old) parameter argument }
    ensures room { vec_capacity parts.new.prints ≡ vec_capacity parts.old.prints }
{
    match parameter {
        Parameter::None => {}
        Parameter::Int => parts.set_int(at, 0, int_of(argument)),
        Parameter::Reference => parts.set_reference(at, 0, argument),
    }
}

// The call of the thread's function.
fn entered(
    code: &Code,
    at: At,
    parts: &mut ThreadParts,
    function: u64,
    site: u32,
    argument: u64,
) -> At
    requires place { at.pc + 1 < 2 ^ 64 }
    ensures turn { machine_of result parts.new ≡ entered code.now (machine_of at parts.old) function site argument }
    ensures room { vec_capacity parts.new.prints ≡ vec_capacity parts.old.prints }
{
    parts.set_stage(Stage::Rests);
    parts.set_function(function);
    set_parameter(at, parts, parameter_of(code, function), argument);
    called(at, parts, entry_of(code, function), 0, 0, site)
}

// ---- the end

// The granule in this row of the access table, 0 where there is none.
fn row_of(parts: &ThreadParts, row: u32) -> u32
    ensures { result ≡ slice_index parts.now.table.order row }
{
    if row < parts.table.rows() {
        parts.table.row(row)
    } else {
        0
    }
}

// The word without the thread's own bits.
fn without_own(shape: Shape, at: At, parts: &ThreadParts, row: u32, seen: u64) -> u64
    requires shape { IsShape shape }
    requires within { IsWithin shape (rest_of parts.now).own }
    ensures { result ≡ without_own (machine_of at parts.now) row seen }
{
    let granule = row_of(parts, row);
    let wrote = if granule < shape.granules() {
        wrote(parts, granule, seen)
    } else {
        None
    };
    withdrawn(seen, parts.number, wrote)
}

// The next row, if there is one.
fn withdraws(at: At, parts: &mut ThreadParts, row: u32) -> At
    ensures turn { machine_of result parts.new ≡ withdraws (machine_of at parts.old) row }
    ensures room { vec_capacity parts.new.prints ≡ vec_capacity parts.old.prints }
{
    if row < parts.table.rows() {
        at_stage(at, parts, Stage::Withdraws(row))
    } else {
        at_stage(at, parts, Stage::Leaves)
    }
}

// The same after one row more.
fn withdraws_on(at: At, parts: &mut ThreadParts, row: u32) -> At
    ensures turn { machine_of result parts.new ≡ withdraws (machine_of at parts.old) (row + 1) }
    ensures room { vec_capacity parts.new.prints ≡ vec_capacity parts.old.prints }
{
    if row < parts.table.rows() {
        withdraws(at, parts, row + 1)
    } else {
        at_stage(at, parts, Stage::Leaves)
    }
}

// The row is done, or the word is another now.
fn withdrew(at: At, parts: &mut ThreadParts, row: u32, seen: u64, found: u64) -> At
    ensures turn { machine_of result parts.new ≡ withdrew (machine_of at parts.old) row seen found }
    ensures room { vec_capacity parts.new.prints ≡ vec_capacity parts.old.prints }
{
    if found == seen {
        withdraws_on(at, parts, row)
    } else {
        at_stage(at, parts, Stage::WithdrawsFrom(row, found))
    }
}

// The last event.
fn leaves(at: At, parts: &mut ThreadParts) -> At
    ensures turn { machine_of result parts.new
        ≡ record (machine_of at parts.old) { at = ends at; own = record (rest_of parts.old).own { stage = Rests } } }
    ensures room { vec_capacity parts.new.prints ≡ vec_capacity parts.old.prints }
{
    parts.set_stage(Stage::Rests);
    ends(at)
}

/// To this integer register, the number of a new thread of this function with the argument in that register.
#[inline(always)]
pub(crate) fn spawn<P: Port>(
    shape: Shape,
    at: At,
    parts: &mut ThreadParts,
    port: &mut P,
    register: u32,
    function: u32,
    from: Register,
    site: u32,
) -> Done
    requires may { MayTurn P.Port shape at port.old }
    requires within { IsWithin shape (rest_of parts.old).own }
    ensures { MakesTurn P.Port (λ m. spawn m register function from site parts.old.stage)
        at parts.old result.at parts.new result.found port.old port.new }
{
    match parts.stage {
        Stage::Names(n) => {
            let name = WordOp::Swap(u64::from(function));
            let found = ask(port, step_of(function_word(n), name));
            after_step(at_stage(at, parts, Stage::Hands(n)), found)
        }
        Stage::Hands(n) => {
            let word = argument_word(n);
            let argument = argument(at, parts, from);
            let found = ask(port, step_of(word, WordOp::Swap(argument)));
            after_step(at_stage(at, parts, Stage::Begins(n)), found)
        }
        Stage::Begins(n) => {
            let found = ask(port, step_of(state_word(n), WordOp::Swap(1)));
            hand(at, parts, from);
            parts.set_int(at, register, i64::from(n));
            after_step(rests(at, parts), found)
        }
        _ => {
            let found = ask(port, step_of(NEXT_THREAD, WordOp::Add(1)));
            after_step(numbered(at, parts, site, found), found)
        }
    }
}

/// Waits for the thread of the number in this integer register.
#[inline(always)]
pub(crate) fn join<P: Port>(
    shape: Shape,
    at: At,
    parts: &mut ThreadParts,
    port: &mut P,
    register: u32,
    site: u32,
) -> Done
    requires { MayTurn P.Port shape at port.old }
    ensures { MakesTurn P.Port (λ m. join m (int m register) site)
        at parts.old result.at parts.new result.found port.old port.new }
{
    let number = parts.int(at, register);
    if number < 0 || number >= i64::from(THREADS) {
        return local(trapped(at, parts, Trap::NoSuchThread, site));
    }
    let found = ask(port, step_of(state_word(number as u32), WordOp::Load));
    after_step(joined(at, parts, site, found), found)
}

/// Prints this integer register.
#[inline(always)]
pub(crate) fn print<P: Port>(
    shape: Shape,
    at: At,
    parts: &mut ThreadParts,
    port: &mut P,
    register: u32,
) -> Done
    requires may { MayTurn P.Port shape at port.old }
    requires room { vec_len parts.old.prints < vec_capacity parts.old.prints }
    ensures { MakesTurn P.Port (λ m. Asks (step_of prints_word (ops.Add 1)) (printed m (int m register)))
        at parts.old result.at parts.new result.found port.old port.new }
{
    let value = parts.int(at, register);
    let found = ask(port, step_of(PRINTS, WordOp::Add(1)));
    parts.print(found, value);
    after_step(next(at), found)
}

/// The beginning of a thread: a call of its function with its argument.
#[inline(always)]
pub(crate) fn start<P: Port>(
    shape: Shape,
    at: At,
    parts: &mut ThreadParts,
    port: &mut P,
    code: &Code,
    site: u32,
) -> Done
    requires may { MayTurn P.Port shape at port.old }
    requires within { IsWithin shape (rest_of parts.old).own }
    ensures { MakesTurn P.Port (λ m. start code.now m site parts.old.stage)
        at parts.old result.at parts.new result.found port.old port.new }
{
    match parts.stage {
        Stage::Enters(function) => {
            let found = ask(port, step_of(argument_word(parts.number), WordOp::Load));
            after_step(entered(code, at, parts, function, site, found), found)
        }
        _ => {
            let found = ask(port, step_of(function_word(parts.number), WordOp::Load));
            let function = function_at(code, found);
            after_step(at_stage(at, parts, Stage::Enters(function)), found)
        }
    }
}

/// The end of a thread.
#[inline(always)]
pub(crate) fn exit<P: Port>(shape: Shape, at: At, parts: &mut ThreadParts, port: &mut P) -> Done
    requires shape { AreOfShape P.Port shape parts.old port.old }
    ensures { MakesTurn P.Port (λ m. exit shape m parts.old.stage)
        at parts.old result.at parts.new result.found port.old port.new }
{
    match parts.stage {
        Stage::Withdraws(row) => {
            let word = shape.shadow_word(u64::from(row_of(parts, row)));
            let found = ask(port, step_of(word, WordOp::Load));
            after_step(at_stage(at, parts, Stage::WithdrawsFrom(row, found)), found)
        }
        Stage::WithdrawsFrom(row, seen) => {
            let word = shape.shadow_word(u64::from(row_of(parts, row)));
            let without = without_own(shape, at, parts, row, seen);
            let found = ask(port, step_of(word, WordOp::Cas(seen, without)));
            after_step(withdrew(at, parts, row, seen, found), found)
        }
        Stage::Leaves => {
            let found = ask(port, step_of(state_word(parts.number), WordOp::Swap(3)));
            after_step(leaves(at, parts), found)
        }
        _ => {
            let found = ask(port, step_of(state_word(parts.number), WordOp::Swap(2)));
            after_step(withdraws(at, parts, 0), found)
        }
    }
}

/// The same, where the thread is. It is not in line, so that the loop over turns stays small.
#[inline(never)]
pub(crate) fn leave<P: Port>(
    shape: Shape,
    at: &mut At,
    parts: &mut ThreadParts,
    port: &mut P,
) -> u64
    requires shape { AreOfShape P.Port shape parts.old port.old }
    ensures { MakesTurn P.Port (λ m. exit shape m parts.old.stage)
        at.old parts.old at.new parts.new result port.old port.new }
{
    settle(exit(shape, *at, parts, port), at)
}
