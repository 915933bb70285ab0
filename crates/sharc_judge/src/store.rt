// What the events before leave: the value of a cell, which objects are live, which mutexes are locked, which threads
// there are, and who waits.

ghost use Rattle.std.specs.{Prelude.{◌≡◌, IsTrue, ◌↔◌, false, true}, Option.option_copied};
ghost use Rattle.sharc_meaning.specs.{Reference.constant_value, Store.{form_value, global_value, initial_value}};
ghost use Rattle.sharc_meaning.specs.Store.{value_after, is_live, is_locked, was_locked_by, was_spawned, went};
ghost use Rattle.sharc_meaning.specs.Store.{is_waiter, IsFresh, IsNewThread, Signals};
ghost use Rattle.sharc_judge.specs.Deciding.{lower_waiter, lowest_waiter, waiter_answer};

use crate::access::{number_of, value_left};
use crate::history::{Test, any, latest, meets_latest};
use sharc_ctype::typed::Typed;
use sharc_tree::event::{CellAt, Object, SourceEvent};
use sharc_tree::tree::{Constant, GlobalDefinition, GlobalForm};

fn constant_value(constant: Constant) -> i64
    ensures { result ≡ constant_value constant }
{
    match constant {
        Constant::Number(number) => number.value,
        Constant::Character(byte) => byte as i64,
        Constant::Null => 0,
    }
}

fn form_value(form: &GlobalForm) -> i128
    ensures { result ≡ form_value form.now }
{
    match form {
        GlobalForm::Plain => 0,
        GlobalForm::Array(_, _) => 0,
        GlobalForm::Initial(_, minus, constant) => {
            let value = constant_value(*constant) as i128;
            if *minus { -value } else { value }
        }
    }
}

fn global_value(global: Option<&GlobalDefinition>) -> i128
    ensures { result ≡ global_value (option_copied global.entry) }
{
    match global {
        None => 0,
        Some(definition) => form_value(&definition.form),
    }
}

fn initial_value(typed: &Typed, object: Object) -> i128
    ensures { result ≡ initial_value typed.now object }
{
    match object {
        Object::Global(number) => global_value(typed.global_at(number)),
        Object::Made(_) => 0,
    }
}

/// The last value that was given to the cell, else its initial value.
pub fn value_after(typed: &Typed, before: &[SourceEvent], cell: CellAt) -> i128
    ensures { result ≡ value_after typed.now before.now cell }
{
    match latest(Test::Changes(cell), before) {
        None => initial_value(typed, cell.object),
        Some(e) => value_left(e.act) as i128,
    }
}

/// Whether the answer is the cell's value.
pub fn tells_value(typed: &Typed, before: &[SourceEvent], cell: CellAt, answer: i64) -> bool
    ensures { IsTrue result ↔ (answer ≡ value_after typed.now before.now cell) }
{
    value_after(typed, before, cell) == answer as i128
}

/// Whether the object is live: of its events New and Freed the last is a New.
pub fn is_live(before: &[SourceEvent], object: Object) -> bool
    ensures { result ≡ is_live before.now object }
{
    meets_latest(Test::Makes(object), Test::MakesOrFrees(object), before)
}

/// Whether the last event of the mutex is a Lock.
pub fn is_locked(before: &[SourceEvent], cell: CellAt) -> bool
    ensures { result ≡ is_locked before.now cell }
{
    meets_latest(Test::Locks(cell), Test::LocksOrUnlocks(cell), before)
}

/// Whether the last Lock of the mutex is this thread's.
pub fn was_locked_by(before: &[SourceEvent], cell: CellAt, thread: u32) -> bool
    ensures { result ≡ was_locked_by before.now cell thread }
{
    meets_latest(Test::IsOf(thread), Test::Locks(cell), before)
}

/// Whether the thread of this number is gone.
pub fn went(before: &[SourceEvent], thread: i64) -> bool
    ensures { result ≡ went before.now thread }
{
    any(Test::Goes(thread), before)
}

/// Whether the thread made itself a waiter of the cell and was not taken away since.
pub fn is_waiter(before: &[SourceEvent], cell: CellAt, thread: u32) -> bool
    ensures { result ≡ is_waiter before.now cell thread }
{
    meets_latest(
        Test::Enters(cell, thread),
        Test::EntersOrLeaves(cell, thread),
        before,
    )
}

/// Whether the answer is a reference to an object that is not live, with these elements.
pub fn is_fresh(before: &[SourceEvent], elements: u64, answer: i64) -> bool
    ensures { IsTrue result ↔ IsFresh before.now elements answer }
{
    let number = number_of(answer);
    answer > 0
        && number > 0
        && answer.unsigned_abs() / 4294967296 == elements
        && !is_live(before, Object::Made(number))
}

/// Whether the answer is the number of a thread that was not spawned before, and is not the first.
pub fn is_new_thread(before: &[SourceEvent], answer: i64) -> bool
    ensures { IsTrue result ↔ IsNewThread before.now answer }
{
    answer > 0 && !any(Test::Spawns(answer.unsigned_abs()), before)
}

fn lower_waiter(
    before: &[SourceEvent],
    cell: CellAt,
    event: &SourceEvent,
    least: Option<u32>,
) -> Option<u32>
    ensures { result ≡ lower_waiter before.now cell event.now least }
{
    if !is_waiter(before, cell, event.thread) {
        return least;
    }
    match least {
        None => Some(event.thread),
        Some(other) => Some(if event.thread < other {
            event.thread
        } else {
            other
        }),
    }
}

/// The lowest of the threads that wait at the cell.
fn lowest_waiter(before: &[SourceEvent], cell: CellAt) -> Option<u32>
    ensures { result ≡ lowest_waiter before.now cell before.now }
{
    let mut least = None;
    for e in before {
        least = lower_waiter(before, cell, e, least);
    }
    least
}

/// What a Signal answers: the lowest waiter plus 1, or 0 where nobody waits.
fn signal_answer(before: &[SourceEvent], cell: CellAt) -> i128
    ensures { result ≡ waiter_answer (lowest_waiter before.now cell before.now) }
{
    match lowest_waiter(before, cell) {
        None => 0,
        Some(thread) => thread as i128 + 1,
    }
}

fn tells_waiter(before: &[SourceEvent], cell: CellAt, answer: i64) -> bool
    ensures { IsTrue result ↔ (answer ≡ waiter_answer (lowest_waiter before.now cell before.now)) }
{
    signal_answer(before, cell) == answer as i128
}

/// Whether a Signal may answer this.
pub fn signals(before: &[SourceEvent], cell: CellAt, answer: i64) -> bool
    ensures { IsTrue result ↔ Signals before.now cell answer }
{
    tells_waiter(before, cell, answer)
}
