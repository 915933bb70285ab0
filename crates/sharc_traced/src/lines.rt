//! The lines of event files that events are.

ghost use Rattle.std.specs.Prelude.{◌≡◌, ◌≤◌, Some, IfOk, MatchOption};
ghost use Rattle.sharc_audit.specs.Grammar.{thread_most};
ghost use Rattle.sharc_ctype.specs.Resolved.{Resolution};
ghost use Rattle.sharc_audit.specs.declared.line.LineAct.TheVariants as line;
ghost use Rattle.sharc_history.specs.Told.{at, numbered, valued};
ghost use Rattle.sharc_traced.specs.Writing.{IsFitCell, IsFitReference, IsFitValue, IsFunctionOf, Writable};
ghost use Rattle.sharc_traced.specs.Writing.{IsActOf, IsLineOf};

use sharc_audit::is_name;
use sharc_audit::line::{EventLine, LineAct};
use sharc_ctype::typed::Typed;
use sharc_history::{Deed, Event, GivenValue, Reference, Where};
use sharc_tree::event::{CellAt, Object};
use sharc_tree::name::Name;
use std::alloc::{AllocError, Global};

// The cell, if a line can say it.
fn cell_of(cell: Where) -> Option<CellAt>
    ensures { MatchOption result (¬ (IsFitCell cell)) (λ c. IsFitCell cell × (c ≡ at cell)) }
{
    match cell {
        Where::Global(number, cell) => {
            if cell < 9223372036854775808 {
                Some(CellAt {
                    object: Object::Global(number),
                    cell,
                })
            } else {
                None
            }
        }
        Where::Made(number, cell) => {
            if 1 <= number && number <= 4294967295 && cell < 9223372036854775808 {
                Some(CellAt {
                    object: Object::Made(number as u32),
                    cell,
                })
            } else {
                None
            }
        }
    }
}

// The number that a reference is to the source, if a line can say it.
fn reference_of(reference: Reference) -> Option<i64>
    ensures { MatchOption result (¬ (IsFitReference reference)) (λ v. IsFitReference reference
        × (v ≡ numbered reference)) }
{
    if reference.number == 0 {
        return Some(0);
    }
    if reference.number <= 4294967295
        && 1 <= reference.elements
        && reference.elements <= 2147483647
    {
        Some((reference.number + 4294967296 * reference.elements) as i64)
    } else {
        None
    }
}

fn value_of(value: GivenValue) -> Option<i64>
    ensures { MatchOption result (¬ (IsFitValue value)) (λ v. IsFitValue value × (v ≡ valued value)) }
{
    match value {
        GivenValue::Int(value) => Some(value),
        GivenValue::Reference(reference) => reference_of(reference),
    }
}

// The name of the function of this number, if there is one and a line can say it.
fn name_of(typed: &Typed, function: u32) -> Option<&Name>
    ensures { MatchOption result ((text : _) → ¬ (IsFunctionOf typed.now function text))
        (λ name. IsFunctionOf typed.now function name.now) }
{
    match typed.function_at(function) {
        Some(definition) => {
            if is_name(definition.name.text.as_slice()) {
                Some(&definition.name.text)
            } else {
                None
            }
        }
        None => None,
    }
}

fn read_act(at: Where, value: GivenValue) -> Option<LineAct>
    ensures { (r : Resolution)
        → MatchOption result (¬ (Writable r (Deed.Reads at value))) (IsActOf r (Deed.Reads at value)) }
{
    match cell_of(at) {
        Some(cell) => match value_of(value) {
            Some(value) => Some(LineAct::Read(cell, value)),
            None => None,
        },
        None => None,
    }
}

fn write_act(at: Where, value: GivenValue) -> Option<LineAct>
    ensures { (r : Resolution)
        → MatchOption result (¬ (Writable r (Deed.Writes at value))) (IsActOf r (Deed.Writes at value)) }
{
    match cell_of(at) {
        Some(cell) => match value_of(value) {
            Some(value) => Some(LineAct::Write(cell, value)),
            None => None,
        },
        None => None,
    }
}

fn new_act(reference: Reference) -> Option<LineAct>
    ensures { (r : Resolution)
        → MatchOption result (¬ (Writable r (Deed.Makes reference))) (IsActOf r (Deed.Makes reference)) }
{
    match reference_of(reference) {
        Some(reference) => Some(LineAct::New(reference)),
        None => None,
    }
}

fn take_act(reference: Reference) -> Option<LineAct>
    ensures { (r : Resolution)
        → MatchOption result (¬ (Writable r (Deed.Takes reference))) (IsActOf r (Deed.Takes reference)) }
{
    match reference_of(reference) {
        Some(reference) => Some(LineAct::Take(reference)),
        None => None,
    }
}

fn give_act(reference: Reference) -> Option<LineAct>
    ensures { (r : Resolution)
        → MatchOption result (¬ (Writable r (Deed.Gives reference))) (IsActOf r (Deed.Gives reference)) }
{
    match reference_of(reference) {
        Some(reference) => Some(LineAct::Give(reference)),
        None => None,
    }
}

fn freed_act(reference: Reference) -> Option<LineAct>
    ensures { (r : Resolution)
        → MatchOption result (¬ (Writable r (Deed.Frees reference))) (IsActOf r (Deed.Frees reference)) }
{
    match reference_of(reference) {
        Some(reference) => Some(LineAct::Freed(reference)),
        None => None,
    }
}

fn lock_act(at: Where) -> Option<LineAct>
    ensures { (r : Resolution) → MatchOption result (¬ (Writable r (Deed.Locks at))) (IsActOf r (Deed.Locks at)) }
{
    match cell_of(at) {
        Some(cell) => Some(LineAct::Lock(cell)),
        None => None,
    }
}

fn unlock_act(at: Where) -> Option<LineAct>
    ensures { (r : Resolution) → MatchOption result (¬ (Writable r (Deed.Unlocks at))) (IsActOf r (Deed.Unlocks at)) }
{
    match cell_of(at) {
        Some(cell) => Some(LineAct::Unlock(cell)),
        None => None,
    }
}

fn started_act(value: GivenValue) -> Option<LineAct>
    ensures { (r : Resolution)
        → MatchOption result (¬ (Writable r (Deed.Starts value))) (IsActOf r (Deed.Starts value)) }
{
    match value_of(value) {
        Some(value) => Some(LineAct::Started(value)),
        None => None,
    }
}

// The thread's number is that of one that was started.
fn join_act(thread: i64) -> Option<LineAct>
    ensures { (r : Resolution)
        → MatchOption result (¬ (Writable r (Deed.Joins thread))) (IsActOf r (Deed.Joins thread)) }
{
    if 0 <= thread && thread <= 4294967295 {
        Some(LineAct::Join(thread))
    } else {
        None
    }
}

fn spawn_act(
    alloc: Global,
    typed: &Typed,
    function: u32,
    value: GivenValue,
    thread: u32,
) -> Result<Option<LineAct>, AllocError>
    ensures { IfOk result (λ act. MatchOption act (¬ (Writable typed.now (Deed.Spawns function value thread)))
        (IsActOf typed.now (Deed.Spawns function value thread))) }
{
    match name_of(typed, function) {
        Some(name) => match value_of(value) {
            Some(value) => {
                let name = name.copy(alloc)?;
                Ok(Some(LineAct::Spawn(name, value, i64::from(thread))))
            }
            None => Ok(None),
        },
        None => Ok(None),
    }
}

// What a line says that the deed is, if a line can say it.
fn act_of(alloc: Global, typed: &Typed, deed: Deed) -> Result<Option<LineAct>, AllocError>
    ensures { IfOk result (λ act. MatchOption act (¬ (Writable typed.now deed)) (IsActOf typed.now deed)) }
{
    match deed {
        Deed::Reads(at, value) => Ok(read_act(at, value)),
        Deed::Writes(at, value) => Ok(write_act(at, value)),
        Deed::Makes(reference) => Ok(new_act(reference)),
        Deed::Takes(reference) => Ok(take_act(reference)),
        Deed::Gives(reference) => Ok(give_act(reference)),
        Deed::Frees(reference) => Ok(freed_act(reference)),
        Deed::Locks(at) => Ok(lock_act(at)),
        Deed::Unlocks(at) => Ok(unlock_act(at)),
        Deed::Spawns(function, value, thread) => spawn_act(alloc, typed, function, value, thread),
        Deed::Starts(value) => Ok(started_act(value)),
        Deed::Joins(thread) => Ok(join_act(thread)),
        Deed::Prints(value) => Ok(Some(LineAct::Print(value))),
        Deed::Returns => Ok(Some(LineAct::Return)),
        Deed::Ends => Ok(Some(LineAct::Gone)),
        Deed::Enters(_) | Deed::Wakes(_) | Deed::Signals(_, _) | Deed::Broadcasts(_) => Ok(None),
    }
}

// The number, which is one that a line can say.
fn in_range(thread: u32) -> u32
    ensures is { result ≡ thread }
    ensures small { result ≤ thread_most }
{
    thread
}

/// The line of an event file that is that of this event, if a line can say it: none can say what is done with a
/// condition variable, nor numbers that no object, cell or name of a program has.
pub(crate) fn line_of(
    alloc: Global,
    typed: &Typed,
    event: &Event,
) -> Result<Option<EventLine>, AllocError>
    ensures { IfOk result
        (λ line. MatchOption line (¬ (Writable typed.now event.now.deed)) (λ l. IsLineOf typed.now l event.now)) }
{
    let thread = in_range(event.thread);
    match act_of(alloc, typed, event.deed)? {
        Some(act) => Ok(Some(EventLine { thread, act })),
        None => Ok(None),
    }
}
