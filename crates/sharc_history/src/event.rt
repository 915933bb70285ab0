//! The event of a turn, by what its step found.

ghost use Rattle.std.specs.{Prelude.{◌≡◌, ◌<◌, Some, None, IfSome}, Option.option_map};
ghost use Rattle.sharc_code.specs.{declared.code.Code.Code, Says.started_with};
ghost use Rattle.sharc_history.specs.Told.{shown, valued, value_of, new_told, nobody_told, seen_told, taken, tried};
ghost use Rattle.sharc_history.specs.{Told.{told_of, told, comes, spoken}, References.{value_refers, deed_refers}};
ghost use Rattle.sharc_history.specs.References.{argument_refers, parameter_refers, next_refers};

use crate::cells::{Origin, Where};
use crate::next::{Argument, Coming, Next};
use sharc_code::Parameter;
use sharc_heap::NewState;
use sharc_locks::waits;
use sharc_word::THREADS;

/// A reference: the number of its object and the elements of that. NULL has number 0.
#[derive(Clone, Copy)]
pub struct Reference {
    pub number: u64,
    pub elements: u64,
}

/// What a cell, a print or a thread is given.
#[derive(Clone, Copy)]
pub enum GivenValue {
    Int(i64),
    Reference(Reference),
}

/// What an event does, without the modes of cells.
#[derive(Clone, Copy)]
pub enum Deed {
    Reads(Where, GivenValue),
    Writes(Where, GivenValue),
    Makes(Reference),
    Takes(Reference),
    Gives(Reference),
    Frees(Reference),
    Locks(Where),
    Unlocks(Where),
    /// The function, what it is handed, and the number of the new thread.
    Spawns(u32, GivenValue, u32),
    Starts(GivenValue),
    Joins(i64),
    Prints(i64),
    Returns,
    Ends,
    Enters(Where),
    Wakes(Where),
    /// The thread that was a waiter and is none from now on, if there was one.
    Signals(Where, Option<u32>),
    Broadcasts(Where),
}

/// An event: its thread, where in the source it is, and what it does.
#[derive(Clone, Copy)]
pub struct Event {
    pub thread: u32,
    pub origin: Origin,
    pub deed: Deed,
}

fn refers(number: u64, elements: u64) -> GivenValue
    ensures { result ≡ GivenValue.Reference record { number = number; elements = elements } }
{
    GivenValue::Reference(Reference { number, elements })
}

fn argued(argument: Argument, elements: u64) -> GivenValue
    ensures value { valued result ≡ value_of argument elements }
    ensures refers { value_refers result ≡ argument_refers argument }
{
    match argument {
        Argument::Int(value) => GivenValue::Int(value),
        Argument::Reference(number) => refers(number, elements),
    }
}

// What a thread of a function with this parameter is begun with, where its argument's word holds this.
fn begun(parameter: Parameter, found: u64, elements: u64) -> GivenValue
    ensures value { valued result ≡ started_with parameter found elements }
    ensures refers { value_refers result ≡ parameter_refers parameter found }
{
    match parameter {
        Parameter::None | Parameter::Int => GivenValue::Int(found.cast_signed()),
        Parameter::Reference => refers(found, elements),
    }
}

// The deed of a New that is on its way.
fn making(state: NewState) -> Option<Deed>
    ensures shown { option_map shown result ≡ new_told state state.stage }
    ensures refers { IfSome result (λ d. deed_refers d ≡ None) }
{
    match state.sized() {
        Some((number, elements)) => Some(Deed::Makes(Reference { number, elements })),
        None => None,
    }
}

// The deed of a Take of a local, which is none where that is NULL.
fn taking(number: u64, elements: u64) -> Option<Deed>
    ensures shown { option_map shown result ≡ taken number elements }
    ensures refers { IfSome result (λ d. deed_refers d ≡ Some number) }
{
    if number == 0 {
        None
    } else {
        Some(Deed::Takes(Reference { number, elements }))
    }
}

// The deed of a signal that found this, where there may be no waiter.
fn signalling(at: Where, found: u64) -> Option<Deed>
    ensures shown { option_map shown result ≡ nobody_told at found }
    ensures refers { IfSome result (λ d. deed_refers d ≡ None) }
{
    if found == 0 {
        Some(Deed::Signals(at, None))
    } else {
        None
    }
}

// The same, where this was found before.
#[tactic(auto, unfolding(sharc_locks::specs::Waiters::lowest_of))]
fn signalling_seen(at: Where, seen: u64, found: u64) -> Option<Deed>
    ensures shown { option_map shown result ≡ seen_told at seen found }
    ensures refers { IfSome result (λ d. deed_refers d ≡ None) }
{
    if found == seen {
        Some(Deed::Signals(at, Some(seen.trailing_zeros())))
    } else {
        signalling(at, found)
    }
}

// The deed of a step that may be a try.
fn tried(next: Next, thread: u32, found: u64) -> Option<Deed>
    requires { thread < THREADS }
    ensures shown { option_map shown result ≡ tried thread next found }
    ensures refers { IfSome result (λ d. deed_refers d ≡ None) }
{
    match next {
        Next::Locks(at) if found == 0 => Some(Deed::Locks(at)),
        Next::Joins(number) if found > 2 => Some(Deed::Joins(number)),
        Next::Wakes(at) if !waits(found, thread) => Some(Deed::Wakes(at)),
        _ => None,
    }
}

// The deed of a turn of this thread whose step found this; the object of which it speaks has this many elements.
fn deed_of(next: Next, thread: u32, found: u64, elements: u64) -> Option<Deed>
    requires { thread < THREADS }
    ensures shown { option_map shown result ≡ told_of thread next found elements }
    ensures refers { IfSome result (λ d. deed_refers d ≡ next_refers next found) }
{
    match next {
        Next::Reads(at) => Some(Deed::Reads(at, GivenValue::Int(found.cast_signed()))),
        Next::ReadsReference(at) => Some(Deed::Reads(at, refers(found, elements))),
        Next::Writes(at, value) => Some(Deed::Writes(at, GivenValue::Int(value))),
        Next::WritesReference(at, number) => Some(Deed::Writes(at, refers(number, elements))),
        Next::Prints(value) => Some(Deed::Prints(value)),
        Next::Gives(number) => Some(Deed::Gives(Reference { number, elements })),
        Next::Frees(number) => Some(Deed::Frees(Reference { number, elements })),
        Next::Takes(number) => taking(number, elements),
        Next::TakesCell(_) => Some(Deed::Takes(Reference {
            number: found,
            elements,
        })),
        Next::Spawns(function, argument, number) => {
            Some(Deed::Spawns(function, argued(argument, elements), number))
        }
        Next::Makes(state) => making(state),
        Next::Starts(parameter) => Some(Deed::Starts(begun(parameter, found, elements))),
        Next::Unlocks(at) => Some(Deed::Unlocks(at)),
        Next::Returns => Some(Deed::Returns),
        Next::Ends => Some(Deed::Ends),
        Next::Enters(at) => Some(Deed::Enters(at)),
        Next::Signals(at) => signalling(at, found),
        Next::SignalsSeen(at, seen) => signalling_seen(at, seen, found),
        Next::Broadcasts(at) => Some(Deed::Broadcasts(at)),
        Next::Nothing => None,
        Next::Locks(_) | Next::Joins(_) | Next::Wakes(_) => tried(next, thread, found),
    }
}

impl Coming {
    /// The number of the object of which its event speaks, where its step found this.
    pub(crate) fn speaks_of(&self, found: u64) -> u64
        ensures { result ≡ spoken self.now.next found }
    {
        match self.next {
            Next::ReadsReference(_) | Next::TakesCell(_) | Next::Starts(_) => found,
            Next::WritesReference(_, number) => number,
            Next::Gives(number) | Next::Frees(number) | Next::Takes(number) => number,
            Next::Spawns(_, Argument::Reference(number), _) => number,
            _ => 0,
        }
    }
}

/// The event of a turn of this thread, if it is one, where its step found this, and the object of which it speaks has
/// this many elements.
pub(crate) fn event_of(coming: Coming, thread: u32, found: u64, elements: u64) -> Option<Event>
    requires { thread < THREADS }
    ensures told { (code : Code) → option_map (told code) result ≡ comes code thread coming found elements }
    ensures origin { IfSome result (λ e. e.origin ≡ coming.origin) }
    ensures refers { IfSome result (λ e. deed_refers e.deed ≡ next_refers coming.next found) }
{
    match deed_of(coming.next, thread, found, elements) {
        Some(deed) => Some(Event {
            thread,
            origin: coming.origin,
            deed,
        }),
        None => None,
    }
}
