// A thread on its way through its text.

ghost use Rattle.std.specs.Prelude.{◌≡◌, ◌≤◌, ◌<◌, ◌++◌, [], ◌∷◌, pos, length, slice_index_or, not, filter, IfOk, OnOk};
ghost use Rattle.std.specs.List.{list_any};
ghost use Rattle.sharc_names.specs.View.{view_kind};
ghost use Rattle.sharc_meaning.specs.{Events.{same_cell, holds_mutex}, State.{enters, answered, performs, unless_stop}};
ghost use Rattle.sharc_meaning.specs.State.{holds, holds_reference, moves, moves_on, is_reference, begins_with, sets};
ghost use Rattle.sharc_meaning.specs.State.{value_in, answer_of, event_of, with_value, gives_up, all_released, drops};
ghost use Rattle.sharc_ask.specs.StepView.{view_state, Does, place_of, held_after};

use crate::cells::number_of;
use sharc_meaning::given::GivenUp;
use sharc_meaning::variable::Variable;
use sharc_names::kind::{ExpressionKind, declared_kind, is_null, is_pointer};
use sharc_tree::event::{Act, CellAt, Object, SourceEvent, Taken};
use sharc_tree::token::Site;
use sharc_tree::trap::Trap;
use sharc_tree::tree::Declaration;
use std::alloc::Global;

/// Why a run is over.
#[derive(Clone, Copy, Drop)]
pub enum RunEnd {
    Memory,
    Wants(SourceEvent),
    Stopped(Trap, Site),
    Spent,
}

/// What a step of a run gives, or why the run is over.
pub type Goes<T> = Result<T, RunEnd>;

/// The variables that exist in a call, and the pointers that its temporaries hold.
#[derive(Drop)]
pub struct Frame {
    pub variables: Vec<Variable>,
    pub temporaries: Vec<i64>,
}

#[derive(Drop)]
pub struct State<'a> {
    pub alloc: Global,
    pub frame: Frame,
    /// The pointers that the callers hold.
    pub below: Vec<i64>,
    pub answers: &'a [i64],
    pub events: Vec<SourceEvent>,
    /// The mutexes that the thread holds by its events.
    pub held: Vec<CellAt>,
    pub fuel: u64,
    /// What it gave up since its last event.
    pub given_up: Vec<GivenUp>,
}

/// Whether a value of this type may be NULL, the constant itself too.
pub fn is_reference(kind: ExpressionKind<'_>) -> bool
    ensures { result ≡ is_reference (view_kind kind.entry) }
{
    is_pointer(kind) || is_null(kind)
}

/// The run stops unless the test is met.
pub fn unless(well: bool, trap: Trap, site: Site, st: &State) -> Goes<()>
    ensures { Does (view_state st.now) result (view_state st.now) (unless_stop well trap site) }
{
    if well {
        Ok(())
    } else {
        Err(RunEnd::Stopped(trap, site))
    }
}

/// One more statement or expression is entered.
pub fn enter(st: &mut State) -> Goes<()>
    ensures does { Does (view_state st.old) result (view_state st.new) enters }
    ensures fuel { IfOk result (λ _. st.new.fuel < st.old.fuel) }
{
    if st.fuel == 0 {
        return Err(RunEnd::Spent);
    }
    st.fuel -= 1;
    Ok(())
}

/// A temporary holds this reference.
pub fn hold_reference(value: i64, st: &mut State) -> Goes<()>
    ensures does { Does (view_state st.old) result (view_state st.new) (holds_reference value) }
    ensures fuel { st.new.fuel ≤ st.old.fuel }
{
    match st.frame.temporaries.push(value) {
        Ok(()) => Ok(()),
        Err(_) => Err(RunEnd::Memory),
    }
}

/// A temporary holds a value of this type, if it is a pointer.
pub fn hold(kind: ExpressionKind<'_>, value: i64, st: &mut State) -> Goes<()>
    ensures does { Does (view_state st.old) result (view_state st.new) (holds (view_kind kind.entry) value) }
    ensures fuel { st.new.fuel ≤ st.old.fuel }
{
    if is_reference(kind) {
        hold_reference(value, st)
    } else {
        Ok(())
    }
}

/// A variable exists from here on.
pub fn begin(declaration: &Declaration, value: i64, st: &mut State) -> Goes<()>
    ensures does { Does (view_state st.old) result (view_state st.new) (begins_with declaration.now value) }
    ensures fuel { st.new.fuel ≤ st.old.fuel }
{
    let is_pointer = is_pointer(declared_kind(&declaration.written));
    let token = declaration.name.site.token;
    let variable = Variable {
        token,
        is_pointer,
        value,
    };
    match st.frame.variables.push(variable) {
        Ok(()) => Ok(()),
        Err(_) => Err(RunEnd::Memory),
    }
}

/// What a variable holds; 0 where it does not exist.
pub fn value_in(variables: &[Variable], token: u32) -> i64
    ensures { result ≡ value_in variables.now token }
{
    match variables {
        [] => 0,
        [variable, rest @ ..] => {
            if variable.token == token {
                variable.value
            } else {
                value_in(rest, token)
            }
        }
    }
}

/// How many variables come before the one of this token; all, where it does not exist.
fn place_of(variables: &[Variable], token: u32) -> usize
    ensures place { result ≡ place_of variables.now token }
    ensures within { result ≤ length variables.now }
{
    match variables {
        [] => 0,
        [variable, rest @ ..] => {
            if variable.token == token {
                0
            } else {
                place_of(rest, token) + 1
            }
        }
    }
}

/// Gives a variable this value.
pub fn set(token: u32, value: i64, st: &mut State) -> Goes<()>
    ensures does { Does (view_state st.old) result (view_state st.new) (sets token value) }
    ensures fuel { st.new.fuel ≤ st.old.fuel }
{
    let place = place_of(st.frame.variables.as_slice(), token);
    if place < st.frame.variables.len() {
        let old = st.frame.variables[place];
        st.frame.variables[place] = Variable {
            token: old.token,
            is_pointer: old.is_pointer,
            value,
        };
    }
    Ok(())
}

/// The reference of the last temporary has gone elsewhere.
pub fn move_on(st: &mut State) -> Goes<()>
    ensures does { Does (view_state st.old) result (view_state st.new) (moves_on 1) }
    ensures fuel { st.new.fuel ≤ st.old.fuel }
{
    let len = st.frame.temporaries.len();
    st.frame.temporaries.truncate(len.saturating_sub(1));
    Ok(())
}

/// Likewise, where it is a value of this type.
pub fn moves(kind: ExpressionKind<'_>, st: &mut State) -> Goes<()>
    ensures does { Does (view_state st.old) result (view_state st.new) (moves (view_kind kind.entry)) }
    ensures fuel { st.new.fuel ≤ st.old.fuel }
{
    if is_reference(kind) {
        move_on(st)
    } else {
        Ok(())
    }
}

/// References are given up.
pub fn give_up(given: GivenUp, st: &mut State) -> Goes<()>
    ensures does { Does (view_state st.old) result (view_state st.new) (gives_up (given ∷ [])) }
    ensures fuel { st.new.fuel ≤ st.old.fuel }
{
    match st.given_up.push(given) {
        Ok(()) => Ok(()),
        Err(_) => Err(RunEnd::Memory),
    }
}

/// This reference is given up.
pub fn release(reference: i64, st: &mut State) -> Goes<()>
    ensures does { Does (view_state st.old) result (view_state st.new) (gives_up (all_released (reference ∷ []))) }
    ensures fuel { st.new.fuel ≤ st.old.fuel }
{
    give_up(GivenUp::Released(number_of(reference)), st)
}

/// A value of this type is used no more.
pub fn dropped(kind: ExpressionKind<'_>, value: i64, st: &mut State) -> Goes<()>
    ensures does { Does (view_state st.old) result (view_state st.new) (drops (view_kind kind.entry) value) }
    ensures fuel { st.new.fuel ≤ st.old.fuel }
{
    if is_reference(kind) {
        release(value, st)
    } else {
        Ok(())
    }
}

/// Whether both are one cell.
pub fn same_cell(a: CellAt, b: CellAt) -> bool
    ensures { result ≡ same_cell a b }
{
    match (a.object, b.object) {
        (Object::Global(g), Object::Global(h)) => g == h && a.cell == b.cell,
        (Object::Made(g), Object::Made(h)) => g == h && a.cell == b.cell,
        _ => false,
    }
}

/// Whether the cell is among these.
pub fn is_among(held: &[CellAt], cell: CellAt) -> bool
    ensures { result ≡ list_any (same_cell cell) held.now }
{
    match held {
        [] => false,
        [first, rest @ ..] => same_cell(cell, *first) || is_among(rest, cell),
    }
}

/// What an event answers.
fn answer_of(variables: &[Variable], act: Act, told: i64) -> i64
    ensures { result ≡ answer_of (value_in variables.now) act told }
{
    match act {
        Act::Read(_, _) => told,
        Act::New(_, _, _) => told,
        Act::Spawn(_, _) => told,
        Act::Signal(_) => told,
        Act::Take(Taken::Cell(_, _), _) => told,
        Act::Take(Taken::Local(token), _) => value_in(variables, token),
        _ => 0,
    }
}

/// Puts those of the cells that are not this one at the end of a list.
fn keep_others(cells: &[CellAt], cell: CellAt, kept: &mut Vec<CellAt>) -> Goes<()>
    ensures { OnOk result (kept.new.items ≡ kept.old.items ++ filter (λ d. not (same_cell d cell)) cells.now) }
{
    match cells {
        [] => Ok(()),
        [first, rest @ ..] => {
            if !same_cell(*first, cell) {
                match kept.push(*first) {
                    Ok(()) => {}
                    Err(_) => return Err(RunEnd::Memory),
                }
            }
            keep_others(rest, cell, kept)
        }
    }
}

/// The mutexes that are held after one more event.
fn note_held(alloc: Global, act: Act, held: &mut Vec<CellAt>) -> Goes<()>
    ensures { OnOk result (held.new.items ≡ held_after act held.old.items) }
{
    match act {
        Act::Lock(cell) => match held.push(cell) {
            Ok(()) => Ok(()),
            Err(_) => Err(RunEnd::Memory),
        },
        Act::Unlock(cell) => {
            let mut kept = Vec::new(alloc);
            keep_others(held.as_slice(), cell, &mut kept)?;
            *held = kept;
            Ok(())
        }
        _ => Ok(()),
    }
}

/// The next answer of the list.
fn next_answer(answers: &[i64]) -> i64
    requires { 0 < length answers.now }
    ensures { result ≡ slice_index_or answers.now 0 (pos 0) }
{
    answers[0]
}

/// An event, with the next answer of the list.
pub fn ask_event(site: Site, act: Act, st: &mut State) -> Goes<i64>
    ensures does { Does (view_state st.old) result (view_state st.new) (answered site act) }
    ensures fuel { st.new.fuel ≤ st.old.fuel }
{
    if st.answers.is_empty() {
        return Err(RunEnd::Wants(SourceEvent {
            thread: 0,
            site,
            answer: 0,
            act,
        }));
    }
    let told = next_answer(st.answers);
    let answer = answer_of(st.frame.variables.as_slice(), act, told);
    let event = SourceEvent {
        thread: 0,
        site,
        answer,
        act,
    };
    match st.events.push(event) {
        Ok(()) => {}
        Err(_) => return Err(RunEnd::Memory),
    }
    match note_held(st.alloc, act, &mut st.held) {
        Ok(()) => {}
        Err(_) => return Err(RunEnd::Memory),
    }
    st.answers = &st.answers[1..];
    st.given_up = Vec::new(st.alloc);
    Ok(answer)
}

/// An event that answers nothing.
pub fn perform(site: Site, act: Act, st: &mut State) -> Goes<()>
    ensures does { Does (view_state st.old) result (view_state st.new) (performs site act) }
    ensures fuel { st.new.fuel ≤ st.old.fuel }
{
    ask_event(site, act, st)?;
    Ok(())
}
