// Condition variables: what is asked for, and where it stops.

ghost use Rattle.std.specs.Prelude.{◌≡◌, ◌≤◌, slice_index_or};
ghost use Rattle.sharc_meaning.specs.{Reference.NULL, Places.pointee, Waiting.{cell_at_place, wait_call, signal_call}};
ghost use Rattle.sharc_meaning.specs.Waiting.{broadcast_call, condition_call};
ghost use Rattle.sharc_ask.specs.{StepView.{view_state, Does}, Waking.{stops_unless_held, waits, awakes}};

use crate::arithmetic::is_zero;
use crate::cells::number_of;
use crate::state::{Goes, State, hold_reference, is_among, move_on, perform, unless};
use sharc_tree::event::{Act, CellAt, Object};
use sharc_tree::token::Site;
use sharc_tree::trap::Trap;

// The first cell of what a pointer refers to.
fn first_cell(pointer: i64) -> CellAt
    ensures { result ≡ cell_at_place (pointee pointer) }
{
    CellAt {
        object: Object::Made(number_of(pointer)),
        cell: 0,
    }
}

/// The run stops unless the thread holds the mutex.
pub fn unless_held(cell: CellAt, site: Site, st: &State) -> Goes<()>
    ensures { Does (view_state st.now) result (view_state st.now) (stops_unless_held cell site) }
{
    unless(
        is_among(st.held.as_slice(), cell),
        Trap::MutexNotHeld,
        site,
        st,
    )
}

// From the Unlock on.
fn awakes(site: Site, condition: i64, mutex: i64, st: &mut State) -> Goes<()>
    ensures does { Does (view_state st.old) result (view_state st.new) (awakes site condition mutex) }
    ensures fuel { st.new.fuel ≤ st.old.fuel }
{
    hold_reference(mutex, st)?;
    perform(site, Act::Woken(first_cell(condition)), st)?;
    perform(site, Act::Lock(first_cell(mutex)), st)?;
    move_on(st)
}

// From the Enter on.
fn waits(site: Site, condition: i64, mutex: i64, st: &mut State) -> Goes<()>
    ensures does { Does (view_state st.old) result (view_state st.new) (waits site condition mutex) }
    ensures fuel { st.new.fuel ≤ st.old.fuel }
{
    perform(site, Act::Enter(first_cell(condition)), st)?;
    perform(site, Act::Unlock(first_cell(mutex)), st)?;
    awakes(site, condition, mutex, st)
}

/// `wait(c, m)`
pub fn wait_call(site: Site, condition: i64, mutex: i64, st: &mut State) -> Goes<()>
    ensures does { Does (view_state st.old) result (view_state st.new) (wait_call site condition mutex) }
    ensures fuel { st.new.fuel ≤ st.old.fuel }
{
    unless(!is_zero(condition), Trap::NullPointer, site, st)?;
    unless(!is_zero(mutex), Trap::NullPointer, site, st)?;
    unless_held(first_cell(mutex), site, st)?;
    waits(site, condition, mutex, st)
}

fn signal_call(site: Site, condition: i64, st: &mut State) -> Goes<()>
    ensures does { Does (view_state st.old) result (view_state st.new) (signal_call site condition) }
    ensures fuel { st.new.fuel ≤ st.old.fuel }
{
    unless(!is_zero(condition), Trap::NullPointer, site, st)?;
    perform(site, Act::Signal(first_cell(condition)), st)
}

fn broadcast_call(site: Site, condition: i64, st: &mut State) -> Goes<()>
    ensures does { Does (view_state st.old) result (view_state st.new) (broadcast_call site condition) }
    ensures fuel { st.new.fuel ≤ st.old.fuel }
{
    unless(!is_zero(condition), Trap::NullPointer, site, st)?;
    perform(site, Act::Broadcast(first_cell(condition)), st)
}

// The value at this place, NULL past the last one.
fn value_at(values: &[i64], at: usize) -> i64
    ensures { result ≡ slice_index_or values.now at NULL }
{
    if at < values.len() { values[at] } else { 0 }
}

/// A known call of this name.
pub fn condition_call(site: Site, name: &[u8], values: &[i64], st: &mut State) -> Goes<()>
    ensures does { Does (view_state st.old) result (view_state st.new) (condition_call site name.now values.now) }
    ensures fuel { st.new.fuel ≤ st.old.fuel }
{
    if name == b"wait".as_slice() {
        wait_call(site, value_at(values, 0), value_at(values, 1), st)
    } else if name == b"signal".as_slice() {
        signal_call(site, value_at(values, 0), st)
    } else {
        broadcast_call(site, value_at(values, 0), st)
    }
}
