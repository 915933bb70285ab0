// Mutexes: what is asked for, and where it stops.

ghost use Rattle.std.specs.Prelude.{◌≡◌, ◌≤◌};
ghost use Rattle.sharc_meaning.specs.Waiting.{cell_at_place, moves_base, gives_up_base, lock_call, unlock_call};
ghost use Rattle.sharc_ask.specs.{StepView.{view_state, view_place, Does}, Waking.stops_where_held};

use crate::places::LvaluePlace;
use crate::state::{Goes, State, give_up, is_among, move_on, perform, unless};
use crate::waiting::unless_held;
use sharc_meaning::given::GivenUp;
use sharc_tree::event::{Act, CellAt, Object};
use sharc_tree::token::Site;
use sharc_tree::trap::Trap;

fn cell_at_place(place: LvaluePlace) -> CellAt
    ensures { result ≡ cell_at_place (view_place place) }
{
    match place {
        LvaluePlace::Variable(_) => CellAt {
            object: Object::Global(0),
            cell: 0,
        },
        LvaluePlace::Cell(object, _, cell) => CellAt { object, cell },
    }
}

// The run stops where the thread holds the mutex.
fn unless_held_already(cell: CellAt, site: Site, st: &State) -> Goes<()>
    ensures { Does (view_state st.now) result (view_state st.now) (stops_where_held cell site) }
{
    unless(
        !is_among(st.held.as_slice(), cell),
        Trap::MutexAlreadyHeld,
        site,
        st,
    )
}

fn moves_base(place: LvaluePlace, st: &mut State) -> Goes<()>
    ensures does { Does (view_state st.old) result (view_state st.new) (moves_base (view_place place)) }
    ensures fuel { st.new.fuel ≤ st.old.fuel }
{
    match place {
        LvaluePlace::Cell(Object::Made(_), _, _) => move_on(st),
        LvaluePlace::Cell(Object::Global(_), _, _) => Ok(()),
        LvaluePlace::Variable(_) => Ok(()),
    }
}

fn gives_up_base(place: LvaluePlace, st: &mut State) -> Goes<()>
    ensures does { Does (view_state st.old) result (view_state st.new) (gives_up_base (view_place place)) }
    ensures fuel { st.new.fuel ≤ st.old.fuel }
{
    match place {
        LvaluePlace::Cell(Object::Made(number), _, _) => give_up(GivenUp::Released(number), st),
        LvaluePlace::Cell(Object::Global(_), _, _) => Ok(()),
        LvaluePlace::Variable(_) => Ok(()),
    }
}

/// A mutex that the thread holds already stops, and so does a seventeenth.
pub fn lock_call(site: Site, place: LvaluePlace, st: &mut State) -> Goes<()>
    ensures does { Does (view_state st.old) result (view_state st.new) (lock_call site (view_place place)) }
    ensures fuel { st.new.fuel ≤ st.old.fuel }
{
    let cell = cell_at_place(place);
    unless_held_already(cell, site, st)?;
    unless(st.held.len() < 16, Trap::TooManyLocks, site, st)?;
    perform(site, Act::Lock(cell), st)?;
    moves_base(place, st)
}

/// A mutex that it does not hold stops.
pub fn unlock_call(site: Site, place: LvaluePlace, st: &mut State) -> Goes<()>
    ensures does { Does (view_state st.old) result (view_state st.new) (unlock_call site (view_place place)) }
    ensures fuel { st.new.fuel ≤ st.old.fuel }
{
    let cell = cell_at_place(place);
    unless_held(cell, site, st)?;
    perform(site, Act::Unlock(cell), st)?;
    gives_up_base(place, st)
}
