// What lvalues name, and what is done at the places that they name.

ghost use Rattle.std.specs.Prelude.{◌≡◌, ◌≤◌, pos, [], ◌∷◌, if◌then◌else◌};
ghost use Rattle.sharc_tree.specs.declared.event.Act.TheVariants as acts;
ghost use Rattle.sharc_tree.specs.declared.event.Taken.TheVariants as taken;
ghost use Rattle.sharc_names.specs.{View.view_kind, Kinds.is_pointer};
ghost use Rattle.sharc_ctype.specs.Resolved.{global_at};
ghost use Rattle.sharc_mode.specs.{Sharings.locked, View.{view_lock, view_sharing}};
ghost use Rattle.sharc_meaning.specs.{Cells.{guard_of, instance_mode, global_elements}, Places.{based, element}};
ghost use Rattle.sharc_meaning.specs.Places.{element_of_array, field_in, place_named, pointee, guarding, access_mode};
ghost use Rattle.sharc_meaning.specs.{Places.{fetched, stored, taken_from, cast_to, freed}, Reference.is_null};
ghost use Rattle.sharc_meaning.specs.{declared.given.GivenUp.TheVariants.Replaced, State.{give, answered, gives_up}};
ghost use Rattle.sharc_meaning.specs.State.{done};
ghost use Rattle.sharc_ask.specs.StepView.{view_state, view_guard, view_place, Does, DoesAs, stored_in_cell};

use crate::arithmetic::is_zero;
use crate::cells::{Guard, global_elements, guard_of, instance_mode, number_of};
use crate::state::{
    Goes, RunEnd, State, ask_event, dropped, give_up, hold, hold_reference, move_on, moves,
    perform, set, unless, value_in,
};
use sharc_meaning::given::GivenUp;
use sharc_mode::moded::Moded;
use sharc_mode::sharing::{Lock, Sharing};
use sharc_names::fault::Named;
use sharc_names::kind::{ExpressionKind, is_pointer};
use sharc_tree::event::{Act, CellAt, CellMode, Object, TakeKind, Taken};
use sharc_tree::token::Site;
use sharc_tree::trap::Trap;

/// What an lvalue names: a variable, or a cell of an object in the element that begins at the cell given first.
#[derive(Clone, Copy, Drop)]
pub enum LvaluePlace {
    Variable(u32),
    Cell(Object, u64, u64),
}

/// What a name names.
pub fn place_named(named: Named) -> LvaluePlace
    ensures { view_place result ≡ place_named named }
{
    match named {
        Named::Variable(token) => LvaluePlace::Variable(token),
        Named::Global(number) => LvaluePlace::Cell(Object::Global(number), 0, 0),
        _ => LvaluePlace::Variable(0),
    }
}

/// The first element of what a pointer refers to.
pub fn pointee(pointer: i64) -> LvaluePlace
    ensures { view_place result ≡ pointee pointer }
{
    LvaluePlace::Cell(Object::Made(number_of(pointer)), 0, 0)
}

/// The place of the field this many cells after the element's first. A cell that has no number of 64 bits is answered
/// as out of memory.
pub fn field_in(number: u64, place: LvaluePlace, st: &State) -> Goes<LvaluePlace>
    ensures { DoesAs view_place (view_state st.now) result (view_state st.now)
        (give (field_in number (view_place place))) }
{
    match place {
        LvaluePlace::Variable(token) => Ok(LvaluePlace::Variable(token)),
        LvaluePlace::Cell(object, first, _) => match first.checked_add(number) {
            Some(cell) => Ok(LvaluePlace::Cell(object, first, cell)),
            None => Err(RunEnd::Memory),
        },
    }
}

/// A base that is a pointer is held by a temporary, and NULL stops.
pub fn base(site: Site, kind: ExpressionKind<'_>, pointer: i64, st: &mut State) -> Goes<()>
    ensures does { Does (view_state st.old) result (view_state st.new) (based site (view_kind kind.entry) pointer) }
    ensures fuel { st.new.fuel ≤ st.old.fuel }
{
    hold(kind, pointer, st)?;
    unless(!is_zero(pointer), Trap::NullPointer, site, st)
}

/// An element with this many cells, of this many elements; an index outside stops.
pub fn element(
    site: Site,
    object: Object,
    cells: u64,
    elements: u64,
    index: i64,
    st: &State,
) -> Goes<LvaluePlace>
    ensures { DoesAs view_place (view_state st.now) result (view_state st.now)
        (element site object cells elements index) }
{
    if index < 0 {
        return Err(RunEnd::Stopped(Trap::IndexOutOfBounds, site));
    }
    let n = index.unsigned_abs();
    if n >= elements {
        return Err(RunEnd::Stopped(Trap::IndexOutOfBounds, site));
    }
    match n.checked_mul(cells) {
        Some(first) => Ok(LvaluePlace::Cell(object, first, first)),
        None => Err(RunEnd::Memory),
    }
}

/// The element of a global array.
pub fn element_of_array(
    program: &Moded,
    site: Site,
    cells: u64,
    array: LvaluePlace,
    index: i64,
    st: &State,
) -> Goes<LvaluePlace>
    ensures { DoesAs view_place (view_state st.now) result (view_state st.now)
        (element_of_array program.now.typed site cells (view_place array) index) }
{
    match array {
        LvaluePlace::Cell(Object::Global(number), _, _) => element(
            site,
            Object::Global(number),
            cells,
            global_elements(program.typed(), number),
            index,
            st,
        ),
        LvaluePlace::Cell(Object::Made(_), _, _) => Ok(LvaluePlace::Variable(0)),
        LvaluePlace::Variable(_) => Ok(LvaluePlace::Variable(0)),
    }
}

/// The mutex that guards; where it is found by a Read of the pointer cell, NULL stops.
pub fn guarding(site: Site, guard: Guard, st: &mut State) -> Goes<CellAt>
    ensures does { Does (view_state st.old) result (view_state st.new) (guarding site (view_guard guard)) }
    ensures fuel { st.new.fuel ≤ st.old.fuel }
{
    match guard {
        Guard::Mutex(cell) => Ok(cell),
        Guard::Behind(cell) => {
            let pointer = ask_event(site, Act::Read(cell, CellMode::Readonly), st)?;
            unless(!is_zero(pointer), Trap::NullPointer, site, st)?;
            Ok(CellAt {
                object: Object::Made(number_of(pointer)),
                cell: 0,
            })
        }
        Guard::Nothing => Err(RunEnd::Stopped(Trap::NullPointer, site)),
    }
}

fn locked_mode(
    program: &Moded,
    site: Site,
    lock: Lock<'_>,
    object: Object,
    first: u64,
    st: &mut State,
) -> Goes<CellMode>
    ensures does { Does (view_state st.old) result (view_state st.new)
        (access_mode program.now.typed site (locked (view_lock lock.entry)) object first) }
    ensures fuel { st.new.fuel ≤ st.old.fuel }
{
    match guard_of(
        program.typed(),
        st.frame.variables.as_slice(),
        object,
        first,
        lock,
    ) {
        None => Err(RunEnd::Memory),
        Some(guard) => {
            let cell = guarding(site, guard, st)?;
            Ok(CellMode::Locked(Some(cell)))
        }
    }
}

/// The mode in the event of an access to a cell in this element.
pub fn access_mode(
    program: &Moded,
    site: Site,
    mode: Sharing<'_>,
    object: Object,
    first: u64,
    st: &mut State,
) -> Goes<CellMode>
    ensures does { Does (view_state st.old) result (view_state st.new)
        (access_mode program.now.typed site (view_sharing mode.entry) object first) }
    ensures fuel { st.new.fuel ≤ st.old.fuel }
{
    match mode {
        Sharing::Private => Ok(CellMode::Private),
        Sharing::Readonly => Ok(CellMode::Readonly),
        Sharing::Locked(lock) => locked_mode(program, site, lock, object, first, st),
        Sharing::Racy => Ok(CellMode::Racy),
        Sharing::Dynamic => Ok(CellMode::Dynamic),
    }
}

/// The value at a place.
pub fn fetched(
    program: &Moded,
    site: Site,
    mode: Sharing<'_>,
    place: LvaluePlace,
    st: &mut State,
) -> Goes<i64>
    ensures does { Does (view_state st.old) result (view_state st.new)
        (fetched program.now.typed site (view_sharing mode.entry) (view_place place)) }
    ensures fuel { st.new.fuel ≤ st.old.fuel }
{
    match place {
        LvaluePlace::Variable(token) => Ok(value_in(st.frame.variables.as_slice(), token)),
        LvaluePlace::Cell(object, first, cell) => {
            let under = access_mode(program, site, mode, object, first, st)?;
            ask_event(site, Act::Read(CellAt { object, cell }, under), st)
        }
    }
}

/// A cell of this type was written: if it is a pointer, what it held before is given up.
fn replaced_in(kind: ExpressionKind<'_>, cell: CellAt, st: &mut State) -> Goes<()>
    ensures does { Does (view_state st.old) result (view_state st.new) (if is_pointer (view_kind kind.entry)
        then gives_up (Replaced cell ∷ []) else done) }
    ensures fuel { st.new.fuel ≤ st.old.fuel }
{
    if is_pointer(kind) {
        give_up(GivenUp::Replaced(cell), st)
    } else {
        Ok(())
    }
}

fn stored_in_cell(
    site: Site,
    kind: ExpressionKind<'_>,
    cell: CellAt,
    under: CellMode,
    value: i64,
    st: &mut State,
) -> Goes<()>
    ensures does { Does (view_state st.old) result (view_state st.new)
        (stored_in_cell site (view_kind kind.entry) cell under value) }
    ensures fuel { st.new.fuel ≤ st.old.fuel }
{
    perform(site, Act::Write(cell, under, value), st)?;
    moves(kind, st)?;
    replaced_in(kind, cell, st)
}

/// A value of this type to a place; the old one is given up, the reference moves in.
pub fn stored(
    program: &Moded,
    site: Site,
    kind: ExpressionKind<'_>,
    mode: Sharing<'_>,
    place: LvaluePlace,
    value: i64,
    st: &mut State,
) -> Goes<()>
    ensures does { Does (view_state st.old) result (view_state st.new)
        (stored program.now.typed site (view_kind kind.entry) (view_sharing mode.entry) (view_place place) value) }
    ensures fuel { st.new.fuel ≤ st.old.fuel }
{
    match place {
        LvaluePlace::Variable(token) => {
            let old = value_in(st.frame.variables.as_slice(), token);
            set(token, value, st)?;
            dropped(kind, old, st)
        }
        LvaluePlace::Cell(object, first, cell) => {
            hold(kind, value, st)?;
            let under = access_mode(program, site, mode, object, first, st)?;
            stored_in_cell(site, kind, CellAt { object, cell }, under, value, st)
        }
    }
}

fn taken_of_local(site: Site, kind: TakeKind, token: u32, value: i64, st: &mut State) -> Goes<i64>
    ensures does { Does (view_state st.old) result (view_state st.new) (if is_null value then give value
        else answered site (acts.Take (taken.Local token) kind)) }
    ensures fuel { st.new.fuel ≤ st.old.fuel }
{
    if is_zero(value) {
        Ok(value)
    } else {
        ask_event(site, Act::Take(Taken::Local(token), kind), st)
    }
}

/// What a sharing cast or `free` takes away; the place is NULL from then on.
pub fn taken_from(
    program: &Moded,
    token_site: Site,
    site: Site,
    mode: Sharing<'_>,
    kind: TakeKind,
    place: LvaluePlace,
    st: &mut State,
) -> Goes<i64>
    ensures does { Does (view_state st.old) result (view_state st.new)
        (taken_from program.now.typed token_site site (view_sharing mode.entry) kind (view_place place)) }
    ensures fuel { st.new.fuel ≤ st.old.fuel }
{
    match place {
        LvaluePlace::Variable(token) => {
            let value = value_in(st.frame.variables.as_slice(), token);
            taken_of_local(site, kind, token, value, st)?;
            set(token, 0, st)?;
            Ok(value)
        }
        LvaluePlace::Cell(object, first, cell) => {
            let under = access_mode(program, site, mode, object, first, st)?;
            ask_event(
                site,
                Act::Take(Taken::Cell(CellAt { object, cell }, under), kind),
                st,
            )
        }
    }
}

/// The reference that was taken goes on under its new mode.
pub fn cast_to(
    program: &Moded,
    site: Site,
    mode: Sharing<'_>,
    value: i64,
    st: &mut State,
) -> Goes<i64>
    ensures does { Does (view_state st.old) result (view_state st.new)
        (cast_to program.now.typed site (view_sharing mode.entry) value) }
    ensures fuel { st.new.fuel ≤ st.old.fuel }
{
    hold_reference(value, st)?;
    let under = instance_mode(program.typed(), st.frame.variables.as_slice(), mode);
    perform(site, Act::Give(value, under), st)?;
    move_on(st)?;
    Ok(value)
}

/// The object ends, and what its pointer cells hold is given up on the way.
pub fn freed(site: Site, value: i64, st: &mut State) -> Goes<()>
    ensures does { Does (view_state st.old) result (view_state st.new) (freed site value) }
    ensures fuel { st.new.fuel ≤ st.old.fuel }
{
    give_up(GivenUp::Emptied(number_of(value)), st)?;
    hold_reference(value, st)?;
    perform(site, Act::Freed(value), st)?;
    move_on(st)
}
