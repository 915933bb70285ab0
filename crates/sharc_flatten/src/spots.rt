// The places of the source that operations have: how they are written, and under which modes.

ghost use Rattle.std.specs.{Prelude.{◌≡◌, ◌+◌, ◌<◌, ◌^◌, IfOk}, Option.option_map};
ghost use Rattle.sharc_code.specs.declared.code.Use.TheVariants as uses;
ghost use Rattle.sharc_ctype.specs.Resolved.{named_at};
ghost use Rattle.sharc_mode.specs.View.{view_lock, view_name, view_sharing};
ghost use Rattle.sharc_meaning.specs.Cells.{field_place_behind};
ghost use Rattle.sharc_flat.specs.Places.{guard_named, guard_field, beside_named, beside_field, mode_beside};
ghost use Rattle.sharc_flat.specs.Places.{mode_named, place_mode, object_mode_named, object_mode, cell_of, guard_cell};
ghost use Rattle.sharc_flat.specs.Places.{lock_beside, lock_cell, lock_words, spot_of, object_spot, take_use};
ghost use Rattle.sharc_flat.specs.Scope.{register_of, number_in, no_text, tokens_in, no_cell, at_site, at_words};
ghost use Rattle.sharc_flatten.specs.View.{context, view_target};

use crate::lookups::{cell_in, field_place, field_place_behind, first_cell, is_behind_pointer};
use crate::registers::Registers;
use crate::scope::{number_in, register_of};
use crate::source::PlacedProgram;
use crate::target::Target;
use sharc_code::{Cell, PlaceMode, Text, Use};
use sharc_flat::Spot;
use sharc_flat::slot::{Lvalue, Slot};
use sharc_mode::sharing::{Lock, Sharing};
use sharc_names::fault::Named;
use sharc_tree::token::{Site, Span};
use std::alloc::AllocError;

/// The cell that something names, whose base and number are in the first of these registers.
pub(crate) fn cell_of(
    source: &PlacedProgram<'_>,
    at: Registers,
    target: Target,
) -> Result<Cell, AllocError>
    ensures { IfOk result (λ cell. cell ≡ cell_of source.now.globals.items at.int at.reference (view_target target)) }
{
    match target {
        Target::Variable(_) => Ok(Cell::Global(0, 0)),
        Target::InGlobal(number, field) => Ok(Cell::Global(
            number,
            cell_in(source, number, field)?,
        )),
        Target::InGlobalAt(number, _) => Ok(Cell::GlobalAt(number, at.int)),
        Target::InObject(field) => Ok(Cell::Object(at.reference, field)),
        Target::InObjectAt(_) => Ok(Cell::ObjectAt(at.reference, at.int)),
    }
}

/// The cell of its element with a mutex or the pointer to one.
pub(crate) fn guard_cell(
    source: &PlacedProgram<'_>,
    mutex: u32,
    at: Registers,
    target: Target,
) -> Result<Cell, AllocError>
    ensures { IfOk result (λ cell. cell
        ≡ guard_cell source.now.globals.items mutex at.int at.reference (view_target target)) }
{
    match target {
        Target::Variable(_) => Ok(Cell::Global(0, 0)),
        Target::InGlobal(number, _) => Ok(Cell::Global(number, cell_in(source, number, mutex)?)),
        Target::InGlobalAt(number, _) => Ok(Cell::GlobalAt(number, at.int + 1)),
        Target::InObject(_) => Ok(Cell::Object(at.reference, mutex)),
        Target::InObjectAt(_) => Ok(Cell::ObjectAt(at.reference, at.int + 1)),
    }
}

fn guard_named(source: &PlacedProgram<'_>, lock: Lock<'_>, named: Named) -> Option<u32>
    ensures { result ≡ guard_named source.now.m.now.typed (view_lock lock.entry) named }
{
    match named {
        Named::Field(token) => {
            if is_behind_pointer(source.m.typed(), lock) {
                Some(field_place(source, token))
            } else {
                None
            }
        }
        Named::Struct(_) => None,
        Named::Global(_) => None,
        Named::Function(_) => None,
        Named::Variable(_) => None,
        Named::Known => None,
    }
}

/// The field with the pointer to the mutex, where an access is locked through one.
pub(crate) fn guard_field(source: &PlacedProgram<'_>, mode: Sharing<'_>) -> Option<u32>
    ensures { result ≡ guard_field source.now.m.now.typed (view_sharing mode.entry) }
{
    match mode {
        Sharing::Locked(lock) => guard_named(source, lock, source.m.typed().named(lock.first)),
        Sharing::Private => None,
        Sharing::Readonly => None,
        Sharing::Racy => None,
        Sharing::Dynamic => None,
    }
}

fn beside_named(source: &PlacedProgram<'_>, named: Named) -> Option<u32>
    ensures { result ≡ beside_named source.now.m.now.typed (record { first = 0; second = None }) named }
{
    match named {
        Named::Field(token) => Some(field_place(source, token)),
        Named::Struct(_) => None,
        Named::Global(_) => None,
        Named::Function(_) => None,
        Named::Variable(_) => None,
        Named::Known => None,
    }
}

/// The field with the mutex or the pointer to it, where an access is locked by one of the same element.
pub(crate) fn beside_field(source: &PlacedProgram<'_>, mode: Sharing<'_>) -> Option<u32>
    ensures { result ≡ beside_field source.now.m.now.typed (view_sharing mode.entry) }
{
    match mode {
        Sharing::Locked(lock) => beside_named(source, source.m.typed().named(lock.first)),
        Sharing::Private => None,
        Sharing::Readonly => None,
        Sharing::Racy => None,
        Sharing::Dynamic => None,
    }
}

/// The mode of what is locked by the mutex to which a variable leads.
fn through(
    source: &PlacedProgram<'_>,
    scope: &[Slot],
    variable: u32,
    name: &[u8],
) -> Result<PlaceMode, AllocError>
    ensures { IfOk result (λ mode. mode ≡ PlaceMode.LockedThrough (number_in (register_of scope.now variable))
        (field_place_behind source.now.m.now.typed variable name.now)) }
{
    let register = number_in(register_of(scope, variable)?);
    let place = field_place_behind(source.m.typed(), variable, name)?;
    Ok(PlaceMode::LockedThrough(register, place))
}

/// The mode of what is locked by something that is no sibling.
fn object_mode_named(
    source: &PlacedProgram<'_>,
    scope: &[Slot],
    named: Named,
    second: Option<&[u8]>,
) -> Result<PlaceMode, AllocError>
    ensures { IfOk result (λ mode. mode
        ≡ object_mode_named (context source.now scope.now) named (view_name second.entry)) }
{
    match named {
        Named::Global(number) => Ok(PlaceMode::LockedGlobal(number, first_cell(source, number)?)),
        Named::Variable(token) => match second {
            Some(name) => through(source, scope, token, name),
            None => Ok(PlaceMode::LockedLoaded),
        },
        Named::Struct(_) => Ok(PlaceMode::LockedLoaded),
        Named::Function(_) => Ok(PlaceMode::LockedLoaded),
        Named::Field(_) => Ok(PlaceMode::LockedLoaded),
        Named::Known => Ok(PlaceMode::LockedLoaded),
    }
}

fn mode_beside(is_pointer: bool, field: u32, mutex: u32) -> PlaceMode
    ensures { result ≡ mode_beside is_pointer field mutex }
{
    if is_pointer {
        PlaceMode::LockedLoaded
    } else {
        PlaceMode::LockedSibling(field, mutex)
    }
}

fn locked_mode(
    source: &PlacedProgram<'_>,
    scope: &[Slot],
    field: u32,
    lock: Lock<'_>,
) -> Result<PlaceMode, AllocError>
    ensures { IfOk result (λ mode. mode ≡ mode_named (context source.now scope.now) field (view_lock lock.entry)
        (named_at source.now.m.now.typed lock.entry.first) (view_name lock.entry.second)) }
{
    let t = source.m.typed();
    match t.named(lock.first) {
        Named::Field(token) => Ok(mode_beside(
            is_behind_pointer(t, lock),
            field,
            field_place(source, token),
        )),
        named => object_mode_named(source, scope, named, lock.second),
    }
}

/// The mode of an access to this field of an element.
pub(crate) fn place_mode(
    source: &PlacedProgram<'_>,
    scope: &[Slot],
    field: u32,
    mode: Sharing<'_>,
) -> Result<PlaceMode, AllocError>
    ensures { IfOk result (λ of. of ≡ place_mode (context source.now scope.now) field (view_sharing mode.entry)) }
{
    match mode {
        Sharing::Private => Ok(PlaceMode::Private),
        Sharing::Readonly => Ok(PlaceMode::Readonly),
        Sharing::Locked(lock) => locked_mode(source, scope, field, lock),
        Sharing::Racy => Ok(PlaceMode::Racy),
        Sharing::Dynamic => Ok(PlaceMode::Dynamic),
    }
}

/// The mode of an object that is made or given.
pub(crate) fn object_mode(
    source: &PlacedProgram<'_>,
    scope: &[Slot],
    mode: Sharing<'_>,
) -> Result<PlaceMode, AllocError>
    ensures { IfOk result (λ of. of ≡ object_mode (context source.now scope.now) (view_sharing mode.entry)) }
{
    match mode {
        Sharing::Private => Ok(PlaceMode::Private),
        Sharing::Readonly => Ok(PlaceMode::Readonly),
        Sharing::Locked(lock) => {
            object_mode_named(
                source,
                scope,
                source.m.typed().named(lock.first),
                lock.second,
            )
        }
        Sharing::Racy => Ok(PlaceMode::Racy),
        Sharing::Dynamic => Ok(PlaceMode::Dynamic),
    }
}

/// The cell of the mutex or of the pointer to it, where it is one of the same element.
fn lock_cell(
    source: &PlacedProgram<'_>,
    at: Registers,
    target: Target,
    mode: Sharing<'_>,
) -> Result<Cell, AllocError>
    ensures { IfOk result (λ cell. cell ≡ lock_beside source.now.globals.items at.int at.reference (view_target target)
        (beside_field source.now.m.now.typed (view_sharing mode.entry))) }
{
    match beside_field(source, mode) {
        None => Ok(Cell::Global(0, 0)),
        Some(mutex) => guard_cell(source, mutex, at, target),
    }
}

/// No text.
pub fn no_text() -> Text
    ensures { result ≡ no_text }
{
    Text { from: 0, until: 0 }
}

/// The tokens of a construct.
pub(crate) fn tokens_in(span: Span) -> Result<Text, AllocError>
    ensures { IfOk result (λ text. text ≡ tokens_in span) }
{
    match span.last.token.checked_add(1) {
        Some(until) => Ok(Text {
            from: span.first.token,
            until,
        }),
        None => Err(AllocError),
    }
}

fn lock_words(lvalue: Lvalue, mode: Sharing<'_>) -> Text
    ensures { result ≡ lock_words lvalue (view_sharing mode.entry) }
{
    match mode {
        Sharing::Locked(lock) => Text {
            from: lvalue.bare,
            until: lock.first,
        },
        Sharing::Private => no_text(),
        Sharing::Readonly => no_text(),
        Sharing::Racy => no_text(),
        Sharing::Dynamic => no_text(),
    }
}

/// A place of the source at which no cell is used.
pub fn at_site(site: Site) -> Spot
    ensures { result ≡ at_site site }
{
    Spot {
        site,
        lvalue: no_text(),
        lock_text: no_text(),
        mode: PlaceMode::Racy,
        at: Use::Other,
        lock: Cell::Global(0, 0),
        is_simple: false,
    }
}

/// The same, with the words of an lvalue or an expression.
pub(crate) fn at_words(site: Site, words: Span, at: Use) -> Result<Spot, AllocError>
    ensures { IfOk result (λ spot. spot ≡ at_words site words at) }
{
    let mut spot = at_site(site);
    spot.lvalue = tokens_in(words)?;
    spot.at = at;
    Ok(spot)
}

/// Where an object is made or given.
pub(crate) fn object_spot(
    source: &PlacedProgram<'_>,
    scope: &[Slot],
    site: Site,
    words: Text,
    at: Use,
    mode: Sharing<'_>,
) -> Result<Spot, AllocError>
    ensures { IfOk result (λ spot. spot
        ≡ object_spot (context source.now scope.now) site words at (view_sharing mode.entry)) }
{
    let mut spot = at_site(site);
    spot.lvalue = words;
    spot.mode = object_mode(source, scope, mode)?;
    spot.at = at;
    Ok(spot)
}

/// An lvalue that is accessed: where, how it is written, the mode of its cell, and what it names.
#[derive(Clone, Copy)]
pub struct SpotAccess<'a> {
    pub site: Site,
    pub lvalue: Lvalue,
    pub mode: Sharing<'a>,
    pub target: Target,
}

/// The place of an access, where what it names has these registers.
pub(crate) fn spot_of(
    source: &PlacedProgram<'_>,
    scope: &[Slot],
    registers: Registers,
    access: SpotAccess<'_>,
    at: Use,
) -> Result<Spot, AllocError>
    ensures { IfOk result (λ spot. spot ≡ spot_of (context source.now scope.now) registers.int registers.reference
        access.entry.site access.entry.lvalue at (view_sharing access.entry.mode) (view_target access.entry.target)) }
{
    let lvalue = tokens_in(access.lvalue.words)?;
    let mode = place_mode(source, scope, access.target.field(), access.mode)?;
    let lock = lock_cell(source, registers, access.target, access.mode)?;
    Ok(Spot {
        site: access.site,
        lvalue,
        lock_text: lock_words(access.lvalue, access.mode),
        mode,
        at,
        lock,
        is_simple: access.lvalue.is_simple,
    })
}
