// The operations of accesses: what is read, written and taken.

ghost use Rattle.std.specs.Prelude.{◌≡◌, ◌+◌, ◌++◌, [], ◌∷◌, IfOk, OnOk, if◌then◌else◌, IsTrue};
ghost use Rattle.sharc_mode.specs.View.{view_sharing};
ghost use Rattle.sharc_flat.specs.Places.{base_width, guard_width, index_width, bounds_code, pointee_code, guard_code};
ghost use Rattle.sharc_flat.specs.Places.{drop_base, settle_base, copy_code, cell_value_code, value_code, settle_code};
ghost use Rattle.sharc_flat.specs.Places.{cell_store_code, store_code, take_use, cell_take_code, take_code};
ghost use Rattle.sharc_flat.specs.{Places.guard_field, Flattened.{behind_int, behind_ref}, Scope.register_of};
ghost use Rattle.sharc_flat.specs.Scope.{number_in, at_site, at_words};
ghost use Rattle.sharc_code.specs.declared.code.Use.TheVariants as uses;
ghost use Rattle.sharc_flatten.specs.View.{context, view_target, use_of, bounds_by, holds_references};

use crate::registers::{Bank, Registers};
use crate::scope::{number_in, register_of};
use crate::source::PlacedProgram;
use crate::spots::{SpotAccess, at_site, at_words, cell_of, guard_cell, guard_field, spot_of};
use crate::target::Target;
use sharc_code::{PlaceMode, Register, Use};
use sharc_flat::slot::Slot;
use sharc_flat::{Op, Spot};
use sharc_tree::token::Site;
use std::alloc::AllocError;

/// Whether the operations could be added: nothing but memory can be lacking.
pub type Emitted = Result<(), AllocError>;

/// One operation more.
pub fn emit(op: Op, lines: &mut Vec<Op>) -> Emitted
    ensures { OnOk result (lines.new.items ≡ lines.old.items ++ op ∷ []) }
{
    lines.push(op)?;
    Ok(())
}

fn guard_spot(access: SpotAccess<'_>) -> Result<Spot, AllocError>
    ensures { IfOk result (λ spot. spot
        ≡ record (at_words access.entry.site access.entry.lvalue.words uses.Read) { mode = PlaceMode.Readonly }) }
{
    let mut spot = at_words(access.site, access.lvalue.words, Use::Read)?;
    spot.mode = PlaceMode::Readonly;
    Ok(spot)
}

/// The pointer to the mutex is read, where the access is locked through one.
fn guard(
    source: &PlacedProgram<'_>,
    at: Registers,
    access: SpotAccess<'_>,
    lines: &mut Vec<Op>,
) -> Emitted
    ensures { OnOk result (lines.new.items ≡ lines.old.items
        ++ guard_code (context source.now []) at.int at.reference access.entry.site access.entry.lvalue
        (view_target access.entry.target) (guard_field source.now.m.now.typed (view_sharing access.entry.mode))) }
{
    match guard_field(source, access.mode) {
        None => Ok(()),
        Some(mutex) => {
            let cell = guard_cell(source, mutex, at, access.target)?;
            emit(Op::LoadGuard(cell, guard_spot(access)?), lines)
        }
    }
}

/// The base is given up.
fn drop_base(register: u32, target: Target, lines: &mut Vec<Op>) -> Emitted
    ensures { OnOk result (lines.new.items ≡ lines.old.items ++ drop_base register (view_target target)) }
{
    if target.has_base() {
        emit(Op::Pop(register), lines)
    } else {
        Ok(())
    }
}

/// The reference after the base takes its place.
fn settle_base(at: Registers, target: Target, lines: &mut Vec<Op>) -> Emitted
    ensures { OnOk result (lines.new.items ≡ lines.old.items ++ settle_base at.reference (view_target target)) }
{
    if target.has_base() {
        emit(Op::Settle(at.reference, at.reference + 1), lines)
    } else {
        Ok(())
    }
}

/// The value of a variable.
fn copy(at: Registers, register: Register, lines: &mut Vec<Op>) -> Emitted
    ensures { OnOk result (lines.new.items ≡ lines.old.items ++ copy_code at.int at.reference register) }
{
    match register {
        Register::Int(number) => emit(Op::Move(at.int, number), lines),
        Register::Reference(number) => emit(Op::Local(at.reference, number), lines),
    }
}

fn cell_value(
    source: &PlacedProgram<'_>,
    scope: &[Slot],
    at: Registers,
    access: SpotAccess<'_>,
    bank: Bank,
    lines: &mut Vec<Op>,
) -> Emitted
    ensures { OnOk result (lines.new.items ≡ lines.old.items
        ++ cell_value_code (context source.now scope.now) at.int at.reference access.entry.site access.entry.lvalue
        (view_sharing access.entry.mode) (holds_references bank) (view_target access.entry.target)) }
{
    guard(source, at, access, lines)?;
    let cell = cell_of(source, at, access.target)?;
    let spot = spot_of(source, scope, at, access, Use::Read)?;
    match bank {
        Bank::Int => {
            emit(Op::Load(at.int, cell, spot), lines)?;
            drop_base(at.reference, access.target, lines)
        }
        Bank::Reference => {
            let to = at.behind_base(access.target)?;
            emit(Op::LoadRef(to.reference, cell, spot), lines)?;
            settle_base(at, access.target, lines)
        }
    }
}

/// The value of what an lvalue names.
pub fn value(
    source: &PlacedProgram<'_>,
    scope: &[Slot],
    at: Registers,
    access: SpotAccess<'_>,
    bank: Bank,
    lines: &mut Vec<Op>,
) -> Emitted
    ensures { OnOk result (lines.new.items ≡ lines.old.items
        ++ value_code (context source.now scope.now) at.int at.reference access.entry.site access.entry.lvalue
        (view_sharing access.entry.mode) (holds_references bank) (view_target access.entry.target)) }
{
    match access.target {
        Target::Variable(token) => copy(at, register_of(scope, token)?, lines),
        Target::InGlobal(_, _) => cell_value(source, scope, at, access, bank, lines),
        Target::InGlobalAt(_, _) => cell_value(source, scope, at, access, bank, lines),
        Target::InObject(_) => cell_value(source, scope, at, access, bank, lines),
        Target::InObjectAt(_) => cell_value(source, scope, at, access, bank, lines),
    }
}

/// A value in these registers goes to a variable.
fn settle(from: Registers, register: Register, lines: &mut Vec<Op>) -> Emitted
    ensures { OnOk result (lines.new.items ≡ lines.old.items ++ settle_code from.int from.reference register) }
{
    match register {
        Register::Int(number) => emit(Op::Move(number, from.int), lines),
        Register::Reference(number) => emit(Op::Settle(number, from.reference), lines),
    }
}

fn cell_store(
    source: &PlacedProgram<'_>,
    scope: &[Slot],
    at: Registers,
    from: Registers,
    access: SpotAccess<'_>,
    bank: Bank,
    lines: &mut Vec<Op>,
) -> Emitted
    ensures { OnOk result (lines.new.items ≡ lines.old.items ++ cell_store_code
        (context source.now scope.now) at.int at.reference from.int from.reference access.entry.site access.entry.lvalue
        (view_sharing access.entry.mode) (holds_references bank) (view_target access.entry.target)) }
{
    guard(source, at, access, lines)?;
    let cell = cell_of(source, at, access.target)?;
    let spot = spot_of(source, scope, at, access, Use::Write)?;
    match bank {
        Bank::Int => emit(Op::Store(from.int, cell, spot), lines)?,
        Bank::Reference => emit(Op::StoreRef(from.reference, cell, spot), lines)?,
    }
    drop_base(at.reference, access.target, lines)
}

/// A value in these registers goes to what an lvalue names.
pub fn store(
    source: &PlacedProgram<'_>,
    scope: &[Slot],
    at: Registers,
    from: Registers,
    access: SpotAccess<'_>,
    bank: Bank,
    lines: &mut Vec<Op>,
) -> Emitted
    ensures { OnOk result (lines.new.items ≡ lines.old.items ++ store_code
        (context source.now scope.now) at.int at.reference from.int from.reference access.entry.site access.entry.lvalue
        (view_sharing access.entry.mode) (holds_references bank) (view_target access.entry.target)) }
{
    match access.target {
        Target::Variable(token) => settle(from, register_of(scope, token)?, lines),
        Target::InGlobal(_, _) => cell_store(source, scope, at, from, access, bank, lines),
        Target::InGlobalAt(_, _) => cell_store(source, scope, at, from, access, bank, lines),
        Target::InObject(_) => cell_store(source, scope, at, from, access, bank, lines),
        Target::InObjectAt(_) => cell_store(source, scope, at, from, access, bank, lines),
    }
}

/// What a reference is taken for.
#[derive(Clone, Copy)]
pub enum Taking {
    Cast,
    Free,
}

impl Taking {
    ghost use Rattle.std.specs.Prelude.{◌≡◌};
    ghost use Rattle.sharc_flat.specs.Places.{take_use};
    ghost use Rattle.sharc_flatten.specs.View.{view_target, use_of};

    fn of(self, variable: Option<u32>) -> Use
        ensures { result ≡ use_of self variable }
    {
        match self {
            Taking::Cast => Use::Cast(variable),
            Taking::Free => Use::Free(variable),
        }
    }

    /// The use of what is taken.
    pub fn use_of(self, target: Target) -> Use
        ensures { result ≡ take_use (use_of self) (view_target target) }
    {
        match target {
            Target::Variable(token) => self.of(Some(token)),
            Target::InGlobal(_, _) => self.of(None),
            Target::InGlobalAt(_, _) => self.of(None),
            Target::InObject(_) => self.of(None),
            Target::InObjectAt(_) => self.of(None),
        }
    }
}

fn cell_take(
    source: &PlacedProgram<'_>,
    scope: &[Slot],
    at: Registers,
    access: SpotAccess<'_>,
    taking: Taking,
    lines: &mut Vec<Op>,
) -> Emitted
    ensures { OnOk result (lines.new.items ≡ lines.old.items
        ++ cell_take_code (context source.now scope.now) at.int at.reference access.entry.site access.entry.lvalue
        (view_sharing access.entry.mode) (use_of taking) (view_target access.entry.target)) }
{
    guard(source, at, access, lines)?;
    let cell = cell_of(source, at, access.target)?;
    let spot = spot_of(source, scope, at, access, taking.of(None))?;
    let to = at.behind_base(access.target)?;
    emit(Op::TakeCell(to.reference, cell, spot), lines)?;
    settle_base(at, access.target, lines)
}

/// What an lvalue names is taken away.
pub fn take(
    source: &PlacedProgram<'_>,
    scope: &[Slot],
    at: Registers,
    access: SpotAccess<'_>,
    taking: Taking,
    lines: &mut Vec<Op>,
) -> Emitted
    ensures { OnOk result (lines.new.items ≡ lines.old.items
        ++ take_code (context source.now scope.now) at.int at.reference access.entry.site access.entry.lvalue
        (view_sharing access.entry.mode) (use_of taking) (view_target access.entry.target)) }
{
    match access.target {
        Target::Variable(token) => {
            let register = number_in(register_of(scope, token)?);
            let none = Registers {
                int: 0,
                reference: 0,
            };
            let spot = spot_of(source, scope, none, access, taking.of(Some(token)))?;
            emit(Op::TakeLocal(at.reference, register, spot), lines)
        }
        Target::InGlobal(_, _) => cell_take(source, scope, at, access, taking, lines),
        Target::InGlobalAt(_, _) => cell_take(source, scope, at, access, taking, lines),
        Target::InObject(_) => cell_take(source, scope, at, access, taking, lines),
        Target::InObjectAt(_) => cell_take(source, scope, at, access, taking, lines),
    }
}

/// A base that is NULL stops.
pub fn pointee(register: u32, site: Site, lines: &mut Vec<Op>) -> Emitted
    ensures { OnOk result (lines.new.items ≡ lines.old.items ++ Op.ChkNull register (at_site site) ∷ []) }
{
    emit(Op::ChkNull(register, at_site(site)), lines)
}

/// How the number of an element becomes that of a cell: in an object in this register, or in a global of this many
/// elements whose first cell is this one; each element has this many cells.
#[derive(Clone, Copy)]
pub enum Bound {
    Object {
        register: u32,
        cells: u32,
    },
    Global {
        elements: u32,
        cells: u32,
        first: u32,
    },
}

fn bounds(bound: Bound, register: u32, field: u32, site: Site, lines: &mut Vec<Op>) -> Emitted
    ensures { OnOk result (lines.new.items ≡ lines.old.items ++ bounds_by bound site register field ∷ []) }
{
    let spot = at_site(site);
    match bound {
        Bound::Object {
            register: base,
            cells,
        } => emit(Op::Bounds(register, base, cells, field, spot), lines),
        Bound::Global {
            elements,
            cells,
            first,
        } => match first.checked_add(field) {
            Some(cell) => emit(
                Op::GlobalBounds(register, elements, cells, cell, spot),
                lines,
            ),
            None => Err(AllocError),
        },
    }
}

/// The number of an element becomes that of this field's cell, and in the next register that of the mutex's cell, if
/// there is one.
pub fn index_bounds(
    bound: Bound,
    at: Registers,
    field: u32,
    guard: Option<u32>,
    site: Site,
    lines: &mut Vec<Op>,
) -> Emitted
    ensures { OnOk result (lines.new.items ≡ lines.old.items ++ bounds_code (bounds_by bound site) at.int field guard) }
{
    match guard {
        None => bounds(bound, at.int, field, site, lines),
        Some(mutex) => {
            emit(Op::Move(at.int + 1, at.int), lines)?;
            bounds(bound, at.int, field, site, lines)?;
            bounds(bound, at.int + 1, mutex, site, lines)
        }
    }
}
