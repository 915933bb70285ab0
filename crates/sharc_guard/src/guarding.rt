//! Guarded code from flat code: a pass for the places, one for the statements.

ghost use Rattle.std.specs.Prelude.{true, ◌≡◌, ◌≤◌, ◌<◌, ◌+◌, ◌*◌, ◌^◌, ℕ, ◌++◌, ◌∷◌, [], IfOk, OnOk, length, map};
ghost use Rattle.std.specs.Prelude.{slice_get};
ghost use Rattle.sharc_code.specs.{declared.instr.Instr.TheVariants.{Start, Exit}, Says.no_place};
ghost use Rattle.sharc_flat.specs.Made.{flat_of};
ghost use Rattle.sharc_guard.specs.Guard.{source_at_spot, spot_of, source_of, site_by, sites_of, check_under, head};
ghost use Rattle.sharc_guard.specs.{Guard.{compute, negate, body, tail, own, expand, expanded, width, entered_at}};
ghost use Rattle.sharc_guard.specs.Known.{dropped, is_straight};
ghost use Rattle.sharc_guard.specs.Made.{IsMade, among, places, marked};

use crate::guarded::Guarded;
use crate::marks::marks_of;
use sharc_code::{Cell, Function, Instr, Operator, PlaceMode, SourcePlace, Text, Use, Width};
use sharc_flat::{Flat, LineTexts, Op, Spot};
use sharc_tree::token::Site;
use std::alloc::{AllocError, Global};

// This many lines have places of 32 bits.
const MOST_LINES: usize = 0x2000_0000;

/// The guarded code of flat code, without the checks that repeat one. It takes over the tables.
///
/// An `Err` says that memory was not found, or that there are too many lines for the numbers of their places.
pub fn guard(alloc: Global, flat: Flat) -> Result<Guarded, AllocError>
    ensures { IfOk result (λ g. IsMade (dropped (flat_of flat)) flat g) }
{
    if flat.lines.len() < MOST_LINES {
        guard_few(alloc, flat)
    } else {
        drop(flat);
        Err(AllocError)
    }
}

fn guard_few(alloc: Global, flat: Flat) -> Result<Guarded, AllocError>
    requires few { length flat.lines.items < 2 ^ 29 }
    ensures { IfOk result (λ g. IsMade (dropped (flat_of flat)) flat g) }
{
    let marks = marks_of(alloc, &flat)?;
    guard_marked(alloc, flat, &marks)
}

// Without the checks of the lines that are marked.
fn guard_marked(alloc: Global, flat: Flat, dropped: &[bool]) -> Result<Guarded, AllocError>
    requires few { length flat.lines.items < 2 ^ 29 }
    requires marks { length dropped.now ≡ length flat.lines.items }
    ensures { IfOk result (λ g. IsMade (marked dropped.now) flat g) }
{
    let starts = starts_of(alloc, &flat.lines, dropped)?;
    let statements = statements_of(alloc, &flat.lines, dropped, &starts)?;
    let functions = functions_of(alloc, &flat.functions, &starts)?;
    let sites = sites_of(alloc, &flat.lines, &flat.told)?;
    Ok(Guarded {
        statements,
        functions,
        main: flat.main,
        globals: flat.globals,
        granules: flat.granules,
        initial: flat.initial,
        layouts: flat.layouts,
        pointers: flat.pointers,
        sites,
        texts: flat.texts,
        files: flat.files,
    })
}

// Where the statements of each line begin, and where those of the last end.
fn starts_of(alloc: Global, lines: &[Op], dropped: &[bool]) -> Result<Vec<u32>, AllocError>
    requires few { length lines.now < 2 ^ 29 }
    requires marks { length dropped.now ≡ length lines.now }
    ensures { IfOk result (λ starts. starts.items ≡ places (marked dropped.now) lines.now (length lines.now + 1)) }
{
    let mut starts = Vec::with_capacity(alloc, lines.len() + 1)?;
    let mut at: u32 = 2;
    for n in 0..lines.len() {
        starts.push(at)?;
        at += width(dropped[n], n as u32, lines[n]);
    }
    starts.push(at)?;
    Ok(starts)
}

// The statements of all lines, after a Start and an Exit.
fn statements_of(
    alloc: Global,
    lines: &[Op],
    dropped: &[bool],
    starts: &[u32],
) -> Result<Vec<Instr>, AllocError>
    requires few { length lines.now < 2 ^ 29 }
    requires marks { length dropped.now ≡ length lines.now }
    requires starts { 0 < length starts.now }
    ensures { IfOk result (λ statements. statements.items
        ≡ Start 0 ∷ Exit ∷ expanded (among starts.now) (marked dropped.now) 0 lines.now) }
{
    let mut statements = Vec::with_capacity(alloc, lines.len() + 2)?;
    statements.push(Instr::Start(0))?;
    statements.push(Instr::Exit)?;
    for n in 0..lines.len() {
        put(&mut statements, starts, dropped[n], n as u32, lines[n])?;
    }
    Ok(statements)
}

fn functions_of(
    alloc: Global,
    functions: &[Function],
    starts: &[u32],
) -> Result<Vec<Function>, AllocError>
    requires starts { 0 < length starts.now }
    ensures { IfOk result (λ entered. entered.items ≡ map (entered_at (among starts.now)) functions.now) }
{
    let mut all = Vec::with_capacity(alloc, functions.len())?;
    for function in functions {
        all.push(entered(starts, *function))?;
    }
    Ok(all)
}

fn entered(starts: &[u32], function: Function) -> Function
    requires starts { 0 < length starts.now }
    ensures { result ≡ entered_at (among starts.now) function }
{
    Function {
        entry: place_of(starts, function.entry as usize),
        ..function
    }
}

// The site of a line, with where its texts lie.
fn site_at(told: &[LineTexts], n: usize, op: Op) -> SourcePlace
    ensures { result ≡ site_by (slice_get told.now n) op }
{
    let place = source_of(op);
    match told.get(n) {
        None => place,
        Some(told) => SourcePlace {
            lvalue: told.lvalue,
            lock: told.lock,
            ..place
        },
    }
}

fn sites_of(alloc: Global, lines: &[Op], told: &[LineTexts]) -> Result<Vec<SourcePlace>, AllocError>
    ensures { IfOk result (λ sites. sites.items ≡ sites_of lines.now told.now) }
{
    let mut sites = Vec::with_capacity(alloc, lines.len())?;
    for n in 0..lines.len() {
        sites.push(site_at(told, n, lines[n]))?;
    }
    Ok(sites)
}

// All statements of a line.
fn put(
    statements: &mut Vec<Instr>,
    starts: &[u32],
    dropped: bool,
    n: u32,
    op: Op,
) -> Result<(), AllocError>
    requires starts { 0 < length starts.now }
    ensures { OnOk result (statements.new.items ≡ statements.old.items ++ expand (among starts.now) dropped n op) }
{
    let (first, second) = head_of(dropped, n, op);
    put_one(statements, first)?;
    put_one(statements, second)?;
    put_one(statements, own_statement(starts, n, op))?;
    put_one(statements, tail_of(op))
}

fn put_one(statements: &mut Vec<Instr>, statement: Option<Instr>) -> Result<(), AllocError>
    ensures { OnOk result (statements.new.items ≡ statements.old.items ++ own statement) }
{
    match statement {
        None => Ok(()),
        Some(statement) => {
            statements.push(statement)?;
            Ok(())
        }
    }
}

// How many statements a line becomes.
fn width(dropped: bool, n: u32, op: Op) -> u32
    ensures few { result ≤ 4 }
    ensures is { result ≡ width dropped n op }
{
    let (first, second) = head_of(dropped, n, op);
    one(first) + one(second) + one_but_entering(op) + one(tail_of(op))
}

fn one(statement: Option<Instr>) -> u32
    ensures few { result ≤ 1 }
    ensures is { result ≡ length (own statement) }
{
    match statement {
        None => 0,
        Some(_) => 1,
    }
}

fn one_but_entering(op: Op) -> u32
    ensures few { result ≤ 1 }
    ensures is { result ≡ length (own (body (λ k. 0) 0 op)) }
{
    match op {
        Op::Enter => 0,
        Op::BlockEnd => 0,
        _ => 1,
    }
}

// What comes before a line's own statement.
fn head_of(dropped: bool, n: u32, op: Op) -> (Option<Instr>, Option<Instr>)
    ensures { own result.0 ++ own result.1 ≡ head dropped n op }
{
    match op {
        Op::Load(_, cell, spot) => (check_under(dropped, Instr::ChkRead(cell, n), spot, n), None),
        Op::Store(_, cell, spot) => (
            check_under(dropped, Instr::ChkWrite(cell, n), spot, n),
            None,
        ),
        Op::LoadRef(_, cell, spot) => (check_under(false, Instr::ChkRead(cell, n), spot, n), None),
        Op::StoreRef(_, cell, spot) => (
            check_under(false, Instr::ChkWrite(cell, n), spot, n),
            None,
        ),
        Op::TakeCell(_, cell, spot) => (
            check_under(false, Instr::ChkWrite(cell, n), spot, n),
            None,
        ),
        Op::Give(r, cells, _) => (Some(Instr::TestSole(r, n)), Some(Instr::Clear(r, cells))),
        Op::Free(r, _, _) => (Some(Instr::TestSole(r, n)), None),
        _ => (None, None),
    }
}

// The check of an access by its mode.
fn check_under(dropped: bool, dynamic: Instr, spot: Spot, n: u32) -> Option<Instr>
    ensures { own result ≡ check_under dropped dynamic spot n spot.mode }
{
    match spot.mode {
        PlaceMode::Private => None,
        PlaceMode::Readonly => None,
        PlaceMode::Racy => None,
        PlaceMode::Dynamic => if dropped { None } else { Some(dynamic) },
        PlaceMode::LockedGlobal(g, place) => Some(Instr::ChkLock(Cell::Global(g, place), n)),
        PlaceMode::LockedSibling(_, _) => Some(Instr::ChkLock(spot.lock, n)),
        PlaceMode::LockedThrough(r, place) => Some(Instr::ChkLock(Cell::Object(r, place), n)),
        PlaceMode::LockedLoaded => Some(Instr::ChkLockLoaded(n)),
    }
}

// What comes after it.
fn tail_of(op: Op) -> Option<Instr>
    ensures { own result ≡ tail op }
{
    match op {
        Op::LoadRef(r, _, _) => Some(Instr::RaiseLoaded(r)),
        Op::StoreRef(r, _, _) => Some(Instr::Lower(r)),
        Op::Settle(x, from) => Some(Instr::MoveReference(x, from)),
        _ => None,
    }
}

fn source_at_spot(spot: Spot) -> SourcePlace
    ensures { result ≡ source_at_spot spot }
{
    SourcePlace {
        site: spot.site,
        lvalue: spot.lvalue,
        lock: spot.lock_text,
        mode: spot.mode,
        at: spot.at,
    }
}

fn no_place() -> SourcePlace
    ensures { result ≡ no_place }
{
    SourcePlace {
        site: Site {
            file: 0,
            line: 0,
            token: 0,
        },
        lvalue: Text { from: 0, until: 0 },
        lock: Text { from: 0, until: 0 },
        mode: PlaceMode::Racy,
        at: Use::Other,
    }
}

// What it is in the source, if it may stop, check or ask; the pointer to a mutex is readonly.
fn spot_of(op: Op) -> Option<Spot>
    ensures { result ≡ spot_of op }
{
    match op {
        Op::LoadGuard(_, spot) => Some(Spot {
            mode: PlaceMode::Readonly,
            ..spot
        }),
        _ => op.spot(),
    }
}

fn source_of(op: Op) -> SourcePlace
    ensures { result ≡ source_of op }
{
    match spot_of(op) {
        None => no_place(),
        Some(spot) => source_at_spot(spot),
    }
}

// An operation's own statement.
fn own_statement(starts: &[u32], n: u32, op: Op) -> Option<Instr>
    requires { 0 < length starts.now }
    ensures { result ≡ body (among starts.now) n op }
{
    match op {
        Op::BlockEnd => None,
        Op::Skip(k) => Some(Instr::Jump(over(starts, n, k))),
        Op::SkipIfZero(i, k) => Some(Instr::JumpIfZero(i, over(starts, n, k))),
        Op::SkipIfNull(r, k) => Some(Instr::JumpIfNull(r, over(starts, n, k))),
        Op::Jump(to) => Some(Instr::Jump(place_of(starts, to as usize))),
        Op::Call(f, ints, refs, _) => Some(Instr::Call(f, ints, refs, n)),
        Op::Return(_) => Some(Instr::Return(n)),
        Op::TakeCell(r, cell, _) => Some(Instr::TakeCell(r, cell, n)),
        Op::TakeLocal(r, x, _) => Some(Instr::TakeLocal(r, x, n)),
        Op::Give(r, _, _) => Some(Instr::Give(r, n)),
        Op::Free(r, layout, _) => Some(Instr::Free(r, layout, n)),
        Op::Lock(cell, _) => Some(Instr::Lock(cell, n)),
        Op::Unlock(r, cell, _) => Some(Instr::Unlock(r, cell, n)),
        Op::CondEnter(cell, _) => Some(Instr::CondEnter(cell, n)),
        Op::CondWait(cell, _) => Some(Instr::CondWait(cell, n)),
        Op::Spawn(i, f, from, _) => Some(Instr::Spawn(i, f, from, n)),
        Op::Join(i, _) => Some(Instr::Join(i, n)),
        _ => straight_statement(n, op),
    }
}

// The same of an operation that ends no straight piece, for which it does not matter where the lines go.
fn straight_statement(n: u32, op: Op) -> Option<Instr>
    requires straight { is_straight op ≡ true }
    ensures { (places : ℕ → ℕ) → result ≡ body places n op }
{
    match op {
        Op::Enter => None,
        Op::Constant(i, v) => Some(Instr::Constant(i, v)),
        Op::Move(i, from) => Some(Instr::Move(i, from)),
        Op::Compute(width, operator, i, a, b, _) => Some(compute(width, operator, i, a, b, n)),
        Op::Negate(width, i, a, _) => Some(negate(width, i, a, n)),
        Op::Complement(i, a) => Some(Instr::Complement(i, a)),
        Op::IsFalse(i, a) => Some(Instr::Not(i, a)),
        Op::SameReference(i, a, b) => Some(Instr::SameReference(i, a, b)),
        Op::ChkWidth(width, i, _) => Some(Instr::ChkWidth(width, i, n)),
        Op::Null(r) => Some(Instr::Null(r)),
        Op::Local(r, x) => Some(Instr::Raise(r, x)),
        Op::MoveReference(r, from) => Some(Instr::MoveReference(r, from)),
        Op::Pop(r) | Op::Settle(r, _) => Some(Instr::Lower(r)),
        Op::ChkNull(r, _) => Some(Instr::ChkNull(r, n)),
        Op::ChkPositive(i, _) => Some(Instr::ChkPositive(i, n)),
        Op::ChkHeld(cell, _) => Some(Instr::ChkHeld(cell, n)),
        Op::ChkNotHeld(cell, _) => Some(Instr::ChkNotHeld(cell, n)),
        Op::ChkRoom(_) => Some(Instr::ChkRoom(n)),
        Op::Bounds(i, r, cells, field, _) => Some(Instr::Bounds(i, r, cells, field, n)),
        Op::GlobalBounds(i, elements, cells, field, _) => Some(Instr::GlobalBounds(
            i, elements, cells, field, n,
        )),
        Op::Load(i, cell, _) => Some(Instr::Load(i, cell, n)),
        Op::Store(i, cell, _) => Some(Instr::Store(i, cell, n)),
        Op::LoadRef(_, cell, _) | Op::LoadGuard(cell, _) => Some(Instr::LoadRef(cell, n)),
        Op::StoreRef(r, cell, _) => Some(Instr::Exchange(r, cell, n)),
        Op::New(r, count, cells, _) => Some(Instr::New(r, count, cells, n)),
        Op::CondSignal(cell, _) => Some(Instr::CondSignal(cell, n)),
        Op::CondBroadcast(cell, _) => Some(Instr::CondBroadcast(cell, n)),
        Op::Print(i, _) => Some(Instr::Print(i, n)),
        _ => unreachable!(),
    }
}

fn compute(width: Width, operator: Operator, i: u32, a: u32, b: u32, n: u32) -> Instr
    ensures { result ≡ compute width operator i a b n }
{
    match width {
        Width::Char => Instr::ComputeInt(operator, i, a, b, n),
        Width::Int => Instr::ComputeInt(operator, i, a, b, n),
        Width::Long => Instr::ComputeLong(operator, i, a, b, n),
    }
}

fn negate(width: Width, i: u32, a: u32, n: u32) -> Instr
    ensures { result ≡ negate width i a n }
{
    match width {
        Width::Char => Instr::NegateInt(i, a, n),
        Width::Int => Instr::NegateInt(i, a, n),
        Width::Long => Instr::NegateLong(i, a, n),
    }
}

// Where a line goes.
fn place_of(starts: &[u32], to: usize) -> u32
    requires { 0 < length starts.now }
    ensures { result ≡ among starts.now to }
{
    if to < starts.len() {
        starts[to]
    } else {
        starts[starts.len() - 1]
    }
}

// Where the line goes that is this many after the next one.
fn over(starts: &[u32], n: u32, k: u32) -> u32
    requires { 0 < length starts.now }
    ensures { result ≡ among starts.now (n + 1 + k) }
{
    place_of(starts, n as usize + 1 + k as usize)
}
