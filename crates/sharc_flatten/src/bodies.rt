// The operations of statements.

ghost use Rattle.std.specs.Prelude.{◌≡◌, ◌+◌, ◌++◌, ◌≤◌, [], ◌∷◌, length, None, Some, IfOk, OnOk, vec_len, option_map};
ghost use Rattle.std.specs.{Prelude.{◌<◌, ◌-◌, slice_set}, Option.ForSome};
ghost use Rattle.sharc_tree.specs.View.{view_expr, view_option, view_right, view_simple, view_local, view_first};
ghost use Rattle.sharc_tree.specs.View.{view_stmt, view_statements, view_head};
ghost use Rattle.sharc_names.specs.View.{view_kind};
ghost use Rattle.sharc_mode.specs.View.{view_sharing};
ghost use Rattle.sharc_flat.specs.{Scope.slot_of, Flattened.{elements_code, right_code, simple_code, initial_code}};
ghost use Rattle.sharc_flat.specs.Flattened.{local_code, first_code, behind_first, step_code, test_code, turn_code};
ghost use Rattle.sharc_flat.specs.Flattened.{jump_code, result_code, return_code, loop_code, statement_code};
ghost use Rattle.sharc_flat.specs.Flattened.{statements_code, behind_statement, behind_statements, ints_of};
ghost use Rattle.sharc_flatten.specs.View.{context, around_of, own_access, assign_code, simple_at, block_code, if_in};
ghost use Rattle.sharc_flatten.specs.View.{loop_in, for_in, hole_at, hole_of, finished, holds_references};

use crate::expressions::{access_of, bank, expression, guard_of, place};
use crate::lookups::element_cells;
use crate::operations::{bank_of, drop_value, narrow, truth, zero};
use crate::patch::{Hole, fill, line_at, skip, skip_if_zero};
use crate::places::{Emitted, emit, store};
use crate::registers::{Bank, Registers};
use crate::scope::{end_block, free, leave, slot_of};
use crate::source::PlacedProgram;
use crate::spots::{SpotAccess, at_site, no_text, object_spot};
use crate::target::Target;
use sharc_code::Use;
use sharc_flat::Op;
use sharc_flat::slot::{Lvalue, Slot};
use sharc_mode::cell::pointed;
use sharc_mode::row::{PathReading, declared_row, row_of};
use sharc_mode::sharing::Sharing;
use sharc_names::kind::{ExpressionKind, declared_kind};
use sharc_tree::token::{Site, Span};
use sharc_tree::tree::{Declaration, Expr, ForFirst, ForHead, Jump, Local, Right, Simple, Stmt};
use std::alloc::AllocError;

/// The surroundings of a statement: the type of the function's result, the lines to which break and continue lead,
/// and how many blocks are open around the innermost loop.
#[derive(Clone, Copy)]
pub struct Around<'a> {
    pub result: ExpressionKind<'a>,
    pub broken: u32,
    pub continued: u32,
    pub outer: usize,
}

/// The count of a malloc.
fn elements(
    source: &PlacedProgram<'_>,
    scope: &[Slot],
    at: Registers,
    count: &Option<Expr>,
    lines: &mut Vec<Op>,
) -> Emitted
    ensures { OnOk result (lines.new.items ≡ lines.old.items
        ++ elements_code (context source.now scope.now) at.int at.reference (view_option view_expr count.now)) }
{
    match count {
        None => emit(Op::Constant(at.int, 1), lines),
        Some(count) => expression(source, scope, at, count, lines),
    }
}

/// The right side of `=`, for a target of this type, to which a pointer of this mode goes.
fn right(
    source: &PlacedProgram<'_>,
    scope: &[Slot],
    at: Registers,
    kind: ExpressionKind<'_>,
    mode: Sharing<'_>,
    right: &Right,
    lines: &mut Vec<Op>,
) -> Emitted
    ensures { OnOk result (lines.new.items ≡ lines.old.items ++ right_code (context source.now scope.now) at.int
        at.reference (view_kind kind.entry) (view_sharing mode.entry) (view_right right.now)) }
{
    match right {
        Right::Value(expr) => {
            expression(source, scope, at, expr, lines)?;
            narrow(at.int, kind, expr.span().first, lines)
        }
        Right::Malloc(span, count, of) => {
            let cells = element_cells(source, declared_kind(of));
            let spot = object_spot(source, scope, span.first, no_text(), Use::Other, mode)?;
            emit(Op::Enter, lines)?;
            elements(source, scope, at, count, lines)?;
            emit(Op::ChkPositive(at.int, at_site(span.first)), lines)?;
            emit(Op::New(at.reference, at.int, cells, spot), lines)
        }
    }
}

fn assign(
    source: &PlacedProgram<'_>,
    scope: &[Slot],
    at: Registers,
    to: &Expr,
    value: &Right,
    lines: &mut Vec<Op>,
) -> Emitted
    ensures { OnOk result (lines.new.items ≡ lines.old.items
        ++ assign_code (context source.now scope.now) at.int at.reference (view_expr to.now) (view_right value.now)) }
{
    let t = source.m.typed();
    let access = access_of(source, to);
    let guard = guard_of(source, to);
    let from = at
        .behind_base(access.target)?
        .behind_index(access.target, guard)?;
    place(source, scope, at, access.site, None, guard, to, lines)?;
    let mode = pointed(source.m, row_of(t, to));
    right(source, scope, from, t.kind_at(to), mode, value, lines)?;
    store(source, scope, at, from, access, bank(source, to), lines)
}

fn simple(
    source: &PlacedProgram<'_>,
    scope: &[Slot],
    simple: &Simple,
    lines: &mut Vec<Op>,
) -> Emitted
    ensures { OnOk result (lines.new.items
        ≡ lines.old.items ++ simple_at (context source.now scope.now) (view_simple simple.now)) }
{
    let at = free(scope)?;
    match simple {
        Simple::Assign(_, to, value) => assign(source, scope, at, to, value, lines),
        Simple::Call(call) => {
            expression(source, scope, at, call, lines)?;
            drop_value(bank(source, call), at.reference, lines)
        }
    }
}

/// The value of a local, where it has one, in its declaration.
fn initial(
    source: &PlacedProgram<'_>,
    scope: &[Slot],
    declaration: &Declaration,
    value: &Option<Right>,
    lines: &mut Vec<Op>,
) -> Emitted
    ensures { OnOk result (lines.new.items ≡ lines.old.items
        ++ initial_code (context source.now scope.now) declaration.now (view_option view_right value.now)) }
{
    match value {
        None => Ok(()),
        Some(value) => {
            let at = free(scope)?;
            let kind = declared_kind(&declaration.written);
            let site = declaration.name.site;
            let row = declared_row(source.m.typed(), PathReading::Written, site.token);
            right(
                source,
                scope,
                at,
                kind,
                pointed(source.m, Some(row)),
                value,
                lines,
            )?;
            let none = Registers {
                int: 0,
                reference: 0,
            };
            store(
                source,
                scope,
                none,
                at,
                own_access(site),
                bank_of(kind),
                lines,
            )
        }
    }
}

/// A variable as what its declaration writes.
fn own_access<'a>(site: Site) -> SpotAccess<'a>
    ensures { result ≡ own_access site }
{
    SpotAccess {
        site,
        lvalue: Lvalue {
            words: Span {
                first: site,
                last: site,
            },
            bare: site.token,
            is_simple: false,
        },
        mode: Sharing::Private,
        target: Target::Variable(site.token),
    }
}

/// A declaration: the variable is in scope from then on.
fn local(
    source: &PlacedProgram<'_>,
    slots: &mut Vec<Slot>,
    local: &Local,
    lines: &mut Vec<Op>,
) -> Emitted
    ensures code { OnOk result (lines.new.items
        ≡ lines.old.items ++ local_code (context source.now slots.old.items) (view_local local.now)) }
    ensures slots { OnOk result (slots.new.items ≡ slots.old.items ++ slot_of local.now.declaration ∷ []) }
{
    let at = free(slots.as_slice())?;
    let declaration = &local.declaration;
    zero(bank_of(declared_kind(&declaration.written)), at, lines)?;
    slots.push(slot_of(declaration))?;
    initial(source, slots.as_slice(), declaration, &local.initial, lines)
}

/// The first part of the head of a `for`.
fn first(
    source: &PlacedProgram<'_>,
    slots: &mut Vec<Slot>,
    first: &ForFirst,
    lines: &mut Vec<Op>,
) -> Emitted
    ensures code { OnOk result (lines.new.items
        ≡ lines.old.items ++ first_code (context source.now slots.old.items) (view_first first.now)) }
    ensures slots { OnOk result (slots.new.items
        ≡ (behind_first (context source.now slots.old.items) (view_first first.now)).scope) }
{
    match first {
        ForFirst::Nothing => Ok(()),
        ForFirst::Declares(declared) => {
            emit(Op::Enter, lines)?;
            local(source, slots, declared, lines)
        }
        ForFirst::Does(x) => simple(source, slots.as_slice(), x, lines),
    }
}

fn step(
    source: &PlacedProgram<'_>,
    scope: &[Slot],
    step: Option<&Simple>,
    lines: &mut Vec<Op>,
) -> Emitted
    ensures { OnOk result (lines.new.items ≡ lines.old.items
        ++ step_code (context source.now scope.now) (option_map (λ x. view_simple x.now) step.entry)) }
{
    match step {
        None => Ok(()),
        Some(x) => simple(source, scope, x, lines),
    }
}

/// What decides by a test: the last of its lines leads over a number of lines that is not known yet.
fn turn(
    source: &PlacedProgram<'_>,
    scope: &[Slot],
    test: &Expr,
    lines: &mut Vec<Op>,
) -> Result<Hole, AllocError>
    ensures code { OnOk result (lines.new.items
        ≡ lines.old.items ++ turn_code (context source.now scope.now) (Some (view_expr test.now)) 0) }
    ensures hole { IfOk result (λ h. h ≡ hole_at (context source.now scope.now) (length lines.new.items)) }
{
    let at = free(scope)?;
    expression(source, scope, at, test, lines)?;
    truth(bank(source, test), at, lines)?;
    let line = lines.len();
    emit(Op::SkipIfZero(at.int, 0), lines)?;
    Ok(Hole {
        line,
        register: at.int,
    })
}

fn jump(
    source: &PlacedProgram<'_>,
    scope: &[Slot],
    marks: &[usize],
    around: Around<'_>,
    jump: Jump,
    lines: &mut Vec<Op>,
) -> Emitted
    ensures { OnOk result (lines.new.items
        ≡ lines.old.items ++ jump_code (context source.now scope.now) (around_of around.entry marks.now) jump) }
{
    leave(scope, marks, around.outer, lines)?;
    match jump {
        Jump::Break => emit(Op::Jump(around.broken), lines),
        Jump::Continue => emit(Op::Jump(around.continued), lines),
    }
}

/// A value goes to the first register of the frame.
fn give(bank: Bank, at: Registers, lines: &mut Vec<Op>) -> Emitted
    ensures { OnOk result (lines.new.items
        ≡ lines.old.items ++ result_code (holds_references bank) at.int at.reference) }
{
    match bank {
        Bank::Int => emit(Op::Move(0, at.int), lines),
        Bank::Reference => emit(Op::MoveReference(0, at.reference), lines),
    }
}

/// `return`
fn returned(
    source: &PlacedProgram<'_>,
    scope: &[Slot],
    marks: &[usize],
    around: Around<'_>,
    site: Site,
    value: &Option<Box<Expr>>,
    lines: &mut Vec<Op>,
) -> Emitted
    requires { around.outer ≤ length marks.now }
    ensures { OnOk result (lines.new.items ≡ lines.old.items ++ return_code (context source.now scope.now)
        (around_of around.entry marks.now) site (view_option (λ b. view_expr b.value) value.now)) }
{
    let bank = bank_of(around.result);
    let first = Registers {
        int: 0,
        reference: 0,
    };
    match value {
        None => {
            leave(scope, marks, 0, lines)?;
            zero(bank, first, lines)?;
            emit(Op::Return(at_site(site)), lines)
        }
        Some(expr) => {
            let at = free(scope)?;
            expression(source, scope, at, expr, lines)?;
            narrow(at.int, around.result, expr.span().first, lines)?;
            leave(scope, marks, 0, lines)?;
            give(bank, at, lines)?;
            emit(Op::Return(at_site(site)), lines)
        }
    }
}

/// The second side of a choice begins: a test that is not met leads here, and the line that is returned leads from the
/// first side over the second.
fn other_side(hole: Hole, lines: &mut Vec<Op>) -> Result<usize, AllocError>
    requires { hole.line < vec_len lines.old }
    ensures code { OnOk result (lines.new.items ≡ slice_set lines.old.items hole.line
        (Op.SkipIfZero hole.register (length lines.old.items - hole.line - 1 + 1)) ++ Op.Skip 0 ∷ []) }
    ensures line { IfOk result (λ n. n ≡ length lines.old.items) }
{
    skip_if_zero(hole, 1, lines)?;
    let over = lines.len();
    emit(Op::Skip(0), lines)?;
    Ok(over)
}

/// A statement under a test or in a loop: what it declares is not in scope after it.
#[cycle(statement)]
fn inner(
    source: &PlacedProgram<'_>,
    slots: &mut Vec<Slot>,
    marks: &mut Vec<usize>,
    around: Around<'_>,
    stmt: &Stmt,
    lines: &mut Vec<Op>,
) -> Emitted
    requires { around.outer ≤ vec_len marks.old }
    ensures code { OnOk result (lines.new.items ≡ lines.old.items ++ statement_code (context source.now slots.old.items)
        (around_of around.entry marks.old.items) (length lines.old.items) (view_stmt stmt.now)) }
    ensures slots { OnOk result (slots.new.items ≡ slots.old.items) }
    ensures marks { OnOk result (marks.new.items ≡ marks.old.items) }
{
    let began = slots.len();
    statement(source, slots, marks, around, stmt, lines)?;
    slots.truncate(began);
    Ok(())
}

/// Statements that follow one another.
#[cycle(statement)]
pub fn statements(
    source: &PlacedProgram<'_>,
    slots: &mut Vec<Slot>,
    marks: &mut Vec<usize>,
    around: Around<'_>,
    all: &[Stmt],
    lines: &mut Vec<Op>,
) -> Emitted
    requires { around.outer ≤ vec_len marks.old }
    ensures code { OnOk result (lines.new.items
        ≡ lines.old.items ++ statements_code (context source.now slots.old.items)
        (around_of around.entry marks.old.items) (length lines.old.items) (view_statements all.now)) }
    ensures slots { OnOk result (slots.new.items
        ≡ (behind_statements (context source.now slots.old.items) (view_statements all.now)).scope) }
    ensures marks { OnOk result (marks.new.items ≡ marks.old.items) }
{
    for stmt in all {
        statement(source, slots, marks, around, stmt, lines)?;
    }
    Ok(())
}

/// `{ .. }`
#[cycle(statement)]
fn block(
    source: &PlacedProgram<'_>,
    slots: &mut Vec<Slot>,
    marks: &mut Vec<usize>,
    around: Around<'_>,
    all: &[Stmt],
    lines: &mut Vec<Op>,
) -> Emitted
    requires { around.outer ≤ vec_len marks.old }
    ensures code { OnOk result (lines.new.items ≡ lines.old.items ++ block_code (context source.now slots.old.items)
        (around_of around.entry marks.old.items) (length lines.old.items) (view_statements all.now)) }
    ensures slots { OnOk result (slots.new.items ≡ slots.old.items) }
    ensures marks { OnOk result (marks.new.items ≡ marks.old.items) }
{
    let began = slots.len();
    let depth = marks.len();
    marks.push(began)?;
    statements(source, slots, marks, around, all, lines)?;
    marks.truncate(depth);
    end_block(slots.as_slice(), began, lines)?;
    slots.truncate(began);
    emit(Op::BlockEnd, lines)
}

/// What is done where a test is met.
#[cycle(statement)]
fn choice(
    source: &PlacedProgram<'_>,
    slots: &mut Vec<Slot>,
    marks: &mut Vec<usize>,
    around: Around<'_>,
    then: &Stmt,
    test: &Expr,
    lines: &mut Vec<Op>,
) -> Emitted
    requires { around.outer ≤ vec_len marks.old }
    ensures code { OnOk result (lines.new.items ≡ lines.old.items ++ if_in (context source.now slots.old.items)
        (around_of around.entry marks.old.items) (length lines.old.items) (view_expr test.now) (view_stmt then.now)) }
    ensures slots { OnOk result (slots.new.items ≡ slots.old.items) }
    ensures marks { OnOk result (marks.new.items ≡ marks.old.items) }
{
    let hole = turn(source, slots.as_slice(), test, lines)?;
    inner(source, slots, marks, around, then, lines)?;
    skip_if_zero(hole, 0, lines)
}

/// What decides whether there is a turn more, if a test is written.
fn decision(
    source: &PlacedProgram<'_>,
    scope: &[Slot],
    test: Option<&Expr>,
    lines: &mut Vec<Op>,
) -> Result<Option<Hole>, AllocError>
    ensures code { OnOk result (lines.new.items ≡ lines.old.items
        ++ turn_code (context source.now scope.now) (option_map (λ e. view_expr e.now) test.entry) 0) }
    ensures hole { IfOk result (λ hole. hole ≡ hole_of (context source.now scope.now)
        (option_map (λ e. view_expr e.now) test.entry) (length lines.new.items)) }
{
    match test {
        None => Ok(None),
        Some(test) => Ok(Some(turn(source, scope, test, lines)?)),
    }
}

/// The end of a loop: back to what decides, and the way out leads after it.
fn finish(head: usize, hole: Option<Hole>, lines: &mut Vec<Op>) -> Emitted
    requires head { head + 2 < vec_len lines.old }
    requires hole { ForSome hole (λ h. h.line < vec_len lines.old) }
    ensures { OnOk result (lines.new.items ≡ finished head hole lines.old.items) }
{
    let back = line_at(head, 3)?;
    fill(hole, lines)?;
    emit(Op::Jump(back), lines)?;
    skip(head + 1, lines)
}

/// A loop.
#[cycle(statement)]
fn turns(
    source: &PlacedProgram<'_>,
    slots: &mut Vec<Slot>,
    marks: &mut Vec<usize>,
    around: Around<'_>,
    test: Option<&Expr>,
    after: Option<&Simple>,
    body: &Stmt,
    lines: &mut Vec<Op>,
) -> Emitted
    requires { around.outer ≤ vec_len marks.old }
    ensures code { OnOk result (lines.new.items ≡ lines.old.items ++ loop_in (context source.now slots.old.items)
        (around_of around.entry marks.old.items) (length lines.old.items) (option_map (λ e. view_expr e.now) test.entry)
        (option_map (λ x. view_simple x.now) after.entry) (view_stmt body.now)) }
    ensures slots { OnOk result (slots.new.items ≡ slots.old.items) }
    ensures marks { OnOk result (marks.new.items ≡ marks.old.items) }
{
    let head = lines.len();
    let within = Around {
        result: around.result,
        broken: line_at(head, 1)?,
        continued: line_at(head, 2)?,
        outer: marks.len(),
    };
    emit(Op::Skip(2), lines)?;
    emit(Op::Skip(0), lines)?;
    emit(Op::Skip(0), lines)?;
    let hole = decision(source, slots.as_slice(), test, lines)?;
    inner(source, slots, marks, within, body, lines)?;
    skip(head + 2, lines)?;
    step(source, slots.as_slice(), after, lines)?;
    finish(head, hole, lines)
}

/// `for`
#[cycle(statement)]
fn counted(
    source: &PlacedProgram<'_>,
    slots: &mut Vec<Slot>,
    marks: &mut Vec<usize>,
    around: Around<'_>,
    head: &ForHead,
    body: &Stmt,
    lines: &mut Vec<Op>,
) -> Emitted
    requires { around.outer ≤ vec_len marks.old }
    ensures code { OnOk result (lines.new.items ≡ lines.old.items ++ for_in (context source.now slots.old.items)
        (around_of around.entry marks.old.items) (length lines.old.items) (view_head head.now) (view_stmt body.now)) }
    ensures slots { OnOk result (slots.new.items ≡ slots.old.items) }
    ensures marks { OnOk result (marks.new.items ≡ marks.old.items) }
{
    let began = slots.len();
    let depth = marks.len();
    marks.push(began)?;
    first(source, slots, &head.first, lines)?;
    let test = head.test.as_ref();
    turns(
        source,
        slots,
        marks,
        around,
        test,
        head.step.as_ref(),
        body,
        lines,
    )?;
    marks.truncate(depth);
    end_block(slots.as_slice(), began, lines)?;
    slots.truncate(began);
    Ok(())
}

/// A statement.
#[cycle(statement)]
fn statement(
    source: &PlacedProgram<'_>,
    slots: &mut Vec<Slot>,
    marks: &mut Vec<usize>,
    around: Around<'_>,
    stmt: &Stmt,
    lines: &mut Vec<Op>,
) -> Emitted
    requires { around.outer ≤ vec_len marks.old }
    ensures code { OnOk result (lines.new.items ≡ lines.old.items ++ statement_code (context source.now slots.old.items)
        (around_of around.entry marks.old.items) (length lines.old.items) (view_stmt stmt.now)) }
    ensures slots { OnOk result (slots.new.items
        ≡ (behind_statement (context source.now slots.old.items) (view_stmt stmt.now)).scope) }
    ensures marks { OnOk result (marks.new.items ≡ marks.old.items) }
{
    emit(Op::Enter, lines)?;
    match stmt {
        Stmt::Empty(_) => Ok(()),
        Stmt::Block(_, all) => block(source, slots, marks, around, all.as_slice(), lines),
        Stmt::Declare(_, declared) => local(source, slots, declared, lines),
        Stmt::Simple(_, x) => simple(source, slots.as_slice(), x, lines),
        Stmt::Jump(_, of) => {
            let scope = slots.as_slice();
            jump(source, scope, marks.as_slice(), around, *of, lines)
        }
        Stmt::Return(span, value) => {
            let scope = slots.as_slice();
            let open = marks.as_slice();
            returned(source, scope, open, around, span.first, value, lines)
        }
        Stmt::If(_, test, then) => choice(source, slots, marks, around, then, test, lines),
        Stmt::IfElse {
            test,
            then,
            otherwise,
            ..
        } => {
            let hole = turn(source, slots.as_slice(), test, lines)?;
            inner(source, slots, marks, around, then, lines)?;
            let over = other_side(hole, lines)?;
            inner(source, slots, marks, around, otherwise, lines)?;
            skip(over, lines)
        }
        Stmt::While(_, test, body) => {
            turns(source, slots, marks, around, Some(test), None, body, lines)
        }
        Stmt::For(_, head, body) => counted(source, slots, marks, around, head, body, lines),
    }
}
