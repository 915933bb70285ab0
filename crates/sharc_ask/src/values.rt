// What is done with values beside the walk: nothing here looks at an expression or a statement within another.

ghost use Rattle.std.specs.Prelude.{◌≡◌, ◌≤◌, ◌<◌, ◌-◌, drop, Some, if◌then◌else◌};
ghost use Rattle.sharc_tree.specs.{Spans.span_of, View.{view_expr, view_option, view_simple, view_stmt}};
ghost use Rattle.sharc_names.specs.{Kinds.{declared_kinds, element_kind}, View.view_kind};
ghost use Rattle.sharc_ctype.specs.{Resolved.{named_at, kind_at}, Transfers.parameters_named};
ghost use Rattle.sharc_mode.specs.{Cells.{cell_at, pointed}, Rows.cast_row, View.view_sharing};
ghost use Rattle.sharc_meaning.specs.{Cells.element_cells, Places.{based, freed, cast_to}, Expressions.resulting};
ghost use Rattle.sharc_meaning.specs.{Expressions.{named_value, number_named, value_act}, Reference.is_null};
ghost use Rattle.sharc_meaning.specs.{Reference.constant_value, State.{give, done, drops, holds}, Statements.left_by};
ghost use Rattle.sharc_ask.specs.{StepView.{view_state, view_place, Does}, View.{view_flow, view_test, view_step}};
ghost use Rattle.sharc_ask.specs.View.{test_of_loop, step_of_loop, body_of_loop, number_left, logic_of, made};
ghost use Rattle.sharc_ask.specs.View.{place_fetched};

use crate::arithmetic::{is_positive, is_zero};
use crate::cells::{element_cells, instance_mode};
use crate::places::{LvaluePlace, base, cast_to, element, fetched, freed};
use crate::state::{Goes, RunEnd, State, ask_event, dropped, hold, unless, value_in};
use sharc_ctype::typed;
use sharc_mode::cell::{cell_of, pointed};
use sharc_mode::moded::Moded;
use sharc_mode::row::cast_row;
use sharc_mode::sharing::Sharing;
use sharc_names::fault::Named;
use sharc_names::kind::{ExpressionKind, declared_kind, element_kind};
use sharc_tree::event::{Act, Object};
use sharc_tree::token::{Site, Span};
use sharc_tree::trap::Trap;
use sharc_tree::tree::{
    BinaryOperator, Constant, Declaration, Expr, ForHead, Jump, Simple, Stmt, ValueCall,
    WrittenType,
};

/// How a statement is left.
#[derive(Clone, Copy, Drop)]
pub enum Flow {
    Next,
    Broken,
    Continued,
    Returned(Site, i64),
}

pub fn kind_of<'a>(program: &'a Moded, expr: &'a Expr) -> ExpressionKind<'a>
    ensures { view_kind result ≡ kind_at program.now.typed (view_expr expr.now) }
{
    program.typed().kind_at(expr)
}

pub fn named(program: &Moded, token: u32) -> Named
    ensures { result ≡ named_at program.now.typed token }
{
    program.typed().named(token)
}

// The cells of an element behind an expression.
pub fn cells_of(program: &Moded, expr: &Expr) -> u64
    ensures { result ≡ element_cells program.now.typed (element_kind (kind_at program.now.typed (view_expr expr.now))) }
{
    element_cells(program.typed(), element_kind(program.typed().kind_at(expr)))
}

pub fn number_named(named: Named) -> u32
    ensures { result ≡ number_named named }
{
    match named {
        Named::Function(number) => number,
        _ => 0,
    }
}

pub fn parameters_named(program: &Moded, named: Named) -> &[Declaration]
    ensures { result.now ≡ parameters_named program.now.typed named }
{
    typed::parameters_named(program.typed(), named)
}

pub fn rest_of(parameters: &[Declaration]) -> &[Declaration]
    ensures { declared_kinds result.now ≡ drop 1 (declared_kinds parameters.now) }
{
    match parameters {
        [] => &[],
        [_, rest @ ..] => rest,
    }
}

// A value that a temporary holds, if it is a pointer.
pub fn held(program: &Moded, expr: &Expr, value: i64, st: &mut State) -> Goes<()>
    ensures does { Does (view_state st.old) result (view_state st.new)
        (holds (kind_at program.now.typed (view_expr expr.now)) value) }
    ensures fuel { st.new.fuel ≤ st.old.fuel }
{
    hold(kind_of(program, expr), value, st)
}

pub fn let_go(program: &Moded, expr: &Expr, value: i64, st: &mut State) -> Goes<()>
    ensures does { Does (view_state st.old) result (view_state st.new)
        (drops (kind_at program.now.typed (view_expr expr.now)) value) }
    ensures fuel { st.new.fuel ≤ st.old.fuel }
{
    dropped(kind_of(program, expr), value, st)
}

pub fn based(program: &Moded, site: Site, expr: &Expr, pointer: i64, st: &mut State) -> Goes<()>
    ensures does { Does (view_state st.old) result (view_state st.new)
        (based site (kind_at program.now.typed (view_expr expr.now)) pointer) }
    ensures fuel { st.new.fuel ≤ st.old.fuel }
{
    base(site, kind_of(program, expr), pointer, st)
}

pub fn resulting(site: Site, value: Result<i64, Trap>, st: &State) -> Goes<i64>
    ensures { Does (view_state st.now) result (view_state st.now) (resulting site value) }
{
    match value {
        Ok(value) => Ok(value),
        Err(trap) => Err(RunEnd::Stopped(trap, site)),
    }
}

// The value in the place that an expression names.
pub fn place_fetched(program: &Moded, expr: &Expr, place: LvaluePlace, st: &mut State) -> Goes<i64>
    ensures does { Does (view_state st.old) result (view_state st.new)
        (place_fetched program.now (view_expr expr.now) (view_place place)) }
    ensures fuel { st.new.fuel ≤ st.old.fuel }
{
    fetched(
        program,
        expr.span().first,
        cell_of(program, expr),
        place,
        st,
    )
}

pub fn named_value(
    program: &Moded,
    expr: &Expr,
    site: Site,
    token: u32,
    st: &mut State,
) -> Goes<i64>
    ensures does { Does (view_state st.old) result (view_state st.new) (named_value program.now.typed
        (cell_at program.now (view_expr expr.now)) site (named_at program.now.typed token)) }
    ensures fuel { st.new.fuel ≤ st.old.fuel }
{
    match named(program, token) {
        Named::Variable(token) => Ok(value_in(st.frame.variables.as_slice(), token)),
        Named::Global(number) => fetched(
            program,
            site,
            cell_of(program, expr),
            LvaluePlace::Cell(Object::Global(number), 0, 0),
            st,
        ),
        Named::Struct(_) => Ok(0),
        Named::Function(_) => Ok(0),
        Named::Field(_) => Ok(0),
        Named::Known => Ok(0),
    }
}

pub fn constant_value(constant: &Constant) -> i64
    ensures { result ≡ constant_value constant.now }
{
    match constant {
        Constant::Number(number) => number.value,
        Constant::Character(byte) => i64::from(*byte),
        Constant::Null => 0,
    }
}

pub fn number_left(flow: Flow) -> i64
    ensures { result ≡ number_left (view_flow flow) }
{
    match flow {
        Flow::Returned(_, value) => value,
        Flow::Next => 0,
        Flow::Broken => 0,
        Flow::Continued => 0,
    }
}

pub fn value_act(word: ValueCall, value: i64) -> Act
    ensures { result ≡ value_act word value }
{
    match word {
        ValueCall::Join => Act::Join(value),
        ValueCall::Print => Act::Print(value),
    }
}

pub fn freed_unless_null(site: Site, value: i64, st: &mut State) -> Goes<()>
    ensures does { Does (view_state st.old) result (view_state st.new) (if is_null value then done
        else freed site value) }
    ensures fuel { st.new.fuel ≤ st.old.fuel }
{
    if is_zero(value) {
        Ok(())
    } else {
        freed(site, value, st)
    }
}

pub fn cast_unless_null(
    program: &Moded,
    span: Span,
    expr: &Expr,
    value: i64,
    st: &mut State,
) -> Goes<i64>
    ensures does { Does (view_state st.old) result (view_state st.new) (if is_null value then give value
        else cast_to program.now.typed (span_of (view_expr expr.now)).first
        (pointed program.now (Some (cast_row program.now.typed span))) value) }
    ensures fuel { st.new.fuel ≤ st.old.fuel }
{
    if is_zero(value) {
        Ok(value)
    } else {
        cast_to(
            program,
            expr.span().first,
            pointed(program, Some(cast_row(program.typed(), span))),
            value,
            st,
        )
    }
}

pub fn logic_of(operator: BinaryOperator) -> Option<bool>
    ensures { result ≡ logic_of operator }
{
    match operator {
        BinaryOperator::LogicalAnd => Some(true),
        BinaryOperator::LogicalOr => Some(false),
        _ => None,
    }
}

pub fn made(
    program: &Moded,
    site: Site,
    target: Sharing<'_>,
    elements: i64,
    written: &WrittenType,
    st: &mut State,
) -> Goes<i64>
    ensures does { Does (view_state st.old) result (view_state st.new)
        (made program.now.typed site (view_sharing target.entry) elements written.now) }
    ensures fuel { st.new.fuel ≤ st.old.fuel }
{
    unless(is_positive(elements), Trap::SizeNotPositive, site, st)?;
    let cells = element_cells(program.typed(), declared_kind(written));
    let mode = instance_mode(program.typed(), st.frame.variables.as_slice(), target);
    ask_event(site, Act::New(cells, elements.unsigned_abs(), mode), st)
}

/// The test of a loop.
pub fn test_of(statement: &Stmt) -> Option<&Expr>
    ensures { view_test result ≡ test_of_loop (view_stmt statement.now) }
{
    match statement {
        Stmt::While(_, test, _) => Some(test),
        Stmt::For(_, head, _) => test_in(head),
        _ => None,
    }
}

fn test_in(head: &ForHead) -> Option<&Expr>
    ensures { view_test result ≡ view_option view_expr head.now.test }
{
    match &head.test {
        None => None,
        Some(test) => Some(test),
    }
}

/// What is done behind each turn of a loop.
pub fn step_of(statement: &Stmt) -> Option<&Simple>
    ensures { view_step result ≡ step_of_loop (view_stmt statement.now) }
{
    match statement {
        Stmt::For(_, head, _) => step_in(head),
        _ => None,
    }
}

fn step_in(head: &ForHead) -> Option<&Simple>
    ensures { view_step result ≡ view_option view_simple head.now.step }
{
    match &head.step {
        None => None,
        Some(step) => Some(step),
    }
}

/// What is done in each turn of a loop.
pub fn body_of(statement: &Stmt) -> &Stmt
    ensures { view_stmt result.now ≡ body_of_loop (view_stmt statement.now) }
{
    match statement {
        Stmt::While(_, _, body) => body,
        Stmt::For(_, _, body) => body,
        _ => statement,
    }
}

pub fn left_by(jump: Jump) -> Flow
    ensures { view_flow result ≡ left_by jump }
{
    match jump {
        Jump::Break => Flow::Broken,
        Jump::Continue => Flow::Continued,
    }
}
