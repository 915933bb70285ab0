// What is done with a value, or at a place, once it is known: no other expression is looked at.

ghost use Rattle.std.specs.Prelude.{◌≡◌, ◌≤◌, ℕ, ℤ, Bool, IfOk};
ghost use Rattle.sharc_tree.specs.{View.view_expr, declared.token.Site.Site as Where};
ghost use Rattle.sharc_names.specs.{Kinds.{declared_kinds, declared_kind, promoted}, View.view_kind};
ghost use Rattle.sharc_ctype.specs.Resolved.{kind_at};
ghost use Rattle.sharc_mode.specs.Sharings.{private};
ghost use Rattle.sharc_meaning.specs.{Arithmetic.{bits_of, negated}, Expressions.{tested, operand, fitting, passed}};
ghost use Rattle.sharc_meaning.specs.{Expressions.{resulting, value_called}, Places.{variable, pointee_place, stored}};
ghost use Rattle.sharc_meaning.specs.{State.{Run, Step, give}, Statements.Flow as LeftBy};
ghost use Rattle.sharc_ask.specs.{StepView.{Known, view_state, view_place, Does, DoesAs}, Width.value_bits};
ghost use Rattle.sharc_ask.specs.{View.view_flow, Values.{view_value, as_left, left_of, gives}, Plans.ends_above};
ghost use Rattle.sharc_ask.specs.Plans.{ends_block, zero_behind, truth_with, inverted_with, returned_with};
ghost use Rattle.sharc_ask.specs.Plans.{spawned_with, free_unless_null, joined_with, element_behind, element_in};
ghost use Rattle.sharc_ask.specs.Plans.{assigned_to};

use crate::arithmetic::{fits, is_zero, negated, operated, truth, width_of};
use crate::cells::{elements_of, number_of};
use crate::endings::{end_temporaries, end_variables};
use crate::places::{LvaluePlace, element, element_of_array, pointee, stored};
use crate::plan::{Operation, Value, flow_in};
use crate::state::{Goes, RunEnd, State, ask_event, moves, perform, unless};
use crate::values::{
    Flow, based, cells_of, freed_unless_null, held, kind_of, let_go, number_named,
    parameters_named, resulting, value_act,
};
use sharc_mode::cell::cell_of;
use sharc_mode::moded::Moded;
use sharc_mode::sharing::Sharing;
use sharc_names::fault::Named;
use sharc_names::kind::{ExpressionKind, declared_kind, promoted};
use sharc_tree::event::{Act, Object};
use sharc_tree::token::Site;
use sharc_tree::trap::Trap;
use sharc_tree::tree::{Declaration, Expr, ValueCall};

/// The temporaries after the mark end, where a number came.
pub fn end_above(answer: Goes<i64>, mark: usize, st: &mut State) -> Goes<i64>
    ensures does { (before : Known) (run : Run ℤ) → Does before answer (view_state st.old) run
        → Does before result (view_state st.new) (ends_above mark run) }
    ensures fuel { st.new.fuel ≤ st.old.fuel }
    ensures kept { (n m : ℕ) → IfOk answer (λ _. n ≤ m) → IfOk result (λ _. n ≤ m) }
{
    let value = answer?;
    match end_temporaries(mark, st) {
        Ok(()) => Ok(value),
        Err(_) => Err(RunEnd::Memory),
    }
}

/// Likewise, of a step.
pub fn end_step(answer: Goes<()>, mark: usize, st: &mut State) -> Goes<()>
    ensures does { (before : Known) (run : Step) → Does before answer (view_state st.old) run
        → Does before result (view_state st.new) (ends_above mark run) }
    ensures fuel { st.new.fuel ≤ st.old.fuel }
    ensures kept { (n m : ℕ) → IfOk answer (λ _. n ≤ m) → IfOk result (λ _. n ≤ m) }
{
    answer?;
    match end_temporaries(mark, st) {
        Ok(()) => Ok(()),
        Err(_) => Err(RunEnd::Memory),
    }
}

/// A step, and then 0.
pub fn zero_behind(answer: Goes<()>) -> Goes<i64>
    ensures does { (before after : Known) (run : Step) → Does before answer after run
        → Does before result after (zero_behind run) }
    ensures kept { (n m : ℕ) → IfOk answer (λ _. n ≤ m) → IfOk result (λ _. n ≤ m) }
{
    answer?;
    Ok(0)
}

/// Whether a value is neither 0 nor NULL.
pub fn tested_value(program: &Moded, expr: &Expr, value: i64, st: &mut State) -> Goes<bool>
    ensures does { Does (view_state st.old) result (view_state st.new)
        (tested program.now.typed (view_expr expr.now) (give value)) }
    ensures fuel { st.new.fuel ≤ st.old.fuel }
{
    let_go(program, expr, value, st)?;
    Ok(!is_zero(value))
}

pub fn truth_of(program: &Moded, expr: &Expr, value: i64, st: &mut State) -> Goes<i64>
    ensures does { Does (view_state st.old) result (view_state st.new)
        (truth_with program.now.typed (view_expr expr.now) value) }
    ensures fuel { st.new.fuel ≤ st.old.fuel }
{
    let is_true = tested_value(program, expr, value, st)?;
    Ok(truth(is_true))
}

pub fn inverted(program: &Moded, expr: &Expr, value: i64, st: &mut State) -> Goes<i64>
    ensures does { Does (view_state st.old) result (view_state st.new)
        (inverted_with program.now.typed (view_expr expr.now) value) }
    ensures fuel { st.new.fuel ≤ st.old.fuel }
{
    let is_true = tested_value(program, expr, value, st)?;
    Ok(truth(!is_true))
}

/// The negative in the type of `-a`.
pub fn negative(program: &Moded, site: Site, expr: &Expr, value: i64, st: &State) -> Goes<i64>
    ensures { Does (view_state st.now) result (view_state st.now)
        (resulting site (negated (bits_of (promoted (kind_at program.now.typed (view_expr expr.now)))) value)) }
{
    let width = width_of(promoted(kind_of(program, expr)));
    resulting(site, negated(width, value), st)
}

/// A value that is held in a temporary.
pub fn operand_value(program: &Moded, expr: &Expr, value: i64, st: &mut State) -> Goes<i64>
    ensures does { Does (view_state st.old) result (view_state st.new)
        (operand program.now.typed (view_expr expr.now) (give value)) }
    ensures fuel { st.new.fuel ≤ st.old.fuel }
{
    held(program, expr, value, st)?;
    Ok(value)
}

/// A value that what it goes to has to hold.
pub fn fitted(kind: ExpressionKind<'_>, expr: &Expr, value: i64, st: &State) -> Goes<i64>
    ensures { Does (view_state st.now) result (view_state st.now)
        (fitting (view_kind kind.entry) (view_expr expr.now) (give value)) }
{
    unless(fits(kind, value), Trap::OutOfRange, expr.span().first, st)?;
    Ok(value)
}

pub fn returned(
    kind: ExpressionKind<'_>,
    site: Site,
    expr: &Expr,
    value: i64,
    st: &State,
) -> Goes<Flow>
    ensures { DoesAs view_flow (view_state st.now) result (view_state st.now)
        (returned_with (view_kind kind.entry) site (view_expr expr.now) value) }
{
    unless(fits(kind, value), Trap::OutOfRange, expr.span().first, st)?;
    Ok(Flow::Returned(site, value))
}

fn fitted_operand(
    program: &Moded,
    kind: ExpressionKind<'_>,
    expr: &Expr,
    value: i64,
    st: &mut State,
) -> Goes<i64>
    ensures does { Does (view_state st.old) result (view_state st.new) (operand program.now.typed (view_expr expr.now)
        (fitting (view_kind kind.entry) (view_expr expr.now) (give value))) }
    ensures fuel { st.new.fuel ≤ st.old.fuel }
{
    unless(fits(kind, value), Trap::OutOfRange, expr.span().first, st)?;
    operand_value(program, expr, value, st)
}

/// An argument for the first of these parameters.
pub fn passed_value(
    program: &Moded,
    parameters: &[Declaration],
    expr: &Expr,
    value: i64,
    st: &mut State,
) -> Goes<i64>
    ensures does { Does (view_state st.old) result (view_state st.new)
        (passed program.now.typed (declared_kinds parameters.now) (view_expr expr.now) (give value)) }
    ensures fuel { st.new.fuel ≤ st.old.fuel }
{
    match parameters {
        [] => operand_value(program, expr, value, st),
        [parameter, ..] => fitted_operand(
            program,
            declared_kind(&parameter.written),
            expr,
            value,
            st,
        ),
    }
}

fn spawned_value(
    program: &Moded,
    site: Site,
    named: Named,
    expr: &Expr,
    value: i64,
    st: &mut State,
) -> Goes<i64>
    ensures does { Does (view_state st.old) result (view_state st.new)
        (spawned_with program.now.typed site named (view_expr expr.now) value) }
    ensures fuel { st.new.fuel ≤ st.old.fuel }
{
    let value = passed_value(program, parameters_named(program, named), expr, value, st)?;
    let thread = ask_event(site, Act::Spawn(number_named(named), value), st)?;
    moves(kind_of(program, expr), st)?;
    Ok(thread)
}

/// A new thread gets the argument.
pub fn spawned(
    program: &Moded,
    site: Site,
    named: Named,
    expr: &Expr,
    value: i64,
    mark: usize,
    st: &mut State,
) -> Goes<i64>
    ensures does { Does (view_state st.old) result (view_state st.new)
        (ends_above mark (spawned_with program.now.typed site named (view_expr expr.now) value)) }
    ensures fuel { st.new.fuel ≤ st.old.fuel }
{
    end_above(
        spawned_value(program, site, named, expr, value, st),
        mark,
        st,
    )
}

/// `join` and `print`
pub fn value_called(site: Site, word: ValueCall, value: i64, st: &mut State) -> Goes<i64>
    ensures does { Does (view_state st.old) result (view_state st.new) (value_called site word (give value)) }
    ensures fuel { st.new.fuel ≤ st.old.fuel }
{
    zero_behind(perform(site, value_act(word, value), st))
}

/// `free` of what was taken.
pub fn freed_with(site: Site, value: i64, st: &mut State) -> Goes<i64>
    ensures does { Does (view_state st.old) result (view_state st.new) (free_unless_null site value) }
    ensures fuel { st.new.fuel ≤ st.old.fuel }
{
    zero_behind(freed_unless_null(site, value, st))
}

fn joined_value(
    program: &Moded,
    operation: Operation,
    left: i64,
    expr: &Expr,
    right: i64,
    st: &mut State,
) -> Goes<i64>
    ensures does { Does (view_state st.old) result (view_state st.new) (joined_with program.now.typed
        (value_bits operation.width) operation.site operation.operator (view_expr expr.now) left (give right)) }
    ensures fuel { st.new.fuel ≤ st.old.fuel }
{
    let right = operand_value(program, expr, right, st)?;
    resulting(
        operation.site,
        operated(operation.width, operation.operator, left, right),
        st,
    )
}

/// An operator with the values of both operands, of which the right one is that of the expression.
pub fn joined(
    program: &Moded,
    operation: Operation,
    left: i64,
    expr: &Expr,
    right: i64,
    st: &mut State,
) -> Goes<i64>
    ensures does { Does (view_state st.old) result (view_state st.new)
        (ends_above operation.mark (joined_with program.now.typed
        (value_bits operation.width) operation.site operation.operator (view_expr expr.now) left (give right))) }
    ensures fuel { st.new.fuel ≤ st.old.fuel }
{
    end_above(
        joined_value(program, operation, left, expr, right, st),
        operation.mark,
        st,
    )
}

/// An element of a global array.
pub fn element_in(
    program: &Moded,
    site: Site,
    array: &Expr,
    base: LvaluePlace,
    number: i64,
    st: &State,
) -> Goes<LvaluePlace>
    ensures { DoesAs view_place (view_state st.now) result (view_state st.now)
        (element_in program.now.typed site (view_expr array.now) (view_place base) number) }
{
    element_of_array(program, site, cells_of(program, array), base, number, st)
}

/// An element behind a pointer.
pub fn element_behind(
    program: &Moded,
    site: Site,
    pointed: &Expr,
    pointer: i64,
    number: i64,
    st: &State,
) -> Goes<LvaluePlace>
    ensures { DoesAs view_place (view_state st.now) result (view_state st.now)
        (element_behind program.now.typed site (view_expr pointed.now) pointer number) }
{
    element(
        site,
        Object::Made(number_of(pointer)),
        cells_of(program, pointed),
        elements_of(pointer),
        number,
        st,
    )
}

/// The first element behind a pointer.
pub fn first_behind(
    program: &Moded,
    site: Site,
    pointed: &Expr,
    pointer: i64,
    st: &mut State,
) -> Goes<LvaluePlace>
    ensures does { DoesAs view_place (view_state st.old) result (view_state st.new)
        (pointee_place program.now.typed site (view_expr pointed.now) (give pointer)) }
    ensures fuel { st.new.fuel ≤ st.old.fuel }
{
    based(program, site, pointed, pointer, st)?;
    Ok(pointee(pointer))
}

/// A value goes to the place that an expression names.
pub fn stored_at(
    program: &Moded,
    expr: &Expr,
    place: LvaluePlace,
    value: i64,
    mark: usize,
    st: &mut State,
) -> Goes<()>
    ensures does { Does (view_state st.old) result (view_state st.new)
        (ends_above mark (assigned_to program.now (view_expr expr.now) (view_place place) (give value))) }
    ensures fuel { st.new.fuel ≤ st.old.fuel }
{
    let site = expr.span().first;
    end_step(
        stored(
            program,
            site,
            kind_of(program, expr),
            cell_of(program, expr),
            place,
            value,
            st,
        ),
        mark,
        st,
    )
}

/// A local gets its first value.
pub fn initialised(
    program: &Moded,
    declaration: &Declaration,
    value: i64,
    st: &mut State,
) -> Goes<()>
    ensures does { Does (view_state st.old) result (view_state st.new)
        (stored program.now.typed declaration.now.name.site (declared_kind declaration.now.written) private
        (variable declaration.now.name.site.token) value) }
    ensures fuel { st.new.fuel ≤ st.old.fuel }
{
    let site = declaration.name.site;
    stored(
        program,
        site,
        declared_kind(&declaration.written),
        Sharing::Private,
        LvaluePlace::Variable(site.token),
        value,
        st,
    )
}

/// The variables after the mark end with a block.
pub fn end_block(answer: Goes<Flow>, mark: usize, st: &mut State) -> Goes<Flow>
    ensures does { (before : Known) (run : Run LeftBy) → DoesAs view_flow before answer (view_state st.old) run
        → DoesAs view_flow before result (view_state st.new) (ends_block mark run) }
    ensures fuel { st.new.fuel ≤ st.old.fuel }
    ensures kept { (n m : ℕ) → IfOk answer (λ _. n ≤ m) → IfOk result (λ _. n ≤ m) }
{
    let flow = answer?;
    match end_variables(mark, st) {
        Ok(()) => Ok(flow),
        Err(_) => Err(RunEnd::Memory),
    }
}

fn left_of(flow: Flow) -> (Site, i64)
    ensures { result ≡ left_of (view_flow flow) }
{
    let nowhere = Site {
        file: 0,
        line: 0,
        token: 0,
    };
    match flow {
        Flow::Returned(site, value) => (site, value),
        Flow::Next => (nowhere, 0),
        Flow::Broken => (nowhere, 0),
        Flow::Continued => (nowhere, 0),
    }
}

/// Where a function is left, and its result.
pub fn left_behind(answer: Goes<Value>) -> Goes<(Site, i64)>
    ensures does { (before after : Known) (run : Run (Where × ℤ))
        → DoesAs view_value before answer after (gives as_left run) → Does before result after run }
{
    let value = answer?;
    Ok(left_of(flow_in(value)))
}
