// What goes on with the value of a task.

ghost use Rattle.std.specs.Prelude.{◌≡◌, ◌≤◌, IfOk};
ghost use Rattle.sharc_tree.specs.{Spans.span_of, View.view_expr};
ghost use Rattle.sharc_mode.specs.Cells.{cell_at};
ghost use Rattle.sharc_meaning.specs.{Expressions.{Calls, eval}, Places.taken_from};
ghost use Rattle.sharc_ask.specs.{StepView.{view_state, view_place, Does}, Width.value_bits, View.view_flow};
ghost use Rattle.sharc_ask.specs.{declared.plan.WithPlace.TheVariants.{Frees, Casts}, Values.{number, place}};
ghost use Rattle.sharc_ask.specs.{Values.{view_value, gives}, Plans.{ends_above, left_with, behind_pointer}};
ghost use Rattle.sharc_ask.specs.Plans.{value_means, number_means, place_means, rest_means, Plans, Fits, Starts};
ghost use Rattle.sharc_ask.specs.Plans.{Begins, value_weight, place_weight, weight};

use crate::arithmetic::complement;
use crate::cells::field_place_named;
use crate::flows::with_after;
use crate::locking::{lock_call, unlock_call};
use crate::parts::{
    element_behind, element_in, end_above, end_step, first_behind, fitted, freed_with, initialised,
    inverted, joined, negative, passed_value, returned, spawned, stored_at, tested_value, truth_of,
    value_called, zero_behind,
};
use crate::places::{LvaluePlace, field_in, taken_from};
use crate::plan::{
    Operation, Plan, Rest, Task, Value, WithNumber, WithPlace, WithValue, number_in, place_in,
};
use crate::plans::{by_truth, done_flow, done_number, done_place, done_step, done_test, then};
use crate::state::{Goes, State};
use crate::values::{Flow, based, cast_unless_null, held, kind_of, let_go, made, place_fetched};
use sharc_mode::cell::{cell_of, pointed};
use sharc_mode::moded::Moded;
use sharc_mode::row::row_of;
use sharc_tree::event::TakeKind;
use sharc_tree::token::{Site, Span};
use sharc_tree::tree::Expr;

// The left operand is held, and the right one comes next.
fn by_left<'a>(
    program: &'a Moded,
    expr: &'a Expr,
    operation: Operation,
    right: &'a Expr,
    x: i64,
    st: &mut State,
) -> Goes<Plan<'a>>
    ensures means { (on_call : Calls) → let m = program.now in let a = view_expr expr.now in
        let b = view_expr right.now in let bits = value_bits operation.width in
        Plans on_call m (view_state st.old) result (view_state st.new) (gives number (ends_above operation.mark
        (left_with m.typed bits operation.site operation.operator a b (eval on_call m b) x))) }
    ensures fits { IfOk result (Fits 2) }
    ensures fuel { st.new.fuel ≤ st.old.fuel }
{
    let rest = WithValue::RightOperand(operation, x);
    let next = Plan::Goes(Task::Eval(right), Rest::Value(right, rest));
    then(held(program, expr, x, st), next)
}

// The pointer is held, and its index comes next.
fn by_pointer<'a>(
    program: &'a Moded,
    site: Site,
    expr: &'a Expr,
    index: &'a Expr,
    x: i64,
    st: &mut State,
) -> Goes<Plan<'a>>
    ensures means { (on_call : Calls) → let m = program.now in
        Plans on_call m (view_state st.old) result (view_state st.new)
        (gives place (behind_pointer m.typed site (view_expr expr.now) x (eval on_call m (view_expr index.now)))) }
    ensures fits { IfOk result (Fits 2) }
    ensures fuel { st.new.fuel ≤ st.old.fuel }
{
    let rest = Rest::Number(WithNumber::PointerElement(site, expr, x));
    let next = Plan::Goes(Task::Eval(index), rest);
    then(based(program, site, expr, x, st), next)
}

fn with_value<'a>(
    program: &'a Moded,
    expr: &'a Expr,
    rest: WithValue<'a>,
    x: i64,
    st: &mut State,
) -> Goes<Plan<'a>>
    ensures means { (on_call : Calls) → Plans on_call program.now (view_state st.old) result (view_state st.new)
        (value_means on_call program.now (view_expr expr.now) rest.entry x) }
    ensures fits { IfOk result (Starts (value_weight rest.entry)) }
    ensures fuel { st.new.fuel ≤ st.old.fuel }
{
    match rest {
        WithValue::Tested => done_test(tested_value(program, expr, x, st)),
        WithValue::Passed(declared) => done_number(passed_value(program, declared, expr, x, st)),
        WithValue::Spawned(site, named, mark) => {
            done_number(spawned(program, site, named, expr, x, mark, st))
        }
        WithValue::Performs(site, word) => done_number(value_called(site, word, x, st)),
        WithValue::Negated(site) => done_number(negative(program, site, expr, x, st)),
        WithValue::Inverted => done_number(inverted(program, expr, x, st)),
        WithValue::Complemented => Ok(Plan::Done(Value::Number(complement(x)))),
        WithValue::AndLeft(right) => by_truth(
            tested_value(program, expr, x, st),
            Plan::Goes(Task::Eval(right), Rest::Value(right, WithValue::TruthOf)),
            Plan::Done(Value::Number(0)),
        ),
        WithValue::OrLeft(right) => by_truth(
            tested_value(program, expr, x, st),
            Plan::Done(Value::Number(1)),
            Plan::Goes(Task::Eval(right), Rest::Value(right, WithValue::TruthOf)),
        ),
        WithValue::TruthOf => done_number(truth_of(program, expr, x, st)),
        WithValue::LeftOperand(operation, right) => {
            by_left(program, expr, operation, right, x, st)
        }
        WithValue::RightOperand(operation, left) => {
            done_number(joined(program, operation, left, expr, x, st))
        }
        WithValue::Fitted(kind) => done_number(fitted(kind, expr, x, st)),
        WithValue::Made(site, target, written) => {
            done_number(made(program, site, target, x, written, st))
        }
        WithValue::PointerBase(site, index) => by_pointer(program, site, expr, index, x, st),
        WithValue::Based(site) => done_place(first_behind(program, site, expr, x, st)),
        WithValue::Dropped => done_step(let_go(program, expr, x, st)),
        WithValue::Returns(kind, site) => done_flow(returned(kind, site, expr, x, st)),
    }
}

fn with_number<'a>(
    program: &'a Moded,
    rest: WithNumber<'a>,
    x: i64,
    st: &mut State,
) -> Goes<Plan<'a>>
    ensures means { (on_call : Calls) → Plans on_call program.now (view_state st.old) result (view_state st.new)
        (number_means program.now rest.entry x) }
    ensures fits { IfOk result (Fits 0) }
    ensures fuel { st.new.fuel ≤ st.old.fuel }
{
    match rest {
        WithNumber::ArrayElement(site, a, base) => {
            done_place(element_in(program, site, a, base, x, st))
        }
        WithNumber::PointerElement(site, a, pointer) => {
            done_place(element_behind(program, site, a, pointer, x, st))
        }
        WithNumber::Stored(e, place, mark) => done_step(stored_at(program, e, place, x, mark, st)),
        WithNumber::Initialised(declaration) => {
            done_step(initialised(program, declaration, x, st))
        }
    }
}

fn taken(
    program: &Moded,
    span: Span,
    kind: TakeKind,
    expr: &Expr,
    place: LvaluePlace,
    mark: usize,
    st: &mut State,
) -> Goes<i64>
    ensures does { Does (view_state st.old) result (view_state st.new)
        (ends_above mark (taken_from program.now.typed span.first (span_of (view_expr expr.now)).first
        (cell_at program.now (view_expr expr.now)) kind (view_place place))) }
    ensures fuel { st.new.fuel ≤ st.old.fuel }
{
    let site = expr.span().first;
    end_above(
        taken_from(
            program,
            span.first,
            site,
            cell_of(program, expr),
            kind,
            place,
            st,
        ),
        mark,
        st,
    )
}

fn freed<'a>(
    program: &'a Moded,
    span: Span,
    expr: &'a Expr,
    place: LvaluePlace,
    mark: usize,
    st: &mut State,
) -> Goes<Plan<'a>>
    ensures means { (on_call : Calls) → Plans on_call program.now (view_state st.old) result (view_state st.new)
        (place_means on_call program.now (view_expr expr.now) (Frees span mark) (view_place place)) }
    ensures fits { IfOk result (Fits 0) }
    ensures fuel { st.new.fuel ≤ st.old.fuel }
{
    let value = taken(program, span, TakeKind::Free, expr, place, mark, st)?;
    done_number(freed_with(expr.span().first, value, st))
}

fn cast<'a>(
    program: &'a Moded,
    span: Span,
    expr: &'a Expr,
    place: LvaluePlace,
    mark: usize,
    st: &mut State,
) -> Goes<Plan<'a>>
    ensures means { (on_call : Calls) → Plans on_call program.now (view_state st.old) result (view_state st.new)
        (place_means on_call program.now (view_expr expr.now) (Casts span mark) (view_place place)) }
    ensures fits { IfOk result (Fits 0) }
    ensures fuel { st.new.fuel ≤ st.old.fuel }
{
    let value = taken(program, span, TakeKind::Cast, expr, place, mark, st)?;
    done_number(cast_unless_null(program, span, expr, value, st))
}

fn with_place<'a>(
    program: &'a Moded,
    expr: &'a Expr,
    rest: WithPlace<'a>,
    place: LvaluePlace,
    st: &mut State,
) -> Goes<Plan<'a>>
    ensures means { (on_call : Calls) → Plans on_call program.now (view_state st.old) result (view_state st.new)
        (place_means on_call program.now (view_expr expr.now) rest.entry (view_place place)) }
    ensures fits { IfOk result (Starts (place_weight rest.entry)) }
    ensures fuel { st.new.fuel ≤ st.old.fuel }
{
    match rest {
        WithPlace::Locks(site, mark) => {
            done_number(zero_behind(end_step(lock_call(site, place, st), mark, st)))
        }
        WithPlace::Unlocks(site, mark) => {
            done_number(zero_behind(end_step(unlock_call(site, place, st), mark, st)))
        }
        WithPlace::Frees(span, mark) => freed(program, span, expr, place, mark, st),
        WithPlace::Casts(span, mark) => cast(program, span, expr, place, mark, st),
        WithPlace::Fetched(mark) => {
            done_number(end_above(place_fetched(program, expr, place, st), mark, st))
        }
        WithPlace::ArrayBase(site, index) => Ok(Plan::Goes(
            Task::Eval(index),
            Rest::Number(WithNumber::ArrayElement(site, expr, place)),
        )),
        WithPlace::FieldIn(named) => {
            done_place(field_in(field_place_named(program.typed(), named), place, st))
        }
        WithPlace::Assigned(right, mark) => Ok(Plan::Goes(
            Task::Right(
                kind_of(program, expr),
                pointed(program, row_of(program.typed(), expr)),
                right,
            ),
            Rest::Number(WithNumber::Stored(expr, place, mark)),
        )),
    }
}

/// What goes on with this value.
pub fn resume<'a>(
    program: &'a Moded,
    rest: Rest<'a>,
    value: Value,
    st: &mut State,
) -> Goes<Plan<'a>>
    ensures means { (on_call : Calls) → Plans on_call program.now (view_state st.old) result (view_state st.new)
        (rest_means on_call program.now rest.entry (view_value value)) }
    ensures begins { IfOk result (Begins (weight rest.entry) st.old.fuel st.new.fuel) }
{
    match rest {
        Rest::Same => Ok(Plan::Done(value)),
        Rest::Value(e, rest) => with_value(program, e, rest, number_in(value), st),
        Rest::Place(e, rest) => with_place(program, e, rest, place_in(value), st),
        Rest::Number(rest) => with_number(program, rest, number_in(value), st),
        Rest::After(after) => with_after(after, value, st),
    }
}
