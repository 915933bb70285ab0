// What statements are made of is begun: what comes first, and what goes on with its value.

ghost use Rattle.std.specs.Prelude.{◌≡◌, ◌≤◌, IfOk};
ghost use Rattle.sharc_tree.specs.{Tree.malloc, View.{view_expr, view_option, view_right, view_simple, view_local}};
ghost use Rattle.sharc_tree.specs.View.{view_first};
ghost use Rattle.sharc_names.specs.{Kinds.Kind as KindMeant, View.view_kind};
ghost use Rattle.sharc_mode.specs.{Moded.Assignment, View.view_sharing};
ghost use Rattle.sharc_meaning.specs.{Expressions.Calls, Statements.{right_value, done_simple, initialised, declared}};
ghost use Rattle.sharc_meaning.specs.Statements.{done_first, done_test, return_with};
ghost use Rattle.sharc_ask.specs.{StepView.view_state, View.view_test, Values.{number, test, flow, gives, as_nothing}};
ghost use Rattle.sharc_ask.specs.Plans.{inside, Leads, LeadsFrom, Plans, Fits, Starts, Begins};

use crate::plan::{Plan, Rest, Task, Value, WithNumber, WithPlace, WithValue};
use crate::plans::{done_number, then};
use crate::state::{Goes, State, begin, enter};
use crate::values::{Flow, made};
use sharc_mode::cell::pointed;
use sharc_mode::moded::Moded;
use sharc_mode::row::{PathReading, declared_row};
use sharc_mode::sharing::Sharing;
use sharc_names::kind::{ExpressionKind, declared_kind};
use sharc_tree::token::{Site, Span};
use sharc_tree::tree::{Declaration, Expr, ForFirst, Local, Right, Simple, WrittenType};

fn counted<'a>(
    program: &'a Moded,
    target: Sharing<'a>,
    span: Span,
    count: &'a Option<Expr>,
    written: &'a WrittenType,
    st: &mut State,
) -> Goes<Plan<'a>>
    ensures means { (on_call : Calls) (kind : KindMeant) → Plans on_call program.now (view_state st.old) result
        (view_state st.new) (inside (gives number (right_value on_call program.now kind (view_sharing target.entry)
        (malloc span (view_option view_expr count.now) written.now)))) }
    ensures fits { IfOk result (Fits 15) }
    ensures fuel { st.new.fuel ≤ st.old.fuel }
{
    match count {
        None => done_number(made(program, span.first, target, 1, written, st)),
        Some(e) => Ok(Plan::Goes(
            Task::Eval(e),
            Rest::Value(e, WithValue::Made(span.first, target, written)),
        )),
    }
}

fn begin_malloc<'a>(
    program: &'a Moded,
    target: Sharing<'a>,
    span: Span,
    count: &'a Option<Expr>,
    written: &'a WrittenType,
    st: &mut State,
) -> Goes<Plan<'a>>
    ensures means { (on_call : Calls) (kind : KindMeant)
        → Plans on_call program.now (view_state st.old) result (view_state st.new) (gives number (right_value on_call
        program.now kind (view_sharing target.entry) (malloc span (view_option view_expr count.now) written.now))) }
    ensures begins { IfOk result (Begins 3 st.old.fuel st.new.fuel) }
{
    enter(st)?;
    counted(program, target, span, count, written, st)
}

/// The right side of `=`.
pub fn begin_right<'a>(
    program: &'a Moded,
    kind: ExpressionKind<'a>,
    target: Sharing<'a>,
    right: &'a Right,
    st: &mut State,
) -> Goes<Plan<'a>>
    ensures means { (on_call : Calls)
        → Plans on_call program.now (view_state st.old) result (view_state st.new) (gives number
        (right_value on_call program.now (view_kind kind.entry) (view_sharing target.entry) (view_right right.now))) }
    ensures begins { IfOk result (Begins 3 st.old.fuel st.new.fuel) }
{
    match right {
        Right::Value(e) => Ok(Plan::Goes(Task::Eval(e), Rest::Value(e, WithValue::Fitted(kind)))),
        Right::Malloc(span, count, written) => {
            begin_malloc(program, target, *span, count, written, st)
        }
    }
}

/// An assignment or a call.
pub fn simple_plan<'a>(simple: &'a Simple, st: &State) -> Plan<'a>
    ensures means { (on_call : Calls) (m : Assignment) → LeadsFrom on_call m (view_state st.now)
        (gives as_nothing (done_simple on_call m (view_simple simple.now))) result }
    ensures starts { Starts 7 result }
{
    let mark = st.frame.temporaries.len();
    match simple {
        Simple::Assign(_, left, right) => Plan::Goes(
            Task::PlaceOf(left.span().first, left),
            Rest::Place(left, WithPlace::Assigned(right, mark)),
        ),
        Simple::Call(e) => Plan::Goes(Task::Eval(e), Rest::Value(e, WithValue::Dropped)),
    }
}

fn initial_plan<'a>(
    program: &'a Moded,
    declaration: &'a Declaration,
    initial: &'a Option<Right>,
) -> Plan<'a>
    ensures means { (on_call : Calls) → Leads on_call program.now (gives as_nothing
        (initialised on_call program.now declaration.now (view_option view_right initial.now))) result }
    ensures fits { Fits 4 result }
{
    match initial {
        None => Plan::Done(Value::Nothing),
        Some(right) => {
            let row = declared_row(
                program.typed(),
                PathReading::Written,
                declaration.name.site.token,
            );
            Plan::Goes(
                Task::Right(
                    declared_kind(&declaration.written),
                    pointed(program, Some(row)),
                    right,
                ),
                Rest::Number(WithNumber::Initialised(declaration)),
            )
        }
    }
}

/// A local of a block.
pub fn begin_local<'a>(program: &'a Moded, local: &'a Local, st: &mut State) -> Goes<Plan<'a>>
    ensures means { (on_call : Calls) → Plans on_call program.now (view_state st.old) result (view_state st.new)
        (gives as_nothing (declared on_call program.now (view_local local.now))) }
    ensures begins { IfOk result (Begins 5 st.old.fuel st.new.fuel) }
{
    then(
        begin(&local.declaration, 0, st),
        initial_plan(program, &local.declaration, &local.initial),
    )
}

/// What comes first in the head of a `for`.
pub fn begin_first<'a>(first: &'a ForFirst, st: &mut State) -> Goes<Plan<'a>>
    ensures means { (on_call : Calls) (m : Assignment) → Plans on_call m (view_state st.old) result (view_state st.new)
        (gives as_nothing (done_first on_call m (view_first first.now))) }
    ensures begins { IfOk result (Begins 9 st.old.fuel st.new.fuel) }
{
    match first {
        ForFirst::Nothing => Ok(Plan::Done(Value::Nothing)),
        ForFirst::Declares(local) => {
            enter(st)?;
            Ok(Plan::Goes(Task::Declare(local), Rest::Same))
        }
        ForFirst::Does(simple) => Ok(Plan::Goes(Task::Simple(simple), Rest::Same)),
    }
}

/// The test of a loop.
pub fn test_plan<'a>(condition: Option<&'a Expr>) -> Plan<'a>
    ensures means { (on_call : Calls) (m : Assignment)
        → Leads on_call m (gives test (done_test on_call m (view_test condition.entry))) result }
    ensures starts { Starts 5 result }
{
    match condition {
        None => Plan::Done(Value::Truth(true)),
        Some(e) => Plan::Goes(Task::Test(e), Rest::Same),
    }
}

/// A `return`.
pub fn return_plan<'a>(
    kind: ExpressionKind<'a>,
    site: Site,
    value: &'a Option<Box<Expr>>,
) -> Plan<'a>
    ensures means { (on_call : Calls) (m : Assignment) → Leads on_call m (gives flow
        (return_with on_call m (view_kind kind.entry) site (view_option (λ b. view_expr b.value) value.now))) result }
    ensures starts { Starts 3 result }
{
    match value {
        None => Plan::Done(Value::Flow(Flow::Returned(site, 0))),
        Some(e) => {
            let e: &'a Expr = e;
            Plan::Goes(
                Task::Eval(e),
                Rest::Value(e, WithValue::Returns(kind, site)),
            )
        }
    }
}
