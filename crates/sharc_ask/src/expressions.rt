// Expressions are begun: what comes first, and what goes on with its value.

ghost use Rattle.std.specs.Prelude.{◌≡◌, ◌≤◌, ◌+◌, ◌*◌, IfOk};
ghost use Rattle.sharc_tree.specs.{declared.token.Span.Span, declared.tree.declaration.WrittenType.WrittenType};
ghost use Rattle.sharc_tree.specs.{Tree.{call, spawn, on_place, cast, unary, binary}, View.{view_expr, view_arguments}};
ghost use Rattle.sharc_mode.specs.Moded.{Assignment};
ghost use Rattle.sharc_meaning.specs.{Expressions.{Calls, eval, place_of}, Places.{index_place, pointee_place}};
ghost use Rattle.sharc_meaning.specs.Places.{field_place, unary_place};
ghost use Rattle.sharc_ask.specs.{StepView.view_state, Values.{number, place, gives}, Plans.{inside, Leads, LeadsFrom}};
ghost use Rattle.sharc_ask.specs.Plans.{Plans, Fits, Starts, Begins, size};

use crate::arithmetic::width_of;
use crate::places::{LvaluePlace, place_named};
use crate::plan::{Call, Operation, Plan, Rest, Task, Value, WithPlace, WithValue};
use crate::plans::done_number;
use crate::state::{Goes, State, enter};
use crate::values::{constant_value, kind_of, logic_of, named, named_value};
use sharc_mode::moded::Moded;
use sharc_names::fault::Named;
use sharc_names::kind::is_array;
use sharc_tree::token::{Site, Span};
use sharc_tree::tree::{BinaryOperator, Expr, FieldOperator, Identifier, PlaceCall, UnaryOperator};

fn on_place_plan<'a>(
    expr: &'a Expr,
    span: Span,
    word: PlaceCall,
    operand: &'a Expr,
    st: &State,
) -> Plan<'a>
    requires form { view_expr expr.now ≡ on_place span word (view_expr operand.now) }
    ensures means { (on_call : Calls) (m : Assignment)
        → LeadsFrom on_call m (view_state st.now) (inside (gives number (eval on_call m (view_expr expr.now)))) result }
    ensures fits { Fits 15 result }
{
    let mark = st.frame.temporaries.len();
    let place = Task::PlaceOf(operand.span().first, operand);
    match word {
        PlaceCall::Lock => Plan::Goes(
            place,
            Rest::Place(operand, WithPlace::Locks(span.first, mark)),
        ),
        PlaceCall::Unlock => Plan::Goes(
            place,
            Rest::Place(operand, WithPlace::Unlocks(span.first, mark)),
        ),
        PlaceCall::Free => Plan::Goes(place, Rest::Place(operand, WithPlace::Frees(span, mark))),
    }
}

fn unary_plan<'a>(
    expr: &'a Expr,
    span: Span,
    operator: UnaryOperator,
    operand: &'a Expr,
    st: &State,
) -> Plan<'a>
    requires form { view_expr expr.now ≡ unary span operator (view_expr operand.now) }
    ensures means { (on_call : Calls) (m : Assignment)
        → LeadsFrom on_call m (view_state st.now) (inside (gives number (eval on_call m (view_expr expr.now)))) result }
    ensures fits { Fits 15 result }
{
    let mark = st.frame.temporaries.len();
    let value = Task::Eval(operand);
    match operator {
        UnaryOperator::Negate => {
            Plan::Goes(value, Rest::Value(operand, WithValue::Negated(span.first)))
        }
        UnaryOperator::Not => Plan::Goes(value, Rest::Value(operand, WithValue::Inverted)),
        UnaryOperator::Complement => Plan::Goes(
            value,
            Rest::Value(operand, WithValue::Complemented),
        ),
        UnaryOperator::Dereference => Plan::Goes(
            Task::Pointee(span.first, operand),
            Rest::Place(expr, WithPlace::Fetched(mark)),
        ),
    }
}

fn binary_plan<'a>(
    program: &'a Moded,
    expr: &'a Expr,
    site: Site,
    operator: BinaryOperator,
    left: &'a Expr,
    right: &'a Expr,
    st: &State,
) -> Plan<'a>
    requires form { (s : Span)
        × (view_expr expr.now ≡ binary s operator site (view_expr left.now) (view_expr right.now)) }
    ensures means { (on_call : Calls) → LeadsFrom on_call program.now (view_state st.now)
        (inside (gives number (eval on_call program.now (view_expr expr.now)))) result }
    ensures fits { Fits 15 result }
{
    let mark = st.frame.temporaries.len();
    let value = Task::Eval(left);
    match logic_of(operator) {
        None => {
            let operation = Operation {
                width: width_of(kind_of(program, expr)),
                site,
                operator,
                mark,
            };
            Plan::Goes(
                value,
                Rest::Value(left, WithValue::LeftOperand(operation, right)),
            )
        }
        Some(is_and) => {
            if is_and {
                Plan::Goes(value, Rest::Value(left, WithValue::AndLeft(right)))
            } else {
                Plan::Goes(value, Rest::Value(left, WithValue::OrLeft(right)))
            }
        }
    }
}

fn call_plan<'a>(
    program: &'a Moded,
    expr: &'a Expr,
    span: Span,
    name: &'a Identifier,
    arguments: &'a [Expr],
) -> Plan<'a>
    requires form { view_expr expr.now ≡ call span name.now (view_arguments arguments.now) }
    ensures means { (on_call : Calls)
        → Leads on_call program.now (inside (gives number (eval on_call program.now (view_expr expr.now)))) result }
    ensures fits { Fits 15 result }
{
    Plan::Calls(Call {
        site: span.first,
        named: named(program, name.site.token),
        name: name.text.as_slice(),
        arguments,
    })
}

fn spawn_plan<'a>(
    program: &'a Moded,
    expr: &'a Expr,
    span: Span,
    name: &Identifier,
    argument: &'a Expr,
    st: &State,
) -> Plan<'a>
    requires form { view_expr expr.now ≡ spawn span name.now (view_expr argument.now) }
    ensures means { (on_call : Calls) → LeadsFrom on_call program.now (view_state st.now)
        (inside (gives number (eval on_call program.now (view_expr expr.now)))) result }
    ensures fits { Fits 15 result }
{
    let mark = st.frame.temporaries.len();
    let rest = WithValue::Spawned(span.first, named(program, name.site.token), mark);
    Plan::Goes(Task::Eval(argument), Rest::Value(argument, rest))
}

fn cast_plan<'a>(expr: &'a Expr, span: Span, source: &'a Expr, st: &State) -> Plan<'a>
    requires form { (to : WrittenType) × (view_expr expr.now ≡ cast span to (view_expr source.now)) }
    ensures means { (on_call : Calls) (m : Assignment) → LeadsFrom on_call m (view_state st.now)
        (inside (gives number (eval on_call m (view_expr expr.now)))) result }
    ensures fits { Fits 15 result }
{
    let mark = st.frame.temporaries.len();
    let place = Task::PlaceOf(source.span().first, source);
    Plan::Goes(place, Rest::Place(source, WithPlace::Casts(span, mark)))
}

fn eval_plan<'a>(program: &'a Moded, expr: &'a Expr, st: &mut State) -> Goes<Plan<'a>>
    ensures means { (on_call : Calls) → Plans on_call program.now (view_state st.old) result (view_state st.new)
        (inside (gives number (eval on_call program.now (view_expr expr.now)))) }
    ensures fits { IfOk result (Fits 15) }
    ensures fuel { st.new.fuel ≤ st.old.fuel }
{
    let mark = st.frame.temporaries.len();
    match expr {
        Expr::Identifier(_, name) => {
            done_number(named_value(program, expr, name.site, name.site.token, st))
        }
        Expr::Constant(_, constant) => { Ok(Plan::Done(Value::Number(constant_value(constant)))) }
        Expr::Parentheses(_, inner) => Ok(Plan::Goes(Task::Eval(inner), Rest::Same)),
        Expr::Call(span, name, all) => Ok(call_plan(program, expr, *span, name, all.as_slice())),
        Expr::Spawn(span, name, a) => Ok(spawn_plan(program, expr, *span, name, a, st)),
        Expr::OnValue(span, word, a) => Ok(Plan::Goes(
            Task::Eval(a),
            Rest::Value(a, WithValue::Performs(span.first, *word)),
        )),
        Expr::OnPlace(span, word, a) => Ok(on_place_plan(expr, *span, *word, a, st)),
        Expr::Cast(span, _, a) => Ok(cast_plan(expr, *span, a, st)),
        Expr::Index(span, a, i) => Ok(Plan::Goes(
            Task::Index(span.first, a, i),
            Rest::Place(expr, WithPlace::Fetched(mark)),
        )),
        Expr::Field {
            span,
            base,
            access,
            name,
        } => Ok(Plan::Goes(
            Task::Field(span.first, base, *access, named(program, name.site.token)),
            Rest::Place(expr, WithPlace::Fetched(mark)),
        )),
        Expr::Unary(span, operator, a) => Ok(unary_plan(expr, *span, *operator, a, st)),
        Expr::Binary {
            operator,
            site,
            left,
            right,
            ..
        } => Ok(binary_plan(program, expr, *site, *operator, left, right, st)),
    }
}

/// The value of an expression.
pub fn begin_eval<'a>(program: &'a Moded, expr: &'a Expr, st: &mut State) -> Goes<Plan<'a>>
    ensures means { (on_call : Calls) → Plans on_call program.now (view_state st.old) result (view_state st.new)
        (gives number (eval on_call program.now (view_expr expr.now))) }
    ensures begins { IfOk result (Begins 1 st.old.fuel st.new.fuel) }
    ensures spends { IfOk result (λ p. 64 * st.new.fuel + size p + 49 ≤ 64 * st.old.fuel) }
{
    enter(st)?;
    eval_plan(program, expr, st)
}

fn unary_place_plan<'a>(site: Site, operator: UnaryOperator, operand: &'a Expr) -> Plan<'a>
    ensures means { (on_call : Calls) (m : Assignment) → Leads on_call m (gives place
        (unary_place m.typed site operator (view_expr operand.now) (eval on_call m (view_expr operand.now)))) result }
    ensures fits { Fits 15 result }
{
    match operator {
        UnaryOperator::Dereference => Plan::Goes(Task::Pointee(site, operand), Rest::Same),
        UnaryOperator::Negate => Plan::Done(Value::Place(LvaluePlace::Variable(0))),
        UnaryOperator::Not => Plan::Done(Value::Place(LvaluePlace::Variable(0))),
        UnaryOperator::Complement => Plan::Done(Value::Place(LvaluePlace::Variable(0))),
    }
}

fn place_plan<'a>(program: &'a Moded, site: Site, expr: &'a Expr) -> Plan<'a>
    ensures means { (on_call : Calls) → Leads on_call program.now
        (inside (gives place (place_of on_call program.now site (view_expr expr.now)))) result }
    ensures fits { Fits 15 result }
{
    match expr {
        Expr::Identifier(_, name) => {
            Plan::Done(Value::Place(place_named(named(program, name.site.token))))
        }
        Expr::Parentheses(_, inner) => Plan::Goes(Task::PlaceOf(site, inner), Rest::Same),
        Expr::Index(_, a, i) => Plan::Goes(Task::Index(site, a, i), Rest::Same),
        Expr::Field {
            base,
            access,
            name,
            ..
        } => Plan::Goes(
            Task::Field(site, base, *access, named(program, name.site.token)),
            Rest::Same,
        ),
        Expr::Unary(_, operator, a) => unary_place_plan(site, *operator, a),
        Expr::Constant(_, _) => Plan::Done(Value::Place(LvaluePlace::Variable(0))),
        Expr::Call(_, _, _) => Plan::Done(Value::Place(LvaluePlace::Variable(0))),
        Expr::Spawn(_, _, _) => Plan::Done(Value::Place(LvaluePlace::Variable(0))),
        Expr::OnValue(_, _, _) => Plan::Done(Value::Place(LvaluePlace::Variable(0))),
        Expr::OnPlace(_, _, _) => Plan::Done(Value::Place(LvaluePlace::Variable(0))),
        Expr::Cast(_, _, _) => Plan::Done(Value::Place(LvaluePlace::Variable(0))),
        Expr::Binary { .. } => Plan::Done(Value::Place(LvaluePlace::Variable(0))),
    }
}

/// The place that an lvalue names.
pub fn begin_place<'a>(
    program: &'a Moded,
    site: Site,
    expr: &'a Expr,
    st: &mut State,
) -> Goes<Plan<'a>>
    ensures means { (on_call : Calls) → Plans on_call program.now (view_state st.old) result (view_state st.new)
        (gives place (place_of on_call program.now site (view_expr expr.now))) }
    ensures begins { IfOk result (Begins 1 st.old.fuel st.new.fuel) }
{
    enter(st)?;
    Ok(place_plan(program, site, expr))
}

/// `a[i]`
pub fn index_plan<'a>(program: &'a Moded, site: Site, base: &'a Expr, index: &'a Expr) -> Plan<'a>
    ensures means { (on_call : Calls) → Leads on_call program.now (gives place (index_place program.now.typed site
        (view_expr base.now) (place_of on_call program.now site (view_expr base.now))
        (eval on_call program.now (view_expr base.now)) (eval on_call program.now (view_expr index.now)))) result }
    ensures starts { Starts 5 result }
{
    if is_array(kind_of(program, base)) {
        Plan::Goes(
            Task::PlaceOf(site, base),
            Rest::Place(base, WithPlace::ArrayBase(site, index)),
        )
    } else {
        Plan::Goes(
            Task::Eval(base),
            Rest::Value(base, WithValue::PointerBase(site, index)),
        )
    }
}

/// `a.n` and `a->n`
pub fn field_plan<'a>(site: Site, base: &'a Expr, access: FieldOperator, named: Named) -> Plan<'a>
    ensures means { (on_call : Calls) (m : Assignment)
        → Leads on_call m (gives place (field_place m.typed site (view_expr base.now) access named
        (place_of on_call m site (view_expr base.now)) (eval on_call m (view_expr base.now)))) result }
    ensures starts { Starts 5 result }
{
    let rest = Rest::Place(base, WithPlace::FieldIn(named));
    match access {
        FieldOperator::Dot => Plan::Goes(Task::PlaceOf(site, base), rest),
        FieldOperator::Arrow => Plan::Goes(Task::Pointee(site, base), rest),
    }
}

/// `*a`
pub fn pointee_plan<'a>(site: Site, base: &'a Expr) -> Plan<'a>
    ensures means { (on_call : Calls) (m : Assignment) → Leads on_call m
        (gives place (pointee_place m.typed site (view_expr base.now) (eval on_call m (view_expr base.now)))) result }
    ensures starts { Starts 3 result }
{
    Plan::Goes(Task::Eval(base), Rest::Value(base, WithValue::Based(site)))
}
