// The steps of expressions.

ghost use Rattle.std.specs.Prelude.{◌≡◌, ◌++◌, OnOk};
ghost use Rattle.sharc_tree.specs.View.{view_expr, view_arguments};
ghost use Rattle.sharc_dataflow.specs.Code.{listing};
ghost use Rattle.sharc_live.specs.Flows.{goes_on, nulls, variable_of, of_operands, of_place_call, of_base, flow};
ghost use Rattle.sharc_live.specs.Flows.{flow_all, place_flow};

use crate::variable::{Walked, nulls, reads, variable_of};
use sharc_ctype::typed::Typed;
use sharc_dataflow::step::Step;
use sharc_tree::tree::{BinaryOperator, Expr, FieldOperator, PlaceCall, UnaryOperator};

/// The source of `free` is nulled.
fn on_place(
    typed: &Typed,
    token: u32,
    call: PlaceCall,
    source: &Expr,
    steps: &mut Vec<Step>,
) -> Walked
    ensures { OnOk result (steps.new.items ≡ steps.old.items
        ++ listing (of_place_call call goes_on (nulls (variable_of typed.now (view_expr source.now)) token))) }
{
    match call {
        PlaceCall::Free => nulls(variable_of(typed, source), token, steps),
        PlaceCall::Lock => Ok(()),
        PlaceCall::Unlock => Ok(()),
    }
}

/// Adds the steps of a value.
#[cycle(expression)]
pub(crate) fn expression(typed: &Typed, expr: &Expr, steps: &mut Vec<Step>) -> Walked
    ensures { OnOk result (steps.new.items ≡ steps.old.items ++ listing (flow typed.now (view_expr expr.now))) }
{
    match expr {
        Expr::Identifier(_, name) => reads(variable_of(typed, expr), name.site.token, steps),
        Expr::Constant(_, _) => Ok(()),
        Expr::Parentheses(_, inner) | Expr::Unary(_, _, inner) => expression(typed, inner, steps),
        Expr::Call(_, _, all) => arguments(typed, all.as_slice(), steps),
        Expr::Spawn(_, _, value) | Expr::OnValue(_, _, value) => expression(typed, value, steps),
        Expr::OnPlace(span, call, source) => {
            place(typed, source, steps)?;
            on_place(typed, span.first.token, *call, source, steps)
        }
        Expr::Cast(span, _, source) => {
            place(typed, source, steps)?;
            nulls(variable_of(typed, source), span.first.token, steps)
        }
        Expr::Index(_, base, index) => {
            expression(typed, base, steps)?;
            expression(typed, index, steps)
        }
        Expr::Field {
            span,
            base,
            access,
            ..
        } => {
            field_base(typed, *access, base, steps)?;
            reads(variable_of(typed, expr), span.first.token, steps)
        }
        Expr::Binary {
            operator,
            left,
            right,
            ..
        } => {
            expression(typed, left, steps)?;
            right_operand(typed, *operator, right, steps)
        }
    }
}

#[cycle(expression)]
fn arguments(typed: &Typed, all: &[Expr], steps: &mut Vec<Step>) -> Walked
    ensures { OnOk result (steps.new.items ≡ steps.old.items ++ listing (flow_all typed.now (view_arguments all.now))) }
{
    for expr in all {
        expression(typed, expr, steps)?;
    }
    Ok(())
}

/// The right operand, which is evaluated or not by `&&` and `||`.
#[cycle(expression)]
fn right_operand(
    typed: &Typed,
    operator: BinaryOperator,
    operand: &Expr,
    steps: &mut Vec<Step>,
) -> Walked
    ensures { OnOk result (steps.new.items
        ≡ steps.old.items ++ listing (of_operands operator goes_on (flow typed.now (view_expr operand.now)))) }
{
    match operator {
        BinaryOperator::LogicalAnd | BinaryOperator::LogicalOr => {
            steps.push(Step::Fork)?;
            steps.push(Step::Other)?;
            expression(typed, operand, steps)?;
            steps.push(Step::Join)?;
            Ok(())
        }
        _ => expression(typed, operand, steps),
    }
}

/// What comes before `.` is a place, before `->` a value.
#[cycle(expression)]
fn field_base(typed: &Typed, access: FieldOperator, base: &Expr, steps: &mut Vec<Step>) -> Walked
    ensures { OnOk result (steps.new.items ≡ steps.old.items
        ++ listing (of_base access (place_flow typed.now (view_expr base.now)) (flow typed.now (view_expr base.now)))) }
{
    match access {
        FieldOperator::Dot => place(typed, base, steps),
        FieldOperator::Arrow => expression(typed, base, steps),
    }
}

/// Adds the steps by which the place that an lvalue names is found.
#[cycle(expression)]
pub(crate) fn place(typed: &Typed, expr: &Expr, steps: &mut Vec<Step>) -> Walked
    ensures { OnOk result (steps.new.items ≡ steps.old.items ++ listing (place_flow typed.now (view_expr expr.now))) }
{
    match expr {
        Expr::Parentheses(_, inner) => place(typed, inner, steps),
        Expr::Index(_, base, index) => {
            expression(typed, base, steps)?;
            expression(typed, index, steps)
        }
        Expr::Field { base, access, .. } => field_base(typed, *access, base, steps),
        Expr::Unary(_, UnaryOperator::Dereference, operand) => expression(typed, operand, steps),
        _ => Ok(()),
    }
}
