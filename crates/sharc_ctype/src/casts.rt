// The casts of expressions, in source order.

ghost use Rattle.std.specs.Prelude.{◌≡◌, ◌++◌, IfOk, OnOk};
ghost use Rattle.sharc_tree.specs.Measures.{expressions, in_arguments, in_right, in_simple};
ghost use Rattle.sharc_tree.specs.View.{view_expr, view_arguments, view_right, view_simple};
ghost use Rattle.sharc_ctype.specs.Entities.{casts, cast_entity};

use crate::entities::Entities;
use crate::entity::Entity;
use sharc_names::types::Role;
use sharc_tree::token::Span;
use sharc_tree::tree::{Expr, Right, Simple, WrittenType};
use std::alloc::{AllocError, Global};

/// The cast of these tokens to this type.
fn cast(alloc: Global, span: Span, written: &WrittenType) -> Result<Entity, AllocError>
    ensures { IfOk result (λ e. e ≡ cast_entity span written.now) }
{
    let written = written.copy(alloc)?;
    Ok(Entity {
        role: Role::Cast,
        token: span.first.token,
        last: span.last.token,
        written,
    })
}

/// Adds the casts of an expression, an outer one before those in it.
#[cycle(add_casts)]
#[tactic(auto, using(crate::proofs::CastLemmas::casts_both))]
pub(crate) fn add_casts(
    expr: &Expr,
    alloc: Global,
    entities: &mut Entities,
) -> Result<(), AllocError>
    ensures { OnOk result (entities.new ≡ entities.old ++ casts (expressions (view_expr expr.now))) }
{
    match expr {
        Expr::Identifier(_, _) => Ok(()),
        Expr::Constant(_, _) => Ok(()),
        Expr::Parentheses(_, inner) => add_casts(inner, alloc, entities),
        Expr::Call(_, _, arguments) => add_arguments(arguments.as_slice(), alloc, entities),
        Expr::Spawn(_, _, argument) => add_casts(argument, alloc, entities),
        Expr::OnValue(_, _, argument) => add_casts(argument, alloc, entities),
        Expr::OnPlace(_, _, argument) => add_casts(argument, alloc, entities),
        Expr::Cast(span, written, source) => {
            entities.add(cast(alloc, *span, written)?)?;
            add_casts(source, alloc, entities)
        }
        Expr::Index(_, base, index) => {
            add_casts(base, alloc, entities)?;
            add_casts(index, alloc, entities)
        }
        Expr::Field { base, .. } => add_casts(base, alloc, entities),
        Expr::Unary(_, _, operand) => add_casts(operand, alloc, entities),
        Expr::Binary { left, right, .. } => {
            add_casts(left, alloc, entities)?;
            add_casts(right, alloc, entities)
        }
    }
}

/// Adds the casts of arguments.
#[cycle(add_casts)]
#[tactic(auto, using(crate::proofs::CastLemmas::casts_both))]
fn add_arguments(
    arguments: &[Expr],
    alloc: Global,
    entities: &mut Entities,
) -> Result<(), AllocError>
    ensures { OnOk result (entities.new ≡ entities.old ++ casts (in_arguments (view_arguments arguments.now))) }
{
    for argument in arguments {
        add_casts(argument, alloc, entities)?;
    }
    Ok(())
}

/// Adds the casts of the right side of `=`.
pub(crate) fn add_right(
    right: &Right,
    alloc: Global,
    entities: &mut Entities,
) -> Result<(), AllocError>
    ensures { OnOk result (entities.new ≡ entities.old ++ casts (in_right (view_right right.now))) }
{
    match right {
        Right::Value(expr) => add_casts(expr, alloc, entities),
        Right::Malloc(_, Some(count), _) => add_casts(count, alloc, entities),
        Right::Malloc(_, None, _) => Ok(()),
    }
}

/// Adds the casts of an assignment or a call.
#[tactic(auto, using(crate::proofs::CastLemmas::casts_both))]
pub(crate) fn add_simple(
    simple: &Simple,
    alloc: Global,
    entities: &mut Entities,
) -> Result<(), AllocError>
    ensures { OnOk result (entities.new ≡ entities.old ++ casts (in_simple (view_simple simple.now))) }
{
    match simple {
        Simple::Assign(_, left, right) => {
            add_casts(left, alloc, entities)?;
            add_right(right, alloc, entities)
        }
        Simple::Call(call) => add_casts(call, alloc, entities),
    }
}
