// The links of the casts of expressions, statements and functions: one walk over a program.

ghost use Rattle.std.specs.Prelude.{◌≡◌, ◌++◌, OnOk};
ghost use Rattle.sharc_tree.specs.Measures.{expressions, in_arguments, in_option, in_right, in_simple, in_local};
ghost use Rattle.sharc_tree.specs.Measures.{in_first, in_head, in_statement, in_statements};
ghost use Rattle.sharc_tree.specs.View.{view_expr, view_arguments, view_option, view_right, view_simple, view_local};
ghost use Rattle.sharc_tree.specs.View.{view_first, view_head, view_stmt, view_statements};
ghost use Rattle.sharc_infer.specs.Links.{casts_in};

use crate::links::equate_cast;
use sharc_ctype::typed::Typed;
use sharc_graph::Link;
use sharc_tree::tree::{Expr, ForFirst, ForHead, Local, Right, Simple, Stmt};
use std::alloc::AllocError;

/// Adds the links of the casts of an expression.
#[cycle(expression)]
#[tactic(auto, using(crate::proofs::LinkLemmas::casts_both))]
fn expression(expr: &Expr, typed: &Typed, links: &mut Vec<Link>) -> Result<(), AllocError>
    ensures { OnOk result (links.new.items ≡ links.old.items ++ casts_in typed.now (expressions (view_expr expr.now))) }
{
    match expr {
        Expr::Identifier(_, _) => Ok(()),
        Expr::Constant(_, _) => Ok(()),
        Expr::Parentheses(_, inner) => expression(inner, typed, links),
        Expr::Call(_, _, all) => arguments(all.as_slice(), typed, links),
        Expr::Spawn(_, _, argument) => expression(argument, typed, links),
        Expr::OnValue(_, _, argument) => expression(argument, typed, links),
        Expr::OnPlace(_, _, argument) => expression(argument, typed, links),
        Expr::Cast(span, _, source) => {
            equate_cast(typed, *span, source, links)?;
            expression(source, typed, links)
        }
        Expr::Index(_, base, index) => {
            expression(base, typed, links)?;
            expression(index, typed, links)
        }
        Expr::Field { base, .. } => expression(base, typed, links),
        Expr::Unary(_, _, operand) => expression(operand, typed, links),
        Expr::Binary { left, right, .. } => {
            expression(left, typed, links)?;
            expression(right, typed, links)
        }
    }
}

/// The same of arguments.
#[cycle(expression)]
#[tactic(auto, using(crate::proofs::LinkLemmas::casts_both))]
fn arguments(all: &[Expr], typed: &Typed, links: &mut Vec<Link>) -> Result<(), AllocError>
    ensures { OnOk result (links.new.items
        ≡ links.old.items ++ casts_in typed.now (in_arguments (view_arguments all.now))) }
{
    for expr in all {
        expression(expr, typed, links)?;
    }
    Ok(())
}

fn optional(expr: &Option<Expr>, typed: &Typed, links: &mut Vec<Link>) -> Result<(), AllocError>
    ensures { OnOk result (links.new.items
        ≡ links.old.items ++ casts_in typed.now (in_option expressions (view_option view_expr expr.now))) }
{
    match expr {
        None => Ok(()),
        Some(expr) => expression(expr, typed, links),
    }
}

fn right(right: &Right, typed: &Typed, links: &mut Vec<Link>) -> Result<(), AllocError>
    ensures { OnOk result (links.new.items ≡ links.old.items ++ casts_in typed.now (in_right (view_right right.now))) }
{
    match right {
        Right::Value(expr) => expression(expr, typed, links),
        Right::Malloc(_, count, _) => optional(count, typed, links),
    }
}

#[tactic(auto, using(crate::proofs::LinkLemmas::casts_both))]
fn simple(simple: &Simple, typed: &Typed, links: &mut Vec<Link>) -> Result<(), AllocError>
    ensures { OnOk result (links.new.items
        ≡ links.old.items ++ casts_in typed.now (in_simple (view_simple simple.now))) }
{
    match simple {
        Simple::Assign(_, place, value) => {
            expression(place, typed, links)?;
            right(value, typed, links)
        }
        Simple::Call(call) => expression(call, typed, links),
    }
}

fn local(local: &Local, typed: &Typed, links: &mut Vec<Link>) -> Result<(), AllocError>
    ensures { OnOk result (links.new.items ≡ links.old.items ++ casts_in typed.now (in_local (view_local local.now))) }
{
    match &local.initial {
        None => Ok(()),
        Some(value) => right(value, typed, links),
    }
}

fn first(first: &ForFirst, typed: &Typed, links: &mut Vec<Link>) -> Result<(), AllocError>
    ensures { OnOk result (links.new.items ≡ links.old.items ++ casts_in typed.now (in_first (view_first first.now))) }
{
    match first {
        ForFirst::Nothing => Ok(()),
        ForFirst::Declares(declared) => local(declared, typed, links),
        ForFirst::Does(x) => simple(x, typed, links),
    }
}

fn step(step: &Option<Simple>, typed: &Typed, links: &mut Vec<Link>) -> Result<(), AllocError>
    ensures { OnOk result (links.new.items
        ≡ links.old.items ++ casts_in typed.now (in_option in_simple (view_option view_simple step.now))) }
{
    match step {
        None => Ok(()),
        Some(x) => simple(x, typed, links),
    }
}

#[tactic(auto, using(crate::proofs::LinkLemmas::casts_both))]
fn head(head: &ForHead, typed: &Typed, links: &mut Vec<Link>) -> Result<(), AllocError>
    ensures { OnOk result (links.new.items ≡ links.old.items ++ casts_in typed.now (in_head (view_head head.now))) }
{
    first(&head.first, typed, links)?;
    optional(&head.test, typed, links)?;
    step(&head.step, typed, links)
}

fn returned(
    value: &Option<Box<Expr>>,
    typed: &Typed,
    links: &mut Vec<Link>,
) -> Result<(), AllocError>
    ensures { OnOk result (links.new.items ≡ links.old.items
        ++ casts_in typed.now (in_option expressions (view_option (λ b. view_expr b.value) value.now))) }
{
    match value {
        None => Ok(()),
        Some(expr) => expression(expr, typed, links),
    }
}

/// Adds the links of the casts of a statement.
#[cycle(statement)]
#[tactic(auto, using(crate::proofs::LinkLemmas::casts_both))]
fn statement(stmt: &Stmt, typed: &Typed, links: &mut Vec<Link>) -> Result<(), AllocError>
    ensures { OnOk result (links.new.items
        ≡ links.old.items ++ casts_in typed.now (in_statement (view_stmt stmt.now))) }
{
    match stmt {
        Stmt::Empty(_) => Ok(()),
        Stmt::Block(_, all) => statements(all.as_slice(), typed, links),
        Stmt::Declare(_, declared) => local(declared, typed, links),
        Stmt::Simple(_, x) => simple(x, typed, links),
        Stmt::Jump(_, _) => Ok(()),
        Stmt::Return(_, value) => returned(value, typed, links),
        Stmt::If(_, test, then) => {
            expression(test, typed, links)?;
            statement(then, typed, links)
        }
        Stmt::IfElse {
            test,
            then,
            otherwise,
            ..
        } => {
            expression(test, typed, links)?;
            statement(then, typed, links)?;
            statement(otherwise, typed, links)
        }
        Stmt::While(_, test, body) => {
            expression(test, typed, links)?;
            statement(body, typed, links)
        }
        Stmt::For(_, parts, body) => {
            head(parts, typed, links)?;
            statement(body, typed, links)
        }
    }
}

/// The same of statements that follow one another.
#[cycle(statement)]
#[tactic(auto, using(crate::proofs::LinkLemmas::casts_both))]
pub(crate) fn statements(
    all: &[Stmt],
    typed: &Typed,
    links: &mut Vec<Link>,
) -> Result<(), AllocError>
    ensures { OnOk result (links.new.items
        ≡ links.old.items ++ casts_in typed.now (in_statements (view_statements all.now))) }
{
    for stmt in all {
        statement(stmt, typed, links)?;
    }
    Ok(())
}
