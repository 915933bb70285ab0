// The steps of statements and functions.

ghost use Rattle.std.specs.Prelude.{◌≡◌, ◌++◌, OnOk, IfOk};
ghost use Rattle.sharc_tree.specs.View.{view_expr, view_option, view_right, view_simple, view_local, view_first};
ghost use Rattle.sharc_tree.specs.View.{view_head, view_stmt, view_statements, view_function};
ghost use Rattle.sharc_dataflow.specs.{Code.{goes_to, first_then, listing}, Flow.Ends};
ghost use Rattle.sharc_live.specs.Turns.{if_ends, body_begins, tested_loop_ends, turn_begins, turn_ends};
ghost use Rattle.sharc_live.specs.Flows.{of_option, flow, right_flow, simple_flow, declares_flow, local_flow};
ghost use Rattle.sharc_live.specs.Flows.{first_flow, turn_flow, test_flow, jump_flow, for_flow, statement_flow};
ghost use Rattle.sharc_live.specs.Flows.{statements_flow, parameters_flow, function_flow};

use crate::expression::{expression, place};
use crate::variable::{Walked, variable_of, writes};
use sharc_ctype::typed::Typed;
use sharc_dataflow::step::Step;
use sharc_tree::tree::{
    Declaration, Expr, ForFirst, ForHead, FunctionDefinition, Jump, Local, Right, Simple, Stmt,
};
use std::alloc::{AllocError, Global};

fn optional(typed: &Typed, expr: &Option<Expr>, steps: &mut Vec<Step>) -> Walked
    ensures { OnOk result (steps.new.items
        ≡ steps.old.items ++ listing (of_option (flow typed.now) (view_option view_expr expr.now))) }
{
    match expr {
        None => Ok(()),
        Some(expr) => expression(typed, expr, steps),
    }
}

fn right(typed: &Typed, right: &Right, steps: &mut Vec<Step>) -> Walked
    ensures { OnOk result (steps.new.items ≡ steps.old.items ++ listing (right_flow typed.now (view_right right.now))) }
{
    match right {
        Right::Value(expr) => expression(typed, expr, steps),
        Right::Malloc(_, count, _) => optional(typed, count, steps),
    }
}

fn simple(typed: &Typed, simple: &Simple, steps: &mut Vec<Step>) -> Walked
    ensures { OnOk result (steps.new.items
        ≡ steps.old.items ++ listing (simple_flow typed.now (view_simple simple.now))) }
{
    match simple {
        Simple::Assign(_, left, value) => {
            place(typed, left, steps)?;
            right(typed, value, steps)?;
            writes(variable_of(typed, left), steps)
        }
        Simple::Call(call) => expression(typed, call, steps),
    }
}

fn declares(of: &Declaration, steps: &mut Vec<Step>) -> Walked
    ensures { OnOk result (steps.new.items ≡ steps.old.items ++ listing (declares_flow of.now)) }
{
    steps.push(Step::Write(of.name.site.token))?;
    Ok(())
}

fn initial(typed: &Typed, value: &Option<Right>, steps: &mut Vec<Step>) -> Walked
    ensures { OnOk result (steps.new.items
        ≡ steps.old.items ++ listing (of_option (right_flow typed.now) (view_option view_right value.now))) }
{
    match value {
        None => Ok(()),
        Some(value) => right(typed, value, steps),
    }
}

fn local(typed: &Typed, local: &Local, steps: &mut Vec<Step>) -> Walked
    ensures { OnOk result (steps.new.items ≡ steps.old.items ++ listing (local_flow typed.now (view_local local.now))) }
{
    declares(&local.declaration, steps)?;
    initial(typed, &local.initial, steps)?;
    declares(&local.declaration, steps)
}

fn first(typed: &Typed, first: &ForFirst, steps: &mut Vec<Step>) -> Walked
    ensures { OnOk result (steps.new.items ≡ steps.old.items ++ listing (first_flow typed.now (view_first first.now))) }
{
    match first {
        ForFirst::Nothing => Ok(()),
        ForFirst::Declares(declared) => local(typed, declared, steps),
        ForFirst::Does(x) => simple(typed, x, steps),
    }
}

fn step(typed: &Typed, step: &Option<Simple>, steps: &mut Vec<Step>) -> Walked
    ensures { OnOk result (steps.new.items
        ≡ steps.old.items ++ listing (of_option (simple_flow typed.now) (view_option view_simple step.now))) }
{
    match step {
        None => Ok(()),
        Some(x) => simple(typed, x, steps),
    }
}

fn returned(typed: &Typed, value: &Option<Box<Expr>>, steps: &mut Vec<Step>) -> Walked
    ensures { OnOk result (steps.new.items ≡ steps.old.items ++ listing
        (first_then (of_option (flow typed.now) (view_option (λ b. view_expr b.value) value.now)) (goes_to Ends))) }
{
    if let Some(expr) = value {
        expression(typed, expr, steps)?;
    }
    steps.push(Step::Return)?;
    Ok(())
}

/// Begins a turn: its test leads past the loop, or on to the body.
fn begins_body(steps: &mut Vec<Step>) -> Walked
    ensures { OnOk result (steps.new.items ≡ steps.old.items ++ body_begins) }
{
    steps.push(Step::Fork)?;
    steps.push(Step::Break)?;
    steps.push(Step::Other)?;
    steps.push(Step::Catch)?;
    Ok(())
}

/// Ends a turn that has a test, and the loop.
fn ends_loop(steps: &mut Vec<Step>) -> Walked
    ensures { OnOk result (steps.new.items ≡ steps.old.items ++ tested_loop_ends) }
{
    steps.push(Step::Join)?;
    steps.push(Step::Again)?;
    Ok(())
}

/// Begins a turn, with its test if there is one.
fn begins_turn(typed: &Typed, test: &Option<Expr>, steps: &mut Vec<Step>) -> Walked
    ensures { OnOk result (steps.new.items
        ≡ steps.old.items ++ turn_begins (test_flow typed.now (view_option view_expr test.now))) }
{
    match test {
        None => {
            steps.push(Step::Catch)?;
            Ok(())
        }
        Some(test) => {
            expression(typed, test, steps)?;
            begins_body(steps)
        }
    }
}

/// Ends the turn and the loop.
fn ends_turn(test: &Option<Expr>, steps: &mut Vec<Step>) -> Walked
    ensures { OnOk result (steps.new.items ≡ steps.old.items ++ turn_ends (view_option view_expr test.now)) }
{
    match test {
        None => {
            steps.push(Step::Again)?;
            Ok(())
        }
        Some(_) => ends_loop(steps),
    }
}

fn jump(jump: Jump, steps: &mut Vec<Step>) -> Walked
    ensures { OnOk result (steps.new.items ≡ steps.old.items ++ listing (jump_flow jump)) }
{
    match jump {
        Jump::Break => steps.push(Step::Break)?,
        Jump::Continue => steps.push(Step::Continue)?,
    }
    Ok(())
}

/// Ends an `if` without `else`: its other way does nothing.
fn ends_if(steps: &mut Vec<Step>) -> Walked
    ensures { OnOk result (steps.new.items ≡ steps.old.items ++ if_ends) }
{
    steps.push(Step::Other)?;
    steps.push(Step::Join)?;
    Ok(())
}

#[cycle(statement)]
fn statement(typed: &Typed, stmt: &Stmt, steps: &mut Vec<Step>) -> Walked
    ensures { OnOk result (steps.new.items
        ≡ steps.old.items ++ listing (statement_flow typed.now (view_stmt stmt.now))) }
{
    match stmt {
        Stmt::Empty(_) => Ok(()),
        Stmt::Block(_, all) => statements(typed, all.as_slice(), steps),
        Stmt::Declare(_, declared) => local(typed, declared, steps),
        Stmt::Simple(_, x) => simple(typed, x, steps),
        Stmt::Jump(_, to) => jump(*to, steps),
        Stmt::Return(_, value) => returned(typed, value, steps),
        Stmt::If(_, test, then) => {
            expression(typed, test, steps)?;
            steps.push(Step::Fork)?;
            statement(typed, then, steps)?;
            ends_if(steps)
        }
        Stmt::IfElse {
            test,
            then,
            otherwise,
            ..
        } => {
            expression(typed, test, steps)?;
            steps.push(Step::Fork)?;
            statement(typed, then, steps)?;
            steps.push(Step::Other)?;
            statement(typed, otherwise, steps)?;
            steps.push(Step::Join)?;
            Ok(())
        }
        Stmt::While(_, test, body) => {
            steps.push(Step::Head)?;
            expression(typed, test, steps)?;
            begins_body(steps)?;
            statement(typed, body, steps)?;
            steps.push(Step::Caught)?;
            ends_loop(steps)
        }
        Stmt::For(_, head, body) => for_loop(typed, head, body, steps),
    }
}

#[cycle(statement)]
fn for_loop(typed: &Typed, head: &ForHead, body: &Stmt, steps: &mut Vec<Step>) -> Walked
    ensures { OnOk result (steps.new.items ≡ steps.old.items
        ++ listing (for_flow typed.now (view_head head.now) (statement_flow typed.now (view_stmt body.now)))) }
{
    first(typed, &head.first, steps)?;
    steps.push(Step::Head)?;
    begins_turn(typed, &head.test, steps)?;
    statement(typed, body, steps)?;
    steps.push(Step::Caught)?;
    step(typed, &head.step, steps)?;
    ends_turn(&head.test, steps)?;
    Ok(())
}

#[cycle(statement)]
fn statements(typed: &Typed, all: &[Stmt], steps: &mut Vec<Step>) -> Walked
    ensures { OnOk result (steps.new.items
        ≡ steps.old.items ++ listing (statements_flow typed.now (view_statements all.now))) }
{
    for stmt in all {
        statement(typed, stmt, steps)?;
    }
    Ok(())
}

fn parameters(all: &[Declaration], steps: &mut Vec<Step>) -> Walked
    ensures { OnOk result (steps.new.items ≡ steps.old.items ++ listing (parameters_flow all.now)) }
{
    for of in all {
        declares(of, steps)?;
    }
    Ok(())
}

/// The steps of a function: its parameters are written, and then its body begins.
pub(crate) fn function(
    alloc: Global,
    typed: &Typed,
    of: &FunctionDefinition,
) -> Result<Vec<Step>, AllocError>
    ensures { IfOk result (λ v. v.items ≡ listing (function_flow typed.now (view_function of.now))) }
{
    let mut steps = Vec::new(alloc);
    parameters(of.parameters.as_slice(), &mut steps)?;
    statements(typed, of.statements.as_slice(), &mut steps)?;
    Ok(steps)
}
