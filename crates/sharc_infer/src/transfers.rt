// The links of what functions assign, initialise, pass and return: one walk over a program.

ghost use Rattle.std.specs.Prelude.{◌≡◌, ◌++◌, Some, OnOk};
ghost use Rattle.sharc_tree.specs.{Tree.{value, argument, no_arguments}, View.{view_expr, view_arguments, view_option}};
ghost use Rattle.sharc_tree.specs.View.{view_right, view_simple, view_local, view_first, view_head, view_stmt};
ghost use Rattle.sharc_tree.specs.View.{view_statements};
ghost use Rattle.sharc_ctype.specs.Transfers.{parameters_named, passed, transfers, argument_transfers, in_option};
ghost use Rattle.sharc_ctype.specs.Transfers.{right_transfers, simple_transfers, local_transfers, first_transfers};
ghost use Rattle.sharc_ctype.specs.Transfers.{statement_transfers, statements_transfers, gives};
ghost use Rattle.sharc_ctype.specs.Transfers.{result as result_receiver};
ghost use Rattle.sharc_mode.specs.{Flows.{equal_rows, source_row}, Rows.{written, declared_row, row_at}};
ghost use Rattle.sharc_mode.specs.View.{view_rows, EndsWithin};
ghost use Rattle.sharc_infer.specs.Links.{given};

use crate::links::{equate, source_row};
use sharc_ctype::typed::{Typed, parameters_named};
use sharc_graph::Link;
use sharc_mode::row::{PathReading, declared_row, row_of};
use sharc_tree::tree::{
    Declaration, Expr, ForFirst, ForHead, Local, Right, Simple, Stmt, WrittenType,
};
use std::alloc::AllocError;

/// Adds the links of an argument that is passed to a parameter.
fn pass(
    to: &Declaration,
    argument: &Expr,
    typed: &Typed,
    links: &mut Vec<Link>,
) -> Result<(), AllocError>
    ensures { OnOk result (links.new.items ≡ links.old.items ++ equal_rows
        (Some (declared_row typed.now written to.now.name.site.token)) (row_at typed.now (view_expr argument.now))) }
{
    let row = declared_row(typed, PathReading::Written, to.name.site.token);
    equate(typed, Some(row), row_of(typed, argument), links)
}

/// Adds the links of the arguments of a call.
fn pass_all(
    parameters: &[Declaration],
    all: &[Expr],
    function: u32,
    typed: &Typed,
    links: &mut Vec<Link>,
) -> Result<(), AllocError>
    ensures { OnOk result (links.new.items
        ≡ links.old.items ++ given typed.now function (passed parameters.now (view_arguments all.now))) }
{
    for i in 0..parameters.len().min(all.len()) {
        pass(&parameters[i], &all[i], typed, links)?;
    }
    Ok(())
}

/// Adds the links of the argument of a spawn.
fn pass_one(
    parameters: &[Declaration],
    source: &Expr,
    function: u32,
    typed: &Typed,
    links: &mut Vec<Link>,
) -> Result<(), AllocError>
    ensures { OnOk result (links.new.items ≡ links.old.items
        ++ given typed.now function (passed parameters.now (argument (view_expr source.now) no_arguments))) }
{
    match parameters {
        [] => Ok(()),
        [parameter, ..] => pass(parameter, source, typed, links),
    }
}

/// Adds the links of what an expression passes, in the function that this token names.
#[cycle(expression)]
#[tactic(auto, using(crate::proofs::LinkLemmas::given_both))]
fn expression(
    expr: &Expr,
    function: u32,
    typed: &Typed,
    links: &mut Vec<Link>,
) -> Result<(), AllocError>
    ensures { OnOk result (links.new.items
        ≡ links.old.items ++ given typed.now function (transfers typed.now (view_expr expr.now))) }
{
    match expr {
        Expr::Identifier(_, _) => Ok(()),
        Expr::Constant(_, _) => Ok(()),
        Expr::Parentheses(_, inner) => expression(inner, function, typed, links),
        Expr::Call(_, name, all) => {
            let parameters = parameters_named(typed, typed.named(name.site.token));
            pass_all(parameters, all.as_slice(), function, typed, links)?;
            arguments(all.as_slice(), function, typed, links)
        }
        Expr::Spawn(_, name, argument) => {
            let parameters = parameters_named(typed, typed.named(name.site.token));
            pass_one(parameters, argument, function, typed, links)?;
            expression(argument, function, typed, links)
        }
        Expr::OnValue(_, _, argument) => expression(argument, function, typed, links),
        Expr::OnPlace(_, _, argument) => expression(argument, function, typed, links),
        Expr::Cast(_, _, source) => expression(source, function, typed, links),
        Expr::Index(_, base, index) => {
            expression(base, function, typed, links)?;
            expression(index, function, typed, links)
        }
        Expr::Field { base, .. } => expression(base, function, typed, links),
        Expr::Unary(_, _, operand) => expression(operand, function, typed, links),
        Expr::Binary { left, right, .. } => {
            expression(left, function, typed, links)?;
            expression(right, function, typed, links)
        }
    }
}

/// The same of the arguments of a call.
#[cycle(expression)]
#[tactic(auto, using(crate::proofs::LinkLemmas::given_both))]
fn arguments(
    all: &[Expr],
    function: u32,
    typed: &Typed,
    links: &mut Vec<Link>,
) -> Result<(), AllocError>
    ensures { OnOk result (links.new.items
        ≡ links.old.items ++ given typed.now function (argument_transfers typed.now (view_arguments all.now))) }
{
    for expr in all {
        expression(expr, function, typed, links)?;
    }
    Ok(())
}

fn optional(
    expr: &Option<Expr>,
    function: u32,
    typed: &Typed,
    links: &mut Vec<Link>,
) -> Result<(), AllocError>
    ensures { OnOk result (links.new.items ≡ links.old.items
        ++ given typed.now function (in_option (transfers typed.now) (view_option view_expr expr.now))) }
{
    match expr {
        None => Ok(()),
        Some(expr) => expression(expr, function, typed, links),
    }
}

fn right(
    right: &Right,
    function: u32,
    typed: &Typed,
    links: &mut Vec<Link>,
) -> Result<(), AllocError>
    ensures { OnOk result (links.new.items
        ≡ links.old.items ++ given typed.now function (right_transfers typed.now (view_right right.now))) }
{
    match right {
        Right::Value(expr) => expression(expr, function, typed, links),
        Right::Malloc(_, count, _) => optional(count, function, typed, links),
    }
}

#[tactic(auto, using(crate::proofs::LinkLemmas::given_both))]
fn simple(
    simple: &Simple,
    function: u32,
    typed: &Typed,
    links: &mut Vec<Link>,
) -> Result<(), AllocError>
    ensures { OnOk result (links.new.items
        ≡ links.old.items ++ given typed.now function (simple_transfers typed.now (view_simple simple.now))) }
{
    match simple {
        Simple::Assign(_, place, value) => {
            equate(typed, row_of(typed, place), source_row(typed, value), links)?;
            expression(place, function, typed, links)?;
            right(value, function, typed, links)
        }
        Simple::Call(call) => expression(call, function, typed, links),
    }
}

/// Adds the links of an initialiser.
#[tactic(auto, using(crate::proofs::LinkLemmas::given_both))]
fn local(
    local: &Local,
    function: u32,
    typed: &Typed,
    links: &mut Vec<Link>,
) -> Result<(), AllocError>
    ensures { OnOk result (links.new.items
        ≡ links.old.items ++ given typed.now function (local_transfers typed.now (view_local local.now))) }
{
    match &local.initial {
        None => Ok(()),
        Some(value) => {
            let row = declared_row(
                typed,
                PathReading::Written,
                local.declaration.name.site.token,
            );
            equate(typed, Some(row), source_row(typed, value), links)?;
            right(value, function, typed, links)
        }
    }
}

fn first(
    first: &ForFirst,
    function: u32,
    typed: &Typed,
    links: &mut Vec<Link>,
) -> Result<(), AllocError>
    ensures { OnOk result (links.new.items
        ≡ links.old.items ++ given typed.now function (first_transfers typed.now (view_first first.now))) }
{
    match first {
        ForFirst::Nothing => Ok(()),
        ForFirst::Declares(declared) => local(declared, function, typed, links),
        ForFirst::Does(x) => simple(x, function, typed, links),
    }
}

fn step(
    step: &Option<Simple>,
    function: u32,
    typed: &Typed,
    links: &mut Vec<Link>,
) -> Result<(), AllocError>
    ensures { OnOk result (links.new.items ≡ links.old.items
        ++ given typed.now function (in_option (simple_transfers typed.now) (view_option view_simple step.now))) }
{
    match step {
        None => Ok(()),
        Some(x) => simple(x, function, typed, links),
    }
}

/// Adds the links of a value that the function returns, whose result has this type.
#[tactic(auto, using(crate::proofs::LinkLemmas::given_both))]
fn returned(
    expr: &Option<Box<Expr>>,
    function: u32,
    returns: &WrittenType,
    typed: &Typed,
    links: &mut Vec<Link>,
) -> Result<(), AllocError>
    ensures { OnOk result (links.new.items ≡ links.old.items ++ given typed.now function
        (in_option (λ x. gives (result_receiver returns.now) (value x) ++ transfers typed.now x)
        (view_option (λ b. view_expr b.value) expr.now))) }
{
    match expr {
        None => Ok(()),
        Some(expr) => {
            let row = declared_row(typed, PathReading::Written, function);
            equate(typed, Some(row), row_of(typed, expr), links)?;
            expression(expr, function, typed, links)
        }
    }
}

/// Adds the links of the head of a `for`.
#[tactic(auto, using(crate::proofs::LinkLemmas::given_both))]
fn head(
    head: &ForHead,
    function: u32,
    typed: &Typed,
    links: &mut Vec<Link>,
) -> Result<(), AllocError>
    ensures { OnOk result (links.new.items ≡ links.old.items ++ given typed.now function (first_transfers typed.now
        (view_head head.now).first ++ in_option (transfers typed.now) (view_head head.now).test
        ++ in_option (simple_transfers typed.now) (view_head head.now).step)) }
{
    first(&head.first, function, typed, links)?;
    optional(&head.test, function, typed, links)?;
    step(&head.step, function, typed, links)
}

/// Adds the links of a statement of a function whose result has this type.
#[cycle(statement)]
#[tactic(auto, using(crate::proofs::LinkLemmas::given_both))]
fn statement(
    stmt: &Stmt,
    function: u32,
    returns: &WrittenType,
    typed: &Typed,
    links: &mut Vec<Link>,
) -> Result<(), AllocError>
    ensures { OnOk result (links.new.items ≡ links.old.items
        ++ given typed.now function (statement_transfers typed.now returns.now (view_stmt stmt.now))) }
{
    match stmt {
        Stmt::Empty(_) => Ok(()),
        Stmt::Block(_, all) => statements(all.as_slice(), function, returns, typed, links),
        Stmt::Declare(_, declared) => local(declared, function, typed, links),
        Stmt::Simple(_, x) => simple(x, function, typed, links),
        Stmt::Jump(_, _) => Ok(()),
        Stmt::Return(_, value) => returned(value, function, returns, typed, links),
        Stmt::If(_, test, then) => {
            expression(test, function, typed, links)?;
            statement(then, function, returns, typed, links)
        }
        Stmt::IfElse {
            test,
            then,
            otherwise,
            ..
        } => {
            expression(test, function, typed, links)?;
            statement(then, function, returns, typed, links)?;
            statement(otherwise, function, returns, typed, links)
        }
        Stmt::While(_, test, body) => {
            expression(test, function, typed, links)?;
            statement(body, function, returns, typed, links)
        }
        Stmt::For(_, parts, body) => {
            head(parts, function, typed, links)?;
            statement(body, function, returns, typed, links)
        }
    }
}

/// The same of statements that follow one another.
#[cycle(statement)]
#[tactic(auto, using(crate::proofs::LinkLemmas::given_both))]
pub(crate) fn statements(
    all: &[Stmt],
    function: u32,
    returns: &WrittenType,
    typed: &Typed,
    links: &mut Vec<Link>,
) -> Result<(), AllocError>
    ensures { OnOk result (links.new.items ≡ links.old.items
        ++ given typed.now function (statements_transfers typed.now returns.now (view_statements all.now))) }
{
    for stmt in all {
        statement(stmt, function, returns, typed, links)?;
    }
    Ok(())
}
