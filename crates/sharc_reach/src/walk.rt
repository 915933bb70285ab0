// The names in expressions, statements and functions: one walk over a program.

ghost use Rattle.std.specs.Prelude.{◌≡◌, ◌++◌, IfOk, OnOk};
ghost use Rattle.sharc_tree.specs.View.{view_expr, view_arguments, view_option, view_right, view_simple, view_local};
ghost use Rattle.sharc_tree.specs.View.{view_first, view_head, view_stmt, view_statements, view_function};
ghost use Rattle.sharc_ctype.specs.Resolved.{function_at};
ghost use Rattle.sharc_reach.specs.Mentions.{mentions, mentions_of_all, option_mentions, right_mentions};
ghost use Rattle.sharc_reach.specs.Mentions.{simple_mentions, local_mentions, first_mentions, head_mentions};
ghost use Rattle.sharc_reach.specs.Mentions.{statement_mentions, statements_mentions, function_mentions, mentions_in};
ghost use Rattle.sharc_reach.specs.Mentions.{mentions_below};

use crate::mention::{Mention, NameUse};
use crate::names::{add, declaration, declarations, type_names};
use sharc_ctype::typed::Typed;
use sharc_tree::tree::{Expr, ForFirst, ForHead, FunctionDefinition, Local, Right, Simple, Stmt};
use std::alloc::{AllocError, Global};

/// Adds the names of an expression of the function with this number.
#[cycle(expression)]
fn expression(expr: &Expr, function: u32, list: &mut Vec<Mention>) -> Result<(), AllocError>
    ensures { OnOk result (list.new.items ≡ list.old.items ++ mentions function (view_expr expr.now)) }
{
    match expr {
        Expr::Identifier(_, name) => add(function, name.site.token, NameUse::Named, list),
        Expr::Constant(_, _) => Ok(()),
        Expr::Parentheses(_, inner) => expression(inner, function, list),
        Expr::Call(_, name, all) => {
            add(function, name.site.token, NameUse::Called, list)?;
            arguments(all.as_slice(), function, list)
        }
        Expr::Spawn(_, name, argument) => {
            add(function, name.site.token, NameUse::Spawned, list)?;
            expression(argument, function, list)
        }
        Expr::OnValue(_, _, argument) => expression(argument, function, list),
        Expr::OnPlace(_, _, argument) => expression(argument, function, list),
        Expr::Cast(_, to, source) => {
            type_names(function, to, list)?;
            expression(source, function, list)
        }
        Expr::Index(_, base, index) => {
            expression(base, function, list)?;
            expression(index, function, list)
        }
        Expr::Field { base, name, .. } => {
            expression(base, function, list)?;
            add(function, name.site.token, NameUse::Named, list)
        }
        Expr::Unary(_, _, operand) => expression(operand, function, list),
        Expr::Binary { left, right, .. } => {
            expression(left, function, list)?;
            expression(right, function, list)
        }
    }
}

/// Adds the names of the arguments of a call.
#[cycle(expression)]
fn arguments(all: &[Expr], function: u32, list: &mut Vec<Mention>) -> Result<(), AllocError>
    ensures { OnOk result (list.new.items ≡ list.old.items ++ mentions_of_all function (view_arguments all.now)) }
{
    for expr in all {
        expression(expr, function, list)?;
    }
    Ok(())
}

fn optional(expr: &Option<Expr>, function: u32, list: &mut Vec<Mention>) -> Result<(), AllocError>
    ensures { OnOk result (list.new.items
        ≡ list.old.items ++ option_mentions (mentions function) (view_option view_expr expr.now)) }
{
    match expr {
        None => Ok(()),
        Some(expr) => expression(expr, function, list),
    }
}

fn right(right: &Right, function: u32, list: &mut Vec<Mention>) -> Result<(), AllocError>
    ensures { OnOk result (list.new.items ≡ list.old.items ++ right_mentions function (view_right right.now)) }
{
    match right {
        Right::Value(expr) => expression(expr, function, list),
        Right::Malloc(_, count, written) => {
            optional(count, function, list)?;
            type_names(function, written, list)
        }
    }
}

fn simple(simple: &Simple, function: u32, list: &mut Vec<Mention>) -> Result<(), AllocError>
    ensures { OnOk result (list.new.items ≡ list.old.items ++ simple_mentions function (view_simple simple.now)) }
{
    match simple {
        Simple::Assign(_, place, value) => {
            expression(place, function, list)?;
            right(value, function, list)
        }
        Simple::Call(call) => expression(call, function, list),
    }
}

fn initial(value: &Option<Right>, function: u32, list: &mut Vec<Mention>) -> Result<(), AllocError>
    ensures { OnOk result (list.new.items
        ≡ list.old.items ++ option_mentions (right_mentions function) (view_option view_right value.now)) }
{
    match value {
        None => Ok(()),
        Some(value) => right(value, function, list),
    }
}

fn local(local: &Local, function: u32, list: &mut Vec<Mention>) -> Result<(), AllocError>
    ensures { OnOk result (list.new.items ≡ list.old.items ++ local_mentions function (view_local local.now)) }
{
    declaration(function, &local.declaration, list)?;
    initial(&local.initial, function, list)
}

fn first(first: &ForFirst, function: u32, list: &mut Vec<Mention>) -> Result<(), AllocError>
    ensures { OnOk result (list.new.items ≡ list.old.items ++ first_mentions function (view_first first.now)) }
{
    match first {
        ForFirst::Nothing => Ok(()),
        ForFirst::Declares(declared) => local(declared, function, list),
        ForFirst::Does(x) => simple(x, function, list),
    }
}

fn step(step: &Option<Simple>, function: u32, list: &mut Vec<Mention>) -> Result<(), AllocError>
    ensures { OnOk result (list.new.items
        ≡ list.old.items ++ option_mentions (simple_mentions function) (view_option view_simple step.now)) }
{
    match step {
        None => Ok(()),
        Some(x) => simple(x, function, list),
    }
}

fn head(head: &ForHead, function: u32, list: &mut Vec<Mention>) -> Result<(), AllocError>
    ensures { OnOk result (list.new.items ≡ list.old.items ++ head_mentions function (view_head head.now)) }
{
    first(&head.first, function, list)?;
    optional(&head.test, function, list)?;
    step(&head.step, function, list)
}

fn returned(
    value: &Option<Box<Expr>>,
    function: u32,
    list: &mut Vec<Mention>,
) -> Result<(), AllocError>
    ensures { OnOk result (list.new.items
        ≡ list.old.items ++ option_mentions (mentions function) (view_option (λ b. view_expr b.value) value.now)) }
{
    match value {
        None => Ok(()),
        Some(expr) => expression(expr, function, list),
    }
}

/// Adds the names of a statement.
#[cycle(statement)]
fn statement(stmt: &Stmt, function: u32, list: &mut Vec<Mention>) -> Result<(), AllocError>
    ensures { OnOk result (list.new.items ≡ list.old.items ++ statement_mentions function (view_stmt stmt.now)) }
{
    match stmt {
        Stmt::Empty(_) => Ok(()),
        Stmt::Block(_, all) => statements(all.as_slice(), function, list),
        Stmt::Declare(_, declared) => local(declared, function, list),
        Stmt::Simple(_, x) => simple(x, function, list),
        Stmt::Jump(_, _) => Ok(()),
        Stmt::Return(_, value) => returned(value, function, list),
        Stmt::If(_, test, then) => {
            expression(test, function, list)?;
            statement(then, function, list)
        }
        Stmt::IfElse {
            test,
            then,
            otherwise,
            ..
        } => {
            expression(test, function, list)?;
            statement(then, function, list)?;
            statement(otherwise, function, list)
        }
        Stmt::While(_, test, body) => {
            expression(test, function, list)?;
            statement(body, function, list)
        }
        Stmt::For(_, parts, body) => {
            head(parts, function, list)?;
            statement(body, function, list)
        }
    }
}

/// Adds the names of statements that follow one another.
#[cycle(statement)]
fn statements(all: &[Stmt], function: u32, list: &mut Vec<Mention>) -> Result<(), AllocError>
    ensures { OnOk result (list.new.items ≡ list.old.items ++ statements_mentions function (view_statements all.now)) }
{
    for stmt in all {
        statement(stmt, function, list)?;
    }
    Ok(())
}

/// Adds the names of a function, those in its result and its parameters among them.
fn definition(
    of: &FunctionDefinition,
    function: u32,
    list: &mut Vec<Mention>,
) -> Result<(), AllocError>
    ensures { OnOk result (list.new.items ≡ list.old.items ++ function_mentions function (view_function of.now)) }
{
    type_names(function, &of.result, list)?;
    add(function, of.name.site.token, NameUse::Named, list)?;
    declarations(function, of.parameters.as_slice(), list)?;
    statements(of.statements.as_slice(), function, list)
}

/// Adds the names of the function with this number.
fn numbered(typed: &Typed, function: u32, list: &mut Vec<Mention>) -> Result<(), AllocError>
    ensures { OnOk result (list.new.items ≡ list.old.items ++ mentions_in function (function_at typed.now function)) }
{
    match typed.function_at(function) {
        None => Ok(()),
        Some(of) => definition(of, function, list),
    }
}

/// The names in the functions of a program, in source order.
pub(crate) fn all_mentions(
    alloc: Global,
    typed: &Typed,
    count: u32,
) -> Result<Vec<Mention>, AllocError>
    ensures { IfOk result (λ list. list.items ≡ mentions_below typed.now count) }
{
    let mut list = Vec::new(alloc);
    for function in 0..count {
        numbered(typed, function, &mut list)?;
    }
    Ok(list)
}
