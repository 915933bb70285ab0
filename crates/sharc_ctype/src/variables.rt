// The variables that begin with a value, and those that are assigned.

ghost use Rattle.std.specs.Prelude.{◌≡◌, ◌++◌, map, slice_index_or, IfOk, OnOk};
ghost use Rattle.sharc_names.specs.declared.fault.Named.TheVariants.{Known};
ghost use Rattle.sharc_tree.specs.View.{view_first, view_item, view_items, view_local, view_option, view_simple};
ghost use Rattle.sharc_tree.specs.View.{view_stmt, view_statements};
ghost use Rattle.sharc_ctype.specs.Variables.{variable, initialised, initialised_first, initialised_in};
ghost use Rattle.sharc_ctype.specs.Variables.{initialised_in_all, assigned, assigned_first, assigned_step, assigned_in};
ghost use Rattle.sharc_ctype.specs.Variables.{assigned_in_all, with_value, assigned_by, all_with_value, all_assigned};

use sharc_names::fault::Named;
use sharc_tree::tree::{Declaration, Expr, ForFirst, Item, Local, Simple, Stmt};
use std::alloc::{AllocError, Global};

/// The tokens that declare variables: those that begin with a value, and those that are assigned.
#[derive(Drop)]
pub(crate) struct Variables {
    pub(crate) initialised: Vec<u32>,
    pub(crate) assigned: Vec<u32>,
}

/// Adds the local where it has an initialiser.
fn add_local(local: &Local, tokens: &mut Vec<u32>) -> Result<(), AllocError>
    ensures { OnOk result (tokens.new.items ≡ tokens.old.items ++ initialised (view_local local.now)) }
{
    if local.initial.is_some() {
        tokens.push(local.declaration.name.site.token)?;
    }
    Ok(())
}

/// Adds the parameters.
fn add_parameters(parameters: &[Declaration], tokens: &mut Vec<u32>) -> Result<(), AllocError>
    ensures { OnOk result (tokens.new.items ≡ tokens.old.items ++ map (λ d. d.name.site.token) parameters.now) }
{
    for parameter in parameters {
        tokens.push(parameter.name.site.token)?;
    }
    Ok(())
}

/// Adds what is named, where it is a variable.
fn add_variable(named: Named, tokens: &mut Vec<u32>) -> Result<(), AllocError>
    ensures { OnOk result (tokens.new.items ≡ tokens.old.items ++ variable named) }
{
    if let Named::Variable(token) = named {
        tokens.push(token)?;
    }
    Ok(())
}

/// What the token with this number names.
fn named_at(names: &[Named], token: u32) -> Named
    ensures { result ≡ slice_index_or names.now token Known }
{
    match names.get(token as usize) {
        Some(named) => *named,
        None => Named::Known,
    }
}

/// Adds the variable that an assignment has as its left side.
fn add_assigned(names: &[Named], simple: &Simple, tokens: &mut Vec<u32>) -> Result<(), AllocError>
    ensures { OnOk result (tokens.new.items ≡ tokens.old.items ++ assigned names.now (view_simple simple.now)) }
{
    let Simple::Assign(_, left, _) = simple else {
        return Ok(());
    };
    match left.without_parentheses() {
        Expr::Identifier(_, name) => add_variable(named_at(names, name.site.token), tokens),
        _ => Ok(()),
    }
}

/// Adds the variables of what comes first in the head of a `for`.
fn add_first(names: &[Named], first: &ForFirst, variables: &mut Variables) -> Result<(), AllocError>
    ensures initialised { OnOk result (variables.new.initialised.items
        ≡ variables.old.initialised.items ++ initialised_first (view_first first.now)) }
    ensures assigned { OnOk result (variables.new.assigned.items
        ≡ variables.old.assigned.items ++ assigned_first names.now (view_first first.now)) }
{
    match first {
        ForFirst::Nothing => Ok(()),
        ForFirst::Declares(local) => add_local(local, &mut variables.initialised),
        ForFirst::Does(simple) => add_assigned(names, simple, &mut variables.assigned),
    }
}

/// Adds the variables that the step of a `for` assigns.
fn add_step(names: &[Named], step: &Option<Simple>, tokens: &mut Vec<u32>) -> Result<(), AllocError>
    ensures { OnOk result (tokens.new.items
        ≡ tokens.old.items ++ assigned_step names.now (view_option view_simple step.now)) }
{
    match step {
        None => Ok(()),
        Some(simple) => add_assigned(names, simple, tokens),
    }
}

/// Adds the variables of a statement.
#[cycle(add_variables)]
fn add_variables(stmt: &Stmt, names: &[Named], variables: &mut Variables) -> Result<(), AllocError>
    ensures initialised { OnOk result (variables.new.initialised.items
        ≡ variables.old.initialised.items ++ initialised_in (view_stmt stmt.now)) }
    ensures assigned { OnOk result (variables.new.assigned.items
        ≡ variables.old.assigned.items ++ assigned_in names.now (view_stmt stmt.now)) }
{
    match stmt {
        Stmt::Block(_, list) => add_all_variables(list.as_slice(), names, variables),
        Stmt::Declare(_, local) => add_local(local, &mut variables.initialised),
        Stmt::Simple(_, simple) => add_assigned(names, simple, &mut variables.assigned),
        Stmt::If(_, _, then) => add_variables(then, names, variables),
        Stmt::IfElse {
            then,
            otherwise,
            ..
        } => {
            add_variables(then, names, variables)?;
            add_variables(otherwise, names, variables)
        }
        Stmt::While(_, _, body) => add_variables(body, names, variables),
        Stmt::For(_, head, body) => {
            add_first(names, &head.first, variables)?;
            add_step(names, &head.step, &mut variables.assigned)?;
            add_variables(body, names, variables)
        }
        Stmt::Empty(_) => Ok(()),
        Stmt::Jump(_, _) => Ok(()),
        Stmt::Return(_, _) => Ok(()),
    }
}

/// Adds the variables of statements that follow one another.
#[cycle(add_variables)]
fn add_all_variables(
    list: &[Stmt],
    names: &[Named],
    variables: &mut Variables,
) -> Result<(), AllocError>
    ensures initialised { OnOk result (variables.new.initialised.items
        ≡ variables.old.initialised.items ++ initialised_in_all (view_statements list.now)) }
    ensures assigned { OnOk result (variables.new.assigned.items
        ≡ variables.old.assigned.items ++ assigned_in_all names.now (view_statements list.now)) }
{
    for stmt in list {
        add_variables(stmt, names, variables)?;
    }
    Ok(())
}

/// Adds the variables of an item.
fn add_item(names: &[Named], item: &Item, variables: &mut Variables) -> Result<(), AllocError>
    ensures initialised { OnOk result (variables.new.initialised.items
        ≡ variables.old.initialised.items ++ with_value (view_item item.now)) }
    ensures assigned { OnOk result (variables.new.assigned.items
        ≡ variables.old.assigned.items ++ assigned_by names.now (view_item item.now)) }
{
    let Item::Function(function) = item else {
        return Ok(());
    };
    add_parameters(function.parameters.as_slice(), &mut variables.initialised)?;
    add_all_variables(function.statements.as_slice(), names, variables)
}

/// The variables of these items.
pub(crate) fn variables_in(
    alloc: Global,
    names: &[Named],
    items: &[Item],
) -> Result<Variables, AllocError>
    ensures initialised { IfOk result (λ v. v.initialised.items ≡ all_with_value (view_items items.now)) }
    ensures assigned { IfOk result (λ v. v.assigned.items ≡ all_assigned names.now (view_items items.now)) }
{
    let mut variables = Variables {
        initialised: Vec::new(alloc),
        assigned: Vec::new(alloc),
    };
    for item in items {
        add_item(names, item, &mut variables)?;
    }
    Ok(variables)
}
