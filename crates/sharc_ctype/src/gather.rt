// The fields, parameters and locals of a program, in source order.

ghost use Rattle.std.specs.Prelude.{◌≡◌, ◌++◌, IfOk, OnOk};
ghost use Rattle.sharc_tree.specs.View.{view_first, view_item, view_items, view_stmt, view_statements, view_function};
ghost use Rattle.sharc_ctype.specs.Resolved.{declarations_of, declarations_in};
ghost use Rattle.sharc_ctype.specs.Statements.{first_locals, locals_in, locals_in_all};

use crate::declared::Declared;
use sharc_tree::tree::{Declaration, ForFirst, FunctionDefinition, Item, Stmt};
use std::alloc::{AllocError, Global};

/// Adds copies of these declarations.
fn add_all(alloc: Global, list: &[Declaration], declared: &mut Declared) -> Result<(), AllocError>
    ensures { OnOk result (declared.new ≡ declared.old ++ list.now) }
{
    for declaration in list {
        declared.add(declaration.copy(alloc)?)?;
    }
    Ok(())
}

fn add_first(alloc: Global, first: &ForFirst, declared: &mut Declared) -> Result<(), AllocError>
    ensures { OnOk result (declared.new ≡ declared.old ++ first_locals (view_first first.now)) }
{
    match first {
        ForFirst::Declares(local) => declared.add(local.declaration.copy(alloc)?),
        ForFirst::Nothing => Ok(()),
        ForFirst::Does(_) => Ok(()),
    }
}

/// Adds the locals of a statement.
#[cycle(add_locals)]
fn add_locals(stmt: &Stmt, alloc: Global, declared: &mut Declared) -> Result<(), AllocError>
    ensures { OnOk result (declared.new ≡ declared.old ++ locals_in (view_stmt stmt.now)) }
{
    match stmt {
        Stmt::Block(_, list) => add_all_locals(list.as_slice(), alloc, declared),
        Stmt::Declare(_, local) => declared.add(local.declaration.copy(alloc)?),
        Stmt::If(_, _, then) => add_locals(then, alloc, declared),
        Stmt::IfElse {
            then,
            otherwise,
            ..
        } => {
            add_locals(then, alloc, declared)?;
            add_locals(otherwise, alloc, declared)
        }
        Stmt::While(_, _, body) => add_locals(body, alloc, declared),
        Stmt::For(_, head, body) => {
            add_first(alloc, &head.first, declared)?;
            add_locals(body, alloc, declared)
        }
        Stmt::Empty(_) => Ok(()),
        Stmt::Simple(_, _) => Ok(()),
        Stmt::Jump(_, _) => Ok(()),
        Stmt::Return(_, _) => Ok(()),
    }
}

/// Adds the locals of statements that follow one another.
#[cycle(add_locals)]
fn add_all_locals(list: &[Stmt], alloc: Global, declared: &mut Declared) -> Result<(), AllocError>
    ensures { OnOk result (declared.new ≡ declared.old ++ locals_in_all (view_statements list.now)) }
{
    for stmt in list {
        add_locals(stmt, alloc, declared)?;
    }
    Ok(())
}

/// Adds the parameters and the locals of a function.
fn add_function(
    alloc: Global,
    function: &FunctionDefinition,
    declared: &mut Declared,
) -> Result<(), AllocError>
    ensures { OnOk result (declared.new
        ≡ declared.old ++ (function.now.parameters ++ locals_in_all (view_statements function.now.statements.items))) }
{
    add_all(alloc, function.parameters.as_slice(), declared)?;
    add_all_locals(function.statements.as_slice(), alloc, declared)
}

fn add_item(alloc: Global, item: &Item, declared: &mut Declared) -> Result<(), AllocError>
    ensures { OnOk result (declared.new ≡ declared.old ++ declarations_of (view_item item.now)) }
{
    match item {
        Item::Struct(definition) => add_all(alloc, definition.fields.as_slice(), declared),
        Item::Global(_) => Ok(()),
        Item::Function(definition) => add_function(alloc, definition, declared),
    }
}

/// The fields, parameters and locals of these items, copied.
pub(crate) fn declarations_in(alloc: Global, items: &[Item]) -> Result<Declared, AllocError>
    ensures { IfOk result (λ d. d ≡ declarations_in (view_items items.now)) }
{
    let mut declared = Declared::new(alloc);
    for item in items {
        add_item(alloc, item, &mut declared)?;
    }
    Ok(declared)
}
