// The entities of a program, in source order.

ghost use Rattle.std.specs.Prelude.{◌≡◌, ◌++◌, map, IfOk, OnOk};
ghost use Rattle.sharc_names.specs.declared.types.Role.TheVariants as role;
ghost use Rattle.sharc_tree.specs.Measures.{expressions, in_option, in_simple, in_local};
ghost use Rattle.sharc_tree.specs.View.{view_expr, view_first, view_function, view_head, view_item, view_items};
ghost use Rattle.sharc_tree.specs.View.{view_local, view_option, view_simple, view_stmt, view_statements};
ghost use Rattle.sharc_ctype.specs.Entities.{declared, casts, local_entities, first_entities, head_entities};
ghost use Rattle.sharc_ctype.specs.Entities.{statement_entities, statements_entities, result_of, function_entities};
ghost use Rattle.sharc_ctype.specs.Entities.{item_entities, entities_in};

use crate::casts::{add_casts, add_right, add_simple};
use crate::entities::Entities;
use crate::entity::Entity;
use sharc_names::types::Role;
use sharc_tree::tree::{
    Declaration, Expr, ForFirst, ForHead, FunctionDefinition, Item, Local, Simple, Stmt,
};
use std::alloc::{AllocError, Global};

/// What a declaration declares.
fn declared(alloc: Global, role: Role, declaration: &Declaration) -> Result<Entity, AllocError>
    ensures { IfOk result (λ e. e ≡ declared role declaration.now) }
{
    let token = declaration.name.site.token;
    let written = declaration.written.copy(alloc)?;
    Ok(Entity {
        role,
        token,
        last: token,
        written,
    })
}

/// Adds what these declarations declare.
fn add_declared(
    alloc: Global,
    role: Role,
    list: &[Declaration],
    entities: &mut Entities,
) -> Result<(), AllocError>
    ensures { OnOk result (entities.new ≡ entities.old ++ map (declared role) list.now) }
{
    for declaration in list {
        entities.add(declared(alloc, role, declaration)?)?;
    }
    Ok(())
}

/// Adds a local and the casts of its initialiser.
fn add_local(alloc: Global, local: &Local, entities: &mut Entities) -> Result<(), AllocError>
    ensures { OnOk result (entities.new ≡ entities.old ++ local_entities (view_local local.now)) }
{
    entities.add(declared(alloc, Role::Local, &local.declaration)?)?;
    match &local.initial {
        None => Ok(()),
        Some(right) => add_right(right, alloc, entities),
    }
}

/// Adds the casts of an expression, if there is one.
fn add_option(alloc: Global, expr: &Option<Expr>, entities: &mut Entities) -> Result<(), AllocError>
    ensures { OnOk result (entities.new
        ≡ entities.old ++ casts (in_option expressions (view_option view_expr expr.now))) }
{
    match expr {
        None => Ok(()),
        Some(expr) => add_casts(expr, alloc, entities),
    }
}

/// Adds the casts of the step of a `for`.
fn add_step(alloc: Global, step: &Option<Simple>, entities: &mut Entities) -> Result<(), AllocError>
    ensures { OnOk result (entities.new
        ≡ entities.old ++ casts (in_option in_simple (view_option view_simple step.now))) }
{
    match step {
        None => Ok(()),
        Some(simple) => add_simple(simple, alloc, entities),
    }
}

/// Adds the casts of what is returned.
fn add_returned(
    alloc: Global,
    value: &Option<Box<Expr>>,
    entities: &mut Entities,
) -> Result<(), AllocError>
    ensures { OnOk result (entities.new
        ≡ entities.old ++ casts (in_option expressions (view_option (λ b. view_expr b.value) value.now))) }
{
    match value {
        None => Ok(()),
        Some(expr) => add_casts(expr, alloc, entities),
    }
}

fn add_first(alloc: Global, first: &ForFirst, entities: &mut Entities) -> Result<(), AllocError>
    ensures { OnOk result (entities.new ≡ entities.old ++ first_entities (view_first first.now)) }
{
    match first {
        ForFirst::Nothing => Ok(()),
        ForFirst::Declares(local) => add_local(alloc, local, entities),
        ForFirst::Does(simple) => add_simple(simple, alloc, entities),
    }
}

/// Adds the entities of the head of a `for`.
fn add_head(alloc: Global, head: &ForHead, entities: &mut Entities) -> Result<(), AllocError>
    ensures { OnOk result (entities.new ≡ entities.old ++ head_entities (view_head head.now)) }
{
    add_first(alloc, &head.first, entities)?;
    add_option(alloc, &head.test, entities)?;
    add_step(alloc, &head.step, entities)
}

/// Adds the entities of a statement.
#[cycle(add_statement)]
fn add_statement(stmt: &Stmt, alloc: Global, entities: &mut Entities) -> Result<(), AllocError>
    ensures { OnOk result (entities.new ≡ entities.old ++ statement_entities (view_stmt stmt.now)) }
{
    match stmt {
        Stmt::Empty(_) => Ok(()),
        Stmt::Block(_, list) => add_statements(list.as_slice(), alloc, entities),
        Stmt::Declare(_, local) => add_local(alloc, local, entities),
        Stmt::Simple(_, simple) => add_simple(simple, alloc, entities),
        Stmt::Jump(_, _) => Ok(()),
        Stmt::Return(_, value) => add_returned(alloc, value, entities),
        Stmt::If(_, test, then) => {
            add_casts(test, alloc, entities)?;
            add_statement(then, alloc, entities)
        }
        Stmt::IfElse {
            test,
            then,
            otherwise,
            ..
        } => {
            add_casts(test, alloc, entities)?;
            add_statement(then, alloc, entities)?;
            add_statement(otherwise, alloc, entities)
        }
        Stmt::While(_, test, body) => {
            add_casts(test, alloc, entities)?;
            add_statement(body, alloc, entities)
        }
        Stmt::For(_, head, body) => {
            add_head(alloc, head, entities)?;
            add_statement(body, alloc, entities)
        }
    }
}

/// Adds the entities of statements that follow one another.
#[cycle(add_statement)]
fn add_statements(list: &[Stmt], alloc: Global, entities: &mut Entities) -> Result<(), AllocError>
    ensures { OnOk result (entities.new ≡ entities.old ++ statements_entities (view_statements list.now)) }
{
    for stmt in list {
        add_statement(stmt, alloc, entities)?;
    }
    Ok(())
}

/// The result of a function.
fn result_of(alloc: Global, function: &FunctionDefinition) -> Result<Entity, AllocError>
    ensures { IfOk result (λ e. e ≡ result_of (view_function function.now)) }
{
    let token = function.name.site.token;
    let written = function.result.copy(alloc)?;
    Ok(Entity {
        role: Role::Result,
        token,
        last: token,
        written,
    })
}

/// Adds the result, the parameters, the locals and the casts of a function.
fn add_function(
    alloc: Global,
    function: &FunctionDefinition,
    entities: &mut Entities,
) -> Result<(), AllocError>
    ensures { OnOk result (entities.new ≡ entities.old ++ function_entities (view_function function.now)) }
{
    entities.add(result_of(alloc, function)?)?;
    add_declared(
        alloc,
        Role::Parameter,
        function.parameters.as_slice(),
        entities,
    )?;
    add_statements(function.statements.as_slice(), alloc, entities)
}

fn add_item(alloc: Global, item: &Item, entities: &mut Entities) -> Result<(), AllocError>
    ensures { OnOk result (entities.new ≡ entities.old ++ item_entities (view_item item.now)) }
{
    match item {
        Item::Struct(definition) => {
            add_declared(alloc, Role::Field, definition.fields.as_slice(), entities)
        }
        Item::Global(definition) => {
            entities.add(declared(alloc, Role::Global, &definition.declaration)?)
        }
        Item::Function(definition) => add_function(alloc, definition, entities),
    }
}

/// The entities of these items.
pub(crate) fn entities_in(alloc: Global, items: &[Item]) -> Result<Entities, AllocError>
    ensures { IfOk result (λ e. e ≡ entities_in (view_items items.now)) }
{
    let mut entities = Entities::new(alloc);
    for item in items {
        add_item(alloc, item, &mut entities)?;
    }
    Ok(entities)
}
