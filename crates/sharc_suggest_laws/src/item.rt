// Items and programs with a cast written in them.

ghost use Rattle.std.specs.Prelude.{◌≡◌, map, IfOk};
ghost use Rattle.sharc_tree.specs.View.{view_function, view_item, view_items, view_program};
ghost use Rattle.sharc_suggest_laws.specs.Recast.{function_with_cast, item_with_cast, program_with_cast};

use crate::statement::statements;
use crate::written::{Recast, Rewritten};
use sharc_tree::held::both;
use sharc_tree::tree::{FunctionDefinition, Item, Items, Program};
use std::alloc::{AllocError, Global};

fn function(
    alloc: Global,
    c: &Recast,
    function: &FunctionDefinition,
) -> Rewritten<FunctionDefinition>
    ensures { IfOk result (λ f. view_function f ≡ function_with_cast c.now (view_function function.now)) }
{
    let result = function.result.copy(alloc)?;
    let (result, name) = both(result, function.name.copy(alloc))?;
    let (named, parameters) = both((result, name), function.parameters.copy(alloc))?;
    let (head, statements) = both(
        (named, parameters),
        statements(alloc, c, &function.statements),
    )?;
    let ((result, name), parameters) = head;
    Ok(FunctionDefinition {
        span: function.span,
        result,
        name,
        parameters,
        body: function.body,
        statements,
    })
}

fn item(alloc: Global, c: &Recast, item: &Item) -> Rewritten<Item>
    ensures { IfOk result (λ i. view_item i ≡ item_with_cast c.now (view_item item.now)) }
{
    match item {
        Item::Struct(definition) => Ok(Item::Struct(definition.copy(alloc)?)),
        Item::Global(definition) => Ok(Item::Global(definition.copy(alloc)?)),
        Item::Function(definition) => Ok(Item::Function(function(alloc, c, definition)?)),
    }
}

fn items(alloc: Global, c: &Recast, list: &[Item]) -> Rewritten<Vec<Item>>
    ensures { IfOk result (λ v. view_items v.items ≡ map (item_with_cast c.now) (view_items list.now)) }
{
    let mut written = Vec::with_capacity(alloc, list.len())?;
    for one in list {
        written.push(item(alloc, c, one)?)?;
    }
    Ok(written)
}

impl Recast {
    /// A program with the cast written where an expression of its tokens is passed, assigned or returned, or
    /// initialises a local.
    pub fn program(&self, alloc: Global, program: &Program) -> Result<Program, AllocError>
        ensures { IfOk result (λ p. view_program p ≡ program_with_cast self.now (view_program program.now)) }
    {
        let files = program.files.copy(alloc)?;
        let (files, items) = both(files, items(alloc, self, program.items.as_slice()))?;
        let ((files, items), tokens) = both((files, items), program.tokens.copy(alloc))?;
        Ok(Program {
            files,
            items: Items::of(items),
            tokens,
        })
    }
}
