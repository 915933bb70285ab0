// Copies of items and programs.

ghost use Rattle.std.specs.Prelude.{◌≡◌, IfOk};
ghost use Rattle.sharc_tree.specs.View.{view_function, view_item, view_items, view_program};

use crate::copy::statement::copy_statements;
use crate::held::both;
use crate::tree::{FunctionDefinition, Item, Items, Program};
use std::alloc::{AllocError, Global};

/// A function once more.
pub fn copy_function(
    alloc: Global,
    function: &FunctionDefinition,
) -> Result<FunctionDefinition, AllocError>
    ensures { IfOk result (λ f. view_function f ≡ view_function function.now) }
{
    let result = function.result.copy(alloc)?;
    let (result, name) = both(result, function.name.copy(alloc))?;
    let (named, parameters) = both((result, name), function.parameters.copy(alloc))?;
    let (head, statements) = both(
        (named, parameters),
        copy_statements(alloc, &function.statements),
    )?;
    let ((result, name), parameters) = head;
    Ok(FunctionDefinition {
        span: function.span,
        result,
        name,
        parameters,
        body: function.body,
        statements,
    })
}

/// An item once more.
pub fn copy_item(alloc: Global, item: &Item) -> Result<Item, AllocError>
    ensures { IfOk result (λ i. view_item i ≡ view_item item.now) }
{
    match item {
        Item::Struct(definition) => Ok(Item::Struct(definition.copy(alloc)?)),
        Item::Global(definition) => Ok(Item::Global(definition.copy(alloc)?)),
        Item::Function(definition) => Ok(Item::Function(copy_function(alloc, definition)?)),
    }
}

fn copy_items(alloc: Global, items: &[Item]) -> Result<Vec<Item>, AllocError>
    ensures { IfOk result (λ v. view_items v.items ≡ view_items items.now) }
{
    let mut copied = Vec::with_capacity(alloc, items.len())?;
    for item in items {
        copied.push(copy_item(alloc, item)?)?;
    }
    Ok(copied)
}

impl Program {
    /// The same program once more.
    pub fn copy(&self, alloc: Global) -> Result<Self, AllocError>
        ensures { IfOk result (λ p. view_program p ≡ view_program self.now) }
    {
        let files = self.files.copy(alloc)?;
        let (files, items) = both(files, copy_items(alloc, self.items.as_slice()))?;
        let ((files, items), tokens) = both((files, items), self.tokens.copy(alloc))?;
        Ok(Program {
            files,
            items: Items::of(items),
            tokens,
        })
    }
}
