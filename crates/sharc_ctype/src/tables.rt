// The tables of a typed program, by which each look-up takes one step.

ghost use Rattle.std.specs.{Prelude.{◌≡◌, IfOk, slice_get}, Option.{option_copied, option_map, option_and_then}};
ghost use Rattle.sharc_tree.specs.View.{view_item, view_items, view_function};
ghost use Rattle.sharc_ctype.specs.Tables.{has_form, places_of, as_structure, as_global, as_function, AreTables};

use crate::collect::entities_in;
use crate::constants::constants_in;
use crate::declared::Declared;
use crate::entities::Entities;
use crate::gather::declarations_in;
use indexmap::IndexSet;
use sharc_names::fault::Named;
use sharc_tree::tree::{FunctionDefinition, GlobalDefinition, Item, StructDefinition};
use std::alloc::{AllocError, Global};

/// What an item defines.
#[derive(Clone, Copy)]
pub(crate) enum ItemForm {
    Struct,
    Global,
    Function,
}

/// Where the structs, globals and functions are among the items, each at its number; all other declarations; what has a
/// type with modes; and the tokens that declare constant variables.
#[derive(Drop)]
pub(crate) struct Tables {
    pub(crate) structs: Vec<usize>,
    pub(crate) globals: Vec<usize>,
    pub(crate) functions: Vec<usize>,
    pub(crate) declared: Declared,
    pub(crate) entities: Entities,
    pub(crate) constants: IndexSet<u32>,
}

fn has_form(form: ItemForm, item: &Item) -> bool
    ensures { result ≡ has_form form (view_item item.now) }
{
    match (form, item) {
        (ItemForm::Struct, Item::Struct(_)) => true,
        (ItemForm::Global, Item::Global(_)) => true,
        (ItemForm::Function, Item::Function(_)) => true,
        _ => false,
    }
}

/// The places of the items of one form.
fn places_of(alloc: Global, form: ItemForm, items: &[Item]) -> Result<Vec<usize>, AllocError>
    ensures { IfOk result (λ v. v.items ≡ places_of form 0 (view_items items.now)) }
{
    let mut places = Vec::new(alloc);
    for i in 0..items.len() {
        if has_form(form, &items[i]) {
            places.push(i)?;
        }
    }
    Ok(places)
}

impl Tables {
    /// The tables of a program with these items, whose tokens name this.
    pub(crate) fn of(alloc: Global, items: &[Item], names: &[Named]) -> Result<Self, AllocError>
        ensures { IfOk result (λ t. AreTables (view_items items.now) names.now t) }
    {
        let structs = places_of(alloc, ItemForm::Struct, items)?;
        let globals = places_of(alloc, ItemForm::Global, items)?;
        let functions = places_of(alloc, ItemForm::Function, items)?;
        let declared = declarations_in(alloc, items)?;
        let entities = entities_in(alloc, items)?;
        let constants = constants_in(alloc, names, items)?;
        Ok(Tables {
            structs,
            globals,
            functions,
            declared,
            entities,
            constants,
        })
    }
}

/// The item whose place has this number among such places.
pub(crate) fn item_at<'a>(items: &'a [Item], places: &[usize], number: u32) -> Option<&'a Item>
    ensures { option_copied result ≡ option_and_then (slice_get items.now) (slice_get places.now number) }
{
    let place = *places.get(number as usize)?;
    items.get(place)
}

pub(crate) fn as_struct(item: &Item) -> Option<&StructDefinition>
    ensures { option_copied result ≡ as_structure (view_item item.now) }
{
    match item {
        Item::Struct(definition) => Some(definition),
        Item::Global(_) => None,
        Item::Function(_) => None,
    }
}

pub(crate) fn as_global(item: &Item) -> Option<&GlobalDefinition>
    ensures { option_copied result ≡ as_global (view_item item.now) }
{
    match item {
        Item::Global(definition) => Some(definition),
        Item::Struct(_) => None,
        Item::Function(_) => None,
    }
}

pub(crate) fn as_function(item: &Item) -> Option<&FunctionDefinition>
    ensures { option_map (λ f. view_function f.now) result ≡ as_function (view_item item.now) }
{
    match item {
        Item::Function(definition) => Some(definition),
        Item::Struct(_) => None,
        Item::Global(_) => None,
    }
}
