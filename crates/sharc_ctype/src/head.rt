// The names of the file: structs, globals and functions, which are known everywhere in it.

ghost use Rattle.std.specs.Prelude.{◌≡◌, ◌<◌, ◌+◌, ◌^◌, length, fold, is_some, OnOk};
ghost use Rattle.sharc_tree.specs.{View.{view_item, view_items, view_function}, Tree.{structure, global, function}};
ghost use Rattle.sharc_names.specs.{Names.{look_up, struct_of}, Notes.noted, View.{view_bound, view_signature}};
ghost use Rattle.sharc_ctype.specs.Heads.{with_struct, with_entry, signature_of, behind, behind_all, twice, within};
ghost use Rattle.sharc_ctype.specs.{Heads.{head_notes, heads_notes}, Statements.with_names};

use sharc_names::fault::{FaultCode, Found, Named};
use sharc_names::fields::Fields;
use sharc_names::meaning::{Binding, Meaning, Signature};
use sharc_names::scope::Scope;
use sharc_names::structs::StructMeaning;
use sharc_tree::tree::{FunctionDefinition, GlobalDefinition, Item, StructDefinition};
use std::alloc::{AllocError, Global};

/// What is known of the file after some of its items.
#[derive(Drop)]
pub(crate) struct Heads<'a> {
    pub(crate) scope: Scope<'a>,
    /// How many structs, globals and functions there were.
    pub(crate) structs: u32,
    pub(crate) globals: u32,
    pub(crate) functions: u32,
}

/// Takes note of a name before which there are as many as there may be.
pub(crate) fn within(most: usize, before: usize, token: u32, found: &mut Found)
    ensures { found.new ≡ fold noted found.old (within most before token) }
{
    found.fault_unless(before < most, token, FaultCode::LimitPassed);
}

/// Brings a name of the file into scope, if it is new.
fn enter<'a>(
    scope: &mut Scope<'a>,
    bound: Binding<'a>,
    token: u32,
    found: &mut Found,
) -> Result<(), AllocError>
    ensures scope { OnOk result (scope.new
        ≡ with_names scope.old (with_entry (view_bound bound.entry) scope.old.names)) }
    ensures found { OnOk result (found.new
        ≡ fold noted found.old (twice (is_some (look_up scope.old.names bound.entry.name.now)) token)) }
{
    let known = scope.names.find(bound.name).is_some();
    found.fault_where(known, token, FaultCode::DefinedTwice);
    if known {
        return Ok(());
    }
    scope.names.declare(bound)
}

fn enter_struct<'a>(
    alloc: Global,
    scope: &mut Scope<'a>,
    number: u32,
    definition: &'a StructDefinition,
    found: &mut Found,
) -> Result<(), AllocError>
    ensures structs { OnOk result (scope.new.structs ≡ with_struct scope.old.structs number definition.now) }
    ensures names { scope.new.names ≡ scope.old.names }
    ensures found { OnOk result (found.new ≡ fold noted found.old
        (twice (is_some (struct_of scope.old.structs definition.now.name.text)) definition.now.name.site.token)) }
{
    let name = definition.name.text.as_slice();
    let known = scope.structs.find(name).is_some();
    let token = definition.name.site.token;
    found.fault_where(known, token, FaultCode::DefinedTwice);
    if known {
        return Ok(());
    }
    let fields = Fields::all(alloc, definition.fields.as_slice())?;
    scope
        .structs
        .add(name, StructMeaning::Defined(number, fields))
}

fn signature_of(function: &FunctionDefinition) -> Signature<'_>
    ensures { view_signature result ≡ signature_of (view_function function.now) }
{
    Signature {
        name: &function.name,
        result: &function.result,
        parameters: function.parameters.as_slice(),
    }
}

fn struct_head<'a>(
    alloc: Global,
    heads: &mut Heads<'a>,
    definition: &'a StructDefinition,
    found: &mut Found,
) -> Result<(), AllocError>
    requires { heads.old.structs + 1 < 2 ^ 32 }
    ensures heads { OnOk result (heads.new ≡ behind heads.old (structure definition.now)) }
    ensures found { OnOk result (found.new ≡ fold noted found.old (head_notes heads.old (structure definition.now))) }
{
    let token = definition.name.site.token;
    let number = heads.structs;
    found.name(token, Named::Struct(number));
    enter_struct(alloc, &mut heads.scope, number, definition, found)?;
    within(256, number as usize, token, found);
    heads.structs = number + 1;
    Ok(())
}

fn global_head<'a>(
    heads: &mut Heads<'a>,
    definition: &'a GlobalDefinition,
    found: &mut Found,
) -> Result<(), AllocError>
    requires { heads.old.globals + 1 < 2 ^ 32 }
    ensures heads { OnOk result (heads.new ≡ behind heads.old (global definition.now)) }
    ensures found { OnOk result (found.new ≡ fold noted found.old (head_notes heads.old (global definition.now))) }
{
    let name = &definition.declaration.name;
    let number = heads.globals;
    found.name(name.site.token, Named::Global(number));
    let bound = Binding {
        name: name.text.as_slice(),
        block: 0,
        meaning: Meaning::Global(number, definition),
    };
    enter(&mut heads.scope, bound, name.site.token, found)?;
    within(4096, number as usize, name.site.token, found);
    heads.globals = number + 1;
    Ok(())
}

fn function_head<'a>(
    heads: &mut Heads<'a>,
    definition: &'a FunctionDefinition,
    found: &mut Found,
) -> Result<(), AllocError>
    requires { heads.old.functions + 1 < 2 ^ 32 }
    ensures heads { OnOk result (heads.new ≡ behind heads.old (function (view_function definition.now))) }
    ensures found { OnOk result (found.new
        ≡ fold noted found.old (head_notes heads.old (function (view_function definition.now)))) }
{
    let name = &definition.name;
    let number = heads.functions;
    found.name(name.site.token, Named::Function(number));
    let bound = Binding {
        name: name.text.as_slice(),
        block: 0,
        meaning: Meaning::Function(number, signature_of(definition)),
    };
    enter(&mut heads.scope, bound, name.site.token, found)?;
    within(16384, number as usize, name.site.token, found);
    heads.functions = number + 1;
    Ok(())
}

/// One item of the file more.
fn head<'a>(
    alloc: Global,
    heads: &mut Heads<'a>,
    item: &'a Item,
    found: &mut Found,
) -> Result<(), AllocError>
    requires structs { heads.old.structs + 1 < 2 ^ 32 }
    requires globals { heads.old.globals + 1 < 2 ^ 32 }
    requires functions { heads.old.functions + 1 < 2 ^ 32 }
    ensures heads { OnOk result (heads.new ≡ behind heads.old (view_item item.now)) }
    ensures found { OnOk result (found.new ≡ fold noted found.old (head_notes heads.old (view_item item.now))) }
{
    match item {
        Item::Struct(definition) => struct_head(alloc, heads, definition, found),
        Item::Global(definition) => global_head(heads, definition, found),
        Item::Function(definition) => function_head(heads, definition, found),
    }
}

/// All items of the file.
pub(crate) fn all_heads<'a>(
    alloc: Global,
    heads: &mut Heads<'a>,
    items: &'a [Item],
    found: &mut Found,
) -> Result<(), AllocError>
    requires none { (heads.old.structs ≡ 0) × (heads.old.globals ≡ 0) × (heads.old.functions ≡ 0) }
    requires few { length items.now + 1 < 2 ^ 32 }
    ensures heads { OnOk result (heads.new ≡ behind_all heads.old (view_items items.now)) }
    ensures found { OnOk result (found.new ≡ fold noted found.old (heads_notes heads.old (view_items items.now))) }
{
    for item in items {
        head(alloc, heads, item, found)?;
    }
    Ok(())
}
