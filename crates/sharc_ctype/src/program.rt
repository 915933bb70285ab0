// Typing the items of a program.

ghost use Rattle.std.specs.Prelude.{◌≡◌, ◌<◌, ◌+◌, ◌^◌, ◌++◌, ◌∷◌, [], length, fold, IfOk, OnOk};
ghost use Rattle.sharc_tree.specs.View.{view_item, view_items, view_function};
ghost use Rattle.sharc_names.specs.{Names.look_up, Notes.{noted, faults, IsAnswer}, View.view_bounds};
ghost use Rattle.sharc_ctype.specs.{Condition.known_in, Globals.{global_notes, sizes_notes}, Heads.behind_all};
ghost use Rattle.sharc_ctype.specs.{Heads.{heads_notes, no_heads}, Items.{field_notes, fields_notes, parameters_notes}};
ghost use Rattle.sharc_ctype.specs.Items.{with_parameters, beyond, function_notes, item_notes, items_notes, has_main};
ghost use Rattle.sharc_ctype.specs.{Items.{main_missing, program_notes, nothing_found}, Statements.with_names};

use crate::condition::known_in;
use crate::global::{global, sizes};
use crate::head::{Heads, all_heads, within};
use crate::locals::all_locals;
use crate::statement::{Around, declare, statements};
use sharc_names::fault::{Fault, FaultCode, Found, Named};
use sharc_names::fields::Fields;
use sharc_names::kind::{ExpressionKind, declared_kind, same_kind};
use sharc_names::laws::kept_is_first;
use sharc_names::meaning::{Binding, Meaning};
use sharc_names::names::NamesInScope;
use sharc_names::scope::Scope;
use sharc_names::structs::Structs;
use sharc_names::types::{Role, written_type};
use sharc_tree::tree::{Declaration, FunctionDefinition, Item};
use std::alloc::{AllocError, Global};

/// One field more of a struct; `earlier` has those before it.
fn field<'a>(
    scope: &Scope<'a>,
    all: &Fields<'a>,
    earlier: &mut Fields<'a>,
    field: &'a Declaration,
    found: &mut Found,
) -> Result<(), AllocError>
    ensures earlier { OnOk result (earlier.new ≡ earlier.old ++ field.now ∷ []) }
    ensures found { OnOk result (found.new
        ≡ fold noted found.old (field_notes scope.now all.now earlier.old field.now)) }
{
    let token = field.name.site.token;
    written_type(scope, Some(all), Role::Field, &field.written, found);
    found.name(token, Named::Field(token));
    let known = earlier.find(field.name.text.as_slice()).is_some();
    found.fault_where(known, token, FaultCode::DefinedTwice);
    within(256, earlier.len(), token, found);
    earlier.add(field)
}

/// The faults of the fields of a struct.
fn fields<'a>(
    alloc: Global,
    scope: &Scope<'a>,
    list: &'a [Declaration],
    found: &mut Found,
) -> Result<(), AllocError>
    ensures { OnOk result (found.new ≡ fold noted found.old (fields_notes scope.now list.now [] list.now)) }
{
    let all = Fields::all(alloc, list)?;
    let mut earlier = Fields::new(alloc);
    for one in list {
        field(scope, &all, &mut earlier, one, found)?;
    }
    Ok(())
}

/// The faults of the parameters of a function, which are in scope afterwards.
fn parameters<'a>(
    scope: &mut Scope<'a>,
    block: usize,
    list: &'a [Declaration],
    found: &mut Found,
) -> Result<(), AllocError>
    ensures scope { OnOk result (scope.new ≡ with_names scope.old (with_parameters block scope.old.names list.now)) }
    ensures found { OnOk result (found.new ≡ fold noted found.old (parameters_notes block 0 scope.old list.now)) }
{
    for i in 0..list.len() {
        let parameter = &list[i];
        written_type(scope, None, Role::Parameter, &parameter.written, found);
        declare(scope, block, parameter, found)?;
        within(16, i, parameter.name.site.token, found);
    }
    Ok(())
}

/// The faults of a function, after which the names in scope are as before.
#[tactic(auto, using(crate::proofs::ScopeLemmas::left_body, crate::proofs::ScopeLemmas::longer_body))]
fn function<'a>(
    scope: &mut Scope<'a>,
    function: &'a FunctionDefinition,
    found: &mut Found,
) -> Result<(), AllocError>
    ensures scope { OnOk result (scope.new ≡ scope.old) }
    ensures found { OnOk result (found.new
        ≡ fold noted found.old (function_notes scope.old (view_function function.now))) }
{
    let block = scope.names.len();
    written_type(scope, None, Role::Result, &function.result, found);
    parameters(scope, block, function.parameters.as_slice(), found)?;
    let around = Around {
        result: declared_kind(&function.result),
        in_loop: false,
        block,
    };
    statements(scope, around, function.statements.as_slice(), found)?;
    scope.names.leave(block)?;
    all_locals(function.statements.as_slice(), 200, found);
    Ok(())
}

fn item<'a>(
    alloc: Global,
    scope: &mut Scope<'a>,
    item: &'a Item,
    found: &mut Found,
) -> Result<(), AllocError>
    ensures scope { OnOk result (scope.new ≡ scope.old) }
    ensures found { OnOk result (found.new ≡ fold noted found.old (item_notes scope.old (view_item item.now))) }
{
    match item {
        Item::Struct(definition) => fields(alloc, scope, definition.fields.as_slice(), found),
        Item::Global(definition) => {
            global(scope, definition, found);
            Ok(())
        }
        Item::Function(definition) => function(scope, definition, found),
    }
}

/// The faults of the items of a file.
fn items<'a>(
    alloc: Global,
    scope: &mut Scope<'a>,
    list: &'a [Item],
    found: &mut Found,
) -> Result<(), AllocError>
    ensures scope { OnOk result (scope.new ≡ scope.old) }
    ensures found { OnOk result (found.new ≡ fold noted found.old (items_notes scope.old (view_items list.now))) }
{
    for one in list {
        item(alloc, scope, one, found)?;
    }
    Ok(())
}

fn has_main(bound: Option<Binding<'_>>) -> bool
    ensures { result ≡ has_main (view_bounds bound.entry) }
{
    match bound {
        None => false,
        Some(bound) => match bound.meaning {
            Meaning::Function(_, signature) => {
                same_kind(declared_kind(signature.result), ExpressionKind::int())
                    && signature.parameters.len() == 0
            }
            _ => false,
        },
    }
}

/// Takes note where the program has no `int main(void)`.
fn main_missing(end: u32, names: &NamesInScope<'_>, found: &mut Found)
    ensures { found.new ≡ fold noted found.old (main_missing end names.now) }
{
    let well = has_main(names.find(b"main".as_slice()));
    found.fault_unless(well, end, FaultCode::NoMain);
}

/// What is known of a file after its items, and what is found at their names.
fn heads<'a>(alloc: Global, items: &'a [Item], found: &mut Found) -> Result<Heads<'a>, AllocError>
    requires few { length items.now + 1 < 2 ^ 32 }
    ensures heads { IfOk result (λ h. h ≡ behind_all no_heads (view_items items.now)) }
    ensures found { OnOk result (found.new ≡ fold noted found.old (heads_notes no_heads (view_items items.now))) }
{
    let mut known = Heads {
        scope: Scope {
            structs: Structs::new(alloc),
            names: NamesInScope::new(alloc),
        },
        structs: 0,
        globals: 0,
        functions: 0,
    };
    all_heads(alloc, &mut known, items, found)?;
    Ok(known)
}

/// What is found in items whose heads are known.
fn behind_heads<'a>(
    alloc: Global,
    tokens: u32,
    scope: &mut Scope<'a>,
    list: &'a [Item],
    found: &mut Found,
) -> Result<(), AllocError>
    ensures { OnOk result (found.new
        ≡ fold noted found.old (items_notes (known_in scope.old) (view_items list.now) ++ sizes_notes
        (known_in scope.old).structs 0 (view_items list.now) ++ main_missing tokens (known_in scope.old).names)) }
{
    known_in(scope)?;
    items(alloc, scope, list, found)?;
    sizes(&scope.structs, list, found);
    main_missing(tokens, &scope.names, found);
    Ok(())
}

/// What is found in these items, after what was found before.
fn find(alloc: Global, tokens: u32, list: &[Item], found: &mut Found) -> Result<(), AllocError>
    requires few { length list.now + 1 < 2 ^ 32 }
    ensures { OnOk result (found.new ≡ fold noted found.old (program_notes tokens (view_items list.now))) }
{
    let mut scope = heads(alloc, list, found)?.scope;
    behind_heads(alloc, tokens, &mut scope, list, found)
}

/// What is found in the items of a program of this many tokens.
pub(crate) fn pass(alloc: Global, tokens: u32, list: &[Item]) -> Result<Found, AllocError>
    requires few { length list.now + 1 < 2 ^ 32 }
    ensures { IfOk result (λ f. f ≡ fold noted (nothing_found tokens) (program_notes tokens (view_items list.now))) }
{
    let mut found = Found::new(alloc, tokens as usize)?;
    find(alloc, tokens, list, &mut found)?;
    Ok(found)
}

/// The first fault of all.
pub(crate) fn first_fault(found: &Found, tokens: u32, list: &[Item]) -> Option<Fault>
    requires { found.now ≡ fold noted (nothing_found tokens) (program_notes tokens (view_items list.now)) }
    ensures { IsAnswer result (faults (program_notes tokens (view_items list.now))) }
{
    kept_is_first();
    found.first()
}
