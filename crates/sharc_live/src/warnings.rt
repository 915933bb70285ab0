// The warnings of a program.

ghost use Rattle.std.specs.Prelude.{◌≡◌, [], ◌∷◌, map, IfOk};
ghost use Rattle.sharc_tree.specs.View.{view_function, view_items};
ghost use Rattle.sharc_ctype.specs.Resolved.{functions_in};
ghost use Rattle.sharc_dataflow.specs.Uses.{AddsUses};
ghost use Rattle.sharc_live.specs.{Flows.function_flow, Gathers.AddsAll, Uses.{site_at, warning_at, AreWarnings}};

use crate::statement::function;
use sharc_check::Checked;
use sharc_ctype::typed::Typed;
use sharc_dataflow::way::FlowWarning;
use sharc_dataflow::{firsts, nulled_reads};
use sharc_mode::error::{Warning, Warnings};
use sharc_mode::text::text_at;
use sharc_tree::listed::Listed;
use sharc_tree::name::Name;
use sharc_tree::token::Site;
use sharc_tree::tree::{FunctionDefinition, Item};
use std::alloc::{AllocError, Global};

/// Adds the reads of nulled locals of a function.
fn with_function(
    alloc: Global,
    typed: &Typed,
    of: &FunctionDefinition,
    found: Vec<FlowWarning>,
) -> Result<Vec<FlowWarning>, AllocError>
    ensures { IfOk result (λ v. AddsUses (function_flow typed.now (view_function of.now)) found.items v.items) }
{
    let steps = function(alloc, typed, of)?;
    let more = nulled_reads(alloc, steps.as_slice(), found)?;
    Ok(more)
}

/// Adds those of an item, if it is a function.
fn with_item(
    alloc: Global,
    typed: &Typed,
    item: &Item,
    found: Vec<FlowWarning>,
) -> Result<Vec<FlowWarning>, AllocError>
    ensures { IfOk result (λ v. AddsAll typed.now (functions_in (view_items (item.now ∷ []))) found.items v.items) }
{
    match item {
        Item::Function(definition) => {
            let more = with_function(alloc, typed, definition, found)?;
            Ok(more)
        }
        Item::Struct(_) => Ok(found),
        Item::Global(_) => Ok(found),
    }
}

/// The reads of nulled locals of all functions.
fn gathered(alloc: Global, typed: &Typed, items: &[Item]) -> Result<Vec<FlowWarning>, AllocError>
    ensures { IfOk result (λ v. AddsAll typed.now (functions_in (view_items items.now)) [] v.items) }
{
    let mut found = Vec::new(alloc);
    for item in items {
        found = with_item(alloc, typed, item, found)?;
    }
    Ok(found)
}

/// The place of a token; line 0 of the first file past the last one.
fn site_at(typed: &Typed, token: u32) -> Site
    ensures { result ≡ site_at typed.now token }
{
    let tokens = typed.program().tokens.list.as_slice();
    let place = token as usize;
    if place < tokens.len() {
        Site {
            file: tokens[place].file,
            line: tokens[place].line,
            token,
        }
    } else {
        Site {
            file: 0,
            line: 0,
            token,
        }
    }
}

fn warning_at(alloc: Global, typed: &Typed, found: FlowWarning) -> Result<Warning, AllocError>
    ensures { IfOk result (λ w. w ≡ warning_at typed.now found) }
{
    let name = Name::from_slice(alloc, text_at(typed, found.read))?;
    Ok(Warning {
        read: site_at(typed, found.read),
        nulled: site_at(typed, found.since),
        name,
    })
}

fn told(alloc: Global, typed: &Typed, found: &[FlowWarning]) -> Result<Vec<Warning>, AllocError>
    ensures { IfOk result (λ v. v.items ≡ map (warning_at typed.now) found.now) }
{
    let mut list = Vec::new(alloc);
    for w in found {
        list.push(warning_at(alloc, typed, *w)?)?;
    }
    Ok(list)
}

/// A warning for each read of a local to which some path in its function leads from a sharing cast or a `free` of that
/// local with no write of it between, in the order of the reads; it names the first such cast or `free` of the source.
/// Both ways of each test are open, and a declaration is a write both before and after its initialiser. It is refused
/// only when out of memory.
pub fn nulled_uses(alloc: Global, checked: &Checked) -> Result<Warnings, AllocError>
    ensures { IfOk result (λ w. AreWarnings checked.now.typed w) }
{
    let typed = checked.moded().typed();
    let found = gathered(alloc, typed, typed.program().items.as_slice())?;
    let found = firsts(alloc, found)?;
    let list = told(alloc, typed, found.as_slice())?;
    Ok(Listed::of(list))
}
