// The roots: the tops of touched globals, and the targets of parameters of spawned functions.

ghost use Rattle.std.specs.{Prelude.{◌≡◌, ◌<◌, ◌≤◌, length, IfOk}, Option.option_copied};
ghost use Rattle.sharc_tree.specs.View.{view_function};
ghost use Rattle.sharc_ctype.specs.{Entities.entity_at, Resolved.{global_at, function_at, globals_in, functions_in}};
ghost use Rattle.sharc_mode.specs.{declared.position.Reason.TheVariants.{Touched, Spawned}, Moded.position_count};
ghost use Rattle.sharc_reach.specs.Reaching.{first_of, is_chosen, AreReached};
ghost use Rattle.sharc_infer.specs.Roots.{rooted, marked, touch, touched_below, mark_all, pass, passed_below, roots_of};

use sharc_ctype::entity::Numbered;
use sharc_ctype::typed::Typed;
use sharc_mode::position::Reason;
use sharc_reach::Reached;
use sharc_tree::tree::Declaration;
use std::alloc::{AllocError, Global};

/// Makes the first position a root for this reason, where there is one.
#[tactic(auto, using(std::proofs::lemmas::List::set_past))]
fn mark(numbered: Option<&Numbered>, reason: Reason, roots: &mut Vec<Option<Reason>>)
    ensures { roots.new.items ≡ marked (option_copied numbered.entry) reason roots.old.items }
{
    if let Some(numbered) = numbered {
        let place = numbered.first as usize;
        if numbered.entity.positions() > 0 && place < roots.len() {
            roots[place] = Some(reason);
        }
    }
}

/// The same of what this token declares.
fn root(typed: &Typed, token: u32, reason: Reason, roots: &mut Vec<Option<Reason>>)
    ensures { roots.new.items ≡ rooted typed.now token reason roots.old.items }
{
    mark(typed.entity_at(token, token), reason, roots);
}

/// Makes the top of a global a root, where a function touches it.
fn touch(typed: &Typed, reached: &Reached, global: u32, roots: &mut Vec<Option<Reason>>)
    requires { global < length reached.now.firsts }
    ensures { roots.new.items
        ≡ touch typed.now (global_at typed.now global) (first_of reached.now global) roots.old.items }
{
    if let Some(definition) = typed.global_at(global) {
        if let Some(function) = reached.touched(global) {
            let token = definition.declaration.name.site.token;
            root(typed, token, Reason::Touched(function), roots);
        }
    }
}

/// Makes the targets of parameters roots.
fn mark_all(
    typed: &Typed,
    function: u32,
    parameters: &[Declaration],
    roots: &mut Vec<Option<Reason>>,
)
    ensures { roots.new.items ≡ mark_all typed.now function parameters.now roots.old.items }
{
    for parameter in parameters {
        let token = parameter.name.site.token;
        root(typed, token, Reason::Spawned(function), roots);
    }
}

/// Makes the targets of the parameters of a function roots, where it is spawned.
fn pass(typed: &Typed, reached: &Reached, function: u32, roots: &mut Vec<Option<Reason>>)
    requires { function < length reached.now.spawned }
    ensures { roots.new.items ≡ pass typed.now function (function_at typed.now function)
        (is_chosen reached.now.spawned function) roots.old.items }
{
    if reached.spawned(function) {
        if let Some(definition) = typed.function_at(function) {
            mark_all(typed, function, definition.parameters.as_slice(), roots);
        }
    }
}

/// Makes the tops of the touched globals roots.
fn touch_globals(typed: &Typed, reached: &Reached, globals: u32, roots: &mut Vec<Option<Reason>>)
    requires { globals ≤ length reached.now.firsts }
    ensures { roots.new.items ≡ touched_below typed.now reached.now globals roots.old.items }
{
    for global in 0..globals {
        touch(typed, reached, global, roots);
    }
}

/// Makes the targets of the parameters of spawned functions roots.
fn pass_all(typed: &Typed, reached: &Reached, functions: u32, roots: &mut Vec<Option<Reason>>)
    requires { functions ≤ length reached.now.spawned }
    ensures { roots.new.items ≡ passed_below typed.now reached.now functions roots.old.items }
{
    for function in 0..functions {
        pass(typed, reached, function, roots);
    }
}

/// Why each position is a root; none of any other. More globals or functions than a number of 32 bits counts are
/// answered as out of memory.
pub(crate) fn roots(
    alloc: Global,
    typed: &Typed,
    reached: &Reached,
) -> Result<Vec<Option<Reason>>, AllocError>
    requires { AreReached typed.now reached.now }
    ensures { IfOk result (λ roots. roots.items ≡ roots_of typed.now reached.now) }
{
    let globals = typed.global_count();
    let functions = typed.function_count();
    if globals > u32::MAX as usize || functions > u32::MAX as usize {
        return Err(AllocError);
    }
    let mut roots = vec![in alloc; None; typed.position_count() as usize]?;
    touch_globals(typed, reached, globals as u32, &mut roots);
    pass_all(typed, reached, functions as u32, &mut roots);
    Ok(roots)
}
