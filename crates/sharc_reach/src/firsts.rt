// The first reached function that names each global.

ghost use Rattle.std.specs.Prelude.{◌≡◌, None as Nothing, fold, replicate, IfOk};
ghost use Rattle.sharc_reach.specs.{Firsts.{global_named, lower, lowered, lowered_by}, Reaching.is_chosen};

use crate::mention::Mention;
use sharc_ctype::typed::Typed;
use sharc_names::fault::Named;
use std::alloc::{AllocError, Global};

/// The global that a name means.
fn global_named(named: Named) -> Option<u32>
    ensures { result ≡ global_named named }
{
    match named {
        Named::Global(number) => Some(number),
        Named::Struct(_) => None,
        Named::Function(_) => None,
        Named::Variable(_) => None,
        Named::Field(_) => None,
        Named::Known => None,
    }
}

/// Whether the function is among the chosen ones.
pub(crate) fn is_chosen(chosen: &[bool], function: u32) -> bool
    ensures { result ≡ is_chosen chosen.now function }
{
    let place = function as usize;
    if place < chosen.len() {
        chosen[place]
    } else {
        false
    }
}

/// The lower of both.
fn lower(had: Option<u32>, function: u32) -> u32
    ensures { result ≡ lower had function }
{
    match had {
        None => function,
        Some(first) => first.min(function),
    }
}

/// Takes note that a function names a global.
#[tactic(auto, using(std::proofs::lemmas::List::set_past))]
fn note(global: u32, function: u32, firsts: &mut Vec<Option<u32>>)
    ensures { firsts.new.items ≡ lowered global function firsts.old.items }
{
    let place = global as usize;
    if place < firsts.len() {
        let first = lower(firsts[place], function);
        firsts[place] = Some(first);
    }
}

/// The same where the function is a chosen one, and the name means a global.
fn note_mention(typed: &Typed, chosen: &[bool], mention: &Mention, firsts: &mut Vec<Option<u32>>)
    ensures { firsts.new.items ≡ lowered_by typed.now chosen.now firsts.old.items mention.now }
{
    if is_chosen(chosen, mention.function) {
        if let Some(global) = global_named(typed.named(mention.token)) {
            note(global, mention.function, firsts);
        }
    }
}

/// For each global the first of the chosen functions that names it.
pub(crate) fn firsts(
    alloc: Global,
    typed: &Typed,
    chosen: &[bool],
    globals: usize,
    mentions: &[Mention],
) -> Result<Vec<Option<u32>>, AllocError>
    ensures { IfOk result (λ firsts. firsts.items
        ≡ fold (lowered_by typed.now chosen.now) (replicate globals Nothing) mentions.now) }
{
    let mut firsts = vec![in alloc; None; globals]?;
    for mention in mentions {
        note_mention(typed, chosen, mention, &mut firsts);
    }
    Ok(firsts)
}
