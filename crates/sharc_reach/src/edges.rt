// The calls and spawns of a program, as the edges of a graph.

ghost use Rattle.std.specs.{Prelude.{◌≡◌, IfOk}, List.filter_map};
ghost use Rattle.sharc_reach.specs.Graphs.{function_named, ran, edge_within, edge_of_mention};

use crate::mention::{Mention, NameUse};
use sharc_ctype::typed::Typed;
use sharc_graph::Edge;
use sharc_names::fault::Named;
use std::alloc::{AllocError, Global};

/// The function that a name means.
pub(crate) fn function_named(named: Named) -> Option<u32>
    ensures { result ≡ function_named named }
{
    match named {
        Named::Function(number) => Some(number),
        Named::Struct(_) => None,
        Named::Global(_) => None,
        Named::Variable(_) => None,
        Named::Field(_) => None,
        Named::Known => None,
    }
}

/// The function that is called or spawned.
fn ran(typed: &Typed, mention: &Mention) -> Option<u32>
    ensures { result ≡ ran typed.now mention.now }
{
    match mention.role {
        NameUse::Named => None,
        NameUse::Called => function_named(typed.named(mention.token)),
        NameUse::Spawned => function_named(typed.named(mention.token)),
    }
}

/// The edge between two of this many functions.
fn edge_within(count: u32, from: u32, to: Option<u32>) -> Option<Edge>
    ensures { result ≡ edge_within count from to }
{
    match to {
        None => None,
        Some(to) => {
            if from < count && to < count {
                Some(Edge { from, to })
            } else {
                None
            }
        }
    }
}

fn edge_of(typed: &Typed, count: u32, mention: &Mention) -> Option<Edge>
    ensures { result ≡ edge_of_mention typed.now count mention.now }
{
    edge_within(count, mention.function, ran(typed, mention))
}

/// The edges between this many functions.
pub(crate) fn edges(
    alloc: Global,
    typed: &Typed,
    count: u32,
    mentions: &[Mention],
) -> Result<Vec<Edge>, AllocError>
    ensures { IfOk result (λ edges. edges.items ≡ filter_map (edge_of_mention typed.now count) mentions.now) }
{
    mentions
        .iter()
        .filter_map(|mention| edge_of(typed, count, mention))
        .collect(alloc)
}
