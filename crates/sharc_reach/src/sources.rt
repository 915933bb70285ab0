// The functions as the nodes of a graph: those that are spawned are its sources.

ghost use Rattle.std.specs.Prelude.{◌≡◌, fold, replicate, IfOk};
ghost use Rattle.sharc_reach.specs.Graphs.{spawned, quiet_node, marked, marked_by};

use crate::edges::function_named;
use crate::mention::{Mention, NameUse};
use sharc_ctype::typed::Typed;
use sharc_graph::Node;
use std::alloc::{AllocError, Global};

/// The function that is spawned.
fn spawned(typed: &Typed, mention: &Mention) -> Option<u32>
    ensures { result ≡ spawned typed.now mention.now }
{
    match mention.role {
        NameUse::Named => None,
        NameUse::Called => None,
        NameUse::Spawned => function_named(typed.named(mention.token)),
    }
}

/// Makes the function a source.
#[tactic(auto, using(std::proofs::lemmas::List::set_past))]
fn mark(spawned: Option<u32>, nodes: &mut Vec<Node>)
    ensures { nodes.new.items ≡ marked nodes.old.items spawned }
{
    if let Some(number) = spawned {
        let place = number as usize;
        if place < nodes.len() {
            nodes[place] = Node {
                source: true,
                free: true,
            };
        }
    }
}

/// A node for each of this many functions.
pub(crate) fn nodes(
    alloc: Global,
    typed: &Typed,
    count: u32,
    mentions: &[Mention],
) -> Result<Vec<Node>, AllocError>
    ensures { IfOk result (λ nodes. nodes.items
        ≡ fold (marked_by typed.now) (replicate count quiet_node) mentions.now) }
{
    let quiet = Node {
        source: false,
        free: true,
    };
    let mut nodes = vec![in alloc; quiet; count as usize]?;
    for mention in mentions {
        mark(spawned(typed, mention), &mut nodes);
    }
    Ok(nodes)
}
