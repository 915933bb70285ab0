//! The least assignment by the paths of a graph.

ghost use Rattle.std.specs.{Prelude.{◌≡◌, ◌^◌, ◌<◌, ◌≤◌, length, map, IfOk}, List.All};
ghost use Rattle.sharc_graph.specs.{Paths.IsWithin, Flow.{flow_of, node_of, kept_edges, AreInferred}};

use crate::graph::{Edge, Node, NodeFinding};
use crate::least::find;
use crate::place::{Link, PositionKind};
use std::alloc::{AllocError, Global};

/// What is found of each position: those without a written mode are dynamic where a path leads to them, else private.
pub fn least_assignment(
    alloc: Global,
    places: &[PositionKind],
    links: &[Link],
) -> Result<Vec<NodeFinding>, AllocError>
    requires few_places { length places.now < 2 ^ 32 }
    requires few_links { length links.now < 2 ^ 32 }
    requires within { All (λ link. IsWithin (length places.now) link.edge) links.now }
    ensures { IfOk result (λ findings. AreInferred (flow_of places.now links.now) findings.items) }
{
    let nodes = nodes(alloc, places)?;
    let edges = edges(alloc, places, links)?;
    find(alloc, &nodes, &edges)
}

// What each position is to the paths.
fn nodes(alloc: Global, places: &[PositionKind]) -> Result<Vec<Node>, AllocError>
    ensures { IfOk result (λ nodes. nodes.items ≡ map node_of places.now) }
{
    places.iter().map(|place| place.node()).collect(alloc)
}

// The edges by which a path may go on.
fn edges(alloc: Global, places: &[PositionKind], links: &[Link]) -> Result<Vec<Edge>, AllocError>
    requires within { All (λ link. IsWithin (length places.now) link.edge) links.now }
    ensures edges { IfOk result (λ edges. edges.items ≡ kept_edges places.now links.now) }
{
    let mut edges = Vec::new(alloc);
    for link in links {
        if places[link.edge.from as usize].leads(link) {
            edges.push(link.edge)?;
        }
    }
    Ok(edges)
}
