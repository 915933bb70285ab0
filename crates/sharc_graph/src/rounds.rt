//! The same answer by rounds over all links: a plain program for tests to compare with.

ghost use Rattle.std.specs.{Prelude.{◌≡◌, ◌+◌, ◌^◌, ◌<◌, ◌&&◌, true, false, nat_eq, length, map, IfOk}, List.All};
ghost use Rattle.sharc_graph.specs.{Paths.IsWithin, Flow.{flow_of, place_at, is_unwritten, AreInferred, IsInferred}};
ghost use Rattle.sharc_graph.specs.Rounds.{first_rank, rank_by, rank_for, is_rank, is_next, ranks_behind, unranked};
ghost use Rattle.sharc_graph.specs.Rounds.{AreRanks, AreUpTo, AreFinal, IsLowest, IsSome};

use crate::graph::NodeFinding;
use crate::place::{Link, PositionKind};
use std::alloc::{AllocError, Global};

/// What `least_assignment` answers of the positions without a written mode, by a plain program: rounds over all links
/// until one finds nothing, and one look at all links for each reason. A position with a written mode is answered
/// Apart.
pub fn least_by_rounds(
    alloc: Global,
    places: &[PositionKind],
    links: &[Link],
) -> Result<Vec<NodeFinding>, AllocError>
    requires few_places { length places.now < 2 ^ 32 }
    requires within { All (λ link. IsWithin (length places.now) link.edge) links.now }
    ensures { IfOk result (λ findings. AreInferred (flow_of places.now links.now) findings.items) }
{
    let mut ranks = first_ranks(alloc, places)?;
    go_rounds(places, links, &mut ranks);
    let mut findings = Vec::with_capacity(alloc, places.len())?;
    for position in 0..places.len() {
        findings.push(finding(places, links, &ranks, position as u32))?;
    }
    Ok(findings)
}

// The roots are of rank 0.
fn first_ranks(alloc: Global, places: &[PositionKind]) -> Result<Vec<Option<usize>>, AllocError>
    ensures { IfOk result (λ ranks. ranks.items ≡ map first_rank places.now) }
{
    places.iter().map(|place| first_rank(*place)).collect(alloc)
}

fn first_rank(place: PositionKind) -> Option<usize>
    ensures { result ≡ first_rank place }
{
    match place {
        PositionKind::Root => Some(0),
        _ => None,
    }
}

// Of which rank a position is for a link of it, by its own rank.
fn rank_by(place: PositionKind, rank: Option<usize>, below: bool) -> Option<usize>
    ensures { result ≡ rank_by place rank below }
{
    match place {
        PositionKind::Root | PositionKind::Dynamic => Some(0),
        PositionKind::Unwritten => rank,
        PositionKind::Private => None,
        PositionKind::Other => if below { Some(0) } else { None },
    }
}

fn rank_for(places: &[PositionKind], ranks: &[Option<usize>], link: &Link) -> Option<usize>
    requires places { link.now.edge.from < length places.now }
    requires ranks { length ranks.now ≡ length places.now }
    ensures { result ≡ rank_for places.now ranks.now link.now }
{
    let from = link.edge.from as usize;
    rank_by(places[from], ranks[from], link.below)
}

fn is_rank(rank: Option<usize>, wanted: usize) -> bool
    ensures { result ≡ is_rank rank wanted }
{
    match rank {
        None => false,
        Some(rank) => rank == wanted,
    }
}

fn is_unwritten(place: PositionKind) -> bool
    ensures { result ≡ is_unwritten place }
{
    matches!(place, PositionKind::Root | PositionKind::Unwritten)
}

// What the link leads to is of one rank more, where it comes from a position of this rank. Whether it was of none
// before.
fn follow(places: &[PositionKind], link: &Link, rank: usize, ranks: &mut Vec<Option<usize>>) -> bool
    requires within { IsWithin (length places.now) link.now.edge }
    requires size { length ranks.old.items ≡ length places.now }
    requires few { rank + 1 < 2 ^ 64 }
    ensures ranks { ranks.new.items ≡ ranks_behind places.now ranks.old.items link.now rank }
    ensures found { result ≡ is_next places.now ranks.old.items link.now rank }
{
    let to = link.edge.to as usize;
    if is_rank(rank_for(places, ranks, link), rank)
        && is_unwritten(places[to])
        && ranks[to].is_none()
    {
        ranks[to] = Some(rank + 1);
        true
    } else {
        false
    }
}

// Goes over all links once. Whether a position was found that was of no rank before.
fn go_round(
    places: &[PositionKind],
    links: &[Link],
    round: usize,
    ranks: &mut Vec<Option<usize>>,
) -> bool
    requires within { All (λ link. IsWithin (length places.now) link.edge) links.now }
    requires few { round + 1 < 2 ^ 64 }
    requires ranks { AreRanks (flow_of places.now links.now) ranks.old.items round 0 }
    ensures ranks { AreRanks (flow_of places.now links.now) ranks.new.items round (length links.now) }
    ensures more { result ≡ true → unranked ranks.new.items < unranked ranks.old.items }
    ensures same { result ≡ false → ranks.new.items ≡ ranks.old.items }
{
    let mut more = false;
    for link in links {
        if follow(places, link, round, ranks) {
            more = true;
        }
    }
    more
}

// Goes over all links again and again, until that finds nothing.
fn go_rounds(places: &[PositionKind], links: &[Link], ranks: &mut Vec<Option<usize>>)
    requires few { length places.now < 2 ^ 32 }
    requires within { All (λ link. IsWithin (length places.now) link.edge) links.now }
    requires ranks { ranks.old.items ≡ map first_rank places.now }
    ensures { AreFinal (flow_of places.now links.now) ranks.new.items }
{
    let mut round = 0_usize;
    while go_round(places, links, round, ranks) {
        round += 1;
    }
}

// Whether the link leads to this position from one that is of this rank for it.
fn leads_at(
    places: &[PositionKind],
    ranks: &[Option<usize>],
    link: &Link,
    to: u32,
    rank: usize,
) -> bool
    requires places { link.now.edge.from < length places.now }
    requires ranks { length ranks.now ≡ length places.now }
    ensures { result ≡ (nat_eq link.now.edge.to to && is_rank (rank_for places.now ranks.now link.now) rank) }
{
    link.edge.to == to && is_rank(rank_for(places, ranks, link), rank)
}

// The lowest position that is of this rank for a link to the other; the largest number where there is none.
fn lowest(
    places: &[PositionKind],
    links: &[Link],
    ranks: &[Option<usize>],
    to: u32,
    below: usize,
) -> u32
    requires within { All (λ link. IsWithin (length places.now) link.edge) links.now }
    requires size { length ranks.now ≡ length places.now }
    ensures lowest { IsLowest (flow_of places.now links.now) ranks.now (length links.now) to below result }
    ensures some { IsSome (flow_of places.now links.now) ranks.now (length links.now) to below result u32.MAX }
{
    let mut lowest = u32::MAX;
    for link in links {
        if leads_at(places, ranks, link, to, below) {
            lowest = lowest.min(link.edge.from);
        }
    }
    lowest
}

// What is found of a position.
fn finding(
    places: &[PositionKind],
    links: &[Link],
    ranks: &[Option<usize>],
    position: u32,
) -> NodeFinding
    requires few { length places.now < 2 ^ 32 }
    requires within { All (λ link. IsWithin (length places.now) link.edge) links.now }
    requires ranks { AreFinal (flow_of places.now links.now) ranks.now }
    requires position { position < length places.now }
    ensures { is_unwritten (place_at places.now position) ≡ true
        → IsInferred (flow_of places.now links.now) position result }
{
    match ranks[position as usize] {
        None => NodeFinding::Apart,
        Some(rank) => if rank == 0 {
            NodeFinding::Source
        } else {
            NodeFinding::Behind {
                rank: rank as u32,
                reason: lowest(places, links, ranks, position, rank - 1),
            }
        },
    }
}
