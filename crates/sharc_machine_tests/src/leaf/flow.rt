//! Two kinds of sources, and random positions and links beside a plain program.

ghost use Rattle.std.specs.{Prelude.IsTrue, List.All};
ghost use Rattle.sharc_graph.specs.Paths.{IsWithin};

use crate::leaf::random::random;
use sharc_graph::{
    Edge, Link, NodeFinding, PositionKind, lead_down, least_assignment, least_by_rounds, make_equal,
};
use std::alloc::{AllocError, Global};
use std::process::Abort;
use std::test::Fail;

fn are_within(places: usize, links: &[Link]) -> bool
    ensures { IsTrue result → All (λ link. IsWithin places link.edge) links.now }
{
    for link in links {
        if link.edge.from as usize >= places || link.edge.to as usize >= places {
            return false;
        }
    }
    true
}

fn link(from: u32, to: u32, below: bool) -> Link {
    Link {
        edge: Edge { from, to },
        below,
    }
}

#[test]
fn kinds_of_sources(rt: HostRuntime) -> Result<(), Fail> {
    let alloc = rt.alloc();
    // 0 is written readonly above 1, and equal to 2; 3 is written dynamic and equal to 4; 5 is written private above 6;
    // 7 is a root above 8, which is equal to 1.
    let places = vec![in alloc;
        PositionKind::Other,
        PositionKind::Unwritten,
        PositionKind::Unwritten,
        PositionKind::Dynamic,
        PositionKind::Unwritten,
        PositionKind::Private,
        PositionKind::Unwritten,
        PositionKind::Root,
        PositionKind::Unwritten,
    ]?;
    let links = vec![in alloc;
        link(0, 1, true),
        link(0, 2, false),
        link(2, 0, false),
        link(3, 4, false),
        link(4, 3, false),
        link(5, 6, true),
        link(7, 8, true),
        link(8, 1, false),
        link(1, 8, false),
    ]?;
    assert!(rt; places.len() < 100 && links.len() < 100 && are_within(places.len(), &links));
    let findings = least_assignment(alloc, &places, &links)?;
    let behind = |rank, reason| NodeFinding::Behind { rank, reason };
    let want = vec![in alloc;
        NodeFinding::Source,
        behind(1, 0),
        NodeFinding::Apart,
        NodeFinding::Source,
        behind(1, 3),
        NodeFinding::Apart,
        NodeFinding::Apart,
        NodeFinding::Source,
        behind(1, 7),
    ]?;
    assert!(rt; findings == want);
    Ok(())
}

fn random_place(state: &mut u64) -> PositionKind {
    match random(state, 12) {
        0 => PositionKind::Root,
        1 => PositionKind::Dynamic,
        2 => PositionKind::Private,
        3 => PositionKind::Other,
        _ => PositionKind::Unwritten,
    }
}

fn random_places(
    alloc: Global,
    state: &mut u64,
    count: u32,
) -> Result<Vec<PositionKind>, AllocError> {
    let mut places = Vec::new(alloc);
    for _ in 0..count {
        places.push(random_place(state))?;
    }
    Ok(places)
}

// Links in one direction, in both, and to the position below.
fn random_links(alloc: Global, state: &mut u64, count: u32) -> Result<Vec<Link>, AllocError> {
    let mut links = Vec::new(alloc);
    for _ in 0..random(state, 25) {
        let from = random(state, count);
        let to = random(state, count);
        match random(state, 3) {
            0 => links.push(link(from, to, false))?,
            1 => make_equal(&mut links, from % 16, to % 16, 1)?,
            _ => lead_down(
                &mut links,
                from % 16,
                u32::from(from.saturating_add(1) < count),
            )?,
        }
    }
    Ok(links)
}

// Whether both found the same of the positions without a written mode.
fn agree(places: &[PositionKind], fast: &[NodeFinding], plain: &[NodeFinding]) -> bool {
    let unwritten = |place: &PositionKind| matches!(
        place,
        PositionKind::Root | PositionKind::Unwritten
    );
    fast.len() == places.len()
        && plain.len() == places.len()
        && places.iter().zip(fast.iter().zip(plain)).all(|(place, (fast, plain))| !unwritten(place)
            || fast == plain)
}

fn behind_count(findings: &[NodeFinding]) -> usize {
    findings
        .iter()
        .filter(|finding| matches!(finding, NodeFinding::Behind { rank, .. } if *rank > 2))
        .count()
}

#[test]
fn as_by_rounds(rt: HostRuntime) -> Result<(), Fail> {
    let mut state = 11;
    let mut far = 0_usize;
    for turn in 0..600 {
        let count = random(&mut state, 12).saturating_add(1);
        let places = random_places(rt.alloc(), &mut state, count)?;
        let links = random_links(rt.alloc(), &mut state, count)?;
        assert!(rt; places.len() < 100 && links.len() < 100 && are_within(places.len(), &links));
        let fast = least_assignment(rt.alloc(), &places, &links)?;
        let plain = least_by_rounds(rt.alloc(), &places, &links)?;
        assert!(rt; agree(&places, &fast, &plain), "at {turn}");
        far = far.saturating_add(behind_count(&plain));
    }
    assert!(rt; far > 100, "only {far} positions of a rank above 2");
    Ok(())
}
