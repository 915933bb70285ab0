// What is known of each position before the inference.

ghost use Rattle.std.specs.Prelude.{◌≡◌, length, IfOk};
ghost use Rattle.sharc_mode.specs.Flows.{written_place};
ghost use Rattle.sharc_infer.specs.Positions.{place_of, ArePlacesOf};

use sharc_graph::PositionKind;
use sharc_mode::position::Reason;
use sharc_tree::ctype::Mode;
use std::alloc::{AllocError, Global};

/// The place of a position with this mode.
fn written_place(mode: &Mode) -> PositionKind
    ensures { result ≡ written_place mode.now }
{
    match mode {
        Mode::Private => PositionKind::Private,
        Mode::Readonly => PositionKind::Other,
        Mode::Locked(_) => PositionKind::Other,
        Mode::Racy => PositionKind::Other,
        Mode::Dynamic => PositionKind::Dynamic,
    }
}

/// The place of a position of which this is settled, and which is a root for this reason or is not one.
fn place_of(settled: &Option<Mode>, root: Option<Reason>) -> PositionKind
    ensures { result ≡ place_of settled.now root }
{
    match settled {
        Some(mode) => written_place(mode),
        None => match root {
            None => PositionKind::Unwritten,
            Some(_) => PositionKind::Root,
        },
    }
}

/// The places of all positions.
pub(crate) fn places(
    alloc: Global,
    settled: &[Option<Mode>],
    roots: &[Option<Reason>],
) -> Result<Vec<PositionKind>, AllocError>
    requires { length roots.now ≡ length settled.now }
    ensures { IfOk result (λ places. ArePlacesOf settled.now roots.now places.items) }
{
    let mut places = Vec::with_capacity(alloc, settled.len())?;
    for position in 0..settled.len() {
        places.push(place_of(&settled[position], roots[position]))?;
    }
    Ok(places)
}
