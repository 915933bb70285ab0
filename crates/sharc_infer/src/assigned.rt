// Modes and reasons from what is found of each position.

ghost use Rattle.std.specs.Prelude.{◌≡◌, length, IfOk};
ghost use Rattle.sharc_mode.specs.Flows.{inferred_mode, mode_found};
ghost use Rattle.sharc_infer.specs.Positions.{reason_of, AreModesOf, AreReasonsOf};

use sharc_graph::NodeFinding;
use sharc_mode::position::Reason;
use sharc_tree::ctype::Mode;
use std::alloc::{AllocError, Global};

/// The mode of a position without a written one.
fn inferred_mode(finding: NodeFinding) -> Mode
    ensures { result ≡ inferred_mode finding }
{
    match finding {
        NodeFinding::Apart => Mode::Private,
        NodeFinding::Source => Mode::Dynamic,
        NodeFinding::Behind { .. } => Mode::Dynamic,
    }
}

/// The mode of a position of which this is settled.
fn mode_found(
    alloc: Global,
    settled: &Option<Mode>,
    finding: NodeFinding,
) -> Result<Mode, AllocError>
    ensures { IfOk result (λ m. m ≡ mode_found settled.now finding) }
{
    match settled {
        Some(mode) => mode.copy(alloc),
        None => Ok(inferred_mode(finding)),
    }
}

/// The modes of all positions.
pub(crate) fn modes(
    alloc: Global,
    settled: &[Option<Mode>],
    findings: &[NodeFinding],
) -> Result<Vec<Mode>, AllocError>
    requires { length findings.now ≡ length settled.now }
    ensures { IfOk result (λ modes. AreModesOf settled.now findings.now modes.items) }
{
    let mut modes = Vec::with_capacity(alloc, settled.len())?;
    for position in 0..settled.len() {
        modes.push(mode_found(alloc, &settled[position], findings[position])?)?;
    }
    Ok(modes)
}

/// Why a position is dynamic, where it was inferred to be.
fn reason_of(settled: &Option<Mode>, finding: NodeFinding, root: Option<Reason>) -> Option<Reason>
    ensures { result ≡ reason_of settled.now finding root }
{
    match settled {
        Some(_) => None,
        None => match finding {
            NodeFinding::Apart => None,
            NodeFinding::Source => root,
            NodeFinding::Behind { reason, .. } => Some(Reason::From(reason)),
        },
    }
}

/// The reasons of all positions.
pub(crate) fn reasons(
    alloc: Global,
    settled: &[Option<Mode>],
    findings: &[NodeFinding],
    roots: &[Option<Reason>],
) -> Result<Vec<Option<Reason>>, AllocError>
    requires findings { length findings.now ≡ length settled.now }
    requires roots { length roots.now ≡ length settled.now }
    ensures { IfOk result (λ reasons. AreReasonsOf settled.now findings.now roots.now reasons.items) }
{
    let mut reasons = Vec::with_capacity(alloc, settled.len())?;
    for position in 0..settled.len() {
        reasons.push(reason_of(&settled[position], findings[position], roots[position]))?;
    }
    Ok(reasons)
}
