// The inference of a program's modes.

ghost use Rattle.std.specs.Prelude.{◌≡◌, IfOk, IfErr};
ghost use Rattle.sharc_mode.specs.Flows.{IsLeastAssignment};
ghost use Rattle.sharc_reach.specs.Reaching.{AreReached};

use crate::assigned::{modes, reasons};
use crate::links::links;
use crate::places::places;
use crate::roots::roots;
use crate::settled::settled;
use sharc_ctype::typed::Typed;
use sharc_graph::least_assignment;
use sharc_mode::laws::link_laws;
use sharc_mode::moded::Moded;
use sharc_mode::position::{Modes, Reasons};
use sharc_reach::Reached;
use sharc_tree::listed::Listed;
use std::alloc::{AllocError, Global};

/// The modes and reasons of a program's positions.
fn assignment(
    alloc: Global,
    typed: &Typed,
    reached: &Reached,
) -> Result<(Modes, Reasons), AllocError>
    requires { AreReached typed.now reached.now }
    ensures { IfOk result (λ a. IsLeastAssignment (record { typed = typed.now; modes = a.0; reasons = a.1 })) }
{
    link_laws();
    let _all = typed.position_count();
    let settled = settled(alloc, typed)?;
    let roots = roots(alloc, typed, reached)?;
    let places = places(alloc, &settled, &roots)?;
    let links = links(alloc, typed)?;
    if links.len() > u32::MAX as usize {
        return Err(AllocError);
    }
    let findings = least_assignment(alloc, &places, &links)?;
    let modes = modes(alloc, &settled, &findings)?;
    let reasons = reasons(alloc, &settled, &findings, &roots)?;
    Ok((Listed::of(modes), Listed::of(reasons)))
}

/// The program with the least assignment of modes: a position without a written mode is dynamic exactly where a path of
/// links leads to it from a root, from a dynamic position or from below another mode that is not private, and then has
/// a reason. `reached` is what `reach` answers for the program. Being out of memory hands the program back and is the
/// only refusal; more links, globals or functions than a number of 32 bits counts are answered so, too.
pub fn infer(alloc: Global, typed: Typed, reached: &Reached) -> Result<Moded, Typed>
    requires { AreReached typed reached.now }
    ensures least { IfOk result (λ m. IsLeastAssignment m) }
    ensures typed { IfOk result (λ m. m.typed ≡ typed) }
    ensures refused { IfErr result (λ back. back ≡ typed) }
{
    match assignment(alloc, &typed, reached) {
        Ok((modes, reasons)) => Ok(Moded::assign(typed, modes, reasons)),
        Err(_) => Err(typed),
    }
}
