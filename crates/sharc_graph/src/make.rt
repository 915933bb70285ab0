//! The links of types that are made equal, and of the levels of one type.

ghost use Rattle.std.specs.Prelude.{◌≡◌, ◌+◌, ◌^◌, ◌<◌, ◌++◌, ◌∷◌, [], OnOk};
ghost use Rattle.sharc_graph.specs.{Flow.link_of, Make.{equal_links, below_links}};

use crate::graph::Edge;
use crate::place::Link;
use std::alloc::AllocError;

/// Makes this many positions from the first on equal to those from the second on, depth by depth and in both
/// directions.
pub fn make_equal(
    links: &mut Vec<Link>,
    first: u32,
    second: u32,
    depths: u32,
) -> Result<(), AllocError>
    requires first { first + depths < 2 ^ 32 }
    requires second { second + depths < 2 ^ 32 }
    ensures { OnOk result (links.new.items ≡ links.old.items ++ equal_links first second depths) }
{
    for depth in 0..depths {
        push(links, first + depth, second + depth, false)?;
        push(links, second + depth, first + depth, false)?;
    }
    Ok(())
}

/// Lets each of this many positions from the first on lead to the next one, which lies directly below it.
pub fn lead_down(links: &mut Vec<Link>, first: u32, depths: u32) -> Result<(), AllocError>
    requires first { first + depths + 1 < 2 ^ 32 }
    ensures { OnOk result (links.new.items ≡ links.old.items ++ below_links first depths) }
{
    for depth in 0..depths {
        push(links, first + depth, first + depth + 1, true)?;
    }
    Ok(())
}

// One link more.
fn push(links: &mut Vec<Link>, from: u32, to: u32, below: bool) -> Result<(), AllocError>
    ensures { OnOk result (links.new.items ≡ links.old.items ++ link_of from to below ∷ []) }
{
    links.push(Link {
        edge: Edge { from, to },
        below,
    })?;
    Ok(())
}
