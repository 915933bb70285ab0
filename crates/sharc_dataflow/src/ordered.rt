// One warning for each read, in the order of the reads.

ghost use Rattle.std.specs.Prelude.{◌≡◌, None, OnOk, IfOk};
ghost use Rattle.sharc_dataflow.specs.{Orders.{IsInOrder, is_read, first_each}, Uses.AreFirsts};

use crate::way::FlowWarning;
use std::alloc::{AllocError, Global};

fn put_in_order(found: &mut Vec<FlowWarning>) -> Result<(), AllocError>
    ensures { OnOk result (IsInOrder found.old.items found.new.items) }
{
    found.sort_by_key(|w| (w.read, w.since))?;
    Ok(())
}

fn is_read(last: Option<u32>, read: u32) -> bool
    ensures { result ≡ is_read last read }
{
    match last {
        None => false,
        Some(last) => last == read,
    }
}

/// Those that do not warn of the same read as the one before.
fn first_each(alloc: Global, sorted: &[FlowWarning]) -> Result<Vec<FlowWarning>, AllocError>
    ensures { IfOk result (λ v. v.items ≡ first_each None sorted.now) }
{
    let mut firsts = Vec::new(alloc);
    let mut last = None;
    for w in sorted {
        if !is_read(last, w.read) {
            firsts.push(*w)?;
            last = Some(w.read);
        }
    }
    Ok(firsts)
}

/// Of each read the warning that names the first nulling, in the order of the reads. It is refused only where memory
/// runs out.
pub fn firsts(alloc: Global, found: Vec<FlowWarning>) -> Result<Vec<FlowWarning>, AllocError>
    ensures { IfOk result (λ v. AreFirsts found.items v.items) }
{
    let mut sorted = found;
    put_in_order(&mut sorted)?;
    let firsts = first_each(alloc, sorted.as_slice())?;
    Ok(firsts)
}
