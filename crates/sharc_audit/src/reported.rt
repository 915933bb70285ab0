// What the lines report to each thread.

ghost use Rattle.std.specs.Prelude.{◌≡◌, ℕ, ◌==◌, [], ◌∷◌, ◌++◌, IfOk, OnOk, drop, if◌then◌else◌};
ghost use Rattle.sharc_audit.specs.{Lines.told_to, Reported.told_in};

use crate::line::EventLine;
use crate::matching::told;
use std::alloc::{AllocError, Global};
use std::collections::HashMap;

/// What the lines report to each thread, in their order.
pub(crate) type Reported = HashMap<u32, Vec<i64>>;

// One answer more to a thread.
fn add(alloc: Global, all: &mut Reported, thread: u32, answer: i64) -> Result<(), AllocError>
    ensures { OnOk result ((t : ℕ)
        → told_in all.new t ≡ (if thread == t then told_in all.old t ++ answer ∷ [] else told_in all.old t)) }
{
    let mut own = match all.remove(&thread) {
        None => Vec::new(alloc),
        Some(own) => own,
    };
    own.push(answer)?;
    all.insert(thread, own)?;
    Ok(())
}

/// What these lines report to each thread.
pub(crate) fn told_to_each(alloc: Global, lines: &[EventLine]) -> Result<Reported, AllocError>
    ensures { IfOk result (λ all. (t : ℕ) → told_in all t ≡ told_to t lines.now) }
{
    let mut all = HashMap::new(alloc);
    for line in lines {
        add(alloc, &mut all, line.thread, told(line))?;
    }
    Ok(all)
}

/// What they report to the thread behind its first line.
pub(crate) fn told_behind_first(
    alloc: Global,
    all: &Reported,
    thread: u32,
) -> Result<Vec<i64>, AllocError>
    ensures { IfOk result (λ own. own.items ≡ drop 1 (told_in all.now thread)) }
{
    match all.get(&thread) {
        None => Ok(Vec::new(alloc)),
        Some(own) => match own.as_slice() {
            [] => Ok(Vec::new(alloc)),
            [_, behind @ ..] => Vec::from_slice(alloc, behind),
        },
    }
}
