// The reads of nulled variables.

ghost use Rattle.std.specs.Prelude.{◌≡◌, ℕ, max, ◌++◌, Contains, None, IfOk, OnOk};
ghost use Rattle.sharc_dataflow.specs.{Code.{Code, listing}, Sums.warns, Gathered.{nulled_at, all_nulled, all_warns}};
ghost use Rattle.sharc_dataflow.specs.{Uses.AddsUses, Narrow.AreBetween};

use crate::back::heads_of;
use crate::forth::tell;
use crate::narrow::{VariableRange, narrowed};
use crate::step::Step;
use crate::way::FlowWarning;
use std::alloc::{AllocError, Global};

/// Adds the warnings about a variable.
fn about(
    alloc: Global,
    x: u32,
    steps: &[Step],
    found: Vec<FlowWarning>,
) -> Result<Vec<FlowWarning>, AllocError>
    ensures { IfOk result (λ v. (c : Code) → steps.now ≡ listing c → v.items ≡ found.items ++ warns x c None) }
{
    let heads = heads_of(alloc, x, steps)?;
    let told = tell(alloc, x, steps, heads, found)?;
    Ok(told)
}

/// Adds the variable that a step nulls.
fn null_at(step: Step, list: &mut Vec<u32>) -> Result<(), AllocError>
    ensures { OnOk result (list.new.items ≡ list.old.items ++ nulled_at step) }
{
    if let Step::Null(x, _) = step {
        list.push(x)?;
    }
    Ok(())
}

/// The variables that steps null, as often as they do.
fn all_nulled(alloc: Global, steps: &[Step]) -> Result<Vec<u32>, AllocError>
    ensures { IfOk result (λ v. v.items ≡ all_nulled steps.now) }
{
    let mut list = Vec::new(alloc);
    for step in steps {
        null_at(*step, &mut list)?;
    }
    Ok(list)
}

/// The variables that steps null, each once.
fn nulled(alloc: Global, steps: &[Step]) -> Result<Vec<u32>, AllocError>
    ensures { IfOk result (λ v. (x : ℕ) → Contains (all_nulled steps.now) x → Contains v.items x) }
{
    let mut list = all_nulled(alloc, steps)?;
    list.sort()?;
    list.dedup();
    Ok(list)
}

fn greater(a: u32, b: u32) -> u32
    ensures { result ≡ max a b }
{
    if a < b { b } else { a }
}

/// From the least of these variables to the greatest.
fn all_between(list: &[u32]) -> VariableRange
    ensures { AreBetween result.first result.last list.now }
{
    let mut first = u32::MAX;
    let mut last = 0;
    for x in list {
        first = first.min(*x);
        last = greater(last, *x);
    }
    VariableRange { first, last }
}

/// Adds the warnings about some variables: of one by two passes over the steps, of more by halves, each by the steps
/// that matter to it.
fn about_all(
    alloc: Global,
    list: &[u32],
    steps: &[Step],
    found: Vec<FlowWarning>,
) -> Result<Vec<FlowWarning>, AllocError>
    ensures { IfOk result (λ v. (c : Code) → steps.now ≡ listing c → v.items ≡ found.items ++ all_warns c list.now) }
{
    match list {
        [] => Ok(found),
        [x] => about(alloc, *x, steps, found),
        [_, _, ..] => {
            let (these, others) = list.split_at(list.len() / 2);
            let matter = narrowed(alloc, all_between(these), steps)?;
            let found = about_all(alloc, these, matter.as_slice(), found)?;
            drop(matter);
            let matter = narrowed(alloc, all_between(others), steps)?;
            let found = about_all(alloc, others, matter.as_slice(), found)?;
            Ok(found)
        }
    }
}

/// Adds the reads of nulled variables in code that is written down as these steps, in any order. It goes over the steps
/// as often as the variables that they null can be halved. It is refused only where memory runs out.
pub fn nulled_reads(
    alloc: Global,
    steps: &[Step],
    found: Vec<FlowWarning>,
) -> Result<Vec<FlowWarning>, AllocError>
    ensures { IfOk result (λ v. (c : Code) → steps.now ≡ listing c → AddsUses c found.items v.items) }
{
    let list = nulled(alloc, steps)?;
    let matter = narrowed(alloc, all_between(list.as_slice()), steps)?;
    let told = about_all(alloc, list.as_slice(), matter.as_slice(), found)?;
    Ok(told)
}
