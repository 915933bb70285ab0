// What is reached and touched.

ghost use Rattle.std.specs.Prelude.{◌≡◌, ◌<◌, length, map, IfOk};
ghost use Rattle.sharc_reach.specs.{Graphs.{is_found, is_source}, Reaching.{is_chosen, first_of, AreReached}};

use crate::edges::edges;
use crate::firsts::firsts;
use crate::sources::nodes;
use crate::walk::all_mentions;
use sharc_ctype::typed::Typed;
use sharc_graph::{NodeFinding, find};
use std::alloc::{AllocError, Global};
use std::marker::Model;

/// The reached functions, those that are spawned, and for each global the first reached function in source order that
/// names it. A contract sees it as these three lists, by number.
#[derive(Drop)]
pub struct Reached {
    functions: Vec<bool>,
    spawned: Vec<bool>,
    firsts: Vec<Option<u32>>,
}

impl Model for Reached {
    ghost use Rattle.sharc_reach.specs.Reaching.{Reaching};

    ghost Value = { Reaching };

    ghost view = { λ a. record { functions = a.functions.items; spawned = a.spawned.items; firsts = a.firsts.items } };
}

impl Reached {
    /// Whether the function with this number is reached: it is spawned anywhere, or called or spawned in a reached
    /// function. It takes no memory and one step.
    pub fn function(&self, function: u32) -> bool
        requires { function < length self.now.functions }
        ensures { result ≡ is_chosen self.now.functions function }
    {
        self.functions[function as usize]
    }

    /// Whether the function with this number is spawned anywhere. It takes no memory and one step.
    pub fn spawned(&self, function: u32) -> bool
        requires { function < length self.now.spawned }
        ensures { result ≡ is_chosen self.now.spawned function }
    {
        self.spawned[function as usize]
    }

    /// The first reached function in source order that names the global with this number, in a lock path too; none
    /// where no reached function does. It takes no memory and one step.
    pub fn touched(&self, global: u32) -> Option<u32>
        requires { global < length self.now.firsts }
        ensures { result ≡ first_of self.now global }
    {
        self.firsts[global as usize]
    }
}

// Whether a path leads to each.
fn are_found(alloc: Global, findings: &[NodeFinding]) -> Result<Vec<bool>, AllocError>
    ensures { IfOk result (λ found. found.items ≡ map is_found findings.now) }
{
    findings
        .iter()
        .map(|finding| !finding.is_apart())
        .collect(alloc)
}

// Which of them are sources.
fn are_sources(alloc: Global, findings: &[NodeFinding]) -> Result<Vec<bool>, AllocError>
    ensures { IfOk result (λ sources. sources.items ≡ map is_source findings.now) }
{
    findings
        .iter()
        .map(|finding| is_source(*finding))
        .collect(alloc)
}

fn is_source(finding: NodeFinding) -> bool
    ensures { result ≡ is_source finding }
{
    match finding {
        NodeFinding::Apart => false,
        NodeFinding::Source => true,
        NodeFinding::Behind { .. } => false,
    }
}

/// What is reached and touched in a program. Running out of memory is the only error; more functions or calls than a
/// number of 32 bits counts are answered so, too.
pub fn reach(alloc: Global, typed: &Typed) -> Result<Reached, AllocError>
    ensures { IfOk result (λ reached. AreReached typed.now reached) }
{
    let functions = typed.function_count();
    if functions > u32::MAX as usize {
        return Err(AllocError);
    }
    let count = functions as u32;
    let mentions = all_mentions(alloc, typed, count)?;
    let edges = edges(alloc, typed, count, &mentions)?;
    if edges.len() > u32::MAX as usize {
        return Err(AllocError);
    }
    let nodes = nodes(alloc, typed, count, &mentions)?;
    let findings = find(alloc, &nodes, &edges)?;
    let functions = are_found(alloc, &findings)?;
    let spawned = are_sources(alloc, &findings)?;
    let firsts = firsts(alloc, typed, &functions, typed.global_count(), &mentions)?;
    Ok(Reached {
        functions,
        spawned,
        firsts,
    })
}
