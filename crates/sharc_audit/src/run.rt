// One thread: what it asks for with all that the lines report to it, as far as it was walked.

ghost use Rattle.std.specs.Prelude.{◌≡◌, ◌<◌, ◌≤◌, IfOk, OnOk, false};
ghost use Rattle.sharc_audit.specs.Walks.{IsWalk, needs_more};

use sharc_ask::asked::Outcome;
use sharc_ask::thread::ask;
use sharc_mode::moded::Moded;
use sharc_tree::event::SourceEvents;
use std::alloc::{AllocError, Global};

/// What a thread asks for with this much fuel.
#[derive(Drop)]
pub struct ThreadWalk {
    pub fuel: u64,
    pub events: SourceEvents,
    /// Whether the fuel is spent behind these events.
    pub spent: bool,
}

/// A thread that has begun: its function and argument, all that the lines report to it, and how far it was walked.
#[derive(Drop)]
pub struct ThreadRun {
    pub thread: u32,
    pub function: u32,
    pub argument: i64,
    pub answers: Vec<i64>,
    pub walk: ThreadWalk,
}

/// Walks a thread from its start with this much fuel.
pub(crate) fn walked(
    alloc: Global,
    program: &Moded,
    function: u32,
    argument: i64,
    answers: &[i64],
    fuel: u64,
) -> Result<ThreadWalk, AllocError>
    ensures walk { IfOk result (IsWalk program.now function argument answers.now) }
    ensures fuel { IfOk result (λ walk. walk.fuel ≡ fuel) }
{
    let asked = ask(alloc, program, function, argument, answers, fuel)?;
    let spent = match &asked.outcome {
        Outcome::Fuel => true,
        _ => false,
    };
    Ok(ThreadWalk {
        fuel,
        events: asked.events,
        spent,
    })
}

/// The fuel of the first walk of a thread.
pub(crate) fn first_fuel(fuel: u64) -> u64
    ensures { result ≤ fuel }
{
    if fuel < 64 { fuel } else { 64 }
}

/// The fuel of the next walk: four times as much, so that all walks of a thread together are a small multiple of the
/// last.
fn more_fuel(walked: u64, fuel: u64) -> u64
    requires { walked < fuel }
    ensures more { walked < result }
    ensures most { result ≤ fuel }
{
    if walked < fuel / 4 {
        4 * (walked + 1)
    } else {
        fuel
    }
}

/// Whether only a walk with more fuel tells which event stands at this place, if any.
fn needs_more(walk: &ThreadWalk, place: usize, fuel: u64) -> bool
    ensures { result ≡ needs_more place fuel walk.now }
{
    !(place < walk.events.len()) && walk.spent && walk.fuel < fuel
}

/// Walks on as far as the event at this place, if it comes with this fuel.
pub(crate) fn walk_to(
    alloc: Global,
    program: &Moded,
    place: usize,
    fuel: u64,
    run: &mut ThreadRun,
) -> Result<(), AllocError>
    requires walk { IsWalk program.now run.old.function run.old.argument run.old.answers.items run.old.walk }
    requires within { run.old.walk.fuel ≤ fuel }
    ensures same { run.new ≡ record run.old { walk = run.new.walk } }
    ensures walk { OnOk result
        (IsWalk program.now run.old.function run.old.argument run.old.answers.items run.new.walk) }
    ensures within { OnOk result (run.new.walk.fuel ≤ fuel) }
    ensures far { OnOk result (needs_more place fuel run.new.walk ≡ false) }
{
    'walks: while needs_more(&run.walk, place, fuel) {
        run.walk = walked(
            alloc,
            program,
            run.function,
            run.argument,
            run.answers.as_slice(),
            more_fuel(run.walk.fuel, fuel),
        )?;
    }
    Ok(())
}
