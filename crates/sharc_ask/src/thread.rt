// What a thread of a function asks for.

ghost use Rattle.std.specs.Prelude.{◌≡◌, ◌≤◌, IfOk};
ghost use Rattle.sharc_ctype.specs.Resolved.{function_at};
ghost use Rattle.sharc_meaning.specs.Meaning.{asks, goes_away, run_thread, start};
ghost use Rattle.sharc_ask.specs.{StepView.{known, view_state, Does}, Held.all_held, View.{leaves, Tells}};

use crate::asked::{Asked, Holds, Outcome};
use crate::frames::held_by;
use crate::state::{Frame, Goes, RunEnd, State, perform, unless};
use crate::walk::run_function;
use sharc_mode::moded::Moded;
use sharc_tree::event::Act;
use sharc_tree::listed::Listed;
use sharc_tree::token::Site;
use sharc_tree::trap::Trap;
use std::alloc::{AllocError, Global};

fn leaves(name: Site, st: &mut State) -> Goes<()>
    ensures { Does (view_state st.old) result (view_state st.new) (leaves name) }
{
    perform(name, Act::Return, st)?;
    perform(name, Act::Gone, st)
}

/// A thread returns where it holds no mutex, and is then gone.
fn goes_away(name: Site, site: Site, st: &mut State) -> Goes<()>
    ensures { Does (view_state st.old) result (view_state st.new) (goes_away name site) }
{
    let free = st.held.is_empty();
    unless(free, Trap::ReturnWithLockHeld, site, st)?;
    leaves(name, st)
}

fn run_thread(program: &Moded, number: u32, argument: i64, st: &mut State) -> Goes<()>
    ensures { Does (view_state st.old) result (view_state st.new)
        (run_thread program.now (function_at program.now.typed number) argument) }
{
    match program.typed().function_at(number) {
        None => Ok(()),
        Some(function) => {
            let left = run_function(program, 255, function, &[argument], st)?;
            goes_away(function.name.site, left.0, st)
        }
    }
}

/// What a thread of the function with this number asks for, given its argument and the answers of its events, with this
/// much fuel. A thread of a function that does not exist asks for nothing and is over. Its only fault is being out of
/// memory.
pub fn ask(
    alloc: Global,
    program: &Moded,
    function: u32,
    argument: i64,
    answers: &[i64],
    fuel: u64,
) -> Result<Asked, AllocError>
    ensures { IfOk result (λ a. Tells a (asks program.now function argument answers.now fuel)) }
{
    let frame = Frame {
        variables: Vec::new(alloc),
        temporaries: Vec::new(alloc),
    };
    let mut st = State {
        alloc,
        frame,
        below: Vec::new(alloc),
        answers,
        events: Vec::new(alloc),
        held: Vec::new(alloc),
        fuel,
        given_up: Vec::new(alloc),
    };
    match run_thread(program, function, argument, &mut st) {
        Ok(()) => Ok(told(st, Outcome::Ended)),
        Err(RunEnd::Memory) => Err(AllocError),
        Err(RunEnd::Stopped(trap, site)) => Ok(told(st, Outcome::StoppedX(trap.number(), site))),
        Err(RunEnd::Spent) => Ok(told(st, Outcome::Fuel)),
        Err(RunEnd::Wants(event)) => match held_by(alloc, st.below.as_slice(), &st.frame) {
            None => Err(AllocError),
            Some(held) => Ok(told(st, Outcome::Wants(event, Listed::of(held)))),
        },
    }
}

fn told(st: State, outcome: Outcome) -> Asked
    ensures events { result.events ≡ st.entry.events.items }
    ensures outcome { result.outcome ≡ outcome }
    ensures given_up { result.given_up ≡ st.entry.given_up.items }
{
    Asked {
        events: Listed::of(st.events),
        outcome,
        given_up: Listed::of(st.given_up),
    }
}

fn started(alloc: Global, answers: &[i64], fuel: u64) -> State<'_>
    ensures { view_state result ≡ known (start answers.now fuel) }
{
    State {
        alloc,
        frame: Frame {
            variables: Vec::new(alloc),
            temporaries: Vec::new(alloc),
        },
        below: Vec::new(alloc),
        answers,
        events: Vec::new(alloc),
        held: Vec::new(alloc),
        fuel,
        given_up: Vec::new(alloc),
    }
}

fn held_in(alloc: Global, st: State) -> Result<Holds, AllocError>
    ensures { IfOk result (λ all. all ≡ all_held (view_state st.entry)) }
{
    match held_by(alloc, st.below.as_slice(), &st.frame) {
        None => Err(AllocError),
        Some(held) => Ok(Listed::of(held)),
    }
}

/// The pointers that the frames and temporaries of such a thread hold as far as it comes: at the event that it wants,
/// at its stop or its end, or where its fuel is spent. Its only fault is being out of memory.
pub fn held(
    alloc: Global,
    program: &Moded,
    function: u32,
    argument: i64,
    answers: &[i64],
    fuel: u64,
) -> Result<Holds, AllocError>
    ensures { IfOk result (λ all. all ≡ (asks program.now function argument answers.now fuel).held) }
{
    let mut st = started(alloc, answers, fuel);
    match run_thread(program, function, argument, &mut st) {
        Err(RunEnd::Memory) => Err(AllocError),
        Ok(()) => held_in(alloc, st),
        Err(RunEnd::Stopped(_, _)) => held_in(alloc, st),
        Err(RunEnd::Spent) => held_in(alloc, st),
        Err(RunEnd::Wants(_)) => held_in(alloc, st),
    }
}
