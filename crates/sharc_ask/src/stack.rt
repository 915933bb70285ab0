// What is left to do behind a plan: the stack of the walk.

ghost use Rattle.std.specs.Prelude.{◌≡◌, ◌∷◌, OnOk, IfErr};
ghost use Rattle.sharc_ask.specs.{declared.state.RunEnd.TheVariants.Memory, Stack.{stack_of, with_rest}};

use crate::frames::SuspendedCaller;
use crate::plan::{Call, Plan, Rest};
use crate::state::{Goes, RunEnd};
use sharc_tree::tree::{Declaration, Expr, FunctionDefinition};

/// A call some of whose arguments have their values. Temporaries after the mark end with it.
#[derive(Drop)]
pub struct PendingCall<'a> {
    pub call: Call<'a>,
    pub mark: usize,
    /// Parameters and arguments that are left.
    pub parameters: &'a [Declaration],
    pub arguments: &'a [Expr],
    pub values: Vec<i64>,
}

/// The caller of a function that runs.
#[derive(Drop)]
pub struct Caller<'a> {
    pub function: &'a FunctionDefinition,
    pub kept: SuspendedCaller,
}

/// What is to be done with a value.
#[derive(Drop)]
pub enum Later<'a> {
    Rest(Rest<'a>),
    /// It is the next argument.
    Passes(PendingCall<'a>),
    /// It says how a body is left.
    Returns(Caller<'a>),
}

/// That, and how many more frames a call may have there.
#[derive(Drop)]
pub struct Left<'a> {
    pub frames: u32,
    pub later: Later<'a>,
}

/// Where the walk is: a plan, and how many more frames a call in it may have.
#[derive(Clone, Copy)]
pub struct At<'a> {
    pub frames: u32,
    pub plan: Plan<'a>,
}

/// One more thing is left to do, before all others.
pub fn push<'a>(frames: u32, later: Later<'a>, stack: &mut Vec<Left<'a>>) -> Goes<()>
    ensures pushed { OnOk result (stack_of stack.new
        ≡ record { frames = frames; later = later.entry } ∷ stack_of stack.old) }
    ensures memory { IfErr result (λ e. e ≡ Memory) }
{
    match stack.push(Left { frames, later }) {
        Ok(()) => Ok(()),
        Err(_) => Err(RunEnd::Memory),
    }
}

/// Likewise of the rest of a plan, of which `Same` needs no place.
pub fn push_rest<'a>(frames: u32, rest: Rest<'a>, stack: &mut Vec<Left<'a>>) -> Goes<()>
    ensures pushed { OnOk result (stack_of stack.new ≡ with_rest frames rest.entry (stack_of stack.old)) }
    ensures memory { IfErr result (λ e. e ≡ Memory) }
{
    match rest {
        Rest::Same => Ok(()),
        Rest::Value(_, _) => push(frames, Later::Rest(rest), stack),
        Rest::Place(_, _) => push(frames, Later::Rest(rest), stack),
        Rest::Number(_) => push(frames, Later::Rest(rest), stack),
        Rest::After(_) => push(frames, Later::Rest(rest), stack),
    }
}
