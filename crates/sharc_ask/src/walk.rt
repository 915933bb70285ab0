// What a thread does on its way: tasks, one after the other, and calls. What is left to do is on a stack of its own.

ghost use Rattle.std.specs.Prelude.{◌≡◌, ◌<◌, ◌+◌, ◌*◌, ℕ, List, IfOk};
ghost use Rattle.sharc_mode.specs.Moded.{Assignment};
ghost use Rattle.sharc_meaning.specs.{State.Run, Expressions.Calls, Meaning.{calls, run_function}};
ghost use Rattle.sharc_ask.specs.{Values.Value as Meant, declared.stack.Left.Left as Kept, StepView.Known};
ghost use Rattle.sharc_ask.specs.{StepView.{view_state, Does}, Plans.{task_means, goes_on, Plans, Begins, rank}};
ghost use Rattle.sharc_ask.specs.{Plans.{weight, size}, Stack.{stack_of, at_means, Moves, GoesOnWith, Steps, Comes}};
ghost use Rattle.sharc_ask.specs.Stack.{later_weight, GoesDown, load};
ghost use Rattle.sharc_tree.specs.View.{view_function};

use crate::calls::{begin_call, enter_function, pass_value, return_to};
use crate::expressions::{begin_eval, begin_place, field_plan, index_plan, pointee_plan};
use crate::flows::{begin_all, entered_plan, turns_plan};
use crate::parts::left_behind;
use crate::plan::{Plan, Rest, Task, Value, WithValue, flow_in, number_in};
use crate::rests::resume;
use crate::stack::{At, Later, Left, push_rest};
use crate::state::{Goes, RunEnd, State};
use crate::statements::{
    begin_first, begin_local, begin_right, return_plan, simple_plan, test_plan,
};
use sharc_mode::moded::Moded;
use sharc_tree::token::Site;
use sharc_tree::tree::FunctionDefinition;

fn begin<'a>(program: &'a Moded, task: Task<'a>, st: &mut State) -> Goes<Plan<'a>>
    ensures means { (on_call : Calls) → Plans on_call program.now (view_state st.old) result (view_state st.new)
        (task_means on_call program.now task.entry) }
    ensures begins { IfOk result (Begins (rank task.entry) st.old.fuel st.new.fuel) }
{
    match task {
        Task::Eval(e) => begin_eval(program, e, st),
        Task::Test(e) => Ok(Plan::Goes(Task::Eval(e), Rest::Value(e, WithValue::Tested))),
        Task::Argument(parameters, e) => Ok(Plan::Goes(
            Task::Eval(e),
            Rest::Value(e, WithValue::Passed(parameters)),
        )),
        Task::PlaceOf(site, e) => begin_place(program, site, e, st),
        Task::Index(site, a, i) => Ok(index_plan(program, site, a, i)),
        Task::Pointee(site, a) => Ok(pointee_plan(site, a)),
        Task::Field(site, a, access, named) => Ok(field_plan(site, a, access, named)),
        Task::Right(kind, target, right) => begin_right(program, kind, target, right, st),
        Task::Simple(simple) => Ok(simple_plan(simple, st)),
        Task::Declare(local) => begin_local(program, local, st),
        Task::First(head) => begin_first(&head.first, st),
        Task::LoopTest(test) => Ok(test_plan(test)),
        Task::Return(kind, site, value) => Ok(return_plan(kind, site, value)),
        Task::Entered(kind, statement) => Ok(entered_plan(kind, statement, st)),
        Task::All(kind, all) => begin_all(kind, all, st),
        Task::Turns(number, l) => turns_plan(number, l, st),
    }
}

// A task is begun, and this goes on behind it.
fn go<'a>(
    program: &'a Moded,
    frames: u32,
    task: Task<'a>,
    rest: Rest<'a>,
    stack: &mut Vec<Left<'a>>,
    st: &mut State,
) -> Goes<At<'a>>
    ensures moves { Moves program.now (view_state st.old) (stack_of stack.old) result (view_state st.new)
        (stack_of stack.new) (goes_on (calls program.now frames) program.now
        (task_means (calls program.now frames) program.now task.entry) rest.entry) }
    ensures ends { IfOk result (λ at. 64 * st.new.fuel + size at.plan + load (stack_of stack.new)
        < 64 * st.old.fuel + (rank task.entry + weight rest.entry) + load (stack_of stack.old)) }
{
    push_rest(frames, rest, stack)?;
    let plan = begin(program, task, st)?;
    Ok(At { frames, plan })
}

// What was left to do is done with this value.
fn go_on<'a>(
    program: &'a Moded,
    left: Left<'a>,
    value: Value,
    stack: &mut Vec<Left<'a>>,
    st: &mut State,
) -> Goes<At<'a>>
    ensures moves { GoesOnWith program.now (view_state st.old) left.entry value (stack_of stack.old) result
        (view_state st.new) (stack_of stack.new) }
    ensures ends { IfOk result (λ at. 64 * st.new.fuel + size at.plan + load (stack_of stack.new)
        < 64 * st.old.fuel + (later_weight left.entry.later + load (stack_of stack.old))) }
{
    let frames = left.frames;
    match left.later {
        Later::Rest(rest) => {
            let plan = resume(program, rest, value, st)?;
            Ok(At { frames, plan })
        }
        Later::Passes(passing) => pass_value(program, frames, passing, number_in(value), stack, st),
        Later::Returns(caller) => return_to(frames, caller, flow_in(value), st),
    }
}

/// What comes of one step.
enum Stepped<'a> {
    /// The whole comes to this value.
    Whole(Value),
    Goes(At<'a>),
}

fn further<'a>(answer: Goes<At<'a>>) -> Goes<Stepped<'a>>
    ensures steps { (m : Assignment) (before after : Known) (stack stack1 : List Kept) (run : Run Meant)
        → Moves m before stack answer.entry after stack1 run → Steps m before stack result after stack1 run }
    ensures ends { (before after : ℕ) → IfOk answer.entry (λ at. after + size at.plan < before)
        → IfOk result (λ next. GoesDown next before after) }
{
    let at = answer?;
    Ok(Stepped::Goes(at))
}

fn step<'a>(
    program: &'a Moded,
    at: At<'a>,
    stack: &mut Vec<Left<'a>>,
    st: &mut State,
) -> Goes<Stepped<'a>>
    ensures steps { Steps program.now (view_state st.old) (stack_of stack.old) result (view_state st.new)
        (stack_of stack.new) (at_means program.now at.entry) }
    ensures ends { IfOk result (λ next. GoesDown next (64 * st.old.fuel + size at.entry.plan
        + load (stack_of stack.old)) (64 * st.new.fuel + load (stack_of stack.new))) }
{
    match at.plan {
        Plan::Done(value) => match stack.pop() {
            None => Ok(Stepped::Whole(value)),
            Some(left) => further(go_on(program, left, value, stack, st)),
        },
        Plan::Goes(task, rest) => further(go(program, at.frames, task, rest, stack, st)),
        Plan::Calls(call) => further(begin_call(program, at.frames, call, stack, st)),
    }
}

fn walk<'a>(program: &'a Moded, begun: At<'a>, left: Vec<Left<'a>>, st: &mut State) -> Goes<Value>
    ensures { Comes program.now begun.entry (stack_of left.entry) (view_state st.old) result (view_state st.new) }
{
    let mut at = begun;
    let mut stack = left;
    loop {
        match step(program, at, &mut stack, st)? {
            Stepped::Whole(value) => return Ok(value),
            Stepped::Goes(next) => at = next,
        }
    }
}

/// A function of a frame of its own: where it is left, and its result.
pub fn run_function<'a>(
    program: &'a Moded,
    frames: u32,
    function: &'a FunctionDefinition,
    values: &[i64],
    st: &mut State,
) -> Goes<(Site, i64)>
    ensures { Does (view_state st.old) result (view_state st.new)
        (run_function (calls program.now frames) program.now (view_function function.now) values.now) }
{
    let mut stack = Vec::new(st.alloc);
    let at = enter_function(frames, function, values, &mut stack, st)?;
    left_behind(walk(program, at, stack, st))
}
