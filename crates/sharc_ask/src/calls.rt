// Calls: the arguments one after the other, a frame for the body, and the way back.

ghost use Rattle.std.specs.Prelude.{◌≡◌, ◌<◌, ◌≤◌, ◌+◌, ◌*◌, [], ◌∷◌, ◌++◌, pos, List, IfOk};
ghost use Rattle.sharc_tree.specs.View.{view_arguments, view_function};
ghost use Rattle.sharc_names.specs.Kinds.{declared_kinds};
ghost use Rattle.sharc_mode.specs.Moded.{Assignment};
ghost use Rattle.sharc_meaning.specs.{Expressions.called, Meaning.{calls, run_function}, State.give};
ghost use Rattle.sharc_ask.specs.{StepView.view_state, View.{calling, view_flow}, Values.{Value as Meant, number}};
ghost use Rattle.sharc_ask.specs.{Values.{flow_in, gives, as_left}, Plans.{ends_above, size}, Stack.{stack_of, Behind}};
ghost use Rattle.sharc_ask.specs.{Stack.{IsCaller, awaits, Moves, load}, declared.stack.Left.Left as Kept};

use crate::endings::end_variables;
use crate::expressions::begin_eval;
use crate::frames::{begin_parameters, left_at, pointers_passed, push_frame};
use crate::parts::{end_above, zero_behind};
use crate::plan::{After, Call, Plan, Rest, Task, Value, WithValue};
use crate::plans::done_number;
use crate::stack::{At, Caller, Later, Left, PendingCall, push};
use crate::state::{Goes, RunEnd, State, enter};
use crate::values::{Flow, parameters_named, rest_of};
use crate::waiting::condition_call;
use sharc_mode::moded::Moded;
use sharc_names::fault::Named;
use sharc_names::kind::declared_kind;
use sharc_tree::token::Site;
use sharc_tree::trap::Trap;
use sharc_tree::tree::FunctionDefinition;

/// A function is entered, in a frame of its own; a call in it may have so many more frames.
pub fn enter_function<'a>(
    frames: u32,
    function: &'a FunctionDefinition,
    values: &[i64],
    stack: &mut Vec<Left<'a>>,
    st: &mut State,
) -> Goes<At<'a>>
    ensures moves { (m : Assignment) → Moves m (view_state st.old) (stack_of stack.old) result (view_state st.new)
        (stack_of stack.new) (gives as_left (run_function (calls m frames) m (view_function function.now) values.now)) }
    ensures ends { IfOk result (λ at. 64 * st.new.fuel + size at.plan + load (stack_of stack.new) + 61
        ≤ 64 * st.old.fuel + load (stack_of stack.old)) }
{
    match push_frame(pointers_passed(function.parameters.as_slice()), st) {
        None => Err(RunEnd::Memory),
        Some(kept) => {
            push(frames, Later::Returns(Caller { function, kept }), stack)?;
            begin_parameters(function.parameters.as_slice(), values, st)?;
            enter(st)?;
            let kind = declared_kind(&function.result);
            let plan = Plan::Goes(Task::All(kind, function.statements.as_slice()), Rest::Same);
            Ok(At { frames, plan })
        }
    }
}

/// The frame of a function whose body is left so ends.
pub fn return_to<'a>(frames: u32, caller: Caller<'a>, flow: Flow, st: &mut State) -> Goes<At<'a>>
    ensures moves { (m : Assignment) (stack : List Kept) (f : Behind) (v : Meant) → IsCaller caller.entry f
        → flow_in v ≡ view_flow flow → Moves m (view_state st.old) stack result (view_state st.new) stack (f v) }
    ensures ends { IfOk result (λ at. 64 * st.new.fuel + size at.plan ≤ 64 * st.old.fuel) }
{
    let left = left_at(caller.function, flow);
    match end_variables(0, st) {
        Err(_) => Err(RunEnd::Memory),
        Ok(()) => {
            st.frame = caller.kept.frame;
            st.below = caller.kept.below;
            let plan = Plan::Done(Value::Flow(Flow::Returned(left.0, left.1)));
            Ok(At { frames, plan })
        }
    }
}

// A call of what is no function is 0.
fn no_call<'a>(frames: u32, mark: usize, st: &mut State) -> Goes<At<'a>>
    ensures moves { (m : Assignment) (stack : List Kept) → Moves m (view_state st.old) stack result
        (view_state st.new) stack (gives number (ends_above mark (give (pos 0)))) }
    ensures ends { IfOk result (λ at. 64 * st.new.fuel + size at.plan ≤ 64 * st.old.fuel) }
{
    let plan = done_number(end_above(Ok(0), mark, st))?;
    Ok(At { frames, plan })
}

fn call_function<'a>(
    program: &'a Moded,
    frames: u32,
    called: u32,
    site: Site,
    mark: usize,
    values: &[i64],
    stack: &mut Vec<Left<'a>>,
    st: &mut State,
) -> Goes<At<'a>>
    ensures moves { Moves program.now (view_state st.old) (stack_of stack.old) result (view_state st.new)
        (stack_of stack.new) (gives number (ends_above mark (calls program.now frames called site values.now))) }
    ensures ends { IfOk result (λ at. 64 * st.new.fuel + size at.plan + load (stack_of stack.new)
        < 64 * st.old.fuel + 1 + load (stack_of stack.old)) }
{
    if frames == 0 {
        return Err(RunEnd::Stopped(Trap::CallDepth, site));
    }
    match program.typed().function_at(called) {
        None => no_call(frames, mark, st),
        Some(function) => {
            push(frames, Later::Rest(Rest::After(After::Call(mark))), stack)?;
            enter_function(frames - 1, function, values, stack, st)
        }
    }
}

fn call_named<'a>(
    program: &'a Moded,
    frames: u32,
    call: Call<'a>,
    mark: usize,
    values: &[i64],
    stack: &mut Vec<Left<'a>>,
    st: &mut State,
) -> Goes<At<'a>>
    ensures moves { Moves program.now (view_state st.old) (stack_of stack.old) result (view_state st.new)
        (stack_of stack.new) (gives number (ends_above mark
        (called (calls program.now frames) call.entry.site call.entry.named call.entry.name.now values.now))) }
    ensures ends { IfOk result (λ at. 64 * st.new.fuel + size at.plan + load (stack_of stack.new)
        < 64 * st.old.fuel + 1 + load (stack_of stack.old)) }
{
    match call.named {
        Named::Function(number) => {
            call_function(program, frames, number, call.site, mark, values, stack, st)
        }
        Named::Known => {
            let waits = zero_behind(condition_call(call.site, call.name, values, st));
            let plan = done_number(end_above(waits, mark, st))?;
            Ok(At { frames, plan })
        }
        Named::Struct(_) => no_call(frames, mark, st),
        Named::Global(_) => no_call(frames, mark, st),
        Named::Variable(_) => no_call(frames, mark, st),
        Named::Field(_) => no_call(frames, mark, st),
    }
}

/// The arguments that are left, and then the call.
fn pass<'a>(
    program: &'a Moded,
    frames: u32,
    passing: PendingCall<'a>,
    stack: &mut Vec<Left<'a>>,
    st: &mut State,
) -> Goes<At<'a>>
    ensures moves { let p = passing.entry in Moves program.now (view_state st.old) (stack_of stack.old) result
        (view_state st.new) (stack_of stack.new) (awaits (calls program.now frames) program.now p.call p.mark
        (declared_kinds p.parameters.now) (view_arguments p.arguments.now) p.values.items) }
    ensures ends { IfOk result (λ at. 64 * st.new.fuel + size at.plan + load (stack_of stack.new)
        < 64 * st.old.fuel + 1 + load (stack_of stack.old)) }
{
    match passing.arguments {
        [] => {
            let values = passing.values.as_slice();
            call_named(
                program,
                frames,
                passing.call,
                passing.mark,
                values,
                stack,
                st,
            )
        }
        [first, rest @ ..] => {
            let plan = begin_eval(program, first, st)?;
            let passed = Rest::Value(first, WithValue::Passed(passing.parameters));
            let others = PendingCall {
                call: passing.call,
                mark: passing.mark,
                parameters: rest_of(passing.parameters),
                arguments: rest,
                values: passing.values,
            };
            push(frames, Later::Passes(others), stack)?;
            push(frames, Later::Rest(passed), stack)?;
            Ok(At { frames, plan })
        }
    }
}

/// One more argument has this value.
pub fn pass_value<'a>(
    program: &'a Moded,
    frames: u32,
    passing: PendingCall<'a>,
    value: i64,
    stack: &mut Vec<Left<'a>>,
    st: &mut State,
) -> Goes<At<'a>>
    ensures moves { let p = passing.entry in Moves program.now (view_state st.old) (stack_of stack.old) result
        (view_state st.new) (stack_of stack.new) (awaits (calls program.now frames) program.now p.call p.mark
        (declared_kinds p.parameters.now) (view_arguments p.arguments.now) (p.values.items ++ value ∷ [])) }
    ensures ends { IfOk result (λ at. 64 * st.new.fuel + size at.plan + load (stack_of stack.new)
        < 64 * st.old.fuel + 1 + load (stack_of stack.old)) }
{
    let mut values = passing.values;
    match values.push(value) {
        Err(_) => Err(RunEnd::Memory),
        Ok(()) => {
            let more = PendingCall {
                call: passing.call,
                mark: passing.mark,
                parameters: passing.parameters,
                arguments: passing.arguments,
                values,
            };
            pass(program, frames, more, stack, st)
        }
    }
}

/// A call is begun.
pub fn begin_call<'a>(
    program: &'a Moded,
    frames: u32,
    call: Call<'a>,
    stack: &mut Vec<Left<'a>>,
    st: &mut State,
) -> Goes<At<'a>>
    ensures moves { Moves program.now (view_state st.old) (stack_of stack.old) result (view_state st.new)
        (stack_of stack.new) (gives number (calling (calls program.now frames) program.now call.entry.site
        call.entry.named call.entry.name.now (view_arguments call.entry.arguments.now))) }
    ensures ends { IfOk result (λ at. 64 * st.new.fuel + size at.plan + load (stack_of stack.new)
        < 64 * st.old.fuel + 1 + load (stack_of stack.old)) }
{
    let passing = PendingCall {
        call,
        mark: st.frame.temporaries.len(),
        parameters: parameters_named(program, call.named),
        arguments: call.arguments,
        values: Vec::new(st.alloc),
    };
    pass(program, frames, passing, stack, st)
}
