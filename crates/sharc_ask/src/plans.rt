// Plans of steps that are done.

ghost use Rattle.std.specs.Prelude.{ℕ, ℤ, Bool, IfOk};
ghost use Rattle.sharc_mode.specs.Moded.{Assignment};
ghost use Rattle.sharc_meaning.specs.{Expressions.Calls, Places.StorePlace as NamedPlace, State.{Run, Step}};
ghost use Rattle.sharc_meaning.specs.Statements.{Flow as LeftBy};
ghost use Rattle.sharc_ask.specs.{StepView.{Known, Does, DoesAs, view_place}, View.view_flow, Values.{number, test}};
ghost use Rattle.sharc_ask.specs.{Values.{place, flow, gives, as_nothing}, Plans.{step_then, test_then, plan_means}};
ghost use Rattle.sharc_ask.specs.Plans.{Plans, Fits};

use crate::places::LvaluePlace;
use crate::plan::{Plan, Value};
use crate::state::{Goes, RunEnd};
use crate::values::Flow;

/// A number came.
pub fn done_number<'a>(answer: Goes<i64>) -> Goes<Plan<'a>>
    ensures means { (on_call : Calls) (m : Assignment) (before after : Known) (run : Run ℤ)
        → Does before answer after run → Plans on_call m before result after (gives number run) }
    ensures fits { IfOk result (Fits 0) }
{
    let number = answer?;
    Ok(Plan::Done(Value::Number(number)))
}

/// A place came.
pub fn done_place<'a>(answer: Goes<LvaluePlace>) -> Goes<Plan<'a>>
    ensures means { (on_call : Calls) (m : Assignment) (before after : Known) (run : Run NamedPlace)
        → DoesAs view_place before answer after run → Plans on_call m before result after (gives place run) }
    ensures fits { IfOk result (Fits 0) }
{
    let place = answer?;
    Ok(Plan::Done(Value::Place(place)))
}

/// A test was made.
pub fn done_test<'a>(answer: Goes<bool>) -> Goes<Plan<'a>>
    ensures means { (on_call : Calls) (m : Assignment) (before after : Known) (run : Run Bool)
        → Does before answer after run → Plans on_call m before result after (gives test run) }
    ensures fits { IfOk result (Fits 0) }
{
    let is_true = answer?;
    Ok(Plan::Done(Value::Truth(is_true)))
}

/// A statement was left.
pub fn done_flow<'a>(answer: Goes<Flow>) -> Goes<Plan<'a>>
    ensures means { (on_call : Calls) (m : Assignment) (before after : Known) (run : Run LeftBy)
        → DoesAs view_flow before answer after run → Plans on_call m before result after (gives flow run) }
    ensures fits { IfOk result (Fits 0) }
{
    let flow = answer?;
    Ok(Plan::Done(Value::Flow(flow)))
}

/// A step was done.
pub fn done_step<'a>(answer: Goes<()>) -> Goes<Plan<'a>>
    ensures means { (on_call : Calls) (m : Assignment) (before after : Known) (run : Step)
        → Does before answer after run → Plans on_call m before result after (gives as_nothing run) }
    ensures fits { IfOk result (Fits 0) }
{
    answer?;
    Ok(Plan::Done(Value::Nothing))
}

/// A step was done, and it goes on.
pub fn then<'a>(answer: Goes<()>, plan: Plan<'a>) -> Goes<Plan<'a>>
    ensures means { (on_call : Calls) (m : Assignment) (before after : Known) (run : Step)
        → Does before answer after run
        → Plans on_call m before result after (step_then run (plan_means on_call m plan.entry)) }
    ensures fits { (n : ℕ) → Fits n plan.entry → IfOk result (Fits n) }
{
    answer?;
    Ok(plan)
}

/// A test was made, and it goes on by its truth.
pub fn by_truth<'a>(answer: Goes<bool>, yes: Plan<'a>, no: Plan<'a>) -> Goes<Plan<'a>>
    ensures means { (on_call : Calls) (m : Assignment) (before after : Known) (run : Run Bool)
        → Does before answer after run → Plans on_call m before result after
        (test_then run (plan_means on_call m yes.entry) (plan_means on_call m no.entry)) }
    ensures fits { (n : ℕ) → Fits n yes.entry → Fits n no.entry → IfOk result (Fits n) }
{
    let is_true = answer?;
    if is_true { Ok(yes) } else { Ok(no) }
}
