// Statements are begun: what comes first, and what goes on behind it.

ghost use Rattle.std.specs.Prelude.{◌≡◌, ◌≤◌, ◌+◌, ◌*◌, IfOk};
ghost use Rattle.sharc_tree.specs.View.{view_stmt, view_statements};
ghost use Rattle.sharc_names.specs.View.{view_kind};
ghost use Rattle.sharc_mode.specs.Moded.{Assignment};
ghost use Rattle.sharc_meaning.specs.{Expressions.Calls, Statements.{exec, exec_all}};
ghost use Rattle.sharc_ask.specs.{StepView.{Known, view_state}, View.{view_flow, view_otherwise}, Values.flow};
ghost use Rattle.sharc_ask.specs.{Values.{view_value, gives}, Plans.{inside, goes_on, after_means, others_done}};
ghost use Rattle.sharc_ask.specs.Plans.{chosen_done, tested_done, left_body, next_turn, turns_of, Leads, LeadsFrom};
ghost use Rattle.sharc_ask.specs.Plans.{Plans, Fits, Starts, Begins, weight, after_weight, size};

use crate::parts::{end_above, end_block};
use crate::plan::{After, Loop, Plan, Rest, Task, Value, flow_in, test_in};
use crate::plans::{done_flow, done_number};
use crate::state::{Goes, RunEnd, State, enter};
use crate::values::{Flow, body_of, left_by, number_left, step_of, test_of};
use sharc_names::kind::ExpressionKind;
use sharc_tree::tree::Stmt;

/// A statement that is entered already.
pub fn entered_plan<'a>(kind: ExpressionKind<'a>, statement: &'a Stmt, st: &State) -> Plan<'a>
    ensures means { (on_call : Calls) (m : Assignment) → LeadsFrom on_call m (view_state st.now)
        (inside (gives flow (exec on_call m (view_kind kind.entry) (view_stmt statement.now)))) result }
    ensures fits { Fits 18 result }
{
    let mark = st.frame.variables.len();
    match statement {
        Stmt::Empty(_) => Plan::Done(Value::Flow(Flow::Next)),
        Stmt::Block(_, all) => Plan::Goes(
            Task::All(kind, all.as_slice()),
            Rest::After(After::Block(mark)),
        ),
        Stmt::Declare(_, local) => Plan::Goes(Task::Declare(local), Rest::After(After::Simple)),
        Stmt::Simple(_, simple) => Plan::Goes(Task::Simple(simple), Rest::After(After::Simple)),
        Stmt::Jump(_, jump) => Plan::Done(Value::Flow(left_by(*jump))),
        Stmt::Return(span, value) => {
            Plan::Goes(Task::Return(kind, span.first, value), Rest::Same)
        }
        Stmt::If(_, test, body) => Plan::Goes(
            Task::Test(test),
            Rest::After(After::Choice(kind, body, None)),
        ),
        Stmt::IfElse {
            test,
            then,
            otherwise,
            ..
        } => Plan::Goes(
            Task::Test(test),
            Rest::After(After::Choice(kind, then, Some(otherwise))),
        ),
        Stmt::While(_, _, _) => Plan::Goes(
            Task::Turns(st.fuel, Loop { kind, statement }),
            Rest::Same,
        ),
        Stmt::For(_, head, _) => {
            let rest = Rest::After(After::Head(Loop { kind, statement }, mark));
            Plan::Goes(Task::First(head), rest)
        }
    }
}

// A statement is entered, and this goes on behind it.
fn begin_statement<'a>(
    kind: ExpressionKind<'a>,
    statement: &'a Stmt,
    rest: Rest<'a>,
    st: &mut State,
) -> Goes<Plan<'a>>
    ensures means { (on_call : Calls) (m : Assignment) → Plans on_call m (view_state st.old) result (view_state st.new)
        (goes_on on_call m (gives flow (exec on_call m (view_kind kind.entry) (view_stmt statement.now))) rest.entry) }
    ensures begins { IfOk result (λ p. 64 * st.new.fuel + size p + 45 ≤ 64 * st.old.fuel + weight rest.entry) }
{
    enter(st)?;
    Ok(Plan::Goes(Task::Entered(kind, statement), rest))
}

/// The statements of a list.
pub fn begin_all<'a>(kind: ExpressionKind<'a>, all: &'a [Stmt], st: &mut State) -> Goes<Plan<'a>>
    ensures means { (on_call : Calls) (m : Assignment) → Plans on_call m (view_state st.old) result (view_state st.new)
        (gives flow (exec_all on_call m (view_kind kind.entry) (view_statements all.now))) }
    ensures begins { IfOk result (Begins 1 st.old.fuel st.new.fuel) }
{
    match all {
        [] => Ok(Plan::Done(Value::Flow(Flow::Next))),
        [statement, rest @ ..] => {
            begin_statement(kind, statement, Rest::After(After::Listed(kind, rest)), st)
        }
    }
}

/// At most so many turns of a loop.
pub fn turns_plan<'a>(number: u64, l: Loop<'a>, st: &State) -> Goes<Plan<'a>>
    ensures means { (on_call : Calls) (m : Assignment) → Plans on_call m (view_state st.now) result (view_state st.now)
        (gives flow (turns_of on_call m l.entry number)) }
    ensures starts { IfOk result (Starts 7) }
{
    if number == 0 {
        return Err(RunEnd::Spent);
    }
    let turns = Rest::After(After::Test(number - 1, l));
    Ok(Plan::Goes(Task::LoopTest(test_of(l.statement)), turns))
}

fn next_turn<'a>(number: u64, l: Loop<'a>) -> Plan<'a>
    ensures means { (on_call : Calls) (m : Assignment)
        → Leads on_call m (gives flow (next_turn on_call m l.entry number)) result }
    ensures fits { Fits 16 result }
{
    match step_of(l.statement) {
        None => Plan::Goes(Task::Turns(number, l), Rest::Same),
        Some(step) => Plan::Goes(Task::Simple(step), Rest::After(After::Step(number, l))),
    }
}

fn behind_body<'a>(number: u64, l: Loop<'a>, left: Flow) -> Plan<'a>
    ensures means { (on_call : Calls) (m : Assignment)
        → Leads on_call m (gives flow (left_body on_call m l.entry number (view_flow left))) result }
    ensures fits { Fits 16 result }
{
    match left {
        Flow::Next => next_turn(number, l),
        Flow::Continued => next_turn(number, l),
        Flow::Broken => Plan::Done(Value::Flow(Flow::Next)),
        Flow::Returned(site, value) => Plan::Done(Value::Flow(Flow::Returned(site, value))),
    }
}

fn behind_test<'a>(number: u64, l: Loop<'a>, goes_on: bool, st: &mut State) -> Goes<Plan<'a>>
    ensures means { (on_call : Calls) (m : Assignment) → Plans on_call m (view_state st.old) result (view_state st.new)
        (gives flow (tested_done on_call m l.entry number goes_on)) }
    ensures begins { IfOk result (Begins 1 st.old.fuel st.new.fuel) }
{
    if goes_on {
        begin_statement(
            l.kind,
            body_of(l.statement),
            Rest::After(After::Body(number, l)),
            st,
        )
    } else {
        Ok(Plan::Done(Value::Flow(Flow::Next)))
    }
}

fn behind_choice<'a>(
    kind: ExpressionKind<'a>,
    body: &'a Stmt,
    otherwise: Option<&'a Stmt>,
    is_true: bool,
    st: &mut State,
) -> Goes<Plan<'a>>
    ensures means { (on_call : Calls) (m : Assignment)
        → Plans on_call m (view_state st.old) result (view_state st.new) (gives flow
        (chosen_done on_call m (view_kind kind.entry) (view_stmt body.now) (view_otherwise otherwise.entry) is_true)) }
    ensures begins { IfOk result (Begins 1 st.old.fuel st.new.fuel) }
{
    if is_true {
        return begin_statement(kind, body, Rest::Same, st);
    }
    match otherwise {
        None => Ok(Plan::Done(Value::Flow(Flow::Next))),
        Some(otherwise) => begin_statement(kind, otherwise, Rest::Same, st),
    }
}

fn behind_listed<'a>(kind: ExpressionKind<'a>, rest: &'a [Stmt], left: Flow) -> Plan<'a>
    ensures means { (on_call : Calls) (m : Assignment)
        → Leads on_call m (gives flow (others_done on_call m (view_kind kind.entry) rest.now (view_flow left))) result }
    ensures fits { Fits 2 result }
{
    match left {
        Flow::Next => Plan::Goes(Task::All(kind, rest), Rest::Same),
        Flow::Continued => Plan::Done(Value::Flow(Flow::Continued)),
        Flow::Broken => Plan::Done(Value::Flow(Flow::Broken)),
        Flow::Returned(site, value) => Plan::Done(Value::Flow(Flow::Returned(site, value))),
    }
}

/// What goes on behind a part of a statement that came to this value.
pub fn with_after<'a>(after: After<'a>, value: Value, st: &mut State) -> Goes<Plan<'a>>
    ensures means { (on_call : Calls) (m : Assignment) → Plans on_call m (view_state st.old) result (view_state st.new)
        (after_means on_call m after.entry (view_value value)) }
    ensures begins { IfOk result (Begins (after_weight after.entry) st.old.fuel st.new.fuel) }
{
    match after {
        After::Simple => Ok(Plan::Done(Value::Flow(Flow::Next))),
        After::Block(mark) => done_flow(end_block(Ok(flow_in(value)), mark, st)),
        After::Listed(kind, rest) => Ok(behind_listed(kind, rest, flow_in(value))),
        After::Choice(kind, body, otherwise) => {
            behind_choice(kind, body, otherwise, test_in(value), st)
        }
        After::Head(l, mark) => Ok(Plan::Goes(
            Task::Turns(st.fuel, l),
            Rest::After(After::Block(mark)),
        )),
        After::Test(number, l) => behind_test(number, l, test_in(value), st),
        After::Body(number, l) => Ok(behind_body(number, l, flow_in(value))),
        After::Step(number, l) => Ok(Plan::Goes(Task::Turns(number, l), Rest::Same)),
        After::Call(mark) => done_number(end_above(Ok(number_left(flow_in(value))), mark, st)),
    }
}
