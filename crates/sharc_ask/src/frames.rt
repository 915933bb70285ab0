// The frame of a call: its parameters, where its body is left, and what its caller keeps.

ghost use Rattle.std.specs.{Prelude.{◌≡◌, ◌≤◌, ◌<◌, ◌-◌, ◌++◌, [], length, count_by, IfSome, true}, Option.option_map};
ghost use Rattle.sharc_tree.specs.View.{view_function};
ghost use Rattle.sharc_names.specs.Kinds.{declared_kind, is_pointer};
ghost use Rattle.sharc_meaning.specs.{State.pointers_among, Meaning.{parameters_begin, left_at}};
ghost use Rattle.sharc_ask.specs.{StepView.{view_state, Does}, View.{view_flow, WasKept}};

use crate::state::{Frame, Goes, State, begin};
use crate::values::Flow;
use sharc_meaning::variable::Variable;
use sharc_names::kind::{declared_kind, is_pointer};
use sharc_tree::token::Site;
use sharc_tree::tree::{Declaration, FunctionDefinition};
use std::alloc::Global;

/// Each parameter with its argument, where there is one, else with 0 or NULL.
pub fn begin_parameters(parameters: &[Declaration], values: &[i64], st: &mut State) -> Goes<()>
    ensures does { Does (view_state st.old) result (view_state st.new) (parameters_begin parameters.now values.now) }
    ensures fuel { st.new.fuel ≤ st.old.fuel }
{
    match parameters {
        [] => Ok(()),
        [parameter, rest @ ..] => match values {
            [] => {
                begin(parameter, 0, st)?;
                begin_parameters(rest, &[], st)
            }
            [value, more @ ..] => {
                begin(parameter, *value, st)?;
                begin_parameters(rest, more, st)
            }
        },
    }
}

pub fn left_at(function: &FunctionDefinition, flow: Flow) -> (Site, i64)
    ensures { result ≡ left_at (view_function function.now) (view_flow flow) }
{
    match flow {
        Flow::Returned(site, value) => (site, value),
        Flow::Next => (function.body.last, 0),
        Flow::Broken => (function.body.last, 0),
        Flow::Continued => (function.body.last, 0),
    }
}

pub fn pointers_passed(parameters: &[Declaration]) -> usize
    ensures count { result ≡ count_by (λ d. is_pointer (declared_kind d.written)) parameters.now }
    ensures within { result ≤ length parameters.now }
{
    match parameters {
        [] => 0,
        [parameter, rest @ ..] => {
            if is_pointer(declared_kind(&parameter.written)) {
                pointers_passed(rest) + 1
            } else {
                pointers_passed(rest)
            }
        }
    }
}

/// What a caller has while its call runs.
#[derive(Drop)]
pub struct SuspendedCaller {
    pub frame: Frame,
    pub below: Vec<i64>,
}

pub fn held_by(alloc: Global, below: &[i64], frame: &Frame) -> Option<Vec<i64>>
    ensures { IfSome result (λ all. all.items
        ≡ below.now ++ (pointers_among frame.now.variables.items ++ frame.now.temporaries.items)) }
{
    match Vec::from_slice(alloc, below) {
        Err(_) => None,
        Ok(mut all) => {
            if push_pointers(frame.variables.as_slice(), &mut all)
                && push_all(frame.temporaries.as_slice(), &mut all)
            {
                Some(all)
            } else {
                None
            }
        }
    }
}

fn push_pointers(variables: &[Variable], list: &mut Vec<i64>) -> bool
    ensures { result ≡ true → list.new.items ≡ list.old.items ++ pointers_among variables.now }
{
    match variables {
        [] => true,
        [variable, rest @ ..] => {
            if variable.is_pointer && list.push(variable.value).is_err() {
                return false;
            }
            push_pointers(rest, list)
        }
    }
}

fn push_all(values: &[i64], list: &mut Vec<i64>) -> bool
    ensures { result ≡ true → list.new.items ≡ list.old.items ++ values.now }
{
    list.extend_from_slice(values).is_ok()
}

// A new frame, in place of the one which keeps all but the last temporaries.
pub fn push_frame(moved: usize, st: &mut State) -> Option<SuspendedCaller>
    ensures kept { WasKept moved (view_state st.old) (view_state st.new)
        (option_map (λ k. (k.frame.variables.items, k.frame.temporaries.items, k.below.items)) result) }
    ensures fuel { st.new.fuel ≤ st.old.fuel }
{
    let len = st.frame.temporaries.len();
    st.frame.temporaries.truncate(len.saturating_sub(moved));
    match held_by(st.alloc, st.below.as_slice(), &st.frame) {
        None => None,
        Some(all) => {
            let fresh = Frame {
                variables: Vec::new(st.alloc),
                temporaries: Vec::new(st.alloc),
            };
            let frame = std::mem::replace(&mut st.frame, fresh);
            let below = std::mem::replace(&mut st.below, all);
            Some(SuspendedCaller { frame, below })
        }
    }
}
