// Temporaries and variables that end, and the references that they held.

ghost use Rattle.std.specs.Prelude.{◌≡◌, ◌≤◌, ◌++◌, drop, OnOk};
ghost use Rattle.sharc_meaning.specs.State.{all_released, pointers_among};
ghost use Rattle.sharc_ask.specs.{StepView.view_state, View.{temporaries_ended, variables_ended}};

use crate::cells::number_of;
use crate::state::State;
use sharc_meaning::given::GivenUp;
use sharc_meaning::variable::Variable;
use std::alloc::AllocError;

fn references_behind(all: &[i64], mark: usize) -> &[i64]
    ensures { result.now ≡ drop mark all.now }
{
    if mark < all.len() { &all[mark..] } else { &[] }
}

fn variables_behind(all: &[Variable], mark: usize) -> &[Variable]
    ensures { result.now ≡ drop mark all.now }
{
    if mark < all.len() { &all[mark..] } else { &[] }
}

fn release_all(references: &[i64], given_up: &mut Vec<GivenUp>) -> Result<(), AllocError>
    ensures { OnOk result (given_up.new.items ≡ given_up.old.items ++ all_released references.now) }
{
    match references {
        [] => Ok(()),
        [reference, rest @ ..] => {
            match given_up.push(GivenUp::Released(number_of(*reference))) {
                Ok(()) => release_all(rest, given_up),
                Err(_) => Err(AllocError),
            }
        }
    }
}

fn release_pointers(variables: &[Variable], given_up: &mut Vec<GivenUp>) -> Result<(), AllocError>
    ensures { OnOk result (given_up.new.items ≡ given_up.old.items ++ all_released (pointers_among variables.now)) }
{
    match variables {
        [] => Ok(()),
        [variable, rest @ ..] => {
            if variable.is_pointer {
                match given_up.push(GivenUp::Released(number_of(variable.value))) {
                    Ok(()) => {}
                    Err(_) => return Err(AllocError),
                }
            }
            release_pointers(rest, given_up)
        }
    }
}

/// The temporaries after the mark end.
pub fn end_temporaries(mark: usize, st: &mut State) -> Result<(), AllocError>
    ensures ended { OnOk result (view_state st.new ≡ temporaries_ended mark (view_state st.old)) }
    ensures fuel { st.new.fuel ≤ st.old.fuel }
{
    let ending = references_behind(st.frame.temporaries.as_slice(), mark);
    match release_all(ending, &mut st.given_up) {
        Ok(()) => {
            st.frame.temporaries.truncate(mark);
            Ok(())
        }
        Err(_) => Err(AllocError),
    }
}

/// The variables after the mark end.
pub fn end_variables(mark: usize, st: &mut State) -> Result<(), AllocError>
    ensures ended { OnOk result (view_state st.new ≡ variables_ended mark (view_state st.old)) }
    ensures fuel { st.new.fuel ≤ st.old.fuel }
{
    let ending = variables_behind(st.frame.variables.as_slice(), mark);
    match release_pointers(ending, &mut st.given_up) {
        Ok(()) => {
            st.frame.variables.truncate(mark);
            Ok(())
        }
        Err(_) => Err(AllocError),
    }
}
