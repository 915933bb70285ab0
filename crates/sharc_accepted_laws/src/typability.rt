// The laws, each the contract of a function with calls of other laws alone.

ghost use Rattle.sharc_accepted_laws.specs.{Calling.CallingLaws, TypableLaws.ValueLaws, Taking.TakingLaws};
ghost use Rattle.sharc_accepted_laws.specs.Threads.{ThreadsPass};

use crate::references::{arguments_fit, casts_recast, held_laws, scope_laws, spawned_begin};
use crate::targets::{expressions_found, layouts_are, pointees_fit};
use sharc_ctype_laws::laws::{each_names_itself, meets_constraints, one_type};

/// Values, pointers, variables, constants and operators of an accepted program are as typable expressions ask.
pub fn value_laws()
    ensures { ValueLaws }
{
    meets_constraints();
    held_laws();
    scope_laws();
}

/// What SCAST and `free` take, and what a cast gives, is as typable expressions ask.
pub fn taking_laws()
    ensures { TakingLaws }
{
    meets_constraints();
    one_type();
    held_laws();
    scope_laws();
    expressions_found();
    pointees_fit();
    layouts_are();
    casts_recast();
}

/// References that are passed are as the callee's first registers have them.
pub fn calling_laws()
    ensures { CallingLaws }
{
    each_names_itself();
    arguments_fit();
    scope_laws();
}

/// What a new thread is handed passes wherever it stands.
pub fn threads_pass()
    ensures { ThreadsPass }
{
    arguments_fit();
    spawned_begin();
}
