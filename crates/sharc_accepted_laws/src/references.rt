// The laws, each the contract of a function that does nothing.

ghost use Rattle.sharc_accepted_laws.specs.{Alone.SomeAreAlone, Calls.{ArgumentsFit, ArgumentsPass}};
ghost use Rattle.sharc_accepted_laws.specs.{Casting.CastsRecast, Conditions.KnownCalls, Held.HeldLaws};
ghost use Rattle.sharc_accepted_laws.specs.{StaticLaws.GivenLaws, Leading.ExpressionsLead, Pointing.PlacesPoint};
ghost use Rattle.sharc_accepted_laws.specs.{Results.ResultLaws, Scopes.ScopeLaws, Standing.FunctionsStand};
ghost use Rattle.sharc_accepted_laws.specs.{Starting.SpawnedBegin, Taken.TakenLaws};

use crate::targets::{expressions_found, fields_placed, numbers_found, own_found, variables_found};
use sharc_check::rule_laws::{reached_are_told, rules_are_met};
use sharc_ctype_laws::laws::{
    all_fair, each_name_once, each_names_found, each_names_itself, each_names_own, each_path_found,
    each_type_found, meets_constraints, one_type, only_names, spawns_threads,
};
use sharc_mode::laws::link_laws;
use sharc_mode::shown::row_laws;

/// What is assigned, begun with and returned has the type of what it is given to.
pub fn given_laws()
    ensures { GivenLaws }
{
    rules_are_met();
    all_fair();
    each_names_itself();
}

/// Each pointer that stands has its own register, and types name registers of pointers that stand.
pub fn scope_laws()
    ensures { ScopeLaws }
{}

/// What is taken by SCAST or `free` is named by no type.
pub fn taken_laws()
    ensures { TakenLaws }
{
    rules_are_met();
}

/// Lock paths lead through variables that keep their references: constant ones, of which nothing takes it.
pub fn held_laws()
    ensures { HeldLaws }
{
    rules_are_met();
}

/// What is passed at a call has the type that the parameter has there.
pub fn arguments_pass()
    ensures { ArgumentsPass }
{
    each_name_once();
    only_names();
    each_type_found();
    rules_are_met();
    all_fair();
    each_names_itself();
}

/// An argument has the type that the parameter has at the call, which passes, be it NULL.
pub fn arguments_fit()
    ensures { ArgumentsFit }
{
    each_name_once();
    only_names();
    each_type_found();
    rules_are_met();
    all_fair();
    each_names_itself();
}

/// The lock paths of the types of a function's expressions and locals lead through pointers that stand.
pub fn functions_stand()
    ensures { FunctionsStand }
{
    each_name_once();
    only_names();
    each_names_itself();
    each_names_found();
    each_path_found();
    each_type_found();
    meets_constraints();
}

/// What the cell of an lvalue refers to has, in the table of targets, the locks that the source gives it.
pub fn places_point()
    ensures { PlacesPoint }
{
    row_laws();
    expressions_found();
    one_type();
    rules_are_met();
    each_type_found();
    each_path_found();
    meets_constraints();
    each_name_once();
    only_names();
    fields_placed();
}

/// What the cells of an object are and refer to does not change by a cast.
pub fn casts_recast()
    ensures { CastsRecast }
{
    row_laws();
    numbers_found();
    expressions_found();
    one_type();
    rules_are_met();
    meets_constraints();
}

/// What a function that is spawned takes is shared, and its type names nothing of another frame.
pub fn spawned_begin()
    ensures { SpawnedBegin }
{
    row_laws();
    numbers_found();
    variables_found();
    spawns_threads();
    rules_are_met();
    all_fair();
    each_names_itself();
}

/// Functions that no thread reaches can be told, and they alone name private cells of globals.
pub fn some_are_alone()
    ensures { SomeAreAlone }
{
    reached_are_told();
    link_laws();
    rules_are_met();
    each_type_found();
    each_path_found();
    each_names_itself();
    meets_constraints();
}

/// The type of a result is the same in each frame, and that of a call.
pub fn result_laws()
    ensures { ResultLaws }
{
    scope_laws();
    each_type_found();
    each_path_found();
}

/// Each lock path of the type of an expression leads to a mutex.
pub fn expressions_lead()
    ensures { ExpressionsLead }
{
    rules_are_met();
    fields_placed();
    own_found();
    each_type_found();
    each_path_found();
    meets_constraints();
    one_type();
    each_name_once();
    only_names();
    each_names_itself();
    each_names_own();
}

/// Where a call names `wait`, `signal` or `broadcast` as the program does not define them, it does not define `struct
/// cond`.
pub fn known_calls()
    ensures { KnownCalls }
{
    each_name_once();
    only_names();
}
