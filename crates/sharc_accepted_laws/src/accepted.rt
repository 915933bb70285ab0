// The laws, each the contract of a function with calls of other laws alone.

ghost use Rattle.sharc_accepted_laws.specs.{Accepted.{AcceptedIsLevel, AcceptedIsTyped, GlobalsAreNamed}};
ghost use Rattle.sharc_accepted_laws.specs.Cells.{CellsAreTyped};
ghost use Rattle.sharc_accepted_laws.specs.{Expressions.ExpressionsAreTypable, Programs.CodeIsSet};
ghost use Rattle.sharc_accepted_laws.specs.Programs.{ProgramsAreTypable};

use crate::accesses::{bases_stand, firsts_fit, lvalues_are_typed, paths_lead};
use crate::references::{
    arguments_fit, functions_stand, given_laws, held_laws, known_calls, result_laws, scope_laws,
    some_are_alone, spawned_begin,
};
use crate::targets::{
    arrays_fit, expressions_found, globals_are, globals_hold, granules_are_few, locks_stand_beside,
    lvalues_fit, numbers_found, pointees_fit, pointees_point, targets_are, variables_found,
};
use crate::typability::{calling_laws, taking_laws, threads_pass, value_laws};
use sharc_ctype_laws::laws::{
    all_fair, are_plain, each_names_itself, each_names_own, has_main, meets_constraints,
    meets_globals, meets_statements, one_function_of_name, one_type, spawns_name_functions,
    spawns_threads, within_limits,
};
use sharc_flat_laws::laws::{made_tables_fit, typed_is_framed, typed_suits};
use sharc_typed_laws::statements::{code_typed_law, levels_law};

/// Each expression and each lvalue of a function of an accepted program is typable, where its cells are accessed as
/// their types say.
pub fn expressions_law()
    ensures { ExpressionsAreTypable }
{
    meets_constraints();
    one_type();
    meets_globals();
    each_names_itself();
    each_names_own();
    are_plain();
    spawns_name_functions();
    spawns_threads();
    bases_stand();
    lvalues_fit();
    arrays_fit();
    expressions_found();
    pointees_fit();
    locks_stand_beside();
    globals_are();
    scope_laws();
    arguments_fit();
    result_laws();
    functions_stand();
    spawned_begin();
    value_laws();
    taking_laws();
    calling_laws();
    threads_pass();
}

/// What is asked of the cells of an accepted program holds.
pub fn cells_law()
    ensures { CellsAreTyped }
{
    value_laws();
    scope_laws();
    lvalues_are_typed();
    paths_lead();
    firsts_fit();
    known_calls();
}

/// A program that is accepted is typable: its functions, what a thread may begin with, and main.
pub fn programs_law()
    ensures { ProgramsAreTypable }
{
    expressions_law();
    bases_stand();
    value_laws();
    scope_laws();
    held_laws();
    given_laws();
    result_laws();
    functions_stand();
    spawned_begin();
    numbers_found();
    expressions_found();
    variables_found();
    pointees_fit();
    pointees_point();
    typed_suits();
    meets_constraints();
    meets_statements();
    each_names_itself();
    each_names_own();
    are_plain();
    all_fair();
    spawns_threads();
    has_main();
    one_function_of_name();
    within_limits();
}

/// The code of such a program has its tables, and it can be told which functions thread 0 alone runs.
pub fn settings_law()
    ensures { CodeIsSet }
{
    some_are_alone();
    targets_are();
    globals_hold();
    made_tables_fit();
    granules_are_few();
}

/// What its functions name as a global is one of the program.
pub fn globals_named()
    ensures { GlobalsAreNamed }
{
    meets_constraints();
}

/// So its code is typed.
pub fn accepted_law()
    ensures { AcceptedIsTyped }
{
    cells_law();
    programs_law();
    settings_law();
    globals_named();
    code_typed_law();
}

/// And the flat code of which it is made overwrites no reference.
pub fn accepted_levels()
    ensures { AcceptedIsLevel }
{
    cells_law();
    programs_law();
    settings_law();
    globals_named();
    levels_law();
    typed_is_framed();
}
