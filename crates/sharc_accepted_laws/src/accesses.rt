// The laws, each the contract of a function that does nothing.

ghost use Rattle.sharc_accepted_laws.specs.{Accesses.{CellsStand, AccessesFit, GuardsFit}, AccessFirsts.FirstsFit};
ghost use Rattle.sharc_accepted_laws.specs.Joined.{IntegersFit, ReferencesFit, MutexesFit, GroundsFit};
ghost use Rattle.sharc_accepted_laws.specs.{Paths.{MutexesBehind, PathsLead}, Typed.{BasesStand, LvaluesAreTyped}};
ghost use Rattle.sharc_accepted_laws.specs.Uses.{UsesAreFair};

use crate::references::{expressions_lead, places_point, scope_laws};
use crate::targets::{
    arrays_fit, expressions_found, fields_placed, first_laws, globals_are, locks_stand_beside,
    lvalues_fit, members_are, pointees_fit, variables_found,
};
use sharc_check::rule_laws::rules_are_met;
use sharc_ctype_laws::laws::meets_globals;

/// Where the registers have what an lvalue names, its cell is there, with what the lvalue's type says in it, under its
/// mode.
pub fn cells_stand()
    ensures { CellsStand }
{
    globals_are();
    meets_globals();
    expressions_found();
    locks_stand_beside();
    lvalues_fit();
}

/// The cell may be accessed in the mode of the source, once it is checked.
pub fn accesses_fit()
    ensures { AccessesFit }
{
    globals_are();
    meets_globals();
    expressions_found();
    locks_stand_beside();
    lvalues_fit();
}

/// The readonly pointer to a mutex that stands beside the cell may be loaded first.
pub fn guards_fit()
    ensures { GuardsFit }
{
    globals_are();
    meets_globals();
    expressions_found();
    locks_stand_beside();
    lvalues_fit();
}

/// An integer in the cell of an lvalue may be read or written, in the form in which sharc_typed_laws asks for it.
pub fn integers_fit()
    ensures { IntegersFit }
{
    cells_stand();
    accesses_fit();
    guards_fit();
    scope_laws();
}

/// So may a reference, which has the type of the source.
pub fn references_fit()
    ensures { ReferencesFit }
{
    cells_stand();
    accesses_fit();
    guards_fit();
    scope_laws();
    lvalues_fit();
    places_point();
}

/// A mutex that an lvalue names is there.
pub fn mutexes_fit()
    ensures { MutexesFit }
{
    cells_stand();
    accesses_fit();
    guards_fit();
    scope_laws();
}

/// The base, the cells and the elements that sharc_typed_laws reads off an lvalue are those of the source.
pub fn grounds_fit()
    ensures { GroundsFit }
{
    lvalues_fit();
    arrays_fit();
}

/// Where a lock path `x->m` leads to a mutex of the struct to which `x` points, the table has one there.
pub fn mutexes_behind()
    ensures { MutexesBehind }
{
    variables_found();
    members_are();
    pointees_fit();
    fields_placed();
}

/// The lock path of the type of an element leads to a mutex, by a global or by a variable that stands.
pub fn paths_lead()
    ensures { PathsLead }
{
    expressions_lead();
    mutexes_behind();
}

/// What a function reads, assigns and takes, it may by the rules of the modes.
pub fn uses_are_fair()
    ensures { UsesAreFair }
{
    rules_are_met();
}

/// Where what an lvalue's parts name stands, so does a constant variable through which it leads.
pub fn bases_stand()
    ensures { BasesStand }
{}

/// The cells of lvalues are typed, as they are read, assigned and taken from.
pub fn lvalues_are_typed()
    ensures { LvaluesAreTyped }
{
    integers_fit();
    references_fit();
    mutexes_fit();
    grounds_fit();
    uses_are_fair();
    paths_lead();
}

/// What `wait`, `signal` and `broadcast` are handed begins with a condition variable, or is a mutex.
pub fn firsts_fit()
    ensures { FirstsFit }
{
    expressions_found();
    first_laws();
}
