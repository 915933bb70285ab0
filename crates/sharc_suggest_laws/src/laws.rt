ghost use Rattle.sharc_suggest_laws.specs.{Expected.CastHasExpected, Gone.GoneWhereExpected, Kept.DeclarationsStay};
ghost use Rattle.sharc_suggest_laws.specs.{Kept.{PositionsStay, TypesStay}, Mismatches.OneMismatch};
ghost use Rattle.sharc_suggest_laws.specs.{Names.{NamesStayWhereTyped, NamesStay}, Once.SuggestedIsAddedOnce};
ghost use Rattle.sharc_suggest_laws.specs.{Repaired.{RepairsWhereTyped, Repairs, LeastIsRepaired}, Typed.StaysTyped};
ghost use Rattle.sharc_suggest_laws.specs.Values.{ValuesBeginApart};

use sharc_ctype_laws::laws::{
    all_fair, each_name_once, each_names_itself, each_type_found, meets_constraints, one_type,
    only_names, same_kinds,
};
use sharc_infer_laws::laws::least_has_written_locks;

// The laws, each the contract of a function that does nothing.

/// The structs, the globals and all that is declared are as they were, and functions have their bodies with the cast.
pub fn declarations_stay()
    ensures { DeclarationsStay }
{}

/// Each position has its mode and its reason under its new number, and those of the cast have the modes of its type.
pub fn positions_stay()
    ensures { PositionsStay }
{}

/// In a program at its tokens no two of what is passed, assigned or returned, or initialises a local, begin at one
/// token.
pub fn values_begin_apart()
    ensures { ValuesBeginApart }
{}

/// So at each place at most one M1 is reported.
pub fn one_mismatch()
    ensures { OneMismatch }
{}

/// In a program at its tokens a cast that is suggested is written once.
pub fn suggested_is_added_once()
    ensures { SuggestedIsAddedOnce }
{}

/// What is declared, and each other cast, has the modes that it had.
pub fn types_stay()
    ensures { TypesStay }
{}

/// The cast has the modes that are expected, so no mismatch is reported of it beside them.
pub fn cast_has_expected()
    ensures { CastHasExpected }
{}

/// So its mismatch is gone where the same modes are expected at its place again.
pub fn gone_where_expected()
    ensures { GoneWhereExpected }
{}

/// Where the program with a suggested cast is typed, each token that named a variable, a global or a function names it
/// still, and one that named a field names one.
pub fn names_stay_where_typed()
    ensures { NamesStayWhereTyped }
{
    each_name_once();
    only_names();
    each_type_found();
}

/// Where the program with a suggested cast is typed, no M1 is at the place of the error.
pub fn repairs_where_typed()
    ensures { RepairsWhereTyped }
{
    each_name_once();
    only_names();
    each_type_found();
    same_kinds();
}

/// The program with a suggested cast is typed, where each lock path among the modes of a type is written in that type.
pub fn stays_typed()
    ensures { StaysTyped }
{
    same_kinds();
    each_name_once();
    only_names();
    each_names_itself();
    each_type_found();
    meets_constraints();
    one_type();
    all_fair();
}

/// So each token names there what it named.
pub fn names_stay()
    ensures { NamesStay }
{
    stays_typed();
    names_stay_where_typed();
}

/// And a cast that is suggested repairs its mismatch: no M1 is at its place.
pub fn repairs()
    ensures { Repairs }
{
    stays_typed();
    repairs_where_typed();
}

/// Under the least assignment of a program that was read: with a suggested cast it is typed, and no M1 is at the place
/// of the error.
pub fn least_is_repaired()
    ensures { LeastIsRepaired }
{
    stays_typed();
    repairs();
    least_has_written_locks();
}
