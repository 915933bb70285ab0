// The laws, each the contract of a function that does nothing.

ghost use Rattle.sharc_flat_laws.specs.Stands.{FitAreUnguarded, LocksAreFound, TypedAsksTheSame, TypedIsFramed};
ghost use Rattle.sharc_flat_laws.specs.{Stands.TypedSuits, Tables.{MadeIsPast, MadeSpawns, MadeTablesFit, MadeWaits}};

use sharc_ctype_laws::laws::{
    all_fair, are_plain, each_names_found, each_names_itself, each_path_found, each_type_found,
    meets_constraints, meets_globals, meets_statements, one_type, spawns_name_functions,
    spawns_threads, within_limits,
};
use sharc_flat::laws::{made_asks_the_same, made_is_framed};

/// The variable of each lock path of a typed program is a pointer in scope where the mode is used.
pub fn locks_are_found()
    ensures { LocksAreFound }
{
    each_names_itself();
    each_names_found();
    each_path_found();
    each_type_found();
    meets_constraints();
}

/// A typed, well-moded program suits flat code.
pub fn typed_suits()
    ensures { TypedSuits }
{
    locks_are_found();
    each_names_itself();
    each_names_found();
    one_type();
    meets_constraints();
    meets_statements();
    all_fair();
    are_plain();
}

/// What flattening makes of it asks for what it asks for.
pub fn typed_asks_the_same()
    ensures { TypedAsksTheSame }
{
    typed_suits();
    made_asks_the_same();
}

/// And it stays within its frames.
pub fn typed_is_framed()
    ensures { TypedIsFramed }
{
    typed_suits();
    made_is_framed();
}

/// What flattening makes of a typed program spawns what some function of the program spawns.
pub fn made_spawns()
    ensures { MadeSpawns }
{
    spawns_name_functions();
}

/// In what flattening makes each CondEnter is followed by an Unlock and a CondWait of the same cell.
pub fn made_waits()
    ensures { MadeWaits }
{}

/// In what flattening makes no cell that is found by an index is one of granule 0.
pub fn made_is_past()
    ensures { MadeIsPast }
{}

/// Its tables are in their ranges: its functions are few, `main` and what it spawns are among them, its globals lie one
/// after the other within their granules, and what they hold at first are words.
pub fn made_tables_fit()
    ensures { MadeTablesFit }
{
    within_limits();
    meets_globals();
    spawns_threads();
    made_spawns();
}

/// No global of a program with fit lock paths is locked behind a sibling pointer.
pub fn fit_are_unguarded()
    ensures { FitAreUnguarded }
{}
