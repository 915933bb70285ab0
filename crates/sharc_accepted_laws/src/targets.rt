// The laws of the table of targets, each the contract of a function that does nothing.

ghost use Rattle.sharc_accepted_laws.specs.{Beside.LocksStandBeside, Fields.FieldsPlaced, TargetFirsts.FirstLaws};
ghost use Rattle.sharc_accepted_laws.specs.{Granules.GranulesAreFew, TargetLaws.{NumbersFound, ShapesClosed, CellsAre}};
ghost use Rattle.sharc_accepted_laws.specs.TargetLaws.{TargetsAre, ExpressionsFound, VariablesFound, ResultsFound};
ghost use Rattle.sharc_accepted_laws.specs.TargetLaws.{MembersAre, GlobalsAre, GlobalsEnd, GlobalsBegin, GlobalsHold};
ghost use Rattle.sharc_accepted_laws.specs.{TargetLaws.LayoutsAre, Lvalues.{LvaluesFit, ArraysFit}, Own.OwnAreFound};
ghost use Rattle.sharc_accepted_laws.specs.Pointers.{GlobalsPoint, PointeesPoint, PointersAreOfGlobals};
ghost use Rattle.sharc_accepted_laws.specs.Pointees.{PointeesFit, RecastsFit, SameForms};

use sharc_check::rule_laws::rules_are_met;
use sharc_ctype_laws::laws::{
    cells_are_few, each_name_once, each_names_itself, each_type_found, meets_constraints,
    meets_globals, one_type, only_names, within_limits,
};

/// Each shape of a program has a row of its own, which is not that of nothing.
pub fn numbers_found()
    ensures { NumbersFound }
{}

/// What an element of a shape of the program points to is of a shape of the program.
pub fn shapes_closed()
    ensures { ShapesClosed }
{}

/// An element has as many cells as its type has in the source.
pub fn cells_are()
    ensures { CellsAre }
{}

/// The table of a well-moded program is one of targets.
pub fn targets_are()
    ensures { TargetsAre }
{
    each_name_once();
    only_names();
    each_type_found();
    each_names_itself();
    rules_are_met();
}

/// An expression of a function that has a row has a target for each star, and the shape of the first is one of the
/// program.
pub fn expressions_found()
    ensures { ExpressionsFound }
{
    each_type_found();
    meets_constraints();
    one_type();
}

/// So has each field, parameter and local, however its type is read.
pub fn variables_found()
    ensures { VariablesFound }
{
    each_type_found();
}

/// And each result.
pub fn results_found()
    ensures { ResultsFound }
{
    each_type_found();
}

/// The field of a struct is the cell of its place in each element of that struct.
pub fn members_are()
    ensures { MembersAre }
{}

/// The cells of a global are those of its elements, one after the other from its first cell on.
pub fn globals_are()
    ensures { GlobalsAre }
{}

/// The globals have whole granules.
pub fn globals_end()
    ensures { GlobalsEnd }
{}

/// What the cells of globals hold at first is a value of the type that the table has for them, where no number in their
/// forms is below 0.
pub fn globals_begin()
    ensures { GlobalsBegin }
{
    meets_globals();
}

/// The layout of a type is that of its shape: so many cells, of which those are pointers.
pub fn layouts_are()
    ensures { LayoutsAre }
{
    within_limits();
}

/// Each lvalue of a function that is no struct names a variable, or a cell that the table has with what it holds and
/// with its mode.
pub fn lvalues_fit()
    ensures { LvaluesFit }
{
    each_name_once();
    only_names();
    each_type_found();
    each_names_itself();
    meets_constraints();
    one_type();
    rules_are_met();
}

/// An array is a global that is named, with elements of its type.
pub fn arrays_fit()
    ensures { ArraysFit }
{
    each_name_once();
    only_names();
    each_type_found();
    each_names_itself();
    meets_constraints();
    one_type();
    rules_are_met();
}

/// Code with the tables of a program has globals with fields of the table and with their first values.
pub fn globals_hold()
    ensures { GlobalsHold }
{
    meets_globals();
}

/// What a pointer refers to has the cells, the layout and the fields of the source.
pub fn pointees_fit()
    ensures { PointeesFit }
{}

/// A cast to other modes at depth 1 leaves what the cells of an element are and refer to.
pub fn recasts_fit()
    ensures { RecastsFit }
{}

/// Modes that are the same are of one kind.
pub fn same_modes()
    ensures { SameForms }
{}

/// What locks a field from within its element is there: a mutex, or a readonly pointer to one.
pub fn locks_stand_beside()
    ensures { LocksStandBeside }
{
    each_name_once();
    only_names();
    each_type_found();
    each_names_itself();
    rules_are_met();
}

/// A field's place in an element is that at which it stands in its struct.
pub fn fields_placed()
    ensures { FieldsPlaced }
{}

/// The globals of a program take few granules.
pub fn granules_are_few()
    ensures { GranulesAreFew }
{
    cells_are_few();
}

/// A cell of the globals that is a pointer in the table is one of a global that is a pointer in the source.
pub fn global_pointers_are()
    ensures { PointersAreOfGlobals }
{}

/// And a cell of a global that is a pointer in the source is one in the table, where the global has it.
pub fn globals_point()
    ensures { GlobalsPoint }
{}

/// A cell of what a pointer refers to is a pointer in the table where it is one of its type in the source.
pub fn pointees_point()
    ensures { PointeesPoint }
{}

/// Parameters, locals and casts are found by their tokens, with the roles that they have.
pub fn own_found()
    ensures { OwnAreFound }
{
    each_type_found();
}

/// The first cell of a mutex and of a condition variable is one, and the table has a row for each.
pub fn first_laws()
    ensures { FirstLaws }
{}
