// The laws, each the contract of a function with calls of other laws alone.

ghost use Rattle.sharc_typed_laws.specs.Functions.{FunctionsAreTyped};
ghost use Rattle.sharc_typed_laws.specs.Programs.{CodeIsWellTyped, ProgramsAreLevel, ProgramsAreTyped};

use crate::{
    anyhow_law, blocks_law, code_law, decisions_law, ends_law, jumps_law, knows_law, labels_law,
    leaves_law, lines_law, locals_law, returns_nothing_law, simples_law, tells_law, tests_law,
    typed_law, values_return_law,
};
use sharc_flat::laws::made_is_flattened;
use sharc_flat_laws::laws::made_is_past;

/// The code of a function of which the types say what is asked is typed, wherever it is.
pub fn functions_law()
    ensures { FunctionsAreTyped }
{
    blocks_law();
    decisions_law();
    simples_law();
    tests_law();
    locals_law();
    ends_law();
    leaves_law();
    jumps_law();
    labels_law();
    returns_nothing_law();
    values_return_law();
}

/// The flat code of a program of which the types say what is asked is typed whatever checks are remembered.
pub fn programs_law()
    ensures { ProgramsAreTyped }
{
    functions_law();
    lines_law();
    tells_law();
    knows_law();
    made_is_past();
    made_is_flattened();
}

/// It overwrites no reference: a register that gets one is NULL before, or gives up its own.
pub fn levels_law()
    ensures { ProgramsAreLevel }
{
    programs_law();
    anyhow_law();
    typed_law();
    made_is_flattened();
}

/// So the code that is made of it is typed.
pub fn code_typed_law()
    ensures { CodeIsWellTyped }
{
    programs_law();
    code_law();
}
