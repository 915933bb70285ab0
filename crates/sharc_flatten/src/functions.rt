// The code of all functions, and the table of them.

ghost use Rattle.std.specs.Prelude.{◌≡◌, ◌++◌, [], length, IfOk, OnOk};
ghost use Rattle.sharc_tree.specs.View.{view_function};
ghost use Rattle.sharc_names.specs.View.{view_kind};
ghost use Rattle.sharc_ctype.specs.Resolved.{functions_in};
ghost use Rattle.sharc_flatten.specs.Rows.{row_with};
ghost use Rattle.sharc_flat.specs.Flattened.{parameter_in, parameter_of, row_of, rows_of};
ghost use Rattle.sharc_flat.specs.Flattened.{function_code, functions_code};

use crate::lookups::small;
use crate::need::{ints_in, refs_in};
use crate::operations::bank_of;
use crate::registers::Bank;
use crate::source::PlacedProgram;
use crate::spots::no_text;
use crate::walk::{ScopeStack, function_lines, parameters_free};
use sharc_code::{Function, Parameter};
use sharc_flat::Op;
use sharc_names::kind::{ExpressionKind, declared_kind};
use sharc_tree::tree::{Declaration, FunctionDefinition};
use std::alloc::{AllocError, Global};

fn parameter_in(kind: ExpressionKind<'_>) -> Parameter
    ensures { result ≡ parameter_in (view_kind kind.entry) }
{
    match bank_of(kind) {
        Bank::Int => Parameter::Int,
        Bank::Reference => Parameter::Reference,
    }
}

/// What a thread of a function with these parameters is handed.
fn parameter_of(parameters: &[Declaration]) -> Parameter
    ensures { result ≡ parameter_of parameters.now }
{
    match parameters {
        [] => Parameter::None,
        [first, ..] => parameter_in(declared_kind(&first.written)),
    }
}

/// The row of a function whose code are these lines, from this one on. Its frame has the registers of the parameters
/// and those that the code needs.
fn row_of(
    walk: &mut ScopeStack,
    of: &FunctionDefinition,
    entry: usize,
    own: &[Op],
) -> Result<Function, AllocError>
    ensures { IfOk result (λ row. row ≡ row_with entry own.now (view_function of.now)) }
{
    let parameters = of.parameters.as_slice();
    let first = parameters_free(walk, parameters)?;
    Ok(Function {
        entry: small(entry)?,
        ints: ints_in(own)?.max(first.int),
        refs: refs_in(own)?.max(first.reference),
        parameter: parameter_of(parameters),
        site: of.name.site,
        name: no_text(),
    })
}

/// The code of a function, at the end of these lines, and its row.
fn function(
    source: &PlacedProgram<'_>,
    walk: &mut ScopeStack,
    of: &FunctionDefinition,
    lines: &mut Vec<Op>,
) -> Result<Function, AllocError>
    ensures row { IfOk result (λ row. row
        ≡ row_of source.now.m.now source.now.globals.items (length lines.old.items) (view_function of.now)) }
    ensures code { OnOk result (lines.new.items ≡ lines.old.items
        ++ function_code source.now.m.now source.now.globals.items (length lines.old.items) (view_function of.now)) }
{
    let entry = lines.len();
    function_lines(source, walk, of, lines)?;
    row_of(walk, of, entry, &lines[entry..])
}

/// The code of all functions, one after the other, and their rows.
pub fn functions(
    alloc: Global,
    source: &PlacedProgram<'_>,
    lines: &mut Vec<Op>,
) -> Result<Vec<Function>, AllocError>
    requires { lines.old.items ≡ [] }
    ensures rows { IfOk result (λ rows. rows.items
        ≡ rows_of source.now.m.now source.now.globals.items 0 (functions_in source.now.m.now.typed.program.items)) }
    ensures code { OnOk result (lines.new.items
        ≡ functions_code source.now.m.now source.now.globals.items 0
        (functions_in source.now.m.now.typed.program.items)) }
{
    let t = source.m.typed();
    let mut rows = Vec::with_capacity(alloc, t.function_count())?;
    let mut walk = ScopeStack::new(alloc);
    for number in 0..small(t.function_count())? {
        match t.function_at(number) {
            None => return Err(AllocError),
            Some(of) => rows.push(function(source, &mut walk, of, lines)?)?,
        }
    }
    Ok(rows)
}
