// The code of functions.

ghost use Rattle.std.specs.Prelude.{◌≡◌, ◌++◌, [], ◌∷◌, length, map, IfOk, OnOk};
ghost use Rattle.sharc_tree.specs.View.{view_function};
ghost use Rattle.sharc_flat.specs.{Flattened.{function_code, parameters_scope}, Scope.{int_count, ref_count}};

use crate::bodies::{Around, statements};
use crate::operations::{bank_of, zero};
use crate::places::{Emitted, emit};
use crate::registers::Registers;
use crate::scope::{end_block, free, slot_of};
use crate::source::PlacedProgram;
use crate::spots::at_site;
use sharc_flat::Op;
use sharc_flat::slot::Slot;
use sharc_names::kind::declared_kind;
use sharc_tree::tree::{Declaration, FunctionDefinition};
use std::alloc::{AllocError, Global};

/// The lists that are kept from one function to the next: the variables in scope, and for each open block the number of
/// variables in scope where it began.
#[derive(Drop)]
pub struct ScopeStack {
    slots: Vec<Slot>,
    marks: Vec<usize>,
}

impl ScopeStack {
    /// No function yet.
    pub fn new(alloc: Global) -> Self {
        ScopeStack {
            slots: Vec::new(alloc),
            marks: Vec::new(alloc),
        }
    }
}

/// The parameters come into scope, and the function's block is open.
fn begin(
    parameters: &[Declaration],
    slots: &mut Vec<Slot>,
    marks: &mut Vec<usize>,
) -> Result<(), AllocError>
    ensures slots { OnOk result (slots.new.items ≡ parameters_scope parameters.now) }
    ensures marks { OnOk result (marks.new.items ≡ 0 ∷ []) }
{
    slots.clear();
    marks.clear();
    marks.push(0)?;
    for declaration in parameters {
        slots.push(slot_of(declaration))?;
    }
    Ok(())
}

/// The code of a function, at the end of these lines. It fails where the number of a register, a line, a cell or an
/// element is too large, or where memory is short.
pub fn function_lines(
    source: &PlacedProgram<'_>,
    walk: &mut ScopeStack,
    of: &FunctionDefinition,
    lines: &mut Vec<Op>,
) -> Emitted
    ensures { OnOk result (lines.new.items ≡ lines.old.items
        ++ function_code source.now.m.now source.now.globals.items (length lines.old.items) (view_function of.now)) }
{
    let around = Around {
        result: declared_kind(&of.result),
        broken: 0,
        continued: 0,
        outer: 0,
    };
    let slots = &mut walk.slots;
    let marks = &mut walk.marks;
    begin(of.parameters.as_slice(), slots, marks)?;
    emit(Op::Enter, lines)?;
    statements(
        source,
        slots,
        marks,
        around,
        of.statements.as_slice(),
        lines,
    )?;
    end_block(slots.as_slice(), 0, lines)?;
    let at = Registers {
        int: 0,
        reference: 0,
    };
    zero(bank_of(around.result), at, lines)?;
    emit(Op::Return(at_site(of.body.last)), lines)
}

/// The first registers after a function's parameters.
pub fn parameters_free(
    walk: &mut ScopeStack,
    parameters: &[Declaration],
) -> Result<Registers, AllocError>
    ensures int { IfOk result (λ r. r.int ≡ int_count (parameters_scope parameters.now)) }
    ensures reference { IfOk result (λ r. r.reference ≡ ref_count (parameters_scope parameters.now)) }
{
    begin(parameters, &mut walk.slots, &mut walk.marks)?;
    free(walk.slots.as_slice())
}
