// Globals: their lengths, their cells and their initial values.

ghost use Rattle.std.specs.Prelude.{◌≡◌, ℕ, ◌≤◌, ◌+◌, min, fold};
ghost use Rattle.sharc_tree.specs.View.{view_item, view_items};
ghost use Rattle.sharc_names.specs.{Notes.noted, View.found_struct};
ghost use Rattle.sharc_ctype.specs.Globals.{elements_of, struct_cells, base_cells, type_cells, global_cells};
ghost use Rattle.sharc_ctype.specs.Globals.{length_notes, holds, holds_constant, is_null_constant, base_initial_notes};
ghost use Rattle.sharc_ctype.specs.Globals.{initial_notes, global_notes, size_notes, item_cells, item_size_notes};
ghost use Rattle.sharc_ctype.specs.Globals.{sizes_notes};

use sharc_names::fault::{FaultCode, Found};
use sharc_names::kind::stars_of;
use sharc_names::scope::Scope;
use sharc_names::structs::{StructMeaning, Structs, cells_of};
use sharc_names::types::{Role, written_type};
use sharc_tree::ctype::Base;
use sharc_tree::tree::{Constant, GlobalDefinition, GlobalForm, Item, WrittenType};

fn elements_of(form: GlobalForm) -> u64
    ensures { result ≡ elements_of form }
{
    match form {
        GlobalForm::Array(_, count) => count.value.unsigned_abs(),
        GlobalForm::Plain => 1,
        GlobalForm::Initial(_, _, _) => 1,
    }
}

fn struct_cells(of: Option<&StructMeaning<'_>>) -> usize
    ensures { result ≡ struct_cells (found_struct of.entry) }
{
    match of {
        None => 0,
        Some(of) => cells_of(of),
    }
}

fn base_cells(structs: &Structs<'_>, base: &Base) -> usize
    ensures { result ≡ base_cells structs.now base.now }
{
    match base {
        Base::Struct(name) => struct_cells(structs.find(name.as_slice())),
        Base::Int => 1,
        Base::Char => 1,
        Base::Long => 1,
        Base::Mutex => 1,
        Base::Void => 1,
    }
}

fn type_cells(structs: &Structs<'_>, written: &WrittenType) -> usize
    ensures { result ≡ type_cells structs.now written.now }
{
    if stars_of(written) == 0 {
        base_cells(structs, &written.ctype.base)
    } else {
        1
    }
}

/// The number of cells, or 65,537 where it is more than 65,536.
fn global_cells(structs: &Structs<'_>, global: &GlobalDefinition) -> u64
    ensures { result ≡ min 65537 (global_cells structs.now global.now) }
{
    let elements = elements_of(global.form);
    let cells = type_cells(structs, &global.declaration.written) as u64;
    elements.saturating_mul(cells).min(65537)
}

fn array_length(form: GlobalForm, found: &mut Found)
    ensures { found.new ≡ fold noted found.old (length_notes form) }
{
    if let GlobalForm::Array(site, count) = form {
        found.fault_where(
            count.value.unsigned_abs() == 0,
            site.token,
            FaultCode::TypeNotAllowed,
        );
    }
}

fn holds(base: &Base, minus: bool, value: u64) -> bool
    ensures { result ≡ holds base.now minus value }
{
    match base {
        Base::Char => { if minus { value <= 128 } else { value < 128 } }
        Base::Int => {
            if minus {
                value <= 2147483648
            } else {
                value < 2147483648
            }
        }
        Base::Long => {
            if minus {
                value <= 9223372036854775808
            } else {
                value < 9223372036854775808
            }
        }
        Base::Mutex => false,
        Base::Void => false,
        Base::Struct(_) => false,
    }
}

fn holds_constant(base: &Base, minus: bool, constant: Constant) -> bool
    ensures { result ≡ holds_constant base.now minus constant }
{
    match constant {
        Constant::Number(number) => holds(base, minus, number.value.unsigned_abs()),
        Constant::Character(byte) => holds(base, minus, byte as u64),
        Constant::Null => false,
    }
}

fn is_null_constant(constant: Constant) -> bool
    ensures { result ≡ is_null_constant constant }
{
    match constant {
        Constant::Null => true,
        Constant::Number(_) => false,
        Constant::Character(_) => false,
    }
}

/// The faults of an initialiser of a type without stars.
fn base_initial(base: &Base, name: u32, at: u32, minus: bool, constant: Constant, found: &mut Found)
    ensures { found.new ≡ fold noted found.old (base_initial_notes base.now name at minus constant) }
{
    match base {
        Base::Int | Base::Char | Base::Long => {
            found.fault_unless(
                holds_constant(base, minus, constant),
                at,
                FaultCode::TypeMismatch,
            );
        }
        Base::Mutex | Base::Struct(_) => found.fault(name, FaultCode::BadForm),
        Base::Void => {}
    }
}

fn initial(global: &GlobalDefinition, found: &mut Found)
    ensures { found.new ≡ fold noted found.old (initial_notes global.now global.now.form) }
{
    if let GlobalForm::Initial(span, minus, constant) = global.form {
        let at = span.first.token;
        let written = &global.declaration.written;
        if stars_of(written) == 0 {
            let name = global.declaration.name.site.token;
            base_initial(&written.ctype.base, name, at, minus, constant, found);
        } else {
            found.fault_unless(is_null_constant(constant), at, FaultCode::TypeMismatch);
        }
    }
}

/// The faults of a global but for its size.
pub(crate) fn global<'a>(scope: &Scope<'a>, global: &'a GlobalDefinition, found: &mut Found)
    ensures { found.new ≡ fold noted found.old (global_notes scope.now global.now) }
{
    written_type(
        scope,
        None,
        Role::Global,
        &global.declaration.written,
        found,
    );
    array_length(global.form, found);
    initial(global, found);
}

/// Takes note where a global passes a limit after others with this many cells; answers the number of cells with it. In
/// both, 65,537 stands for more than 65,536.
fn size(structs: &Structs<'_>, cells: u64, global: &GlobalDefinition, found: &mut Found) -> u64
    requires { cells ≤ 65537 }
    ensures cells { (before : ℕ) → cells ≡ min 65537 before
        → result ≡ min 65537 (before + global_cells structs.now global.now) }
    ensures found { (before : ℕ) → cells ≡ min 65537 before
        → found.new ≡ fold noted found.old (size_notes (before + global_cells structs.now global.now) global.now) }
{
    let all = (cells + global_cells(structs, global)).min(65537);
    let few = elements_of(global.form) <= 65536 && all <= 65536;
    found.fault_unless(
        few,
        global.declaration.name.site.token,
        FaultCode::LimitPassed,
    );
    all
}

fn item_size(structs: &Structs<'_>, cells: u64, item: &Item, found: &mut Found) -> u64
    requires { cells ≤ 65537 }
    ensures cells { (before : ℕ) → cells ≡ min 65537 before
        → result ≡ min 65537 (before + item_cells structs.now (view_item item.now)) }
    ensures found { (before : ℕ) → cells ≡ min 65537 before
        → found.new ≡ fold noted found.old (item_size_notes structs.now before (view_item item.now)) }
{
    match item {
        Item::Global(definition) => size(structs, cells, definition, found),
        Item::Struct(_) => cells,
        Item::Function(_) => cells,
    }
}

/// Takes note of the globals that pass a limit on their size.
pub(crate) fn sizes(structs: &Structs<'_>, items: &[Item], found: &mut Found)
    ensures { found.new ≡ fold noted found.old (sizes_notes structs.now 0 (view_items items.now)) }
{
    let mut cells = 0;
    for item in items {
        cells = item_size(structs, cells, item, found);
    }
}
