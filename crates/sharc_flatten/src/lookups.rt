// Cells of elements and places of fields.

ghost use Rattle.std.specs.{Prelude.{◌≡◌, ◌+◌, length, IfOk, position, unwrap_or, if◌then◌else◌, ◌==◌}, Str.bytes_eq};
ghost use Rattle.sharc_names.specs.View.{view_kind, view_root};
ghost use Rattle.sharc_ctype.specs.Resolved.{global_at, declaration_at, structs_in};
ghost use Rattle.sharc_ctype.specs.Globals.{elements_of as elements_of_form};
ghost use Rattle.sharc_mode.specs.{View.view_lock, Cells.is_behind_pointer};
ghost use Rattle.sharc_meaning.specs.Cells.{struct_cells, base_cells, element_cells, global_elements, field_place};
ghost use Rattle.sharc_meaning.specs.Cells.{field_place_named, field_place_behind};
ghost use Rattle.sharc_flat.specs.{Flattened.{struct_layout, base_layout, layout_of}, Machine.first_cell};

use crate::scope::next;
use crate::source::PlacedProgram;
use sharc_ctype::typed::Typed;
use sharc_mode::cell::named_kind;
use sharc_mode::sharing::{Lock, is_sibling_lock};
use sharc_mode::types::fields_behind;
use sharc_names::fault::Named;
use sharc_names::kind::{ExpressionKind, Root, is_pointer};
use sharc_tree::tree::{Declaration, GlobalForm};
use std::alloc::AllocError;

/// A number of cells, of elements or of lines as one of 32 bits; where it is none, there would not be enough memory.
pub fn small(number: usize) -> Result<u32, AllocError>
    ensures { IfOk result (λ k. k ≡ number) }
{
    match u32::try_from(number) {
        Ok(k) => Ok(k),
        Err(_) => Err(AllocError),
    }
}

fn struct_cells(source: &PlacedProgram<'_>, name: &[u8]) -> u32
    ensures { result ≡ struct_cells (structs_in source.now.m.now.typed.program.items) name.now }
{
    match source.structs.get(name) {
        None => 1,
        Some(row) => row.cells,
    }
}

fn base_cells(source: &PlacedProgram<'_>, root: Root<'_>) -> u32
    ensures { result ≡ base_cells source.now.m.now.typed (view_root root.entry) }
{
    match root {
        Root::Int => 1,
        Root::Char => 1,
        Root::Long => 1,
        Root::Mutex => 1,
        Root::Void => 1,
        Root::Struct(name) => struct_cells(source, name),
    }
}

fn cells_behind(source: &PlacedProgram<'_>, root: Root<'_>, stars: usize) -> u32
    ensures { result ≡ (if stars == 0 then base_cells source.now.m.now.typed (view_root root.entry) else 1) }
{
    if stars == 0 {
        base_cells(source, root)
    } else {
        1
    }
}

/// The cells of one element.
pub fn element_cells(source: &PlacedProgram<'_>, kind: ExpressionKind<'_>) -> u32
    ensures { result ≡ element_cells source.now.m.now.typed (view_kind kind.entry) }
{
    match kind {
        ExpressionKind::Object(root, stars) => cells_behind(source, root, stars),
        ExpressionKind::Array(root, stars) => cells_behind(source, root, stars),
        ExpressionKind::Null => 1,
        ExpressionKind::Function => 1,
    }
}

/// How many elements the form of a global gives it.
pub fn elements_of_form(form: &GlobalForm) -> u64
    ensures { result ≡ elements_of_form form.now }
{
    match form {
        GlobalForm::Plain => 1,
        GlobalForm::Array(_, count) => count.value.unsigned_abs(),
        GlobalForm::Initial(_, _, _) => 1,
    }
}

/// How many elements a global has.
pub(crate) fn global_elements(typed: &Typed, number: u32) -> Result<u32, AllocError>
    ensures { IfOk result (λ n. n ≡ global_elements (global_at typed.now number)) }
{
    match typed.global_at(number) {
        None => Ok(0),
        Some(global) => match u32::try_from(elements_of_form(&global.form)) {
            Ok(n) => Ok(n),
            Err(_) => Err(AllocError),
        },
    }
}

/// The place of a field's cell among those of an element.
pub(crate) fn field_place(source: &PlacedProgram<'_>, token: u32) -> u32
    ensures { result ≡ field_place source.now.m.now.typed token }
{
    source.fields.get(&token).copied().unwrap_or(0)
}

/// The place of the field that a name names.
pub(crate) fn field_named(source: &PlacedProgram<'_>, named: Named) -> u32
    ensures { result ≡ field_place_named source.now.m.now.typed named }
{
    match named {
        Named::Field(token) => field_place(source, token),
        Named::Struct(_) => 0,
        Named::Global(_) => 0,
        Named::Function(_) => 0,
        Named::Variable(_) => 0,
        Named::Known => 0,
    }
}

/// The place of the first field with this name. There are as many steps as fields of a struct, which has at most 256.
fn place_of_name(fields: &[Declaration], name: &[u8]) -> Result<u32, AllocError>
    ensures { IfOk result (λ n. n ≡ unwrap_or (position (λ d. bytes_eq d.name.text name.now) fields.now) 0) }
{
    let mut place = 0u32;
    for field in fields {
        if field.name.text.as_slice() == name {
            return Ok(place);
        }
        place = next(place)?;
    }
    Ok(0)
}

/// The place of the field with this name, in the struct to which the variable that this token declares points.
pub(crate) fn field_place_behind(
    typed: &Typed,
    variable: u32,
    name: &[u8],
) -> Result<u32, AllocError>
    ensures { IfOk result (λ n. n ≡ field_place_behind typed.now variable name.now) }
{
    place_of_name(fields_behind(typed, typed.declaration_at(variable)), name)
}

/// Whether a path names a sibling that points to a mutex.
pub(crate) fn is_behind_pointer(typed: &Typed, lock: Lock<'_>) -> bool
    ensures { result ≡ is_behind_pointer typed.now (view_lock lock.entry) }
{
    is_sibling_lock(typed, lock) && is_pointer(named_kind(typed, typed.named(lock.first)))
}

/// The first cell of a global.
pub(crate) fn first_cell(source: &PlacedProgram<'_>, number: u32) -> Result<u32, AllocError>
    ensures { IfOk result (λ n. n ≡ first_cell source.now.globals.items number) }
{
    let globals = source.globals.as_slice();
    let number = number as usize;
    if number >= globals.len() {
        return Ok(0);
    }
    match globals[number].granule.checked_mul(2) {
        Some(cell) => Ok(cell),
        None => Err(AllocError),
    }
}

/// The cell of this field of a global's first element.
pub(crate) fn cell_in(
    source: &PlacedProgram<'_>,
    number: u32,
    field: u32,
) -> Result<u32, AllocError>
    ensures { IfOk result (λ n. n ≡ first_cell source.now.globals.items number + field) }
{
    match first_cell(source, number)?.checked_add(field) {
        Some(cell) => Ok(cell),
        None => Err(AllocError),
    }
}

/// The number after those of all layouts of structs.
fn last_layout(typed: &Typed) -> Result<u32, AllocError>
    ensures { IfOk result (λ n. n ≡ length (structs_in typed.now.program.items) + 2) }
{
    match small(typed.struct_count())?.checked_add(2) {
        Some(n) => Ok(n),
        None => Err(AllocError),
    }
}

fn struct_layout(source: &PlacedProgram<'_>, name: &[u8]) -> Result<u32, AllocError>
    ensures { IfOk result (λ n. n ≡ struct_layout 2 (structs_in source.now.m.now.typed.program.items) name.now) }
{
    match source.structs.get(name) {
        None => last_layout(source.m.typed()),
        Some(row) => Ok(row.layout),
    }
}

fn base_layout(source: &PlacedProgram<'_>, root: Root<'_>) -> Result<u32, AllocError>
    ensures { IfOk result (λ n. n
        ≡ base_layout (structs_in source.now.m.now.typed.program.items) (view_root root.entry)) }
{
    match root {
        Root::Struct(name) => struct_layout(source, name),
        Root::Int => Ok(0),
        Root::Char => Ok(0),
        Root::Long => Ok(0),
        Root::Mutex => Ok(0),
        Root::Void => Ok(0),
    }
}

/// The number of the layout of an element.
pub(crate) fn layout_of(
    source: &PlacedProgram<'_>,
    kind: ExpressionKind<'_>,
) -> Result<u32, AllocError>
    ensures { IfOk result (λ n. n
        ≡ layout_of (structs_in source.now.m.now.typed.program.items) (view_kind kind.entry)) }
{
    match kind {
        ExpressionKind::Object(root, 0) => base_layout(source, root),
        ExpressionKind::Object(_, _) => Ok(1),
        ExpressionKind::Array(_, _) => Ok(0),
        ExpressionKind::Null => Ok(0),
        ExpressionKind::Function => Ok(0),
    }
}
