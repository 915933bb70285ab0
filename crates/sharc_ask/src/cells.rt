// Objects and their cells, and the mutex that a lock path names.

ghost use Rattle.std.specs.{Prelude.{◌≡◌, ◌==◌, ◌+◌, ◌≤◌, length, IfSome, if◌then◌else◌}, List.position_or_len};
ghost use Rattle.std.specs.Str.{bytes_eq};
ghost use Rattle.sharc_tree.specs.View.{view_items};
ghost use Rattle.sharc_names.specs.View.{view_kind, view_root};
ghost use Rattle.sharc_ctype.specs.{Globals.elements_of as elements_of_form, Resolved.{global_at, structs_in}};
ghost use Rattle.sharc_mode.specs.{Cells.is_behind_pointer, View.{view_lock, view_name, view_sharing}};
ghost use Rattle.sharc_meaning.specs.Cells.{struct_cells, base_cells, element_cells, global_elements, field_place_in};
ghost use Rattle.sharc_meaning.specs.Cells.{field_place, field_place_named, field_place_behind, through, mutex_named};
ghost use Rattle.sharc_meaning.specs.Cells.{guard_beside, guard_by, guard_named, guard_of, instance_mode};
ghost use Rattle.sharc_meaning.specs.{Reference.{number_of, elements_of}, State.value_in};
ghost use Rattle.sharc_ask.specs.StepView.{view_guard};

use crate::state::value_in;
use sharc_ctype::typed::Typed;
use sharc_meaning::variable::Variable;
use sharc_mode::cell::named_kind;
use sharc_mode::sharing::{Lock, Sharing, is_sibling_lock};
use sharc_mode::types::fields_behind;
use sharc_names::fault::Named;
use sharc_names::kind::{ExpressionKind, Root, is_pointer};
use sharc_tree::event::{CellAt, CellMode, Object};
use sharc_tree::tree::{Declaration, GlobalForm, Item};

/// What guards a cell.
#[derive(Clone, Copy, Drop)]
pub enum Guard {
    /// A mutex.
    Mutex(CellAt),
    /// The first mutex to which this pointer cell refers.
    Behind(CellAt),
    /// Nothing, where the path leads through NULL.
    Nothing,
}

/// The number of the object of a reference that is not NULL.
pub fn number_of(reference: i64) -> u32
    ensures { result ≡ number_of reference }
{
    (reference.unsigned_abs() % 4294967296) as u32
}

/// How many elements it has.
pub fn elements_of(reference: i64) -> u64
    ensures { result ≡ elements_of reference }
{
    reference.unsigned_abs() / 4294967296
}

fn struct_cells(items: &[Item], name: &[u8]) -> u64
    ensures { result ≡ struct_cells (structs_in (view_items items.now)) name.now }
{
    match items {
        [] => 1,
        [Item::Struct(definition), rest @ ..] => {
            if definition.name.text.as_slice() == name {
                definition.fields.len() as u64
            } else {
                struct_cells(rest, name)
            }
        }
        [Item::Global(_), rest @ ..] => struct_cells(rest, name),
        [Item::Function(_), rest @ ..] => struct_cells(rest, name),
    }
}

fn base_cells(typed: &Typed, root: Root<'_>) -> u64
    ensures { result ≡ base_cells typed.now (view_root root.entry) }
{
    match root {
        Root::Int => 1,
        Root::Char => 1,
        Root::Long => 1,
        Root::Mutex => 1,
        Root::Void => 1,
        Root::Struct(name) => struct_cells(typed.program().items.as_slice(), name),
    }
}

fn cells_behind(typed: &Typed, root: Root<'_>, stars: usize) -> u64
    ensures { result ≡ (if stars == 0 then base_cells typed.now (view_root root.entry) else 1) }
{
    if stars == 0 {
        base_cells(typed, root)
    } else {
        1
    }
}

/// The cells of one element.
pub fn element_cells(typed: &Typed, kind: ExpressionKind<'_>) -> u64
    ensures { result ≡ element_cells typed.now (view_kind kind.entry) }
{
    match kind {
        ExpressionKind::Object(root, stars) => cells_behind(typed, root, stars),
        ExpressionKind::Array(root, stars) => cells_behind(typed, root, stars),
        ExpressionKind::Null => 1,
        ExpressionKind::Function => 1,
    }
}

fn elements_of_form(form: &GlobalForm) -> u64
    ensures { result ≡ elements_of_form form.now }
{
    match form {
        GlobalForm::Plain => 1,
        GlobalForm::Array(_, count) => count.value.unsigned_abs(),
        GlobalForm::Initial(_, _, _) => 1,
    }
}

/// How many elements a global has.
pub fn global_elements(typed: &Typed, number: u32) -> u64
    ensures { result ≡ global_elements (global_at typed.now number) }
{
    match typed.global_at(number) {
        None => 0,
        Some(global) => elements_of_form(&global.form),
    }
}

// How many of the fields come before the one that this token declares; all, where it is not among them.
fn fields_before(fields: &[Declaration], token: u32) -> usize
    ensures place { result ≡ position_or_len (λ d. d.name.site.token == token) fields.now }
    ensures within { result ≤ length fields.now }
{
    match fields {
        [] => 0,
        [field, rest @ ..] => {
            if field.name.site.token == token {
                0
            } else {
                fields_before(rest, token) + 1
            }
        }
    }
}

// Likewise of the one with this name.
fn fields_before_name(fields: &[Declaration], name: &[u8]) -> usize
    ensures place { result ≡ position_or_len (λ d. bytes_eq d.name.text name.now) fields.now }
    ensures within { result ≤ length fields.now }
{
    match fields {
        [] => 0,
        [field, rest @ ..] => {
            if field.name.text.as_slice() == name {
                0
            } else {
                fields_before_name(rest, name) + 1
            }
        }
    }
}

fn field_place_in(items: &[Item], token: u32) -> u64
    ensures { result ≡ field_place_in (structs_in (view_items items.now)) token }
{
    match items {
        [] => 0,
        [Item::Struct(definition), rest @ ..] => {
            let fields = definition.fields.as_slice();
            let place = fields_before(fields, token);
            if place < fields.len() {
                place as u64
            } else {
                field_place_in(rest, token)
            }
        }
        [Item::Global(_), rest @ ..] => field_place_in(rest, token),
        [Item::Function(_), rest @ ..] => field_place_in(rest, token),
    }
}

/// The place of a field's cell among those of an element.
pub fn field_place(typed: &Typed, token: u32) -> u64
    ensures { result ≡ field_place typed.now token }
{
    field_place_in(typed.program().items.as_slice(), token)
}

/// The place of the field that a name names.
pub fn field_place_named(typed: &Typed, named: Named) -> u64
    ensures { result ≡ field_place_named typed.now named }
{
    match named {
        Named::Field(token) => field_place(typed, token),
        _ => 0,
    }
}

fn field_place_behind(typed: &Typed, variable: u32, name: &[u8]) -> u64
    ensures { result ≡ field_place_behind typed.now variable name.now }
{
    let fields = fields_behind(typed, typed.declaration_at(variable));
    let place = fields_before_name(fields, name);
    if place < fields.len() {
        place as u64
    } else {
        0
    }
}

fn through(pointer: i64, place: u64) -> Option<CellAt>
    ensures { result ≡ through pointer place }
{
    if pointer == 0 {
        None
    } else {
        Some(CellAt {
            object: Object::Made(number_of(pointer)),
            cell: place,
        })
    }
}

/// The mutex that a lock path names without siblings, by what the variables hold.
fn mutex_named(
    typed: &Typed,
    variables: &[Variable],
    what: Named,
    second: Option<&[u8]>,
) -> Option<CellAt>
    ensures { result ≡ mutex_named typed.now (value_in variables.now) what (view_name second.entry) }
{
    match what {
        Named::Global(number) => Some(CellAt {
            object: Object::Global(number),
            cell: 0,
        }),
        Named::Variable(token) => match second {
            Some(name) => through(
                value_in(variables, token),
                field_place_behind(typed, token, name),
            ),
            None => None,
        },
        Named::Struct(_) => None,
        Named::Function(_) => None,
        Named::Field(_) => None,
        Named::Known => None,
    }
}

fn is_behind_pointer(typed: &Typed, lock: Lock<'_>) -> bool
    ensures { result ≡ is_behind_pointer typed.now (view_lock lock.entry) }
{
    is_sibling_lock(typed, lock) && is_pointer(named_kind(typed, typed.named(lock.first)))
}

fn guard_beside(is_pointer: bool, cell: CellAt) -> Guard
    ensures { view_guard result ≡ guard_beside is_pointer cell }
{
    if is_pointer {
        Guard::Behind(cell)
    } else {
        Guard::Mutex(cell)
    }
}

fn guard_by(mutex: Option<CellAt>) -> Guard
    ensures { view_guard result ≡ guard_by mutex }
{
    match mutex {
        None => Guard::Nothing,
        Some(cell) => Guard::Mutex(cell),
    }
}

fn guard_sibling(
    typed: &Typed,
    object: Object,
    first: u64,
    lock: Lock<'_>,
    token: u32,
) -> Option<Guard>
    ensures { IfSome result (λ g. view_guard g ≡ guard_beside (is_behind_pointer typed.now (view_lock lock.entry))
        (record { object = object; cell = first + field_place typed.now token })) }
{
    match first.checked_add(field_place(typed, token)) {
        None => None,
        Some(cell) => Some(guard_beside(is_behind_pointer(typed, lock), CellAt { object, cell })),
    }
}

/// What guards a cell in the element that begins at this cell of this object. None only where the cell of a sibling has
/// no number of 64 bits.
pub fn guard_of(
    typed: &Typed,
    variables: &[Variable],
    object: Object,
    first: u64,
    lock: Lock<'_>,
) -> Option<Guard>
    ensures { IfSome result (λ g. view_guard g
        ≡ guard_of typed.now (value_in variables.now) object first (view_lock lock.entry)) }
{
    match typed.named(lock.first) {
        Named::Field(token) => guard_sibling(typed, object, first, lock, token),
        Named::Global(number) => Some(guard_by(mutex_named(
            typed,
            variables,
            Named::Global(number),
            lock.second,
        ))),
        Named::Variable(token) => Some(guard_by(mutex_named(
            typed,
            variables,
            Named::Variable(token),
            lock.second,
        ))),
        Named::Struct(number) => Some(guard_by(mutex_named(
            typed,
            variables,
            Named::Struct(number),
            lock.second,
        ))),
        Named::Function(number) => Some(guard_by(mutex_named(
            typed,
            variables,
            Named::Function(number),
            lock.second,
        ))),
        Named::Known => Some(guard_by(mutex_named(typed, variables, Named::Known, lock.second))),
    }
}

/// The mode of an object that is made or given, by that of the target to which the reference goes.
pub fn instance_mode(typed: &Typed, variables: &[Variable], mode: Sharing<'_>) -> CellMode
    ensures { result ≡ instance_mode typed.now (value_in variables.now) (view_sharing mode.entry) }
{
    match mode {
        Sharing::Private => CellMode::Private,
        Sharing::Readonly => CellMode::Readonly,
        Sharing::Locked(lock) => CellMode::Locked(mutex_named(
            typed,
            variables,
            typed.named(lock.first),
            lock.second,
        )),
        Sharing::Racy => CellMode::Racy,
        Sharing::Dynamic => CellMode::Dynamic,
    }
}
