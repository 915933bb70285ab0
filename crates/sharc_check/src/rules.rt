// What is said of one construct: the rules M1, M2, M4 of calls, and M8 to M11.

ghost use Rattle.std.specs.{Prelude.{◌≡◌, ◌+◌, ◌≤◌, ◌++◌, ◌∷◌, [], drop, IfOk, OnOk}, List.{flat_map, list_any}};
ghost use Rattle.std.specs.Option.{option_map, option_or};
ghost use Rattle.sharc_tree.specs.{Spans.span_of, View.view_expr};
ghost use Rattle.sharc_names.specs.View.{view_root};
ghost use Rattle.sharc_mode.specs.{Cells.cell_at, Expressions.{expected, place_notes}, Moded.position_count};
ghost use Rattle.sharc_mode.specs.Notes.{error, error_where, mismatch, shown, no_type, span_text, agree_notes};
ghost use Rattle.sharc_mode.specs.Notes.{write_notes, cast_notes, taken_variable, takes, source_notes, names_of};
ghost use Rattle.sharc_mode.specs.Notes.{names_in, names_in_all, sibling_notes, field_notes, unmet, unmet_in};
ghost use Rattle.sharc_mode.specs.Notes.{unmet_level, unmet_written, unmet_parameter, first_unmet, unmet_notes};
ghost use Rattle.sharc_mode.specs.{Notes.{names_read, parameter_names, names_at_call, call_notes}, Rows.at_call};
ghost use Rattle.sharc_mode.specs.{Rows.{modes_of, modes_at, cast_row}, Sharings.{is_readonly, is_sibling}};
ghost use Rattle.sharc_mode.specs.View.{view_reading, view_row, view_rows, view_sharing, EndsWithin};
ghost use Rattle.sharc_check.specs.Passed.{view_passed, view_locks};

use crate::passing::Passing;
use sharc_ctype::typed::Typed;
use sharc_mode::cell::{cell_of, pointed};
use sharc_mode::error::{ErrorCode, ModeError};
use sharc_mode::finding::Finding;
use sharc_mode::moded::Moded;
use sharc_mode::read::{path_variable, read};
use sharc_mode::row::{PathReading, Targets, cast_row, declared_row, row_of};
use sharc_mode::sharing::{
    Lock, Sharing, is_readonly, is_sibling, object_named, object_of, sharing_of, variable_named,
};
use sharc_mode::shown::{path_of, root_of_kind, row_laws, same_rows, shown};
use sharc_mode::text::{path_text, span_text};
use sharc_names::kind::{Root, root_of};
use sharc_tree::ctype::{Base, CType, Mode};
use sharc_tree::listed::Listed;
use sharc_tree::name::Name;
use sharc_tree::token::Span;
use sharc_tree::tree::{Declaration, Expr, PlaceCall, WrittenType};
use std::alloc::{AllocError, Global};

/// Whether the findings could be added: nothing but memory can be lacking.
pub type Noting = Result<(), AllocError>;

/// What is to be said of a program, in the order in which it was found.
pub type Notes = Vec<Finding>;

/// `void` with no levels, where no type is shown.
fn no_type(alloc: Global) -> CType
    ensures { result ≡ no_type }
{
    CType {
        base: Base::Void,
        levels: Listed::of(Vec::new(alloc)),
    }
}

/// A case that shows no types.
pub(crate) fn error(alloc: Global, code: ErrorCode, span: Span, subject: Name) -> Finding
    ensures { result ≡ error code span subject }
{
    Finding::Wrong(ModeError {
        code,
        site: span.first,
        expected: no_type(alloc),
        found: no_type(alloc),
        subject,
    })
}

/// A case that shows two types.
pub(crate) fn mismatch(
    alloc: Global,
    code: ErrorCode,
    span: Span,
    expected: CType,
    found: CType,
) -> Finding
    ensures { result ≡ mismatch code span expected found }
{
    Finding::Wrong(ModeError {
        code,
        site: span.first,
        expected,
        found,
        subject: Name::of(Vec::new(alloc)),
    })
}

/// Says that the modes of two rows differ.
fn differ(
    program: &Moded,
    code: ErrorCode,
    span: Span,
    root: Root<'_>,
    rows: (Targets<'_>, Targets<'_>),
    notes: &mut Notes,
) -> Noting
    requires expected { rows.0.first + rows.0.count ≤ position_count program.now.typed }
    requires found { rows.1.first + rows.1.count ≤ position_count program.now.typed }
    ensures { OnOk result (notes.new.items ≡ notes.old.items ++ mismatch code span
        (shown program.now.typed (view_root root.entry) (modes_of program.now (view_row rows.entry.0)))
        (shown program.now.typed (view_root root.entry) (modes_of program.now (view_row rows.entry.1))) ∷ []) }
{
    let alloc = *notes.allocator();
    let (expected, found) = rows;
    let expected = shown(alloc, program, root, expected)?;
    let found = shown(alloc, program, root, found)?;
    notes.push(mismatch(alloc, code, span, expected, found))?;
    Ok(())
}

/// M1: the modes of an expression are those that are expected; NULL agrees with every pointer type.
pub(crate) fn agree(
    program: &Moded,
    expected: Option<Targets<'_>>,
    expr: &Expr,
    notes: &mut Notes,
) -> Noting
    requires { EndsWithin program.now.typed expected }
    ensures { OnOk result (notes.new.items ≡ notes.old.items ++ agree_notes program.now
        (option_map (modes_of program.now) (view_rows expected.entry)) (view_expr expr.now)) }
{
    let typed = program.typed();
    match (expected, row_of(typed, expr)) {
        (Some(expected), Some(found)) => {
            if same_rows(program, expected, found) {
                Ok(())
            } else {
                let root = root_of_kind(typed.kind_at(expr));
                differ(
                    program,
                    ErrorCode::ModeMismatch,
                    expr.span(),
                    root,
                    (expected, found),
                    notes,
                )
            }
        }
        _ => Ok(()),
    }
}

/// Says that a place is readonly, where it is.
fn readonly(program: &Moded, code: ErrorCode, place: &Expr, notes: &mut Notes) -> Noting
    ensures { OnOk result (notes.new.items
        ≡ notes.old.items ++ error_where (is_readonly (cell_at program.now (view_expr place.now))) code
        (span_of (view_expr place.now)) (span_text program.now.typed (span_of (view_expr place.now)))) }
{
    if is_readonly(cell_of(program, place)) {
        let alloc = *notes.allocator();
        let span = place.span();
        let text = span_text(alloc, program.typed(), span)?;
        notes.push(error(alloc, code, span, text))?;
    }
    Ok(())
}

/// M2
pub(crate) fn write(program: &Moded, place: &Expr, notes: &mut Notes) -> Noting
    ensures { OnOk result (notes.new.items ≡ notes.old.items ++ write_notes program.now (view_expr place.now)) }
{
    readonly(program, ErrorCode::ReadonlyWrite, place, notes)
}

/// M8: the modes of the targets from depth 2 on are those of the source.
pub(crate) fn cast(
    program: &Moded,
    span: Span,
    to: &WrittenType,
    from: &Expr,
    notes: &mut Notes,
) -> Noting
    ensures { OnOk result (notes.new.items
        ≡ notes.old.items ++ cast_notes program.now.typed to.now.span to.now.ctype.base
        (modes_of program.now (cast_row program.now.typed span)) (modes_at program.now (view_expr from.now))) }
{
    let typed = program.typed();
    let _all = program.position_count();
    row_laws();
    match row_of(typed, from) {
        None => Ok(()),
        Some(found) => {
            let expected = cast_row(typed, span);
            if same_rows(program, expected.deeper(), found.deeper()) {
                Ok(())
            } else {
                let root = root_of(&to.ctype.base);
                differ(
                    program,
                    ErrorCode::CastChangesInnerMode,
                    to.span,
                    root,
                    (expected, found),
                    notes,
                )
            }
        }
    }
}

/// The variable or the global that an expression is, if it is one, by the token that declares it.
pub fn taken_variable(typed: &Typed, place: &Expr) -> Option<u32>
    ensures { result ≡ taken_variable typed.now (view_expr place.now) }
{
    match place {
        Expr::Identifier(_, name) => object_named(typed, typed.named(name.site.token)),
        _ => None,
    }
}

fn takes(span: Span, variable: Option<u32>, notes: &mut Notes) -> Noting
    ensures { OnOk result (notes.new.items ≡ notes.old.items ++ takes span variable) }
{
    if let Some(variable) = variable {
        notes.push(Finding::Takes(span, variable))?;
    }
    Ok(())
}

/// M9, and what M10 asks for.
pub(crate) fn source(program: &Moded, place: &Expr, notes: &mut Notes) -> Noting
    ensures { OnOk result (notes.new.items ≡ notes.old.items ++ source_notes program.now (view_expr place.now)) }
{
    readonly(program, ErrorCode::ReadonlySource, place, notes)?;
    let variable = taken_variable(program.typed(), place.without_parentheses());
    takes(place.span(), variable, notes)
}

/// The argument of `lock`, `unlock` or `free`.
pub(crate) fn place(program: &Moded, call: PlaceCall, place: &Expr, notes: &mut Notes) -> Noting
    ensures { OnOk result (notes.new.items ≡ notes.old.items ++ place_notes program.now call (view_expr place.now)) }
{
    match call {
        PlaceCall::Lock => Ok(()),
        PlaceCall::Unlock => Ok(()),
        PlaceCall::Free => source(program, place, notes),
    }
}

fn name(variable: Option<u32>, notes: &mut Notes) -> Noting
    ensures { OnOk result (notes.new.items ≡ notes.old.items ++ names_of variable) }
{
    if let Some(variable) = variable {
        notes.push(Finding::Names(variable))?;
    }
    Ok(())
}

/// The variable or the global that the path of a mode names.
pub(crate) fn name_in(typed: &Typed, s: Sharing<'_>, notes: &mut Notes) -> Noting
    ensures { OnOk result (notes.new.items ≡ notes.old.items ++ names_in typed.now (view_sharing s.entry)) }
{
    match s {
        Sharing::Locked(lock) => name(object_of(typed, lock), notes),
        Sharing::Private => Ok(()),
        Sharing::Readonly => Ok(()),
        Sharing::Racy => Ok(()),
        Sharing::Dynamic => Ok(()),
    }
}

/// The variables and globals that the paths of a row name.
fn names_in_row(program: &Moded, row: Targets<'_>, notes: &mut Notes) -> Noting
    requires { row.first + row.count ≤ position_count program.now.typed }
    ensures { OnOk result (notes.new.items
        ≡ notes.old.items ++ names_in_all program.now.typed (modes_of program.now (view_row row.entry))) }
{
    let typed = program.typed();
    let _all = program.position_count();
    row_laws();
    let mut left = row;
    while left.count > 0 {
        name_in(typed, pointed(program, Some(left)), notes)?;
        left = left.deeper();
    }
    Ok(())
}

/// Whether some target is locked by a sibling.
fn any_sibling(program: &Moded, row: Targets<'_>) -> bool
    requires { row.first + row.count ≤ position_count program.now.typed }
    ensures { result ≡ list_any (is_sibling program.now.typed) (modes_of program.now (view_row row.entry)) }
{
    let typed = program.typed();
    let _all = program.position_count();
    row_laws();
    let mut left = row;
    while left.count > 0 {
        if is_sibling(typed, pointed(program, Some(left))) {
            return true;
        }
        left = left.deeper();
    }
    false
}

fn sibling(typed: &Typed, span: Span, base: Option<u32>, notes: &mut Notes) -> Noting
    ensures { OnOk result (notes.new.items ≡ notes.old.items ++ sibling_notes typed.now span base) }
{
    match base {
        None => {
            let alloc = *notes.allocator();
            let text = span_text(alloc, typed, span)?;
            notes.push(error(alloc, ErrorCode::NeedsConstantBase, span, text))?;
            Ok(())
        }
        Some(at) => name(variable_named(typed.named(at)), notes),
    }
}

/// M11: a field with these targets is used through the constant variable at this token, or otherwise.
pub(crate) fn field(
    program: &Moded,
    span: Span,
    base: Option<u32>,
    targets: Targets<'_>,
    notes: &mut Notes,
) -> Noting
    requires { targets.first + targets.count ≤ position_count program.now.typed }
    ensures { OnOk result (notes.new.items
        ≡ notes.old.items ++ field_notes program.now.typed span base (modes_of program.now (view_row targets.entry))) }
{
    if any_sibling(program, targets) {
        sibling(program.typed(), span, base, notes)
    } else {
        Ok(())
    }
}

/// A path whose argument is no constant variable.
fn unmet<'a>(typed: &Typed, passing: Passing<'_>, s: Sharing<'a>) -> Option<Lock<'a>>
    ensures { view_locks result
        ≡ unmet typed.now passing.entry.parameters.now (view_passed passing.entry.passed) (view_sharing s.entry) }
{
    match s {
        Sharing::Locked(lock) => match path_variable(typed, lock) {
            None => None,
            Some(variable) => match passing.argument_use(typed, variable) {
                None => Some(lock),
                Some(_) => None,
            },
        },
        Sharing::Private => None,
        Sharing::Readonly => None,
        Sharing::Racy => None,
        Sharing::Dynamic => None,
    }
}

fn or_else<'a>(first: Option<Lock<'a>>, second: Option<Lock<'a>>) -> Option<Lock<'a>>
    ensures { view_locks result ≡ option_or (view_locks first.entry) (view_locks second.entry) }
{
    match first {
        Some(lock) => Some(lock),
        None => second,
    }
}

/// The first of them in the source, where the deepest target comes first.
fn unmet_in<'a>(program: &'a Moded, passing: Passing<'_>, row: Targets<'a>) -> Option<Lock<'a>>
    requires { row.first + row.count ≤ position_count program.now.typed }
    ensures { view_locks result ≡ unmet_in program.now.typed passing.entry.parameters.now
        (view_passed passing.entry.passed) (modes_of program.now (view_row row.entry)) }
{
    let typed = program.typed();
    let _all = program.position_count();
    row_laws();
    let mut left = row;
    let mut found = None;
    while left.count > 0 {
        found = or_else(unmet(typed, passing, pointed(program, Some(left))), found);
        left = left.deeper();
    }
    found
}

fn unmet_level<'a>(typed: &Typed, passing: Passing<'_>, level: &'a Option<Mode>) -> Option<Lock<'a>>
    ensures { view_locks result
        ≡ unmet_level typed.now passing.entry.parameters.now (view_passed passing.entry.passed) level.now }
{
    match level {
        None => None,
        Some(mode) => unmet(typed, passing, sharing_of(mode)),
    }
}

/// The first of those that are written in a type, at whatever level.
fn unmet_written<'a>(
    typed: &Typed,
    passing: Passing<'_>,
    levels: &'a [Option<Mode>],
) -> Option<Lock<'a>>
    ensures { view_locks result
        ≡ unmet_written typed.now passing.entry.parameters.now (view_passed passing.entry.passed) levels.now }
{
    match levels {
        [] => None,
        [level, below @ ..] => {
            let deeper = unmet_written(typed, passing, below);
            or_else(deeper, unmet_level(typed, passing, level))
        }
    }
}

/// The first of a parameter's type.
fn unmet_parameter<'a>(
    program: &'a Moded,
    passing: Passing<'_>,
    parameter: &'a Declaration,
) -> Option<Lock<'a>>
    ensures { view_locks result
        ≡ unmet_parameter program.now passing.entry.parameters.now (view_passed passing.entry.passed) parameter.now }
{
    let typed = program.typed();
    let row = declared_row(typed, PathReading::Written, parameter.name.site.token);
    let levels = parameter.written.ctype.levels.as_slice();
    or_else(
        unmet_written(typed, passing, levels),
        unmet_in(program, passing, row),
    )
}

fn first_unmet<'a>(program: &'a Moded, passing: Passing<'a>) -> Option<Lock<'a>>
    ensures { view_locks result ≡ first_unmet program.now passing.entry.parameters.now
        (view_passed passing.entry.passed) passing.entry.parameters.now }
{
    for parameter in passing.parameters {
        let lock = unmet_parameter(program, passing, parameter);
        if lock.is_some() {
            return lock;
        }
    }
    None
}

fn said_unmet(typed: &Typed, span: Span, lock: Option<Lock<'_>>, notes: &mut Notes) -> Noting
    ensures { OnOk result (notes.new.items ≡ notes.old.items ++ unmet_notes typed.now span (view_locks lock.entry)) }
{
    if let Some(lock) = lock {
        let alloc = *notes.allocator();
        let path = path_of(alloc, typed, lock)?;
        let text = path_text(alloc, &path)?;
        notes.push(error(alloc, ErrorCode::LockPathNotConstant, span, text))?;
    }
    Ok(())
}

fn name_read(
    typed: &Typed,
    reading: PathReading<'_>,
    level: &Option<Mode>,
    notes: &mut Notes,
) -> Noting
    ensures { OnOk result (notes.new.items
        ≡ notes.old.items ++ names_read typed.now (view_reading reading.entry) level.now) }
{
    match level {
        None => Ok(()),
        Some(mode) => name_in(typed, read(typed, reading, sharing_of(mode)), notes),
    }
}

/// The variables and globals that the paths name which are written in a type, as they are read there.
fn names_read(
    typed: &Typed,
    reading: PathReading<'_>,
    levels: &[Option<Mode>],
    notes: &mut Notes,
) -> Noting
    ensures { OnOk result (notes.new.items
        ≡ notes.old.items ++ flat_map (names_read typed.now (view_reading reading.entry)) levels.now) }
{
    for level in levels {
        name_read(typed, reading, level, notes)?;
    }
    Ok(())
}

/// The variables and globals that the paths of a parameter's type name, as they are read at the call.
fn parameter_names(
    program: &Moded,
    passing: Passing<'_>,
    parameter: &Declaration,
    notes: &mut Notes,
) -> Noting
    ensures { OnOk result (notes.new.items ≡ notes.old.items ++ parameter_names program.now
        (at_call passing.entry.parameters.now (view_passed passing.entry.passed)) parameter.now) }
{
    let typed = program.typed();
    let row = declared_row(typed, passing.reading(), parameter.name.site.token);
    let levels = parameter.written.ctype.levels.as_slice();
    names_in_row(program, row, notes)?;
    names_read(typed, passing.reading(), levels, notes)
}

/// The variables and globals that the substituted paths name.
fn names_at_call(program: &Moded, passing: Passing<'_>, notes: &mut Notes) -> Noting
    ensures { OnOk result (notes.new.items ≡ notes.old.items ++ names_at_call program.now passing.entry.parameters.now
        (view_passed passing.entry.passed) passing.entry.parameters.now) }
{
    for parameter in passing.parameters {
        parameter_names(program, passing, parameter, notes)?;
    }
    Ok(())
}

/// M4 of a call, and the variables and globals that its paths name.
pub(crate) fn call(program: &Moded, span: Span, passing: Passing<'_>, notes: &mut Notes) -> Noting
    ensures { OnOk result (notes.new.items ≡ notes.old.items
        ++ call_notes program.now span passing.entry.parameters.now (view_passed passing.entry.passed)) }
{
    said_unmet(program.typed(), span, first_unmet(program, passing), notes)?;
    names_at_call(program, passing, notes)
}

/// What the first of the parameters that are left expects.
pub fn expected<'a>(
    program: &'a Moded,
    passing: Passing<'a>,
    left: &[Declaration],
) -> Option<Targets<'a>>
    ensures row { option_map (modes_of program.now) (view_rows result)
        ≡ expected program.now passing.entry.parameters.now (view_passed passing.entry.passed) left.now }
    ensures within { EndsWithin program.now.typed result }
{
    match left {
        [] => None,
        [parameter, ..] => {
            let token = parameter.name.site.token;
            Some(declared_row(program.typed(), passing.reading(), token))
        }
    }
}
