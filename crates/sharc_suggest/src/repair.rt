// Which mismatch of modes a sharing cast repairs.

ghost use Rattle.std.specs.{Prelude.{◌≡◌, ◌+◌, ◌≤◌, ◌++◌, drop, Some, IfOk, OnOk}, Option.option_map};
ghost use Rattle.sharc_tree.specs.View.{view_expr};
ghost use Rattle.sharc_mode.specs.{Moded.position_count, Rows.modes_of, View.{view_row, view_rows, view_sharing}};
ghost use Rattle.sharc_mode.specs.View.{EndsWithin};
ghost use Rattle.sharc_suggest.specs.Repairs.{differ_first, is_free, may_be_cast, told, is_call_name, begins_call};
ghost use Rattle.sharc_suggest.specs.Repairs.{is_call_at, keeps_first, keeps, keeps_all, cast_to, is_repairable};
ghost use Rattle.sharc_suggest.specs.Repairs.{repair};

use sharc_check::named::NamedVariables;
use sharc_check::rules::taken_variable;
use sharc_ctype::typed::Typed;
use sharc_mode::cell::{cell_of, pointed};
use sharc_mode::error::Cast;
use sharc_mode::moded::Moded;
use sharc_mode::row::{Targets, row_of};
use sharc_mode::sharing::{Sharing, is_readonly};
use sharc_mode::shown::{root_of_kind, row_laws, same_rows, shown};
use sharc_mode::text::text_at;
use sharc_names::fault::Named;
use sharc_names::meaning::{Binding, named_of};
use sharc_names::names::NamesInScope;
use sharc_tree::token::{Keyword, Token, TokenKind};
use sharc_tree::tree::Expr;
use std::alloc::{AllocError, Global};

/// A program, and which variables and globals its lock paths name.
#[derive(Clone, Copy)]
pub(crate) struct Known<'a> {
    pub(crate) moded: &'a Moded,
    pub(crate) named: &'a NamedVariables,
}

/// Whether two types differ only in the mode at depth 1.
fn differ_first(program: &Moded, expected: Targets<'_>, found: Targets<'_>) -> bool
    requires expected { expected.first + expected.count ≤ position_count program.now.typed }
    requires found { found.first + found.count ≤ position_count program.now.typed }
    ensures { result ≡ differ_first program.now.typed (modes_of program.now (view_row expected.entry))
        (modes_of program.now (view_row found.entry)) }
{
    row_laws();
    let _all = program.position_count();
    if same_rows(program, expected, found) {
        false
    } else {
        same_rows(program, expected.deeper(), found.deeper())
    }
}

/// Whether no lock path names the variable, if it is one.
fn is_free(named: &NamedVariables, variable: Option<u32>) -> bool
    ensures { result ≡ is_free (told named.now) variable }
{
    match variable {
        None => true,
        Some(variable) => !named.has(variable),
    }
}

/// Whether this is the name of a call of condition variables.
fn is_call_name(text: &[u8]) -> bool
    ensures { result ≡ is_call_name text.now }
{
    b"wait".as_slice() == text || b"signal".as_slice() == text || b"broadcast".as_slice() == text
}

/// Whether two words, with one between them, are those of a path that begins with such a call: `locked`, `(` and its
/// name.
fn begins_call(before: &Token, name: &Token) -> bool
    ensures { result ≡ begins_call (Some before.now) (Some name.now) }
{
    match (before.kind, name.kind) {
        (TokenKind::Keyword(Keyword::Locked), TokenKind::Identifier) => {
            is_call_name(name.text.as_slice())
        }
        _ => false,
    }
}

/// Whether such a path begins at the token with this number.
fn is_call_at(typed: &Typed, token: u32) -> bool
    ensures { result ≡ is_call_at typed.now token }
{
    let tokens = typed.program().tokens.list.as_slice();
    let token = token as usize;
    if token < tokens.len() {
        let before = token.saturating_sub(2);
        begins_call(&tokens[before], &tokens[token])
    } else {
        false
    }
}

/// Whether the first name of a path means the same, if anything, where these variables are in scope. What names nothing
/// that the program defines is determined by its words: a path that begins with it begins with a call of condition
/// variables.
fn keeps_first(typed: &Typed, scope: &NamesInScope<'_>, token: u32) -> bool
    ensures { result ≡ keeps_first typed.now scope.now token }
{
    match (typed.named(token), scope.find(text_at(typed, token))) {
        (Named::Variable(token), Some(bound)) => match named_of(bound.meaning) {
            Named::Variable(other) => token == other,
            _ => false,
        },
        (Named::Global(_), None) => true,
        (Named::Function(_), None) => true,
        (Named::Known, None) => is_call_at(typed, token),
        _ => false,
    }
}

/// Whether the lock path of a mode names the same thing where these variables are in scope.
fn keeps(typed: &Typed, scope: &NamesInScope<'_>, s: Sharing<'_>) -> bool
    ensures { result ≡ keeps typed.now scope.now (view_sharing s.entry) }
{
    match s {
        Sharing::Locked(lock) => keeps_first(typed, scope, lock.first),
        Sharing::Private => true,
        Sharing::Readonly => true,
        Sharing::Racy => true,
        Sharing::Dynamic => true,
    }
}

/// Whether all lock paths of a type do.
fn keeps_all(program: &Moded, scope: &NamesInScope<'_>, row: Targets<'_>) -> bool
    requires { row.first + row.count ≤ position_count program.now.typed }
    ensures { result ≡ keeps_all program.now.typed scope.now (modes_of program.now (view_row row.entry)) }
{
    row_laws();
    let typed = program.typed();
    let _all = program.position_count();
    let mut left = row;
    while left.count > 0 {
        if !keeps(typed, scope, pointed(program, Some(left))) {
            return false;
        }
        left = left.deeper();
    }
    true
}

/// Whether a cast of the expression raises neither C5, nor M9, nor M10: it is an lvalue, no cell of mode readonly, and
/// no variable or global that a lock path names.
fn may_be_cast(known: Known<'_>, expr: &Expr) -> bool
    ensures { result ≡ may_be_cast known.entry.moded.now (told known.entry.named.now) (view_expr expr.now) }
{
    let program = known.moded;
    if !expr.is_lvalue() || is_readonly(cell_of(program, expr)) {
        return false;
    }
    let variable = taken_variable(program.typed(), expr.without_parentheses());
    is_free(known.named, variable)
}

/// Whether a cast of the expression repairs that its modes are not those that are expected.
fn is_repairable(
    known: Known<'_>,
    scope: &NamesInScope<'_>,
    expr: &Expr,
    expected: Targets<'_>,
    found: Targets<'_>,
) -> bool
    requires expected { expected.first + expected.count ≤ position_count known.moded.now.typed }
    requires found { found.first + found.count ≤ position_count known.moded.now.typed }
    ensures { result ≡ is_repairable known.entry.moded.now (told known.entry.named.now) scope.now (view_expr expr.now)
        (modes_of known.entry.moded.now (view_row expected.entry))
        (modes_of known.entry.moded.now (view_row found.entry)) }
{
    let program = known.moded;
    differ_first(program, expected, found)
        && may_be_cast(known, expr)
        && keeps_all(program, scope, expected)
}

/// The cast around an expression to the type that is expected.
fn cast_to(
    alloc: Global,
    program: &Moded,
    expr: &Expr,
    expected: Targets<'_>,
) -> Result<Cast, AllocError>
    requires { expected.first + expected.count ≤ position_count program.now.typed }
    ensures { IfOk result (λ c. c
        ≡ cast_to program.now (view_expr expr.now) (modes_of program.now (view_row expected.entry))) }
{
    let root = root_of_kind(program.typed().kind_at(expr));
    let span = expr.span();
    let to = shown(alloc, program, root, expected)?;
    Ok(Cast {
        site: span.first,
        to,
        from: span.first.token,
        until: span.last.token,
    })
}

/// Adds the cast that is suggested for an expression where those modes are expected, if one is.
pub(crate) fn repair(
    known: Known<'_>,
    scope: &NamesInScope<'_>,
    expected: Option<Targets<'_>>,
    expr: &Expr,
    casts: &mut Vec<Cast>,
) -> Result<(), AllocError>
    requires { EndsWithin known.moded.now.typed expected }
    ensures { OnOk result (casts.new.items
        ≡ casts.old.items ++ repair known.entry.moded.now (told known.entry.named.now) scope.now
        (option_map (modes_of known.entry.moded.now) (view_rows expected.entry)) (view_expr expr.now)) }
{
    let program = known.moded;
    match (expected, row_of(program.typed(), expr)) {
        (Some(expected), Some(found)) => {
            if is_repairable(known, scope, expr, expected, found) {
                casts.push(cast_to(*casts.allocator(), program, expr, expected)?)?;
            }
            Ok(())
        }
        _ => Ok(()),
    }
}
