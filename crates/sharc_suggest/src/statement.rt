// The casts that are suggested in statements and functions.

ghost use Rattle.std.specs.{Prelude.{◌≡◌, ◌∷◌, ◌++◌, [], length, OnOk}, Option.option_map};
ghost use Rattle.sharc_tree.specs.View.{view_expr, view_option, view_right, view_simple, view_local, view_first};
ghost use Rattle.sharc_tree.specs.View.{view_head, view_stmt, view_statements, view_item, view_items};
ghost use Rattle.sharc_mode.specs.{Rows.modes_of, View.{view_rows, EndsWithin}};
ghost use Rattle.sharc_suggest.specs.{Casts.suggested_in, Givings.{Receiver, of_declared, wanted, behind_first, after}};
ghost use Rattle.sharc_suggest.specs.Givings.{after_all, with_parameters, givings, option_givings, value_givings};
ghost use Rattle.sharc_suggest.specs.Givings.{right_givings, simple_givings, local_givings, first_givings};
ghost use Rattle.sharc_suggest.specs.Givings.{head_givings, givings_in, givings_in_all, item_givings, items_givings};
ghost use Rattle.sharc_suggest.specs.Repairs.{entry_of, told};

use crate::expr::{expression, value};
use crate::repair::Known;
use sharc_mode::error::Cast;
use sharc_mode::row::{PathReading, Targets, declared_row, row_of};
use sharc_names::meaning::{Binding, Meaning};
use sharc_names::names::NamesInScope;
use sharc_tree::tree::{Declaration, Expr, ForFirst, ForHead, Item, Local, Right, Simple, Stmt};
use std::alloc::AllocError;

/// Puts a variable in scope.
fn declare<'a>(scope: &mut NamesInScope<'a>, declaration: &'a Declaration) -> Result<(), AllocError>
    ensures { OnOk result (scope.new ≡ entry_of declaration.now ∷ scope.old) }
{
    scope.declare(Binding {
        name: declaration.name.text.as_slice(),
        block: 0,
        meaning: Meaning::Variable(declaration),
    })
}

fn optional(
    known: Known<'_>,
    scope: &NamesInScope<'_>,
    expr: &Option<Expr>,
    casts: &mut Vec<Cast>,
) -> Result<(), AllocError>
    ensures { OnOk result (casts.new.items ≡ casts.old.items ++ suggested_in known.entry.moded.now
        (told known.entry.named.now) (option_givings (givings scope.now) (view_option view_expr expr.now))) }
{
    match expr {
        None => Ok(()),
        Some(expr) => expression(known, scope, expr, casts),
    }
}

/// The right side of `=`, beside the modes that are expected there.
fn right(
    known: Known<'_>,
    scope: &NamesInScope<'_>,
    want: Option<Targets<'_>>,
    right: &Right,
    casts: &mut Vec<Cast>,
) -> Result<(), AllocError>
    requires { EndsWithin known.moded.now.typed want }
    ensures { (r : Receiver)
        → wanted known.entry.moded.now r ≡ option_map (modes_of known.entry.moded.now) (view_rows want.entry)
        → OnOk result (casts.new.items ≡ casts.old.items ++ suggested_in known.entry.moded.now
        (told known.entry.named.now) (right_givings scope.now r (view_right right.now))) }
{
    match right {
        Right::Value(expr) => value(known, scope, want, expr, casts),
        Right::Malloc(_, count, _) => optional(known, scope, count, casts),
    }
}

fn simple(
    known: Known<'_>,
    scope: &NamesInScope<'_>,
    simple: &Simple,
    casts: &mut Vec<Cast>,
) -> Result<(), AllocError>
    ensures { OnOk result (casts.new.items ≡ casts.old.items ++ suggested_in known.entry.moded.now
        (told known.entry.named.now) (simple_givings scope.now (view_simple simple.now))) }
{
    match simple {
        Simple::Assign(_, place, value) => {
            expression(known, scope, place, casts)?;
            let want = row_of(known.moded.typed(), place);
            right(known, scope, want, value, casts)
        }
        Simple::Call(call) => expression(known, scope, call, casts),
    }
}

fn initial(
    known: Known<'_>,
    scope: &NamesInScope<'_>,
    want: Option<Targets<'_>>,
    value: &Option<Right>,
    casts: &mut Vec<Cast>,
) -> Result<(), AllocError>
    requires { EndsWithin known.moded.now.typed want }
    ensures { (r : Receiver)
        → wanted known.entry.moded.now r ≡ option_map (modes_of known.entry.moded.now) (view_rows want.entry)
        → OnOk result (casts.new.items ≡ casts.old.items ++ suggested_in known.entry.moded.now
        (told known.entry.named.now) (option_givings (right_givings scope.now r) (view_option view_right value.now))) }
{
    match value {
        None => Ok(()),
        Some(value) => right(known, scope, want, value, casts),
    }
}

/// A local, which is in scope in its initialiser and afterwards.
fn local<'a>(
    known: Known<'_>,
    scope: &mut NamesInScope<'a>,
    local: &'a Local,
    casts: &mut Vec<Cast>,
) -> Result<(), AllocError>
    ensures scope { OnOk result (scope.new ≡ entry_of (view_local local.now).declaration ∷ scope.old) }
    ensures casts { OnOk result (casts.new.items ≡ casts.old.items ++ suggested_in known.entry.moded.now
        (told known.entry.named.now) (local_givings scope.old (view_local local.now))) }
{
    let token = local.declaration.name.site.token;
    let want = declared_row(known.moded.typed(), PathReading::Written, token);
    declare(scope, &local.declaration)?;
    initial(known, scope, Some(want), &local.initial, casts)
}

/// What comes first in the head of a `for`; what it declares is in scope afterwards.
fn first<'a>(
    known: Known<'_>,
    scope: &mut NamesInScope<'a>,
    first: &'a ForFirst,
    casts: &mut Vec<Cast>,
) -> Result<(), AllocError>
    ensures scope { OnOk result (scope.new ≡ behind_first scope.old (view_first first.now)) }
    ensures casts { OnOk result (casts.new.items ≡ casts.old.items ++ suggested_in known.entry.moded.now
        (told known.entry.named.now) (first_givings scope.old (view_first first.now))) }
{
    match first {
        ForFirst::Nothing => Ok(()),
        ForFirst::Declares(declared) => local(known, scope, declared, casts),
        ForFirst::Does(x) => simple(known, scope, x, casts),
    }
}

fn step(
    known: Known<'_>,
    scope: &NamesInScope<'_>,
    step: &Option<Simple>,
    casts: &mut Vec<Cast>,
) -> Result<(), AllocError>
    ensures { OnOk result (casts.new.items ≡ casts.old.items ++ suggested_in known.entry.moded.now
        (told known.entry.named.now) (option_givings (simple_givings scope.now) (view_option view_simple step.now))) }
{
    match step {
        None => Ok(()),
        Some(x) => simple(known, scope, x, casts),
    }
}

/// The head of a `for`; what it declares is in scope afterwards.
#[tactic(auto, using(crate::proofs::CallLemmas::suggested_both))]
fn head<'a>(
    known: Known<'_>,
    scope: &mut NamesInScope<'a>,
    head: &'a ForHead,
    casts: &mut Vec<Cast>,
) -> Result<(), AllocError>
    ensures scope { OnOk result (scope.new ≡ behind_first scope.old (view_head head.now).first) }
    ensures casts { OnOk result (casts.new.items ≡ casts.old.items ++ suggested_in known.entry.moded.now
        (told known.entry.named.now) (head_givings scope.old (view_head head.now))) }
{
    first(known, scope, &head.first, casts)?;
    optional(known, scope, &head.test, casts)?;
    step(known, scope, &head.step, casts)
}

/// What is returned in the function whose name is the token with this number.
fn returned(
    known: Known<'_>,
    scope: &NamesInScope<'_>,
    function: u32,
    returned: &Option<Box<Expr>>,
    casts: &mut Vec<Cast>,
) -> Result<(), AllocError>
    ensures { OnOk result (casts.new.items
        ≡ casts.old.items ++ suggested_in known.entry.moded.now (told known.entry.named.now) (option_givings
        (value_givings scope.now (of_declared function)) (view_option (λ b. view_expr b.value) returned.now))) }
{
    match returned {
        None => Ok(()),
        Some(expr) => {
            let want = declared_row(known.moded.typed(), PathReading::Written, function);
            value(known, scope, Some(want), expr, casts)
        }
    }
}

/// A statement of that function; what it declares is in scope afterwards.
#[cycle(statement)]
#[tactic(auto, using(crate::proofs::ScopeLemmas::longer_first, crate::proofs::ScopeLemmas::left_first, crate::proofs::ScopeLemmas::longer_all, crate::proofs::ScopeLemmas::left_all, crate::proofs::CallLemmas::suggested_both))]
fn statement<'a>(
    known: Known<'_>,
    scope: &mut NamesInScope<'a>,
    function: u32,
    stmt: &'a Stmt,
    casts: &mut Vec<Cast>,
) -> Result<(), AllocError>
    ensures scope { OnOk result (scope.new ≡ after scope.old (view_stmt stmt.now)) }
    ensures casts { OnOk result (casts.new.items ≡ casts.old.items ++ suggested_in known.entry.moded.now
        (told known.entry.named.now) (givings_in scope.old function (view_stmt stmt.now))) }
{
    match stmt {
        Stmt::Empty(_) => Ok(()),
        Stmt::Block(_, all) => {
            let mark = scope.len();
            statements(known, scope, function, all.as_slice(), casts)?;
            scope.leave(mark)?;
            Ok(())
        }
        Stmt::Declare(_, declared) => local(known, scope, declared, casts),
        Stmt::Simple(_, x) => simple(known, scope, x, casts),
        Stmt::Jump(_, _) => Ok(()),
        Stmt::Return(_, value) => returned(known, scope, function, value, casts),
        Stmt::If(_, test, then) => {
            expression(known, scope, test, casts)?;
            nested(known, scope, function, then, casts)
        }
        Stmt::IfElse {
            test,
            then,
            otherwise,
            ..
        } => {
            expression(known, scope, test, casts)?;
            nested(known, scope, function, then, casts)?;
            nested(known, scope, function, otherwise, casts)
        }
        Stmt::While(_, test, body) => {
            expression(known, scope, test, casts)?;
            nested(known, scope, function, body, casts)
        }
        Stmt::For(_, parts, body) => {
            let mark = scope.len();
            head(known, scope, parts, casts)?;
            nested(known, scope, function, body, casts)?;
            scope.leave(mark)
        }
    }
}

/// A statement within another, after which the variables in scope are as before.
#[cycle(statement)]
#[tactic(auto, using(crate::proofs::ScopeLemmas::longer_after, crate::proofs::ScopeLemmas::left_after))]
fn nested<'a>(
    known: Known<'_>,
    scope: &mut NamesInScope<'a>,
    function: u32,
    stmt: &'a Stmt,
    casts: &mut Vec<Cast>,
) -> Result<(), AllocError>
    ensures scope { OnOk result (scope.new ≡ scope.old) }
    ensures casts { OnOk result (casts.new.items ≡ casts.old.items ++ suggested_in known.entry.moded.now
        (told known.entry.named.now) (givings_in scope.old function (view_stmt stmt.now))) }
{
    let mark = scope.len();
    statement(known, scope, function, stmt, casts)?;
    scope.leave(mark)
}

/// Statements that follow one another.
#[cycle(statement)]
#[tactic(auto, using(crate::proofs::CallLemmas::suggested_both))]
fn statements<'a>(
    known: Known<'_>,
    scope: &mut NamesInScope<'a>,
    function: u32,
    all: &'a [Stmt],
    casts: &mut Vec<Cast>,
) -> Result<(), AllocError>
    ensures scope { OnOk result (scope.new ≡ after_all scope.old (view_statements all.now)) }
    ensures casts { OnOk result (casts.new.items ≡ casts.old.items ++ suggested_in known.entry.moded.now
        (told known.entry.named.now) (givings_in_all scope.old function (view_statements all.now))) }
{
    for stmt in all {
        statement(known, scope, function, stmt, casts)?;
    }
    Ok(())
}

/// The parameters of a function, which are in scope afterwards.
fn parameters<'a>(scope: &mut NamesInScope<'a>, list: &'a [Declaration]) -> Result<(), AllocError>
    ensures { OnOk result (scope.new ≡ with_parameters scope.old list.now) }
{
    for parameter in list {
        declare(scope, parameter)?;
    }
    Ok(())
}

fn item(known: Known<'_>, item: &Item, casts: &mut Vec<Cast>) -> Result<(), AllocError>
    ensures { OnOk result (casts.new.items ≡ casts.old.items
        ++ suggested_in known.entry.moded.now (told known.entry.named.now) (item_givings (view_item item.now))) }
{
    match item {
        Item::Struct(_) => Ok(()),
        Item::Global(_) => Ok(()),
        Item::Function(definition) => {
            let mut scope = NamesInScope::new(*casts.allocator());
            parameters(&mut scope, definition.parameters.as_slice())?;
            let function = definition.name.site.token;
            let all = definition.statements.as_slice();
            statements(known, &mut scope, function, all, casts)
        }
    }
}

/// Adds the casts that are suggested in items.
#[tactic(auto, using(crate::proofs::CallLemmas::suggested_both))]
pub(crate) fn items(
    known: Known<'_>,
    items: &[Item],
    casts: &mut Vec<Cast>,
) -> Result<(), AllocError>
    ensures { OnOk result (casts.new.items ≡ casts.old.items
        ++ suggested_in known.entry.moded.now (told known.entry.named.now) (items_givings (view_items items.now))) }
{
    for one in items {
        item(known, one, casts)?;
    }
    Ok(())
}
