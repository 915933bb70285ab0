// The faults of statements.

ghost use Rattle.std.specs.Prelude.{◌≡◌, ◌+◌, true, fold, length, OnOk};
ghost use Rattle.sharc_tree.specs.View.{view_expr, view_option, view_right, view_simple, view_local, view_first};
ghost use Rattle.sharc_tree.specs.View.{view_head, view_stmt, view_statements};
ghost use Rattle.sharc_names.specs.{Kinds.stars_of, Notes.noted, Types.is_fine, View.{view_kind, view_kinds}};
ghost use Rattle.sharc_names.specs.View.{view_bounds};
ghost use Rattle.sharc_ctype.specs.Statements.{is_here, in_block, declared, declared_notes, with_names, test_notes};
ghost use Rattle.sharc_ctype.specs.Statements.{count_notes, is_made, right_notes, simple_notes, is_aggregate};
ghost use Rattle.sharc_ctype.specs.Statements.{wanted_by, initial_notes, local_notes, returned_as, return_notes};
ghost use Rattle.sharc_ctype.specs.Statements.{first_notes, behind_first, tests_notes, step_notes, in_head, head_notes};
ghost use Rattle.sharc_ctype.specs.Statements.{plain_notes, after, after_all, notes_in, notes_in_all};
ghost use Rattle.sharc_ctype.specs.View.{view_around};

use crate::expr::{Standing, expression, lvalue, met};
use sharc_names::fault::{FaultCode, Found, Named};
use sharc_names::kind::{ExpressionKind, declared_kind, is_struct_behind, root_of, same_kind};
use sharc_names::meaning::{Binding, Meaning};
use sharc_names::need::{Need, agree, meet};
use sharc_names::scope::Scope;
use sharc_names::types::{Role, written_type};
use sharc_tree::tree::{
    Declaration, Expr, ForFirst, ForHead, Local, Right, Simple, Stmt, WrittenType,
};
use std::alloc::AllocError;

/// Where a statement is.
#[derive(Clone, Copy)]
pub struct Around<'a> {
    /// The result of the function.
    pub result: ExpressionKind<'a>,
    /// Whether a loop is around it.
    pub in_loop: bool,
    /// How many names were in scope where the block begins.
    pub block: usize,
}

fn in_block(block: usize, bound: Option<Binding<'_>>) -> bool
    ensures { result ≡ in_block block (view_bounds bound.entry) }
{
    match bound {
        None => false,
        Some(bound) => bound.block == block,
    }
}

/// Declares a variable in a block.
pub(crate) fn declare<'a>(
    scope: &mut Scope<'a>,
    block: usize,
    declaration: &'a Declaration,
    found: &mut Found,
) -> Result<(), AllocError>
    ensures scope { OnOk result (scope.new ≡ with_names scope.old (declared block declaration.now scope.old.names)) }
    ensures found { OnOk result (found.new
        ≡ fold noted found.old (declared_notes block declaration.now scope.old.names)) }
{
    let token = declaration.name.site.token;
    let name = declaration.name.text.as_slice();
    found.name(token, Named::Variable(token));
    let here = in_block(block, scope.names.find(name));
    found.fault_where(here, token, FaultCode::DefinedTwice);
    if here {
        return Ok(());
    }
    scope.names.declare(Binding {
        name,
        block,
        meaning: Meaning::Variable(declaration),
    })
}

/// The faults of a condition.
fn test<'a>(scope: &Scope<'a>, expr: &'a Expr, found: &mut Found)
    ensures { found.new ≡ fold noted found.old (test_notes scope.now (view_expr expr.now)) }
{
    met(scope, Need::Value, expr, found);
}

/// The faults of the number that `malloc` takes.
fn count<'a>(scope: &Scope<'a>, expr: &'a Option<Expr>, found: &mut Found)
    ensures { found.new ≡ fold noted found.old (count_notes scope.now (view_option view_expr expr.now)) }
{
    if let Some(expr) = expr {
        met(scope, Need::Integer, expr, found);
    }
}

/// The stars of a pointer to what has this type: one more than the type has, and so as many as it has levels.
fn made_stars(written: &WrittenType) -> usize
    ensures { result ≡ stars_of written.now + 1 }
{
    written.ctype.levels.len().max(1)
}

fn is_made(want: Option<ExpressionKind<'_>>, written: &WrittenType) -> bool
    ensures { result ≡ is_made (view_kinds want.entry) written.now }
{
    let Some(want) = want else {
        return true;
    };
    let made = ExpressionKind::Object(root_of(&written.ctype.base), made_stars(written));
    same_kind(want, made)
}

/// The faults of the right side of `=`.
fn right<'a>(
    scope: &Scope<'a>,
    want: Option<ExpressionKind<'_>>,
    right: &'a Right,
    found: &mut Found,
)
    ensures { found.new ≡ fold noted found.old (right_notes scope.now (view_kinds want.entry) (view_right right.now)) }
{
    match right {
        Right::Value(expr) => {
            let kind = met(scope, Need::Value, expr, found);
            agree(want, expr, kind, found);
        }
        Right::Malloc(span, n, written) => {
            count(scope, n, found);
            let fine = written_type(scope, None, Role::Made, written, found);
            let well = is_made(want, written) || !fine;
            found.fault_unless(well, span.first.token, FaultCode::TypeMismatch);
        }
    }
}

/// The faults of an assignment or a call.
fn simple<'a>(scope: &Scope<'a>, simple: &'a Simple, found: &mut Found)
    ensures { found.new ≡ fold noted found.old (simple_notes scope.now (view_simple simple.now)) }
{
    match simple {
        Simple::Assign(_, place, value) => {
            let kind = lvalue(scope, place, found);
            let want = meet(Need::Value, place, kind, found);
            right(scope, want, value, found);
        }
        Simple::Call(call) => {
            expression(scope, Standing::AsValue, call, found);
        }
    }
}

fn is_aggregate(kind: ExpressionKind<'_>) -> bool
    ensures { result ≡ is_aggregate (view_kind kind.entry) }
{
    is_struct_behind(0, kind) || same_kind(kind, ExpressionKind::mutex())
}

fn wanted_by(fine: bool, written: &WrittenType) -> Option<ExpressionKind<'_>>
    ensures { view_kinds result ≡ wanted_by fine written.now }
{
    if fine {
        Some(declared_kind(written))
    } else {
        None
    }
}

fn initial<'a>(
    scope: &Scope<'a>,
    fine: bool,
    declaration: &'a Declaration,
    initial: &'a Option<Right>,
    found: &mut Found,
)
    requires { fine ≡ is_fine scope.now.structs Role.Local declaration.now.written }
    ensures { found.new
        ≡ fold noted found.old (initial_notes scope.now declaration.now (view_option view_right initial.now)) }
{
    if let Some(value) = initial {
        let token = declaration.name.site.token;
        let wrong = is_aggregate(declared_kind(&declaration.written));
        found.fault_where(wrong, token, FaultCode::BadForm);
        right(scope, wanted_by(fine, &declaration.written), value, found);
    }
}

/// The faults of a local, which is in scope afterwards.
fn local<'a>(
    scope: &mut Scope<'a>,
    around: Around<'a>,
    local: &'a Local,
    found: &mut Found,
) -> Result<(), AllocError>
    ensures scope { OnOk result (scope.new
        ≡ with_names scope.old (declared around.entry.block (view_local local.now).declaration scope.old.names)) }
    ensures found { OnOk result (found.new
        ≡ fold noted found.old (local_notes (view_around around.entry) scope.old (view_local local.now))) }
{
    let fine = written_type(scope, None, Role::Local, &local.declaration.written, found);
    declare(scope, around.block, &local.declaration, found)?;
    initial(scope, fine, &local.declaration, &local.initial, found);
    Ok(())
}

fn returned_as(kind: ExpressionKind<'_>) -> Option<ExpressionKind<'_>>
    ensures { view_kinds result ≡ returned_as (view_kind kind.entry) }
{
    if same_kind(kind, ExpressionKind::void()) {
        None
    } else {
        Some(kind)
    }
}

/// The faults of a `return`.
fn returned<'a>(
    scope: &Scope<'a>,
    around: Around<'a>,
    word: u32,
    value: &'a Option<Box<Expr>>,
    found: &mut Found,
)
    ensures { found.new ≡ fold noted found.old
        (return_notes (view_around around.entry) scope.now word (view_option (λ b. view_expr b.value) value.now)) }
{
    let void = same_kind(around.result, ExpressionKind::void());
    match value {
        None => found.fault_unless(void, word, FaultCode::BadForm),
        Some(expr) => {
            found.fault_where(void, word, FaultCode::BadForm);
            let kind = met(scope, Need::Value, expr, found);
            agree(returned_as(around.result), expr, kind, found);
        }
    }
}

/// The faults of what comes first in the head of a `for`; what it declares is in scope afterwards.
fn first<'a>(
    scope: &mut Scope<'a>,
    around: Around<'a>,
    first: &'a ForFirst,
    found: &mut Found,
) -> Result<(), AllocError>
    ensures scope { OnOk result (scope.new
        ≡ with_names scope.old (behind_first (view_around around.entry) scope.old.names (view_first first.now))) }
    ensures found { OnOk result (found.new
        ≡ fold noted found.old (first_notes (view_around around.entry) scope.old (view_first first.now))) }
{
    match first {
        ForFirst::Nothing => Ok(()),
        ForFirst::Declares(declared) => local(scope, around, declared, found),
        ForFirst::Does(x) => {
            simple(scope, x, found);
            Ok(())
        }
    }
}

fn optional_test<'a>(scope: &Scope<'a>, expr: &'a Option<Expr>, found: &mut Found)
    ensures { found.new ≡ fold noted found.old (tests_notes scope.now (view_option view_expr expr.now)) }
{
    if let Some(expr) = expr {
        test(scope, expr, found);
    }
}

fn step<'a>(scope: &Scope<'a>, step: &'a Option<Simple>, found: &mut Found)
    ensures { found.new ≡ fold noted found.old (step_notes scope.now (view_option view_simple step.now)) }
{
    if let Some(x) = step {
        simple(scope, x, found);
    }
}

/// The faults of the head of a `for`; what it declares is in scope afterwards.
fn head<'a>(
    scope: &mut Scope<'a>,
    around: Around<'a>,
    head: &'a ForHead,
    found: &mut Found,
) -> Result<(), AllocError>
    ensures scope { OnOk result (scope.new ≡ in_head (view_around around.entry) scope.old (view_head head.now)) }
    ensures found { OnOk result (found.new
        ≡ fold noted found.old (head_notes (view_around around.entry) scope.old (view_head head.now))) }
{
    first(scope, around, &head.first, found)?;
    optional_test(scope, &head.test, found);
    step(scope, &head.step, found);
    Ok(())
}

/// The place of a statement within another.
fn opened<'a>(around: Around<'a>, block: usize) -> Around<'a>
    ensures { result ≡ record around.entry { block = block } }
{
    Around {
        result: around.result,
        in_loop: around.in_loop,
        block,
    }
}

fn looping<'a>(around: Around<'a>, block: usize) -> Around<'a>
    ensures { result ≡ record around.entry { in_loop = true; block = block } }
{
    Around {
        result: around.result,
        in_loop: true,
        block,
    }
}

/// The faults of a statement that has no other in it and declares nothing; of every other, none.
fn plain<'a>(scope: &Scope<'a>, around: Around<'a>, stmt: &'a Stmt, found: &mut Found)
    ensures { found.new ≡ fold noted found.old
        (plain_notes (view_around around.entry) scope.now (view_stmt stmt.now)) }
{
    match stmt {
        Stmt::Simple(_, x) => simple(scope, x, found),
        Stmt::Jump(span, _) => {
            found.fault_unless(around.in_loop, span.first.token, FaultCode::BadForm);
        }
        Stmt::Return(span, value) => returned(scope, around, span.first.token, value, found),
        _ => {}
    }
}

/// The faults of a statement; the names that it declares are in scope afterwards.
#[cycle(stmt)]
#[tactic(auto, using(crate::proofs::ScopeLemmas::left_first, crate::proofs::ScopeLemmas::longer_first, crate::proofs::ScopeLemmas::left_after, crate::proofs::ScopeLemmas::left_all, crate::proofs::ScopeLemmas::longer_after, crate::proofs::ScopeLemmas::longer_all))]
pub(crate) fn statement<'a>(
    scope: &mut Scope<'a>,
    around: Around<'a>,
    stmt: &'a Stmt,
    found: &mut Found,
) -> Result<(), AllocError>
    ensures scope { OnOk result (scope.new
        ≡ with_names scope.old (after (view_around around.entry) scope.old.names (view_stmt stmt.now))) }
    ensures found { OnOk result (found.new
        ≡ fold noted found.old (notes_in (view_around around.entry) scope.old (view_stmt stmt.now))) }
{
    let mark = scope.names.len();
    match stmt {
        Stmt::Block(_, list) => {
            statements(scope, opened(around, mark), list, found)?;
            scope.names.leave(mark)?;
            Ok(())
        }
        Stmt::Declare(_, declared) => local(scope, around, declared, found),
        Stmt::Empty(_) | Stmt::Simple(_, _) | Stmt::Jump(_, _) | Stmt::Return(_, _) => {
            plain(scope, around, stmt, found);
            Ok(())
        }
        Stmt::If(_, condition, then) => {
            test(scope, condition, found);
            nested(scope, opened(around, mark), then, found)
        }
        Stmt::IfElse {
            test: condition,
            then,
            otherwise,
            ..
        } => {
            test(scope, condition, found);
            nested(scope, opened(around, mark), then, found)?;
            nested(scope, opened(around, mark), otherwise, found)
        }
        Stmt::While(_, condition, body) => {
            test(scope, condition, found);
            nested(scope, looping(around, mark), body, found)
        }
        Stmt::For(_, parts, body) => {
            head(scope, opened(around, mark), parts, found)?;
            let inner = scope.names.len();
            nested(scope, looping(around, inner), body, found)?;
            scope.names.leave(mark)
        }
    }
}

/// The faults of a statement within another, after which the names in scope are as before.
#[cycle(stmt)]
#[tactic(auto, using(crate::proofs::ScopeLemmas::left_after, crate::proofs::ScopeLemmas::longer_after))]
fn nested<'a>(
    scope: &mut Scope<'a>,
    around: Around<'a>,
    stmt: &'a Stmt,
    found: &mut Found,
) -> Result<(), AllocError>
    ensures scope { OnOk result (scope.new ≡ scope.old) }
    ensures found { OnOk result (found.new
        ≡ fold noted found.old (notes_in (view_around around.entry) scope.old (view_stmt stmt.now))) }
{
    let mark = scope.names.len();
    statement(scope, around, stmt, found)?;
    scope.names.leave(mark)?;
    Ok(())
}

/// The faults of the statements of a block.
#[cycle(stmt)]
pub(crate) fn statements<'a>(
    scope: &mut Scope<'a>,
    around: Around<'a>,
    list: &'a [Stmt],
    found: &mut Found,
) -> Result<(), AllocError>
    ensures scope { OnOk result (scope.new
        ≡ with_names scope.old (after_all (view_around around.entry) scope.old.names (view_statements list.now))) }
    ensures found { OnOk result (found.new
        ≡ fold noted found.old (notes_in_all (view_around around.entry) scope.old (view_statements list.now))) }
{
    for stmt in list {
        statement(scope, around, stmt, found)?;
    }
    Ok(())
}
