// Copies of statements.

ghost use Rattle.std.specs.Prelude.{◌≡◌, IfOk};
ghost use Rattle.sharc_tree.specs.Tree.{declare, simple, return, if_then, if_then_else, while, for};
ghost use Rattle.sharc_tree.specs.View.{view_expr, view_option, view_right, view_simple, view_local, view_first};
ghost use Rattle.sharc_tree.specs.View.{view_head, view_stmt, view_statements};

use crate::copy::expression::{copy_box, copy_expr};
use crate::held::{both, in_box};
use crate::token::Span;
use crate::tree::{Expr, ForFirst, ForHead, Local, Right, Simple, Stmt};
use std::alloc::{AllocError, Global};

fn copy_option(alloc: Global, expr: &Option<Expr>) -> Result<Option<Expr>, AllocError>
    ensures { IfOk result (λ e. view_option view_expr e ≡ view_option view_expr expr.now) }
{
    match expr {
        None => Ok(None),
        Some(expr) => Ok(Some(copy_expr(alloc, expr)?)),
    }
}

/// The right side of `=` once more.
pub fn copy_right(alloc: Global, right: &Right) -> Result<Right, AllocError>
    ensures { IfOk result (λ r. view_right r ≡ view_right right.now) }
{
    match right {
        Right::Value(expr) => Ok(Right::Value(copy_expr(alloc, expr)?)),
        Right::Malloc(span, count, of) => {
            let count = copy_option(alloc, count)?;
            let (count, of) = both(count, of.copy(alloc))?;
            Ok(Right::Malloc(*span, count, of))
        }
    }
}

/// An assignment or a call once more.
pub fn copy_simple(alloc: Global, simple: &Simple) -> Result<Simple, AllocError>
    ensures { IfOk result (λ s. view_simple s ≡ view_simple simple.now) }
{
    match simple {
        Simple::Assign(span, place, right) => {
            let place = copy_expr(alloc, place)?;
            let (place, right) = both(place, copy_right(alloc, right))?;
            Ok(Simple::Assign(*span, place, right))
        }
        Simple::Call(call) => Ok(Simple::Call(copy_expr(alloc, call)?)),
    }
}

fn copy_initial(alloc: Global, initial: &Option<Right>) -> Result<Option<Right>, AllocError>
    ensures { IfOk result (λ r. view_option view_right r ≡ view_option view_right initial.now) }
{
    match initial {
        None => Ok(None),
        Some(right) => Ok(Some(copy_right(alloc, right)?)),
    }
}

/// A local once more.
pub fn copy_local(alloc: Global, local: &Local) -> Result<Local, AllocError>
    ensures { IfOk result (λ l. view_local l ≡ view_local local.now) }
{
    let declaration = local.declaration.copy(alloc)?;
    let (declaration, initial) = both(declaration, copy_initial(alloc, &local.initial))?;
    Ok(Local {
        span: local.span,
        declaration,
        initial,
    })
}

fn copy_first(alloc: Global, first: &ForFirst) -> Result<ForFirst, AllocError>
    ensures { IfOk result (λ f. view_first f ≡ view_first first.now) }
{
    match first {
        ForFirst::Nothing => Ok(ForFirst::Nothing),
        ForFirst::Declares(local) => Ok(ForFirst::Declares(copy_local(alloc, local)?)),
        ForFirst::Does(simple) => Ok(ForFirst::Does(copy_simple(alloc, simple)?)),
    }
}

fn copy_step(alloc: Global, step: &Option<Simple>) -> Result<Option<Simple>, AllocError>
    ensures { IfOk result (λ s. view_option view_simple s ≡ view_option view_simple step.now) }
{
    match step {
        None => Ok(None),
        Some(simple) => Ok(Some(copy_simple(alloc, simple)?)),
    }
}

fn copy_test_and_step(
    alloc: Global,
    head: &ForHead,
) -> Result<(Option<Expr>, Option<Simple>), AllocError>
    ensures test { IfOk result (λ r. view_option view_expr r.0 ≡ view_option view_expr head.now.test) }
    ensures step { IfOk result (λ r. view_option view_simple r.1 ≡ view_option view_simple head.now.step) }
{
    let test = copy_option(alloc, &head.test)?;
    both(test, copy_step(alloc, &head.step))
}

/// The head of a `for` once more.
pub fn copy_head(alloc: Global, head: &ForHead) -> Result<ForHead, AllocError>
    ensures { IfOk result (λ h. view_head h ≡ view_head head.now) }
{
    let first = copy_first(alloc, &head.first)?;
    let (first, (test, step)) = both(first, copy_test_and_step(alloc, head))?;
    Ok(ForHead { first, test, step })
}

fn copy_declare(alloc: Global, span: Span, local: &Local) -> Result<Stmt, AllocError>
    ensures { IfOk result (λ s. view_stmt s ≡ declare span (view_local local.now)) }
{
    let local = copy_local(alloc, local)?;
    Ok(Stmt::Declare(span, in_box(alloc, local)?))
}

fn copy_simple_stmt(alloc: Global, span: Span, does: &Simple) -> Result<Stmt, AllocError>
    ensures { IfOk result (λ s. view_stmt s ≡ simple span (view_simple does.now)) }
{
    let does = copy_simple(alloc, does)?;
    Ok(Stmt::Simple(span, in_box(alloc, does)?))
}

fn copy_return(alloc: Global, span: Span, value: &Option<Box<Expr>>) -> Result<Stmt, AllocError>
    ensures { IfOk result (λ s. view_stmt s ≡ return span (view_option (λ b. view_expr b.value) value.now)) }
{
    match value {
        None => Ok(Stmt::Return(span, None)),
        Some(expr) => Ok(Stmt::Return(span, Some(copy_box(alloc, expr)?))),
    }
}

fn copy_if(alloc: Global, span: Span, test: &Expr, then: Box<Stmt>) -> Result<Stmt, AllocError>
    ensures { IfOk result (λ s. view_stmt s ≡ if_then span (view_expr test.now) (view_stmt then.value)) }
{
    let (then, test) = both(then, copy_box(alloc, test))?;
    Ok(Stmt::If(span, test, then))
}

fn copy_if_else(
    alloc: Global,
    span: Span,
    test: &Expr,
    then: Box<Stmt>,
    otherwise: Box<Stmt>,
) -> Result<Stmt, AllocError>
    ensures { IfOk result (λ s. view_stmt s
        ≡ if_then_else span (view_expr test.now) (view_stmt then.value) (view_stmt otherwise.value)) }
{
    let ((then, otherwise), test) = both((then, otherwise), copy_box(alloc, test))?;
    Ok(Stmt::IfElse {
        span,
        test,
        then,
        otherwise,
    })
}

fn copy_while(alloc: Global, span: Span, test: &Expr, body: Box<Stmt>) -> Result<Stmt, AllocError>
    ensures { IfOk result (λ s. view_stmt s ≡ while span (view_expr test.now) (view_stmt body.value)) }
{
    let (body, test) = both(body, copy_box(alloc, test))?;
    Ok(Stmt::While(span, test, body))
}

fn copy_head_box(alloc: Global, head: &ForHead) -> Result<Box<ForHead>, AllocError>
    ensures { IfOk result (λ b. view_head b.value ≡ view_head head.now) }
{
    let head = copy_head(alloc, head)?;
    in_box(alloc, head)
}

fn copy_for(alloc: Global, span: Span, head: &ForHead, body: Box<Stmt>) -> Result<Stmt, AllocError>
    ensures { IfOk result (λ s. view_stmt s ≡ for span (view_head head.now) (view_stmt body.value)) }
{
    let (body, head) = both(body, copy_head_box(alloc, head))?;
    Ok(Stmt::For(span, head, body))
}

/// A statement once more.
#[cycle(stmt)]
pub fn copy_stmt(alloc: Global, stmt: &Stmt) -> Result<Stmt, AllocError>
    ensures { IfOk result (λ s. view_stmt s ≡ view_stmt stmt.now) }
{
    match stmt {
        Stmt::Empty(span) => Ok(Stmt::Empty(*span)),
        Stmt::Block(span, statements) => {
            Ok(Stmt::block(*span, copy_statements(alloc, statements)?))
        }
        Stmt::Declare(span, local) => copy_declare(alloc, *span, local),
        Stmt::Simple(span, simple) => copy_simple_stmt(alloc, *span, simple),
        Stmt::Jump(span, jump) => Ok(Stmt::Jump(*span, *jump)),
        Stmt::Return(span, value) => copy_return(alloc, *span, value),
        Stmt::If(span, test, then) => copy_if(alloc, *span, test, copy_stmt_box(alloc, then)?),
        Stmt::IfElse {
            span,
            test,
            then,
            otherwise,
        } => {
            let then = copy_stmt_box(alloc, then)?;
            let (then, otherwise) = both(then, copy_stmt_box(alloc, otherwise))?;
            copy_if_else(alloc, *span, test, then, otherwise)
        }
        Stmt::While(span, test, body) => copy_while(
            alloc,
            *span,
            test,
            copy_stmt_box(alloc, body)?,
        ),
        Stmt::For(span, head, body) => copy_for(alloc, *span, head, copy_stmt_box(alloc, body)?),
    }
}

/// A statement in a box once more.
#[cycle(stmt)]
fn copy_stmt_box(alloc: Global, stmt: &Stmt) -> Result<Box<Stmt>, AllocError>
    ensures { IfOk result (λ b. view_stmt b.value ≡ view_stmt stmt.now) }
{
    let copied = copy_stmt(alloc, stmt)?;
    in_box(alloc, copied)
}

/// Statements once more.
#[cycle(stmt)]
pub(crate) fn copy_statements(alloc: Global, list: &[Stmt]) -> Result<Vec<Stmt>, AllocError>
    ensures { IfOk result (λ v. view_statements v.items ≡ view_statements list.now) }
{
    let mut copied = Vec::with_capacity(alloc, list.len())?;
    for stmt in list {
        copied.push(copy_stmt(alloc, stmt)?)?;
    }
    Ok(copied)
}
