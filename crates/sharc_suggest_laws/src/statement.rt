// Statements with a cast written in them.

ghost use Rattle.std.specs.Prelude.{◌≡◌, IfOk, option_map};
ghost use Rattle.sharc_tree.specs.{Tree.{declare, simple, return, if_then, if_then_else, while, for}, View.view_expr};
ghost use Rattle.sharc_tree.specs.View.{view_option, view_right, view_simple, view_local, view_first, view_head};
ghost use Rattle.sharc_tree.specs.View.{view_stmt, view_statements};
ghost use Rattle.sharc_suggest_laws.specs.Recast.{around, with_cast, right_with_cast, simple_with_cast};
ghost use Rattle.sharc_suggest_laws.specs.Recast.{local_with_cast, first_with_cast, head_with_cast};
ghost use Rattle.sharc_suggest_laws.specs.Recast.{statement_with_cast, statements_with_cast};

use crate::expression::{boxed, boxed_value, expression, value};
use crate::written::{Recast, Rewritten};
use sharc_tree::held::{both, in_box};
use sharc_tree::token::Span;
use sharc_tree::tree::{Expr, ForFirst, ForHead, Local, Right, Simple, Stmt};
use std::alloc::Global;

fn optional(alloc: Global, c: &Recast, expr: &Option<Expr>) -> Rewritten<Option<Expr>>
    ensures { IfOk result (λ e. view_option view_expr e
        ≡ option_map (with_cast c.now) (view_option view_expr expr.now)) }
{
    match expr {
        None => Ok(None),
        Some(expr) => Ok(Some(expression(alloc, c, expr)?)),
    }
}

fn right(alloc: Global, c: &Recast, right: &Right) -> Rewritten<Right>
    ensures { IfOk result (λ r. view_right r ≡ right_with_cast c.now (view_right right.now)) }
{
    match right {
        Right::Value(expr) => Ok(Right::Value(value(alloc, c, expr)?)),
        Right::Malloc(span, count, of) => {
            let count = optional(alloc, c, count)?;
            let (count, of) = both(count, of.copy(alloc))?;
            Ok(Right::Malloc(*span, count, of))
        }
    }
}

fn simple_of(alloc: Global, c: &Recast, simple: &Simple) -> Rewritten<Simple>
    ensures { IfOk result (λ s. view_simple s ≡ simple_with_cast c.now (view_simple simple.now)) }
{
    match simple {
        Simple::Assign(span, place, x) => {
            let place = expression(alloc, c, place)?;
            let (place, x) = both(place, right(alloc, c, x))?;
            Ok(Simple::Assign(*span, place, x))
        }
        Simple::Call(call) => Ok(Simple::Call(expression(alloc, c, call)?)),
    }
}

fn initial(alloc: Global, c: &Recast, initial: &Option<Right>) -> Rewritten<Option<Right>>
    ensures { IfOk result (λ r. view_option view_right r
        ≡ option_map (right_with_cast c.now) (view_option view_right initial.now)) }
{
    match initial {
        None => Ok(None),
        Some(x) => Ok(Some(right(alloc, c, x)?)),
    }
}

fn local_of(alloc: Global, c: &Recast, local: &Local) -> Rewritten<Local>
    ensures { IfOk result (λ l. view_local l ≡ local_with_cast c.now (view_local local.now)) }
{
    let declaration = local.declaration.copy(alloc)?;
    let (declaration, initial) = both(declaration, initial(alloc, c, &local.initial))?;
    Ok(Local {
        span: local.span,
        declaration,
        initial,
    })
}

fn first(alloc: Global, c: &Recast, first: &ForFirst) -> Rewritten<ForFirst>
    ensures { IfOk result (λ f. view_first f ≡ first_with_cast c.now (view_first first.now)) }
{
    match first {
        ForFirst::Nothing => Ok(ForFirst::Nothing),
        ForFirst::Declares(local) => Ok(ForFirst::Declares(local_of(alloc, c, local)?)),
        ForFirst::Does(simple) => Ok(ForFirst::Does(simple_of(alloc, c, simple)?)),
    }
}

fn step(alloc: Global, c: &Recast, step: &Option<Simple>) -> Rewritten<Option<Simple>>
    ensures { IfOk result (λ s. view_option view_simple s
        ≡ option_map (simple_with_cast c.now) (view_option view_simple step.now)) }
{
    match step {
        None => Ok(None),
        Some(simple) => Ok(Some(simple_of(alloc, c, simple)?)),
    }
}

fn test_and_step(
    alloc: Global,
    c: &Recast,
    head: &ForHead,
) -> Rewritten<(Option<Expr>, Option<Simple>)>
    ensures test { IfOk result (λ r. view_option view_expr r.0
        ≡ option_map (with_cast c.now) (view_option view_expr head.now.test)) }
    ensures step { IfOk result (λ r. view_option view_simple r.1
        ≡ option_map (simple_with_cast c.now) (view_option view_simple head.now.step)) }
{
    let test = optional(alloc, c, &head.test)?;
    both(test, step(alloc, c, &head.step))
}

fn head_of(alloc: Global, c: &Recast, head: &ForHead) -> Rewritten<ForHead>
    ensures { IfOk result (λ h. view_head h ≡ head_with_cast c.now (view_head head.now)) }
{
    let first = first(alloc, c, &head.first)?;
    let (first, (test, step)) = both(first, test_and_step(alloc, c, head))?;
    Ok(ForHead { first, test, step })
}

fn declare_of(alloc: Global, c: &Recast, span: Span, local: &Local) -> Rewritten<Stmt>
    ensures { IfOk result (λ s. view_stmt s ≡ declare span (local_with_cast c.now (view_local local.now))) }
{
    let local = local_of(alloc, c, local)?;
    Ok(Stmt::Declare(span, in_box(alloc, local)?))
}

fn simple_statement(alloc: Global, c: &Recast, span: Span, does: &Simple) -> Rewritten<Stmt>
    ensures { IfOk result (λ s. view_stmt s ≡ simple span (simple_with_cast c.now (view_simple does.now))) }
{
    let does = simple_of(alloc, c, does)?;
    Ok(Stmt::Simple(span, in_box(alloc, does)?))
}

fn return_of(alloc: Global, c: &Recast, span: Span, returned: &Option<Box<Expr>>) -> Rewritten<Stmt>
    ensures { IfOk result (λ s. view_stmt s ≡ return span
        (option_map (λ a. around c.now (with_cast c.now a)) (view_option (λ b. view_expr b.value) returned.now))) }
{
    match returned {
        None => Ok(Stmt::Return(span, None)),
        Some(expr) => Ok(Stmt::Return(span, Some(boxed_value(alloc, c, expr)?))),
    }
}

fn if_of(alloc: Global, c: &Recast, span: Span, test: &Expr, then: Box<Stmt>) -> Rewritten<Stmt>
    ensures { IfOk result (λ s. view_stmt s
        ≡ if_then span (with_cast c.now (view_expr test.now)) (view_stmt then.value)) }
{
    let (then, test) = both(then, boxed(alloc, c, test))?;
    Ok(Stmt::If(span, test, then))
}

fn if_else_of(
    alloc: Global,
    c: &Recast,
    span: Span,
    test: &Expr,
    then: Box<Stmt>,
    otherwise: Box<Stmt>,
) -> Rewritten<Stmt>
    ensures { IfOk result (λ s. view_stmt s
        ≡ if_then_else span (with_cast c.now (view_expr test.now)) (view_stmt then.value) (view_stmt otherwise.value)) }
{
    let ((then, otherwise), test) = both((then, otherwise), boxed(alloc, c, test))?;
    Ok(Stmt::IfElse {
        span,
        test,
        then,
        otherwise,
    })
}

fn while_of(alloc: Global, c: &Recast, span: Span, test: &Expr, body: Box<Stmt>) -> Rewritten<Stmt>
    ensures { IfOk result (λ s. view_stmt s
        ≡ while span (with_cast c.now (view_expr test.now)) (view_stmt body.value)) }
{
    let (body, test) = both(body, boxed(alloc, c, test))?;
    Ok(Stmt::While(span, test, body))
}

fn boxed_head(alloc: Global, c: &Recast, head: &ForHead) -> Rewritten<Box<ForHead>>
    ensures { IfOk result (λ b. view_head b.value ≡ head_with_cast c.now (view_head head.now)) }
{
    in_box(alloc, head_of(alloc, c, head)?)
}

fn for_of(alloc: Global, c: &Recast, span: Span, head: &ForHead, body: Box<Stmt>) -> Rewritten<Stmt>
    ensures { IfOk result (λ s. view_stmt s
        ≡ for span (head_with_cast c.now (view_head head.now)) (view_stmt body.value)) }
{
    let (body, head) = both(body, boxed_head(alloc, c, head))?;
    Ok(Stmt::For(span, head, body))
}

/// A statement with the cast written in it.
#[cycle(stmt)]
fn statement(alloc: Global, c: &Recast, stmt: &Stmt) -> Rewritten<Stmt>
    ensures { IfOk result (λ s. view_stmt s ≡ statement_with_cast c.now (view_stmt stmt.now)) }
{
    match stmt {
        Stmt::Empty(span) => Ok(Stmt::Empty(*span)),
        Stmt::Block(span, all) => Ok(Stmt::block(*span, statements(alloc, c, all)?)),
        Stmt::Declare(span, local) => declare_of(alloc, c, *span, local),
        Stmt::Simple(span, simple) => simple_statement(alloc, c, *span, simple),
        Stmt::Jump(span, jump) => Ok(Stmt::Jump(*span, *jump)),
        Stmt::Return(span, returned) => return_of(alloc, c, *span, returned),
        Stmt::If(span, test, then) => if_of(
            alloc,
            c,
            *span,
            test,
            boxed_statement(alloc, c, then)?,
        ),
        Stmt::IfElse {
            span,
            test,
            then,
            otherwise,
        } => {
            let then = boxed_statement(alloc, c, then)?;
            let (then, otherwise) = both(then, boxed_statement(alloc, c, otherwise))?;
            if_else_of(alloc, c, *span, test, then, otherwise)
        }
        Stmt::While(span, test, body) => {
            while_of(alloc, c, *span, test, boxed_statement(alloc, c, body)?)
        }
        Stmt::For(span, head, body) => {
            for_of(alloc, c, *span, head, boxed_statement(alloc, c, body)?)
        }
    }
}

/// The same in a box.
#[cycle(stmt)]
fn boxed_statement(alloc: Global, c: &Recast, stmt: &Stmt) -> Rewritten<Box<Stmt>>
    ensures { IfOk result (λ b. view_stmt b.value ≡ statement_with_cast c.now (view_stmt stmt.now)) }
{
    in_box(alloc, statement(alloc, c, stmt)?)
}

/// Statements with the cast written in them.
#[cycle(stmt)]
pub(crate) fn statements(alloc: Global, c: &Recast, list: &[Stmt]) -> Rewritten<Vec<Stmt>>
    ensures { IfOk result (λ v. view_statements v.items ≡ statements_with_cast c.now (view_statements list.now)) }
{
    let mut written = Vec::with_capacity(alloc, list.len())?;
    for stmt in list {
        written.push(statement(alloc, c, stmt)?)?;
    }
    Ok(written)
}
