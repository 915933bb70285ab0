// Expressions with a cast written in them.

ghost use Rattle.std.specs.Prelude.{◌≡◌, IfOk};
ghost use Rattle.sharc_tree.specs.Tree.{identifier, call, spawn, cast, field, binary};
ghost use Rattle.sharc_tree.specs.View.{view_expr, view_arguments};
ghost use Rattle.sharc_suggest_laws.specs.Recast.{type_at, is_there, around, with_cast, all_with_cast};

use crate::written::{Recast, Rewritten};
use sharc_tree::held::{both, in_box};
use sharc_tree::token::{Site, Span};
use sharc_tree::tree::{BinaryOperator, Expr, FieldOperator, Identifier, WrittenType};
use std::alloc::Global;

/// The type of the cast, at these tokens.
fn type_at(alloc: Global, c: &Recast, span: Span) -> Rewritten<WrittenType>
    ensures { IfOk result (λ t. t ≡ type_at c.now span) }
{
    let ctype = c.to.copy(alloc)?;
    Ok(WrittenType {
        span,
        mode_first: false,
        base: c.base,
        ctype,
    })
}

fn cast_of(alloc: Global, span: Span, to: WrittenType, source: Box<Expr>) -> Rewritten<Expr>
    ensures { IfOk result (λ e. view_expr e ≡ cast span to (view_expr source.value)) }
{
    let (source, to) = both(source, in_box(alloc, to))?;
    Ok(Expr::Cast(span, to, source))
}

/// Whether the expression has the tokens of the cast.
fn is_there(c: &Recast, expr: &Expr) -> bool
    ensures { result ≡ is_there c.now (view_expr expr.now) }
{
    let span = expr.span();
    span.first.token == c.from && span.last.token == c.until
}

/// The cast round this expression.
fn in_cast(alloc: Global, c: &Recast, span: Span, source: Box<Expr>) -> Rewritten<Expr>
    ensures { IfOk result (λ e. view_expr e ≡ cast span (type_at c.now span) (view_expr source.value)) }
{
    let (source, to) = both(source, type_at(alloc, c, span))?;
    cast_of(alloc, span, to, source)
}

/// The cast round the expression, if it is the one with its tokens.
fn around(alloc: Global, c: &Recast, expr: Expr) -> Rewritten<Expr>
    ensures { IfOk result (λ e. view_expr e ≡ around c.now (view_expr expr)) }
{
    let span = expr.span();
    if is_there(c, &expr) {
        in_cast(alloc, c, span, in_box(alloc, expr)?)
    } else {
        Ok(expr)
    }
}

fn identifier_of(alloc: Global, span: Span, name: &Identifier) -> Rewritten<Expr>
    ensures { IfOk result (λ e. view_expr e ≡ identifier span name.now) }
{
    Ok(Expr::Identifier(span, name.copy(alloc)?))
}

fn call_of(alloc: Global, span: Span, name: &Identifier, arguments: Vec<Expr>) -> Rewritten<Expr>
    ensures { IfOk result (λ e. view_expr e ≡ call span name.now (view_arguments arguments.items)) }
{
    let (arguments, name) = both(arguments, name.copy(alloc))?;
    Ok(Expr::call(span, name, arguments))
}

fn spawn_of(alloc: Global, span: Span, name: &Identifier, argument: Box<Expr>) -> Rewritten<Expr>
    ensures { IfOk result (λ e. view_expr e ≡ spawn span name.now (view_expr argument.value)) }
{
    let (argument, name) = both(argument, name.copy(alloc))?;
    Ok(Expr::Spawn(span, name, argument))
}

fn old_cast(alloc: Global, span: Span, to: &WrittenType, source: Box<Expr>) -> Rewritten<Expr>
    ensures { IfOk result (λ e. view_expr e ≡ cast span to.now (view_expr source.value)) }
{
    let (source, to) = both(source, to.copy(alloc))?;
    cast_of(alloc, span, to, source)
}

fn field_of(
    alloc: Global,
    span: Span,
    base: Box<Expr>,
    access: FieldOperator,
    name: &Identifier,
) -> Rewritten<Expr>
    ensures { IfOk result (λ e. view_expr e ≡ field span (view_expr base.value) access name.now) }
{
    let (base, name) = both(base, name.copy(alloc))?;
    Ok(Expr::Field {
        span,
        base,
        access,
        name,
    })
}

fn binary_of(
    span: Span,
    operator: BinaryOperator,
    site: Site,
    left: Box<Expr>,
    right: Box<Expr>,
) -> Expr
    ensures { view_expr result ≡ binary span operator site (view_expr left.value) (view_expr right.value) }
{
    Expr::Binary {
        span,
        operator,
        site,
        left,
        right,
    }
}

/// An expression with the cast written in it.
#[cycle(expr)]
pub(crate) fn expression(alloc: Global, c: &Recast, expr: &Expr) -> Rewritten<Expr>
    ensures { IfOk result (λ e. view_expr e ≡ with_cast c.now (view_expr expr.now)) }
{
    match expr {
        Expr::Identifier(span, name) => identifier_of(alloc, *span, name),
        Expr::Constant(span, constant) => Ok(Expr::Constant(*span, *constant)),
        Expr::Parentheses(span, inner) => Ok(Expr::Parentheses(*span, boxed(alloc, c, inner)?)),
        Expr::Call(span, name, list) => call_of(alloc, *span, name, arguments(alloc, c, list)?),
        Expr::Spawn(span, name, value) => {
            let value = boxed_value(alloc, c, value)?;
            spawn_of(alloc, *span, name, value)
        }
        Expr::OnValue(span, word, expr) => Ok(Expr::OnValue(*span, *word, boxed(alloc, c, expr)?)),
        Expr::OnPlace(span, word, expr) => Ok(Expr::OnPlace(*span, *word, boxed(alloc, c, expr)?)),
        Expr::Cast(span, to, source) => old_cast(alloc, *span, to, boxed(alloc, c, source)?),
        Expr::Index(span, base, index) => {
            let base = boxed(alloc, c, base)?;
            let (base, index) = both(base, boxed(alloc, c, index))?;
            Ok(Expr::Index(*span, base, index))
        }
        Expr::Field {
            span,
            base,
            access,
            name,
        } => field_of(alloc, *span, boxed(alloc, c, base)?, *access, name),
        Expr::Unary(span, sign, inner) => Ok(Expr::Unary(*span, *sign, boxed(alloc, c, inner)?)),
        Expr::Binary {
            span,
            operator,
            site,
            left,
            right,
        } => {
            let left = boxed(alloc, c, left)?;
            let (left, right) = both(left, boxed(alloc, c, right))?;
            Ok(binary_of(*span, *operator, *site, left, right))
        }
    }
}

/// The same in a box.
#[cycle(expr)]
pub(crate) fn boxed(alloc: Global, c: &Recast, expr: &Expr) -> Rewritten<Box<Expr>>
    ensures { IfOk result (λ b. view_expr b.value ≡ with_cast c.now (view_expr expr.now)) }
{
    in_box(alloc, expression(alloc, c, expr)?)
}

/// An expression whose value is passed, assigned or returned.
#[cycle(expr)]
pub(crate) fn value(alloc: Global, c: &Recast, expr: &Expr) -> Rewritten<Expr>
    ensures { IfOk result (λ e. view_expr e ≡ around c.now (with_cast c.now (view_expr expr.now))) }
{
    let written = expression(alloc, c, expr)?;
    around(alloc, c, written)
}

/// The same in a box.
#[cycle(expr)]
pub(crate) fn boxed_value(alloc: Global, c: &Recast, expr: &Expr) -> Rewritten<Box<Expr>>
    ensures { IfOk result (λ b. view_expr b.value ≡ around c.now (with_cast c.now (view_expr expr.now))) }
{
    in_box(alloc, value(alloc, c, expr)?)
}

#[cycle(expr)]
fn arguments(alloc: Global, c: &Recast, list: &[Expr]) -> Rewritten<Vec<Expr>>
    ensures { IfOk result (λ v. view_arguments v.items ≡ all_with_cast c.now (view_arguments list.now)) }
{
    let mut written = Vec::with_capacity(alloc, list.len())?;
    for expr in list {
        written.push(value(alloc, c, expr)?)?;
    }
    Ok(written)
}
