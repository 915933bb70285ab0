// Copies of expressions.

ghost use Rattle.std.specs.Prelude.{◌≡◌, IfOk};
ghost use Rattle.sharc_tree.specs.Tree.{identifier, call, spawn, cast, field, binary};
ghost use Rattle.sharc_tree.specs.View.{view_expr, view_arguments};

use crate::held::{both, in_box};
use crate::token::{Site, Span};
use crate::tree::{BinaryOperator, Expr, FieldOperator, Identifier, WrittenType};
use std::alloc::{AllocError, Global};

fn copy_identifier(alloc: Global, span: Span, name: &Identifier) -> Result<Expr, AllocError>
    ensures { IfOk result (λ e. view_expr e ≡ identifier span name.now) }
{
    Ok(Expr::Identifier(span, name.copy(alloc)?))
}

fn copy_call(
    alloc: Global,
    span: Span,
    name: &Identifier,
    arguments: Vec<Expr>,
) -> Result<Expr, AllocError>
    ensures { IfOk result (λ e. view_expr e ≡ call span name.now (view_arguments arguments.items)) }
{
    let (arguments, name) = both(arguments, name.copy(alloc))?;
    Ok(Expr::call(span, name, arguments))
}

fn copy_spawn(
    alloc: Global,
    span: Span,
    name: &Identifier,
    argument: Box<Expr>,
) -> Result<Expr, AllocError>
    ensures { IfOk result (λ e. view_expr e ≡ spawn span name.now (view_expr argument.value)) }
{
    let (argument, name) = both(argument, name.copy(alloc))?;
    Ok(Expr::Spawn(span, name, argument))
}

fn copy_cast(
    alloc: Global,
    span: Span,
    to: &WrittenType,
    source: Box<Expr>,
) -> Result<Expr, AllocError>
    ensures { IfOk result (λ e. view_expr e ≡ cast span to.now (view_expr source.value)) }
{
    let (source, to) = both(source, to.copy(alloc))?;
    let (source, to) = both(source, in_box(alloc, to))?;
    Ok(Expr::Cast(span, to, source))
}

fn copy_field(
    alloc: Global,
    span: Span,
    base: Box<Expr>,
    access: FieldOperator,
    name: &Identifier,
) -> Result<Expr, AllocError>
    ensures { IfOk result (λ e. view_expr e ≡ field span (view_expr base.value) access name.now) }
{
    let (base, name) = both(base, name.copy(alloc))?;
    Ok(Expr::Field {
        span,
        base,
        access,
        name,
    })
}

fn binary_of(
    span: Span,
    operator: BinaryOperator,
    site: Site,
    left: Box<Expr>,
    right: Box<Expr>,
) -> Expr
    ensures { view_expr result ≡ binary span operator site (view_expr left.value) (view_expr right.value) }
{
    Expr::Binary {
        span,
        operator,
        site,
        left,
        right,
    }
}

/// An expression once more.
#[cycle(expr)]
pub fn copy_expr(alloc: Global, expr: &Expr) -> Result<Expr, AllocError>
    ensures { IfOk result (λ e. view_expr e ≡ view_expr expr.now) }
{
    match expr {
        Expr::Identifier(span, name) => copy_identifier(alloc, *span, name),
        Expr::Constant(span, constant) => Ok(Expr::Constant(*span, *constant)),
        Expr::Parentheses(span, inner) => Ok(Expr::Parentheses(*span, copy_box(alloc, inner)?)),
        Expr::Call(span, name, list) => copy_call(alloc, *span, name, copy_arguments(alloc, list)?),
        Expr::Spawn(span, name, value) => copy_spawn(alloc, *span, name, copy_box(alloc, value)?),
        Expr::OnValue(span, word, expr) => Ok(Expr::OnValue(*span, *word, copy_box(alloc, expr)?)),
        Expr::OnPlace(span, word, expr) => Ok(Expr::OnPlace(*span, *word, copy_box(alloc, expr)?)),
        Expr::Cast(span, to, source) => copy_cast(alloc, *span, to, copy_box(alloc, source)?),
        Expr::Index(span, base, index) => {
            let base = copy_box(alloc, base)?;
            let (base, index) = both(base, copy_box(alloc, index))?;
            Ok(Expr::Index(*span, base, index))
        }
        Expr::Field {
            span,
            base,
            access,
            name,
        } => copy_field(alloc, *span, copy_box(alloc, base)?, *access, name),
        Expr::Unary(span, sign, inner) => Ok(Expr::Unary(*span, *sign, copy_box(alloc, inner)?)),
        Expr::Binary {
            span,
            operator,
            site,
            left,
            right,
        } => {
            let left = copy_box(alloc, left)?;
            let (left, right) = both(left, copy_box(alloc, right))?;
            Ok(binary_of(*span, *operator, *site, left, right))
        }
    }
}

/// An expression in a box once more.
#[cycle(expr)]
pub(crate) fn copy_box(alloc: Global, expr: &Expr) -> Result<Box<Expr>, AllocError>
    ensures { IfOk result (λ b. view_expr b.value ≡ view_expr expr.now) }
{
    let copied = copy_expr(alloc, expr)?;
    in_box(alloc, copied)
}

#[cycle(expr)]
fn copy_arguments(alloc: Global, list: &[Expr]) -> Result<Vec<Expr>, AllocError>
    ensures { IfOk result (λ v. view_arguments v.items ≡ view_arguments list.now) }
{
    let mut copied = Vec::with_capacity(alloc, list.len())?;
    for expr in list {
        copied.push(copy_expr(alloc, expr)?)?;
    }
    Ok(copied)
}
