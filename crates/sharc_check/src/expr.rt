// What is said of expressions.

ghost use Rattle.std.specs.Prelude.{◌≡◌, ◌++◌, OnOk};
ghost use Rattle.sharc_tree.specs.{Tree.{argument, no_arguments}, View.{view_expr, view_arguments}};
ghost use Rattle.sharc_ctype.specs.{Resolved.named_at, Transfers.parameters_named};
ghost use Rattle.sharc_mode.specs.{Expressions.{expected, notes_of, notes_of_all}, Notes.{agree_notes, call_notes}};

use crate::passing::{Passed, Passing, without_first};
use crate::rules::{Notes, Noting, agree, call, cast, expected, field, place, source};
use sharc_ctype::typed::parameters_named;
use sharc_mode::moded::Moded;
use sharc_mode::row::{PathReading, base_use, named_row};
use sharc_tree::token::Span;
use sharc_tree::tree::{Declaration, Expr, Identifier};

// What is said of a spawn, beside what is said of what it passes.
fn spawned(
    program: &Moded,
    span: Span,
    name: &Identifier,
    value: &Expr,
    notes: &mut Notes,
) -> Noting
    ensures { let ds = parameters_named program.now.typed (named_at program.now.typed name.now.site.token) in
        let all = argument (view_expr value.now) no_arguments in
        OnOk result (notes.new.items ≡ notes.old.items
        ++ agree_notes program.now (expected program.now ds all ds) (view_expr value.now)
        ++ call_notes program.now span ds all) }
{
    let typed = program.typed();
    let parameters = parameters_named(typed, typed.named(name.site.token));
    let passing = Passing {
        parameters,
        passed: Passed::One(value),
    };
    let wanted = expected(program, passing, parameters);
    agree(program, wanted, value, notes)?;
    call(program, span, passing, notes)
}

/// Says what is to be said of an expression.
#[cycle(expr)]
pub(crate) fn expression(program: &Moded, expr: &Expr, notes: &mut Notes) -> Noting
    ensures { OnOk result (notes.new.items ≡ notes.old.items ++ notes_of program.now (view_expr expr.now)) }
{
    match expr {
        Expr::Identifier(_, _) | Expr::Constant(_, _) => Ok(()),
        Expr::Parentheses(_, inner) => expression(program, inner, notes),
        Expr::Call(span, name, list) => called(program, *span, name, list.as_slice(), notes),
        Expr::Spawn(span, name, value) => {
            expression(program, value, notes)?;
            spawned(program, *span, name, value, notes)
        }
        Expr::OnValue(_, _, value) => expression(program, value, notes),
        Expr::OnPlace(_, what, inner) => {
            expression(program, inner, notes)?;
            place(program, *what, inner, notes)
        }
        Expr::Cast(span, to, from) => {
            expression(program, from, notes)?;
            source(program, from, notes)?;
            cast(program, *span, to, from, notes)
        }
        Expr::Field {
            span,
            base,
            access,
            name,
        } => {
            expression(program, base, notes)?;
            let typed = program.typed();
            let targets = named_row(typed, PathReading::Written, typed.named(name.site.token));
            let through = base_use(typed, *access, base);
            field(program, *span, through, targets, notes)
        }
        Expr::Unary(_, _, operand) => expression(program, operand, notes),
        Expr::Index(_, left, right) | Expr::Binary { left, right, .. } => {
            expression(program, left, notes)?;
            expression(program, right, notes)
        }
    }
}

/// Says what is to be said of a call, and of its arguments.
#[cycle(expr)]
fn called(
    program: &Moded,
    span: Span,
    name: &Identifier,
    list: &[Expr],
    notes: &mut Notes,
) -> Noting
    ensures { let ds = parameters_named program.now.typed (named_at program.now.typed name.now.site.token) in
        let all = view_arguments list.now in
        OnOk result (notes.new.items ≡ notes.old.items
        ++ notes_of_all program.now ds all ds all ++ call_notes program.now span ds all) }
{
    let typed = program.typed();
    let parameters = parameters_named(typed, typed.named(name.site.token));
    let passing = Passing {
        parameters,
        passed: Passed::All(list),
    };
    let mut left = parameters;
    for expr in list {
        expression(program, expr, notes)?;
        let wanted = expected(program, passing, left);
        agree(program, wanted, expr, notes)?;
        left = without_first(left);
    }
    call(program, span, passing, notes)
}
