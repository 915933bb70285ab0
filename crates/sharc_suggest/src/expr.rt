// The casts that are suggested in expressions.

ghost use Rattle.std.specs.{Prelude.{◌≡◌, ◌++◌, zero, OnOk}, Option.option_map};
ghost use Rattle.sharc_tree.specs.View.{view_expr, view_arguments};
ghost use Rattle.sharc_mode.specs.{Rows.modes_of, View.{view_rows, EndsWithin}};
ghost use Rattle.sharc_suggest.specs.{Casts.suggested_in, Givings.{Receiver, wanted, givings, all_givings}};
ghost use Rattle.sharc_suggest.specs.{Givings.value_givings, Repairs.told};

use crate::repair::{Known, repair};
use sharc_check::passing::{Passed, Passing, without_first};
use sharc_check::rules::expected;
use sharc_ctype::typed::parameters_named;
use sharc_mode::error::Cast;
use sharc_mode::row::Targets;
use sharc_names::names::NamesInScope;
use sharc_tree::tree::Expr;
use std::alloc::AllocError;

/// Adds the casts that are suggested in an expression.
#[cycle(expr)]
#[tactic(auto, using(crate::proofs::CallLemmas::suggested_both))]
pub(crate) fn expression(
    known: Known<'_>,
    scope: &NamesInScope<'_>,
    expr: &Expr,
    casts: &mut Vec<Cast>,
) -> Result<(), AllocError>
    ensures { OnOk result (casts.new.items ≡ casts.old.items
        ++ suggested_in known.entry.moded.now (told known.entry.named.now) (givings scope.now (view_expr expr.now))) }
{
    match expr {
        Expr::Identifier(_, _) => Ok(()),
        Expr::Constant(_, _) => Ok(()),
        Expr::Parentheses(_, inner) => expression(known, scope, inner, casts),
        Expr::Call(_, name, list) => {
            arguments(known, scope, name.site.token, list.as_slice(), casts)
        }
        Expr::Spawn(_, name, argument) => {
            let typed = known.moded.typed();
            let parameters = parameters_named(typed, typed.named(name.site.token));
            let passing = Passing {
                parameters,
                passed: Passed::One(argument),
            };
            let want = expected(known.moded, passing, parameters);
            value(known, scope, want, argument, casts)
        }
        Expr::OnValue(_, _, value) => expression(known, scope, value, casts),
        Expr::OnPlace(_, _, inner) => expression(known, scope, inner, casts),
        Expr::Cast(_, _, from) => expression(known, scope, from, casts),
        Expr::Index(_, base, index) => {
            expression(known, scope, base, casts)?;
            expression(known, scope, index, casts)
        }
        Expr::Field { base, .. } => expression(known, scope, base, casts),
        Expr::Unary(_, _, operand) => expression(known, scope, operand, casts),
        Expr::Binary { left, right, .. } => {
            expression(known, scope, left, casts)?;
            expression(known, scope, right, casts)
        }
    }
}

/// Adds those that are suggested in a value that is given to what expects these modes, and of it.
#[cycle(expr)]
pub(crate) fn value(
    known: Known<'_>,
    scope: &NamesInScope<'_>,
    want: Option<Targets<'_>>,
    expr: &Expr,
    casts: &mut Vec<Cast>,
) -> Result<(), AllocError>
    requires { EndsWithin known.moded.now.typed want }
    ensures { (r : Receiver)
        → wanted known.entry.moded.now r ≡ option_map (modes_of known.entry.moded.now) (view_rows want.entry)
        → OnOk result (casts.new.items ≡ casts.old.items ++ suggested_in known.entry.moded.now
        (told known.entry.named.now) (value_givings scope.now r (view_expr expr.now))) }
{
    expression(known, scope, expr, casts)?;
    repair(known, scope, want, expr, casts)
}

/// Adds those that are suggested in the arguments of a call of the function that this token names.
#[cycle(expr)]
fn arguments(
    known: Known<'_>,
    scope: &NamesInScope<'_>,
    function: u32,
    list: &[Expr],
    casts: &mut Vec<Cast>,
) -> Result<(), AllocError>
    ensures { OnOk result (casts.new.items
        ≡ casts.old.items ++ suggested_in known.entry.moded.now (told known.entry.named.now)
        (all_givings scope.now function (view_arguments list.now) zero (view_arguments list.now))) }
{
    let typed = known.moded.typed();
    let parameters = parameters_named(typed, typed.named(function));
    let passing = Passing {
        parameters,
        passed: Passed::All(list),
    };
    let mut left = parameters;
    for expr in list {
        let want = expected(known.moded, passing, left);
        value(known, scope, want, expr, casts)?;
        left = without_first(left);
    }
    Ok(())
}
