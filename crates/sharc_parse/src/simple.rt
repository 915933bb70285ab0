// Reading an assignment or a call.

ghost use Rattle.std.specs.Prelude.{◌≡◌};
ghost use Rattle.sharc_parse.specs.Goes.{GoesOn, IsPlace};
ghost use Rattle.sharc_parse.specs.Grammar as grammar;
ghost use Rattle.sharc_tree.specs.View.{view_expr};
ghost use Rattle.sharc_parse.specs.{View.phrase_of, Goes.from, Simples.{IsCallOf, ReadsSimple, EndsSimple}};
ghost use Rattle.sharc_parse.specs.Simples.{IsSimplePlaced};

use crate::expr::unary;
use crate::right::right;
use crate::token::{Reading, ReadingFault, span, take};
use sharc_tree::held::both;
use sharc_tree::token::{Punctuator, Token};
use sharc_tree::tree::{Expr, Simple};
use std::alloc::Global;

/// Whether the expression is a call, which alone may be a statement.
fn is_call(expr: &Expr) -> bool
    ensures { result ≡ grammar.is_call (phrase_of expr.now) }
{
    match expr {
        Expr::Call(_, _, _) => true,
        Expr::Spawn(_, _, _) => true,
        Expr::OnValue(_, _, _) => true,
        Expr::OnPlace(_, _, _) => true,
        _ => false,
    }
}

/// A call, as what comes before a `;`.
fn call_of(expr: Expr) -> Reading<Simple>
    ensures { IsCallOf result (view_expr expr) }
{
    if is_call(&expr) {
        Ok(Simple::Call(expr))
    } else {
        Err(ReadingFault::Wrong)
    }
}

/// An assignment or a call.
#[tactic(auto, using(crate::proofs::SimpleSteps::assign_goes, crate::proofs::SimpleSteps::no_call_there))]
pub(crate) fn simple(alloc: Global, tokens: &[Token], at: &mut usize) -> Reading<Simple>
    requires there { IsPlace tokens.now at.old }
    ensures reads { ReadsSimple result (from tokens.now at.old) (from tokens.now at.new) }
    ensures ends { EndsSimple result (from tokens.now at.new) }
    ensures placed { IsSimplePlaced result tokens.now at.old at.new }
    ensures onward { GoesOn tokens.now at.old at.new }
{
    let first = *at;
    let place = unary(alloc, tokens, at, 64)?;
    if take(tokens, at, Punctuator::Assign) {
        let (place, right) = both(place.expr, right(alloc, tokens, at))?;
        Ok(Simple::Assign(span(tokens, first, *at), place, right))
    } else {
        call_of(place.expr)
    }
}
