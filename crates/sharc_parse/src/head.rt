// Reading the head of a `for`, and what a `return` gives.

ghost use Rattle.sharc_parse.specs.Goes.{GoesOn, IsPlace, from};
ghost use Rattle.sharc_parse.specs.Heads.{ReadsTail, IsTailPlaced, ReadsStep, IsStepPlaced, ReadsHead, IsHeadPlaced};

use crate::expr::binary;
use crate::held::expect_behind;
use crate::line::{MayDeclare, line};
use crate::simple::simple;
use crate::token::{Reading, expect, take};
use sharc_tree::held::both;
use sharc_tree::token::{Punctuator, Token};
use sharc_tree::tree::{Expr, ForHead, Simple};
use std::alloc::Global;

/// An expression that may be left out, and its `;`.
#[tactic(auto, using(crate::proofs::HeadSteps::tail_empty, crate::proofs::HeadSteps::tail_begins, crate::proofs::HeadSteps::tail_ends, crate::proofs::HeadSteps::tail_stuck, crate::proofs::HeadSteps::tail_fits))]
pub(crate) fn tail(alloc: Global, tokens: &[Token], at: &mut usize) -> Reading<Option<Expr>>
    requires there { IsPlace tokens.now at.old }
    ensures reads { ReadsTail result (from tokens.now at.old) (from tokens.now at.new) }
    ensures placed { IsTailPlaced result tokens.now at.old at.new }
    ensures onward { GoesOn tokens.now at.old at.new }
{
    if take(tokens, at, Punctuator::Semicolon) {
        return Ok(None);
    }
    let piece = binary(alloc, tokens, at, 1, 64)?;
    let piece = expect_behind(tokens, at, piece, Punctuator::Semicolon)?;
    Ok(Some(piece.expr))
}

/// An assignment or a call that may be left out, and the `)` of a `for`.
#[tactic(auto, using(crate::proofs::HeadSteps::step_empty, crate::proofs::HeadSteps::step_begins, crate::proofs::HeadSteps::step_ends, crate::proofs::HeadSteps::step_stuck))]
fn step(alloc: Global, tokens: &[Token], at: &mut usize) -> Reading<Option<Simple>>
    requires there { IsPlace tokens.now at.old }
    ensures reads { ReadsStep result (from tokens.now at.old) (from tokens.now at.new) }
    ensures placed { IsStepPlaced result tokens.now at.old at.new }
    ensures onward { GoesOn tokens.now at.old at.new }
{
    if take(tokens, at, Punctuator::CloseParenthesis) {
        return Ok(None);
    }
    let simple = simple(alloc, tokens, at)?;
    let simple = expect_behind(tokens, at, simple, Punctuator::CloseParenthesis)?;
    Ok(Some(simple))
}

/// What follows the word `for`, up to the `)`.
#[tactic(auto, using(crate::proofs::HeadSteps::for_opens, crate::proofs::HeadSteps::for_begins, crate::proofs::Steps::fixed_stuck))]
pub(crate) fn head(alloc: Global, tokens: &[Token], at: &mut usize) -> Reading<ForHead>
    requires there { IsPlace tokens.now at.old }
    ensures reads { ReadsHead result (from tokens.now at.old) (from tokens.now at.new) }
    ensures placed { IsHeadPlaced result tokens.now at.old at.new }
    ensures onward { GoesOn tokens.now at.old at.new }
{
    expect(tokens, at, Punctuator::OpenParenthesis)?;
    let first = line(alloc, tokens, at, MayDeclare::Yes, 64)?;
    let (first, test) = both(first, tail(alloc, tokens, at))?;
    let ((first, test), step) = both((first, test), step(alloc, tokens, at))?;
    Ok(ForHead { first, test, step })
}
