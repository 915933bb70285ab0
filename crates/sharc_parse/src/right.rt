// Reading the right side of `=`.

ghost use Rattle.sharc_parse.specs.{Goes.from, Rights.{ReadsCount, IsCountPlaced, ReadsSized, IsSizedPlaced}};
ghost use Rattle.sharc_parse.specs.{Goes.{GoesOn, IsPlace}, Rights.{ReadsRight, EndsRight, IsRightPlaced}};

use crate::expr::{binary, unary};
use crate::held::expect_behind;
use crate::token::{Reading, expect, expect_keyword, span, take_keyword};
use crate::types::{ModePermission, written_type};
use sharc_tree::held::both;
use sharc_tree::token::{Keyword, Punctuator, Token};
use sharc_tree::tree::{Expr, Right, WrittenType};
use std::alloc::Global;

/// The count of a `malloc` with the `*` after it, if there is one, and `sizeof`.
#[tactic(auto, using(crate::proofs::RightSteps::count_begins, crate::proofs::RightSteps::count_goes, crate::proofs::RightSteps::count_stuck, crate::proofs::RightSteps::count_sizes, crate::proofs::RightSteps::sizeof_goes, crate::proofs::Steps::fixed_stuck))]
fn count(alloc: Global, tokens: &[Token], at: &mut usize) -> Reading<Option<Expr>>
    requires there { IsPlace tokens.now at.old }
    ensures reads { ReadsCount result (from tokens.now at.old) (from tokens.now at.new) }
    ensures placed { IsCountPlaced result tokens.now at.old at.new }
    ensures onward { GoesOn tokens.now at.old at.new }
{
    if take_keyword(tokens, at, Keyword::Sizeof) {
        return Ok(None);
    }
    let piece = unary(alloc, tokens, at, 64)?;
    let piece = expect_behind(tokens, at, piece, Punctuator::Star)?;
    let (piece, _) = both(piece, expect_keyword(tokens, at, Keyword::Sizeof))?;
    Ok(Some(piece.expr))
}

/// `( plain ) )` after `sizeof`.
#[tactic(auto, using(crate::proofs::RightSteps::size_closes, crate::proofs::RightSteps::size_stuck, crate::proofs::RightSteps::size_opens, crate::proofs::RightSteps::malloc_closes, crate::proofs::Steps::fixed_stuck))]
fn sized_type(alloc: Global, tokens: &[Token], at: &mut usize) -> Reading<WrittenType>
    requires there { IsPlace tokens.now at.old }
    ensures reads { ReadsSized result (from tokens.now at.old) (from tokens.now at.new) }
    ensures placed { IsSizedPlaced result tokens.now at.old at.new }
    ensures onward { GoesOn tokens.now at.old at.new }
{
    expect(tokens, at, Punctuator::OpenParenthesis)?;
    let plain = written_type(alloc, tokens, at, ModePermission::LeftOut)?;
    let plain = expect_behind(tokens, at, plain, Punctuator::CloseParenthesis)?;
    let plain = expect_behind(tokens, at, plain, Punctuator::CloseParenthesis)?;
    Ok(plain)
}

/// The right side of `=`.
#[tactic(auto, using(crate::proofs::RightSteps::malloc_goes, crate::proofs::RightSteps::malloc_opens, crate::proofs::Steps::fixed_stuck))]
pub(crate) fn right(alloc: Global, tokens: &[Token], at: &mut usize) -> Reading<Right>
    requires there { IsPlace tokens.now at.old }
    ensures reads { ReadsRight result (from tokens.now at.old) (from tokens.now at.new) }
    ensures ends { EndsRight result (from tokens.now at.new) }
    ensures placed { IsRightPlaced result tokens.now at.old at.new }
    ensures onward { GoesOn tokens.now at.old at.new }
{
    let first = *at;
    if take_keyword(tokens, at, Keyword::Malloc) {
        expect(tokens, at, Punctuator::OpenParenthesis)?;
        let count = count(alloc, tokens, at)?;
        let (count, written) = both(count, sized_type(alloc, tokens, at))?;
        Ok(Right::Malloc(span(tokens, first, *at), count, written))
    } else {
        let piece = binary(alloc, tokens, at, 1, 64)?;
        Ok(Right::Value(piece.expr))
    }
}
