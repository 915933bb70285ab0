// Reading the parameters of a function.

ghost use Rattle.sharc_parse.specs.{Goes.from, View.bare_type, Parameters.{ClosesVoid, ReadsFirst, IsFirstPlaced}};
ghost use Rattle.sharc_parse.specs.{Goes.{GoesOn, IsPlace}, Parameters.{ReadsParameters, AreParametersPlaced}};

use crate::local::{declaration, name_there};
use crate::token::{Reading, expect, span, take};
use crate::types::{ModePermission, is_bare, written_type};
use sharc_tree::ctype::Base;
use sharc_tree::held::both;
use sharc_tree::token::{Punctuator, Token};
use sharc_tree::tree::{Declaration, WrittenType};
use std::alloc::Global;

/// Goes past a `)` after a `void` that stands for no parameters.
fn closes_void(tokens: &[Token], at: &mut usize, written: &WrittenType) -> bool
    ensures { ClosesVoid result (bare_type written.now) tokens.now at.old at.new }
{
    match written.ctype.base {
        Base::Void => is_bare(written) && take(tokens, at, Punctuator::CloseParenthesis),
        _ => false,
    }
}

/// The first parameter, or the `void )` that stands for none.
fn first_parameter(alloc: Global, tokens: &[Token], at: &mut usize) -> Reading<Option<Declaration>>
    requires there { IsPlace tokens.now at.old }
    ensures reads { ReadsFirst result (from tokens.now at.old) (from tokens.now at.new) }
    ensures placed { IsFirstPlaced result tokens.now at.old at.new }
    ensures onward { GoesOn tokens.now at.old at.new }
{
    let first = *at;
    let written = written_type(alloc, tokens, at, ModePermission::Allowed)?;
    if closes_void(tokens, at, &written) {
        return Ok(None);
    }
    let (written, name) = both(written, name_there(alloc, tokens, at))?;
    Ok(Some(Declaration {
        span: span(tokens, first, *at),
        written,
        name,
    }))
}

/// The parameters after the `(` of a function, and the `)`.
#[tactic(auto, using(crate::proofs::ParameterSteps::first_given, crate::proofs::ParameterSteps::one_given_more, crate::proofs::ParameterSteps::given_stuck, crate::proofs::ParameterSteps::given_read))]
pub(crate) fn parameters(
    alloc: Global,
    tokens: &[Token],
    at: &mut usize,
) -> Reading<Vec<Declaration>>
    requires there { IsPlace tokens.now at.old }
    ensures reads { ReadsParameters (λ v. v.items) result (from tokens.now at.old) (from tokens.now at.new) }
    ensures placed { AreParametersPlaced (λ v. v.items) result tokens.now at.old at.new }
    ensures onward { GoesOn tokens.now at.old at.new }
{
    let mut list = Vec::new(alloc);
    let Some(parameter) = first_parameter(alloc, tokens, at)? else {
        return Ok(list);
    };
    list.push(parameter)?;
    while take(tokens, at, Punctuator::Comma) {
        let parameter = declaration(alloc, tokens, at)?;
        list.push(parameter)?;
    }
    expect(tokens, at, Punctuator::CloseParenthesis)?;
    Ok(list)
}
