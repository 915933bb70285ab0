// Reading what follows the name of a global.

ghost use Rattle.sharc_parse.specs.{Goes.from, Forms.{TakesNumber, TakesSigned, ReadsArray, ReadsConstant}};
ghost use Rattle.sharc_parse.specs.{Goes.{GoesOn, IsPlace}, Forms.{IsBehindPlaced, ReadsForm, IsFormPlaced}};

use crate::token::{Reading, ReadingFault, constant, expect, site, span, take};
use sharc_tree::token::{Number, Punctuator, Token, TokenKind};
use sharc_tree::tree::{Constant, GlobalForm};

/// Goes past a number.
fn number(tokens: &[Token], at: &mut usize) -> Option<Number>
    ensures { TakesNumber result tokens.now at.old at.new }
{
    if *at >= tokens.len() {
        return None;
    }
    let token = &tokens[*at];
    match token.kind {
        TokenKind::Number(number) => {
            *at += 1;
            Some(number)
        }
        _ => None,
    }
}

/// Goes past a constant that a `-` may come before.
fn signed_constant(tokens: &[Token], at: &mut usize) -> Option<Constant>
    ensures { TakesSigned result tokens.now at.old at.new }
{
    if *at >= tokens.len() {
        return None;
    }
    let token = &tokens[*at];
    let constant = match token.kind {
        TokenKind::Number(number) => Constant::Number(number),
        TokenKind::Character(byte) => Constant::Character(byte),
        _ => return None,
    };
    *at += 1;
    Some(constant)
}

/// `number ]` after a `[`.
#[tactic(auto, using(crate::proofs::FormSteps::array_number, crate::proofs::FormSteps::no_number, crate::proofs::FormSteps::array_ends, crate::proofs::Steps::fixed_stuck))]
fn array_form(tokens: &[Token], at: &mut usize) -> Reading<GlobalForm>
    requires there { IsPlace tokens.now at.old }
    ensures reads { ReadsArray result (from tokens.now at.old) (from tokens.now at.new) }
    ensures placed { IsBehindPlaced result tokens.now at.old at.new }
    ensures onward { GoesOn tokens.now at.old at.new }
{
    let place = site(tokens, *at);
    let Some(number) = number(tokens, at) else {
        return Err(ReadingFault::Wrong);
    };
    expect(tokens, at, Punctuator::CloseBracket)?;
    Ok(GlobalForm::Array(place, number))
}

/// A constant after a `=`.
#[tactic(auto, using(crate::proofs::FormSteps::minus_goes, crate::proofs::FormSteps::signed_goes, crate::proofs::FormSteps::no_signed, crate::proofs::FormSteps::constant_goes, crate::proofs::FormSteps::no_constant))]
fn constant_form(tokens: &[Token], at: &mut usize) -> Reading<GlobalForm>
    requires there { IsPlace tokens.now at.old }
    ensures reads { ReadsConstant result (from tokens.now at.old) (from tokens.now at.new) }
    ensures placed { IsBehindPlaced result tokens.now at.old at.new }
    ensures onward { GoesOn tokens.now at.old at.new }
{
    let first = *at;
    if take(tokens, at, Punctuator::Minus) {
        let Some(constant) = signed_constant(tokens, at) else {
            return Err(ReadingFault::Wrong);
        };
        return Ok(GlobalForm::Initial(span(tokens, first, *at), true, constant));
    }
    let Some(constant) = constant(tokens, at) else {
        return Err(ReadingFault::Wrong);
    };
    Ok(GlobalForm::Initial(span(tokens, first, *at), false, constant))
}

/// What follows the name of a global, and its `;`.
#[tactic(auto, using(crate::proofs::FormSteps::single_goes, crate::proofs::FormSteps::array_goes, crate::proofs::FormSteps::initial_goes, crate::proofs::FormSteps::form_ends, crate::proofs::FormSteps::no_form, crate::proofs::Steps::fixed_stuck))]
pub(crate) fn form(tokens: &[Token], at: &mut usize) -> Reading<GlobalForm>
    requires there { IsPlace tokens.now at.old }
    ensures reads { ReadsForm result (from tokens.now at.old) (from tokens.now at.new) }
    ensures placed { IsFormPlaced result tokens.now at.old at.new }
    ensures onward { GoesOn tokens.now at.old at.new }
{
    if take(tokens, at, Punctuator::Semicolon) {
        return Ok(GlobalForm::Plain);
    }
    if take(tokens, at, Punctuator::OpenBracket) {
        let form = array_form(tokens, at)?;
        expect(tokens, at, Punctuator::Semicolon)?;
        return Ok(form);
    }
    if take(tokens, at, Punctuator::Assign) {
        let form = constant_form(tokens, at)?;
        expect(tokens, at, Punctuator::Semicolon)?;
        return Ok(form);
    }
    Err(ReadingFault::Wrong)
}
