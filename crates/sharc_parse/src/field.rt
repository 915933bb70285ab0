// Reading the fields of a struct.

ghost use Rattle.sharc_parse.specs.{Goes.{GoesOn, IsPlace, from}, Fields.{ReadsFields, AreFieldsPlaced}};

use crate::local::declaration;
use crate::token::{Reading, expect, take};
use sharc_tree::token::{Punctuator, Token};
use sharc_tree::tree::Declaration;
use std::alloc::Global;

/// The fields after the `{` of a struct, and the `}`.
#[tactic(auto, using(crate::proofs::FieldSteps::first_fields, crate::proofs::FieldSteps::one_field_more, crate::proofs::FieldSteps::fields_go_on, crate::proofs::FieldSteps::fields_read, crate::proofs::FieldSteps::field_stuck))]
pub(crate) fn fields(alloc: Global, tokens: &[Token], at: &mut usize) -> Reading<Vec<Declaration>>
    requires there { IsPlace tokens.now at.old }
    ensures reads { ReadsFields (λ v. v.items) result (from tokens.now at.old) (from tokens.now at.new) }
    ensures placed { AreFieldsPlaced (λ v. v.items) result tokens.now at.old at.new }
    ensures onward { GoesOn tokens.now at.old at.new }
{
    let mut fields = Vec::new(alloc);
    loop {
        let field = declaration(alloc, tokens, at)?;
        expect(tokens, at, Punctuator::Semicolon)?;
        fields.push(field)?;
        if take(tokens, at, Punctuator::CloseBrace) {
            return Ok(fields);
        }
    }
}
