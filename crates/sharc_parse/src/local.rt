// Reading a declaration, and a local.

ghost use Rattle.sharc_parse.specs.{Goes.from, Locals.{ReadsName, IsNamePlaced, ReadsDeclaration, IsDeclarationPlaced}};
ghost use Rattle.sharc_parse.specs.Locals.{ReadsInitial, EndsInitially, IsInitialPlaced, ReadsLocal, EndsLocal};
ghost use Rattle.sharc_parse.specs.{Goes.{GoesOn, IsPlace}, Locals.{IsLocalPlaced}};

use crate::right::right;
use crate::token::{Reading, ReadingFault, name, span, take};
use crate::types::{ModePermission, written_type};
use sharc_tree::held::both;
use sharc_tree::token::{Punctuator, Token};
use sharc_tree::tree::{Declaration, Identifier, Local, Right};
use std::alloc::Global;

/// The name after a type.
#[tactic(auto, using(crate::proofs::LocalSteps::named_goes, crate::proofs::LocalSteps::no_name_there))]
pub(crate) fn name_there(alloc: Global, tokens: &[Token], at: &mut usize) -> Reading<Identifier>
    requires there { IsPlace tokens.now at.old }
    ensures reads { ReadsName result (from tokens.now at.old) (from tokens.now at.new) }
    ensures placed { IsNamePlaced result tokens.now at.old at.new }
    ensures onward { GoesOn tokens.now at.old at.new }
{
    let Some(name) = name(alloc, tokens, at)? else {
        return Err(ReadingFault::Wrong);
    };
    Ok(name)
}

/// A type and a name, where nothing else may be written.
#[tactic(auto, using(crate::proofs::LocalSteps::plain_there, crate::proofs::LocalSteps::declaration_stands))]
pub(crate) fn declaration(alloc: Global, tokens: &[Token], at: &mut usize) -> Reading<Declaration>
    requires there { IsPlace tokens.now at.old }
    ensures reads { ReadsDeclaration result (from tokens.now at.old) (from tokens.now at.new) }
    ensures placed { IsDeclarationPlaced result tokens.now at.old at.new }
    ensures onward { GoesOn tokens.now at.old at.new }
{
    let first = *at;
    let written = written_type(alloc, tokens, at, ModePermission::Allowed)?;
    let (written, name) = both(written, name_there(alloc, tokens, at))?;
    Ok(Declaration {
        span: span(tokens, first, *at),
        written,
        name,
    })
}

/// The right side of `=`, if there is one.
#[tactic(auto, using(crate::proofs::LocalSteps::initial_goes))]
fn initial_value(alloc: Global, tokens: &[Token], at: &mut usize) -> Reading<Option<Right>>
    requires there { IsPlace tokens.now at.old }
    ensures reads { ReadsInitial result (from tokens.now at.old) (from tokens.now at.new) }
    ensures ends { EndsInitially result (from tokens.now at.new) }
    ensures placed { IsInitialPlaced result tokens.now at.old at.new }
    ensures onward { GoesOn tokens.now at.old at.new }
{
    if take(tokens, at, Punctuator::Assign) {
        let right = right(alloc, tokens, at)?;
        Ok(Some(right))
    } else {
        Ok(None)
    }
}

/// A declaration, and what it begins with.
pub(crate) fn local(alloc: Global, tokens: &[Token], at: &mut usize) -> Reading<Local>
    requires there { IsPlace tokens.now at.old }
    ensures reads { ReadsLocal result (from tokens.now at.old) (from tokens.now at.new) }
    ensures ends { EndsLocal result (from tokens.now at.new) }
    ensures placed { IsLocalPlaced result tokens.now at.old at.new }
    ensures onward { GoesOn tokens.now at.old at.new }
{
    let first = *at;
    let declaration = declaration(alloc, tokens, at)?;
    let (declaration, initial) = both(declaration, initial_value(alloc, tokens, at))?;
    Ok(Local {
        span: span(tokens, first, *at),
        declaration,
        initial,
    })
}
