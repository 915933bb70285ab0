// Reading what a `;` ends in a block, and in the head of a `for`.

ghost use Rattle.std.specs.Prelude.{◌≡◌, ◌==◌};
ghost use Rattle.sharc_parse.specs.{Goes.from, Lines.{is_yes, MeetsType, MeetsLocal, starts_line, ReadsDeclaredLine}};
ghost use Rattle.sharc_parse.specs.{Goes.{GoesOn, IsPlace}, Lines.{ReadsSimpleLine, ReadsLine, IsLinePlaced}};

use crate::held::expect_behind;
use crate::local::local;
use crate::simple::simple;
use crate::token::{Reading, ReadingFault, take};
use crate::types::{base_word, mode_word};
use sharc_tree::token::{Keyword, Punctuator, Token, TokenKind};
use sharc_tree::tree::ForFirst;
use std::alloc::Global;

/// Whether a type begins there.
#[tactic(auto, using(crate::proofs::LineSteps::mode_there, crate::proofs::LineSteps::base_there))]
fn begins_type(tokens: &[Token], at: usize) -> bool
    ensures { MeetsType result (from tokens.now at) }
{
    let mut ahead = at;
    if let Some(_) = mode_word(tokens, &mut ahead) {
        return true;
    }
    if let Some(_) = base_word(tokens, &mut ahead) {
        return true;
    }
    false
}

/// Whether a declaration may be written somewhere.
#[derive(Clone, Copy)]
pub(crate) enum MayDeclare {
    Yes,
    No,
}

/// Whether a local begins there, where that says whether one may.
fn begins_local(tokens: &[Token], at: usize, declares: MayDeclare) -> bool
    ensures { MeetsLocal (is_yes declares) result (from tokens.now at) }
{
    match declares {
        MayDeclare::Yes => begins_type(tokens, at),
        MayDeclare::No => false,
    }
}

/// Whether a line begins there that is no declaration.
fn begins_line(tokens: &[Token], at: usize) -> bool
    ensures { result ≡ starts_line (from tokens.now at) }
{
    if at >= tokens.len() {
        return false;
    }
    let token = &tokens[at];
    match token.kind {
        TokenKind::Identifier | TokenKind::Number(_) | TokenKind::Character(_) => true,
        TokenKind::Keyword(Keyword::Null | Keyword::Spawn | Keyword::Join | Keyword::Print) => true,
        TokenKind::Keyword(Keyword::Lock | Keyword::Unlock | Keyword::Free | Keyword::Scast) =>
            true,
        TokenKind::Punctuator(
            Punctuator::Semicolon | Punctuator::Minus | Punctuator::Exclamation,
        ) => true,
        TokenKind::Punctuator(Punctuator::Tilde | Punctuator::Star | Punctuator::OpenParenthesis) =>
            true,
        _ => false,
    }
}

/// A declaration and its `;`.
#[tactic(auto, using(crate::proofs::LineSteps::local_ends, crate::proofs::LineSteps::local_stuck))]
fn declared_line(alloc: Global, tokens: &[Token], at: &mut usize) -> Reading<ForFirst>
    requires there { IsPlace tokens.now at.old }
    ensures reads { ReadsDeclaredLine result (from tokens.now at.old) (from tokens.now at.new) }
    ensures placed { IsLinePlaced result tokens.now at.old at.new }
    ensures onward { GoesOn tokens.now at.old at.new }
{
    let local = local(alloc, tokens, at)?;
    let local = expect_behind(tokens, at, local, Punctuator::Semicolon)?;
    Ok(ForFirst::Declares(local))
}

/// An assignment or a call, and its `;`.
#[tactic(auto, using(crate::proofs::LineSteps::simple_ends, crate::proofs::LineSteps::simple_stuck))]
fn simple_line(alloc: Global, tokens: &[Token], at: &mut usize) -> Reading<ForFirst>
    requires there { IsPlace tokens.now at.old }
    ensures reads { ReadsSimpleLine result (from tokens.now at.old) (from tokens.now at.new) }
    ensures placed { IsLinePlaced result tokens.now at.old at.new }
    ensures onward { GoesOn tokens.now at.old at.new }
{
    let simple = simple(alloc, tokens, at)?;
    let simple = expect_behind(tokens, at, simple, Punctuator::Semicolon)?;
    Ok(ForFirst::Does(simple))
}

/// A line. Where there is no room, only a declaration may be there.
#[tactic(auto, using(crate::proofs::LineSteps::line_declares, crate::proofs::LineSteps::line_empty, crate::proofs::LineSteps::line_simple, crate::proofs::LineSteps::line_deep, crate::proofs::LineSteps::line_wrong))]
pub(crate) fn line(
    alloc: Global,
    tokens: &[Token],
    at: &mut usize,
    declares: MayDeclare,
    room: u8,
) -> Reading<ForFirst>
    requires there { IsPlace tokens.now at.old }
    ensures reads { ReadsLine (is_yes declares) (room == 0) result (from tokens.now at.old) (from tokens.now at.new) }
    ensures placed { IsLinePlaced result tokens.now at.old at.new }
    ensures onward { GoesOn tokens.now at.old at.new }
{
    if begins_local(tokens, *at, declares) {
        return declared_line(alloc, tokens, at);
    }
    let is_full = room == 0;
    if is_full {
        return if begins_line(tokens, *at) {
            Err(ReadingFault::Deep)
        } else {
            Err(ReadingFault::Wrong)
        };
    }
    if take(tokens, at, Punctuator::Semicolon) {
        return Ok(ForFirst::Nothing);
    }
    simple_line(alloc, tokens, at)
}
