// Reading the words that statements begin with, and conditions.

ghost use Rattle.sharc_parse.specs.{Goes.from, Words.{EntersStatement, ReadsCondition, IsConditionPlaced}};
ghost use Rattle.sharc_parse.specs.Goes.{GoesOn, IsPlace};

use crate::expr::binary;
use crate::held::expect_behind;
use crate::token::{Reading, ReadingFault, expect};
use sharc_tree::token::{Keyword, Punctuator, Token, TokenKind};
use sharc_tree::tree::Expr;
use std::alloc::Global;

/// The word that a statement begins with.
#[derive(Clone, Copy)]
pub(crate) enum StatementWord {
    If,
    While,
    For,
    Return,
    Break,
    Continue,
}

/// Goes past the word that a statement begins with, where there is room.
pub(crate) fn statement_word(
    tokens: &[Token],
    at: &mut usize,
    room: u8,
) -> Reading<Option<StatementWord>>
    ensures { EntersStatement result room tokens.now at.old at.new }
{
    if *at >= tokens.len() {
        return Ok(None);
    }
    let token = &tokens[*at];
    let (word, least) = match token.kind {
        TokenKind::Keyword(Keyword::If) => (StatementWord::If, 2),
        TokenKind::Keyword(Keyword::While) => (StatementWord::While, 2),
        TokenKind::Keyword(Keyword::For) => (StatementWord::For, 2),
        TokenKind::Keyword(Keyword::Return) => (StatementWord::Return, 1),
        TokenKind::Keyword(Keyword::Break) => (StatementWord::Break, 1),
        TokenKind::Keyword(Keyword::Continue) => (StatementWord::Continue, 1),
        _ => return Ok(None),
    };
    if room < least {
        return Err(ReadingFault::Deep);
    }
    *at += 1;
    Ok(Some(word))
}

/// The condition of an `if` or a `while`, with its parentheses.
#[tactic(auto, using(crate::proofs::WordSteps::condition_opens, crate::proofs::WordSteps::condition_ends, crate::proofs::WordSteps::condition_stuck, crate::proofs::Steps::fixed_stuck))]
pub(crate) fn condition(alloc: Global, tokens: &[Token], at: &mut usize) -> Reading<Expr>
    requires there { IsPlace tokens.now at.old }
    ensures reads { ReadsCondition result (from tokens.now at.old) (from tokens.now at.new) }
    ensures placed { IsConditionPlaced result tokens.now at.old at.new }
    ensures onward { GoesOn tokens.now at.old at.new }
{
    expect(tokens, at, Punctuator::OpenParenthesis)?;
    let piece = binary(alloc, tokens, at, 1, 64)?;
    let piece = expect_behind(tokens, at, piece, Punctuator::CloseParenthesis)?;
    Ok(piece.expr)
}
