// Reading a statement, and the statements between braces.

ghost use Rattle.std.specs.Prelude.{◌≤◌, ◌<◌, IfOk};
ghost use Rattle.sharc_tree.specs.{Tree.{if_then, if_then_else, while, for}, View.{view_expr, view_stmt, view_head}};
ghost use Rattle.sharc_parse.specs.{declared.word.StatementWord.TheVariants.{If, While, For}, Goes.from, Words.room_of};
ghost use Rattle.sharc_parse.specs.{Lines.is_yes, Statements.{BuildsStatement, ReadsStatement, EndsStatement}};
ghost use Rattle.sharc_parse.specs.{Statements.{IsStatementPlaced, IsRestPlaced}, Nested.{IsOpen, ReadsRest}};
ghost use Rattle.sharc_parse.specs.{Goes.{GoesOn, IsPlace}, Nested.{ReadsStatements, AreStatementsPlaced}};

use crate::head::head;
use crate::held::{box_beside, boxes};
use crate::line::MayDeclare;
use crate::plain::{line_statement, rest_of_jump, rest_of_return};
use crate::token::{Reading, enter, span, take, take_keyword};
use crate::word::{StatementWord, condition, statement_word};
use sharc_tree::held::both;
use sharc_tree::token::{Keyword, Punctuator, Span, Token};
use sharc_tree::tree::{Expr, ForHead, Jump, Stmt};
use std::alloc::Global;

/// An `if` without `else`.
fn if_of(alloc: Global, span: Span, test: Expr, then: Stmt) -> Reading<Stmt>
    ensures { BuildsStatement result (if_then span (view_expr test) (view_stmt then)) }
{
    let (test, then) = boxes(alloc, test, then)?;
    Ok(Stmt::If(span, test, then))
}

/// An `if` with its `else`.
fn else_of(alloc: Global, span: Span, test: Expr, then: Stmt, otherwise: Stmt) -> Reading<Stmt>
    ensures { BuildsStatement result (if_then_else span (view_expr test) (view_stmt then) (view_stmt otherwise)) }
{
    let (test, branches) = both(test, boxes(alloc, then, otherwise))?;
    let (test, (then, otherwise)) = box_beside(alloc, test, branches)?;
    Ok(Stmt::IfElse {
        span,
        test,
        then,
        otherwise,
    })
}

/// A `while`.
fn while_of(alloc: Global, span: Span, test: Expr, body: Stmt) -> Reading<Stmt>
    ensures { BuildsStatement result (while span (view_expr test) (view_stmt body)) }
{
    let (test, body) = boxes(alloc, test, body)?;
    Ok(Stmt::While(span, test, body))
}

/// A `for`.
fn for_of(alloc: Global, span: Span, head: ForHead, body: Stmt) -> Reading<Stmt>
    ensures { BuildsStatement result (for span (view_head head) (view_stmt body)) }
{
    let (head, body) = boxes(alloc, head, body)?;
    Ok(Stmt::For(span, head, body))
}

/// A statement, or, where declarations may be written, a declaration and its `;`.
#[cycle(statement)]
#[tactic(auto, using(crate::proofs::NestedSteps::block_opens, crate::proofs::NestedSteps::block_deep, crate::proofs::NestedSteps::line_anywhere, crate::proofs::WordSteps::word_goes, crate::proofs::WordSteps::word_over))]
pub(crate) fn statement(
    alloc: Global,
    tokens: &[Token],
    at: &mut usize,
    declares: MayDeclare,
    room: u8,
) -> Reading<Stmt>
    requires room { room ≤ 64 }
    requires there { IsPlace tokens.now at.old }
    requires open { IsOpen (is_yes declares) (from tokens.now at.old) }
    ensures reads { ReadsStatement (is_yes declares) room result (from tokens.now at.old) (from tokens.now at.new) }
    ensures ends { EndsStatement result (from tokens.now at.new) }
    ensures placed { IsStatementPlaced result tokens.now at.old at.new }
    ensures further { IfOk result (λ _. at.old < at.new) }
    ensures onward { GoesOn tokens.now at.old at.new }
{
    let first = *at;
    if enter(tokens, at, Punctuator::OpenBrace, room)? {
        let list = statements(alloc, tokens, at, room - 1)?;
        return Ok(Stmt::block(span(tokens, first, *at), list));
    }
    let Some(word) = statement_word(tokens, at, room)? else {
        return line_statement(alloc, tokens, at, declares, room);
    };
    rest_of_statement(alloc, tokens, at, word, room)
}

/// What follows the first word of a statement.
#[cycle(statement)]
fn rest_of_statement(
    alloc: Global,
    tokens: &[Token],
    at: &mut usize,
    word: StatementWord,
    room: u8,
) -> Reading<Stmt>
    requires enough { room_of word ≤ room }
    requires room { room ≤ 64 }
    requires behind { 1 ≤ at.old }
    requires there { IsPlace tokens.now at.old }
    ensures reads { ReadsRest word room result (from tokens.now at.old) (from tokens.now at.new) }
    ensures ends { EndsStatement result (from tokens.now at.new) }
    ensures placed { IsRestPlaced result tokens.now at.old at.new }
    ensures onward { GoesOn tokens.now at.old at.new }
{
    match word {
        StatementWord::If => rest_of_if(alloc, tokens, at, room),
        StatementWord::While => rest_of_while(alloc, tokens, at, room),
        StatementWord::For => rest_of_for(alloc, tokens, at, room),
        StatementWord::Return => rest_of_return(alloc, tokens, at),
        StatementWord::Break => rest_of_jump(tokens, at, Jump::Break),
        StatementWord::Continue => rest_of_jump(tokens, at, Jump::Continue),
    }
}

/// What follows the word `if`.
#[cycle(statement)]
#[tactic(auto, using(crate::proofs::NestedSteps::else_goes, crate::proofs::NestedSteps::if_ends, crate::proofs::NestedSteps::else_ends))]
fn rest_of_if(alloc: Global, tokens: &[Token], at: &mut usize, room: u8) -> Reading<Stmt>
    requires two { 2 ≤ room }
    requires room { room ≤ 64 }
    requires behind { 1 ≤ at.old }
    requires there { IsPlace tokens.now at.old }
    ensures reads { ReadsRest If room result (from tokens.now at.old) (from tokens.now at.new) }
    ensures ends { EndsStatement result (from tokens.now at.new) }
    ensures placed { IsRestPlaced result tokens.now at.old at.new }
    ensures onward { GoesOn tokens.now at.old at.new }
{
    let first = *at - 1;
    let test = condition(alloc, tokens, at)?;
    let (test, then) = both(test, statement(alloc, tokens, at, MayDeclare::No, room - 1))?;
    if take_keyword(tokens, at, Keyword::Else) {
        let otherwise = statement(alloc, tokens, at, MayDeclare::No, room - 1);
        let ((test, then), otherwise) = both((test, then), otherwise)?;
        return else_of(alloc, span(tokens, first, *at), test, then, otherwise);
    }
    if_of(alloc, span(tokens, first, *at), test, then)
}

/// What follows the word `while`.
#[cycle(statement)]
#[tactic(auto, using(crate::proofs::NestedSteps::while_ends))]
fn rest_of_while(alloc: Global, tokens: &[Token], at: &mut usize, room: u8) -> Reading<Stmt>
    requires two { 2 ≤ room }
    requires room { room ≤ 64 }
    requires behind { 1 ≤ at.old }
    requires there { IsPlace tokens.now at.old }
    ensures reads { ReadsRest While room result (from tokens.now at.old) (from tokens.now at.new) }
    ensures ends { EndsStatement result (from tokens.now at.new) }
    ensures placed { IsRestPlaced result tokens.now at.old at.new }
    ensures onward { GoesOn tokens.now at.old at.new }
{
    let first = *at - 1;
    let test = condition(alloc, tokens, at)?;
    let (test, body) = both(test, statement(alloc, tokens, at, MayDeclare::No, room - 1))?;
    while_of(alloc, span(tokens, first, *at), test, body)
}

/// What follows the word `for`.
#[cycle(statement)]
#[tactic(auto, using(crate::proofs::NestedSteps::for_ends))]
fn rest_of_for(alloc: Global, tokens: &[Token], at: &mut usize, room: u8) -> Reading<Stmt>
    requires two { 2 ≤ room }
    requires room { room ≤ 64 }
    requires behind { 1 ≤ at.old }
    requires there { IsPlace tokens.now at.old }
    ensures reads { ReadsRest For room result (from tokens.now at.old) (from tokens.now at.new) }
    ensures ends { EndsStatement result (from tokens.now at.new) }
    ensures placed { IsRestPlaced result tokens.now at.old at.new }
    ensures onward { GoesOn tokens.now at.old at.new }
{
    let first = *at - 1;
    let head = head(alloc, tokens, at)?;
    let (head, body) = both(head, statement(alloc, tokens, at, MayDeclare::No, room - 1))?;
    for_of(alloc, span(tokens, first, *at), head, body)
}

/// The statements and declarations after a `{`, and the `}`.
#[cycle(statement)]
#[tactic(auto, using(crate::proofs::NestedSteps::first_statements, crate::proofs::NestedSteps::one_statement_more, crate::proofs::NestedSteps::statements_read))]
pub(crate) fn statements(
    alloc: Global,
    tokens: &[Token],
    at: &mut usize,
    room: u8,
) -> Reading<Vec<Stmt>>
    requires room { room < 64 }
    requires there { IsPlace tokens.now at.old }
    ensures reads { ReadsStatements (λ v. v.items) room result (from tokens.now at.old) (from tokens.now at.new) }
    ensures placed { AreStatementsPlaced (λ v. v.items) result tokens.now at.old at.new }
    ensures onward { GoesOn tokens.now at.old at.new }
{
    let mut list = Vec::new(alloc);
    while !take(tokens, at, Punctuator::CloseBrace) {
        let statement = statement(alloc, tokens, at, MayDeclare::Yes, room)?;
        list.push(statement)?;
    }
    Ok(list)
}
