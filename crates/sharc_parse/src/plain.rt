// Reading the statements that hold no other.

ghost use Rattle.std.specs.Prelude.{◌≤◌};
ghost use Rattle.sharc_parse.specs.{Goes.from, Lines.is_yes, Statements.{ReadsLineStatement, BuildsStatement}};
ghost use Rattle.sharc_parse.specs.Statements.{line_statement, ReadsReturn, ReadsJump, EndsStatement};
ghost use Rattle.sharc_parse.specs.{Goes.{GoesOn, IsPlace}, Statements.{IsStatementPlaced, IsRestPlaced}};
ghost use Rattle.sharc_tree.specs.{Tree.return, View.{view_expr, view_option, view_first}};

use crate::head::tail;
use crate::line::{MayDeclare, line};
use crate::token::{Reading, expect, span};
use sharc_tree::token::{Punctuator, Span, Token};
use sharc_tree::tree::{Expr, ForFirst, Jump, Stmt};
use std::alloc::Global;

/// A statement of a line.
fn statement_of(alloc: Global, span: Span, line: ForFirst) -> Reading<Stmt>
    ensures { BuildsStatement result (line_statement span (view_first line)) }
{
    match line {
        ForFirst::Nothing => Ok(Stmt::Empty(span)),
        ForFirst::Declares(local) => Ok(Stmt::Declare(span, Box::new(alloc, local)?)),
        ForFirst::Does(simple) => Ok(Stmt::Simple(span, Box::new(alloc, simple)?)),
    }
}

/// A line as a statement.
#[tactic(auto, using(crate::proofs::PlainSteps::line_room, crate::proofs::PlainSteps::line_may))]
pub(crate) fn line_statement(
    alloc: Global,
    tokens: &[Token],
    at: &mut usize,
    declares: MayDeclare,
    room: u8,
) -> Reading<Stmt>
    requires room { room ≤ 64 }
    requires there { IsPlace tokens.now at.old }
    ensures reads { ReadsLineStatement (is_yes declares) room result (from tokens.now at.old) (from tokens.now at.new) }
    ensures ends { EndsStatement result (from tokens.now at.new) }
    ensures placed { IsStatementPlaced result tokens.now at.old at.new }
    ensures onward { GoesOn tokens.now at.old at.new }
{
    let first = *at;
    let line = line(alloc, tokens, at, declares, room)?;
    statement_of(alloc, span(tokens, first, *at), line)
}

/// What follows the word `break` or `continue`.
#[tactic(auto, using(crate::proofs::PlainSteps::jump_ends, crate::proofs::Steps::fixed_stuck))]
pub(crate) fn rest_of_jump(tokens: &[Token], at: &mut usize, jump: Jump) -> Reading<Stmt>
    requires behind { 1 ≤ at.old }
    requires there { IsPlace tokens.now at.old }
    ensures reads { ReadsJump jump result (from tokens.now at.old) (from tokens.now at.new) }
    ensures ends { EndsStatement result (from tokens.now at.new) }
    ensures placed { IsRestPlaced result tokens.now at.old at.new }
    ensures onward { GoesOn tokens.now at.old at.new }
{
    let first = *at - 1;
    expect(tokens, at, Punctuator::Semicolon)?;
    Ok(Stmt::Jump(span(tokens, first, *at), jump))
}

/// A `return` of what it gives.
fn return_of(alloc: Global, span: Span, given: Option<Expr>) -> Reading<Stmt>
    ensures { BuildsStatement result (return span (view_option view_expr given)) }
{
    let given = match given {
        Some(expr) => Some(Box::new(alloc, expr)?),
        None => None,
    };
    Ok(Stmt::Return(span, given))
}

/// What follows the word `return`.
#[tactic(auto, using(crate::proofs::PlainSteps::return_wrong, crate::proofs::PlainSteps::return_reads, crate::proofs::PlainSteps::return_placed))]
pub(crate) fn rest_of_return(alloc: Global, tokens: &[Token], at: &mut usize) -> Reading<Stmt>
    requires behind { 1 ≤ at.old }
    requires there { IsPlace tokens.now at.old }
    ensures reads { ReadsReturn result (from tokens.now at.old) (from tokens.now at.new) }
    ensures ends { EndsStatement result (from tokens.now at.new) }
    ensures placed { IsRestPlaced result tokens.now at.old at.new }
    ensures onward { GoesOn tokens.now at.old at.new }
{
    let first = *at - 1;
    let given = tail(alloc, tokens, at)?;
    return_of(alloc, span(tokens, first, *at), given)
}
