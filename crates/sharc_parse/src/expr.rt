// Reading an expression.

ghost use Rattle.std.specs.Prelude.{◌≡◌, ℕ, max, List, [], false, ◌<◌, ◌≤◌, ◌+◌, ◌-◌, IfOk};
ghost use Rattle.sharc_tree.specs.Tree as tree;
ghost use Rattle.sharc_tree.specs.{Tree.{binary, field, unary}, View.{view_expr, view_arguments}};
ghost use Rattle.sharc_parse.specs.{Grammar.{call, front_level}, Machine.{Cont, Have, Called, At, grip}};
ghost use Rattle.sharc_parse.specs.{Limits.{reads_within, depth, crowded, highest}, Places.{sizes, site_in, span_at}};
ghost use Rattle.sharc_parse.specs.{Goes.{GoesOn, IsPlace}, Places.arguments_at, View.{phrase_of, phrases_of}};
ghost use Rattle.sharc_parse.specs.{declared.token.FrontWord.TheVariants.{Spawn, Place}, Goes.{from, Goes, ReadsFrom}};
ghost use Rattle.sharc_parse.specs.Goes.{ReadsBehindName, IsHigh, IsPlaced, ReadsFront, IsFrontPlaced, NoUnary, NoCall};
ghost use Rattle.sharc_parse.specs.Goes.{Builds, front_tree, bare_front};

use crate::held::{box_beside, boxes, expect_behind};
use crate::token::{
    FrontWord, ParsedExpr, Reading, ReadingFault, access, constant, enter, expect, front_word,
    is_at, name, operator, site, span, strength_of, take, unary_operator,
};
use crate::types::cast_type;
use sharc_tree::held::both;
use sharc_tree::token::{Punctuator, Site, Span, Token};
use sharc_tree::tree::{
    BinaryOperator, Expr, FieldOperator, Identifier, PlaceCall, UnaryOperator, ValueCall,
    WrittenType,
};
use std::alloc::Global;

/// What comes before an expression that a `)` ends.
#[derive(Drop)]
pub(crate) enum Front {
    Parenthesis,
    Spawn(Identifier),
    Value(ValueCall),
    Place(PlaceCall),
    Cast(WrittenType),
}

/// `( name ,` after `spawn`.
fn spawn_front(alloc: Global, tokens: &[Token], at: &mut usize) -> Reading<Front>
    requires there { IsPlace tokens.now at.old }
    ensures reads { ReadsFront result Spawn (from tokens.now at.old) (from tokens.now at.new) }
    ensures placed { IsFrontPlaced result tokens.now at.old at.new }
    ensures onward { GoesOn tokens.now at.old at.new }
{
    expect(tokens, at, Punctuator::OpenParenthesis)?;
    let Some(function) = name(alloc, tokens, at)? else {
        return Err(ReadingFault::Wrong);
    };
    let function = expect_behind(tokens, at, function, Punctuator::Comma)?;
    Ok(Front::Spawn(function))
}

/// `( &` after `lock` and `unlock`, and `(` after `free`.
fn place_front(tokens: &[Token], at: &mut usize, call: PlaceCall) -> Reading<Front>
    requires there { IsPlace tokens.now at.old }
    ensures reads { ReadsFront result (Place call) (from tokens.now at.old) (from tokens.now at.new) }
    ensures placed { IsFrontPlaced result tokens.now at.old at.new }
    ensures onward { GoesOn tokens.now at.old at.new }
{
    match call {
        PlaceCall::Free => {
            expect(tokens, at, Punctuator::OpenParenthesis)?;
            Ok(Front::Place(PlaceCall::Free))
        }
        PlaceCall::Lock => {
            expect(tokens, at, Punctuator::OpenParenthesis)?;
            expect(tokens, at, Punctuator::Ampersand)?;
            Ok(Front::Place(PlaceCall::Lock))
        }
        PlaceCall::Unlock => {
            expect(tokens, at, Punctuator::OpenParenthesis)?;
            expect(tokens, at, Punctuator::Ampersand)?;
            Ok(Front::Place(PlaceCall::Unlock))
        }
    }
}

/// What follows the first word of an expression that a `)` ends, up to the expression inside.
fn rest_of_front(alloc: Global, tokens: &[Token], at: &mut usize, word: FrontWord) -> Reading<Front>
    requires there { IsPlace tokens.now at.old }
    ensures reads { ReadsFront result word (from tokens.now at.old) (from tokens.now at.new) }
    ensures placed { IsFrontPlaced result tokens.now at.old at.new }
    ensures onward { GoesOn tokens.now at.old at.new }
{
    match word {
        FrontWord::Parenthesis => Ok(Front::Parenthesis),
        FrontWord::Spawn => spawn_front(alloc, tokens, at),
        FrontWord::Value(call) => {
            expect(tokens, at, Punctuator::OpenParenthesis)?;
            Ok(Front::Value(call))
        }
        FrontWord::Place(call) => place_front(tokens, at, call),
        FrontWord::Cast => Ok(Front::Cast(cast_type(alloc, tokens, at)?)),
    }
}

fn binary_of(
    alloc: Global,
    span: Span,
    operator: BinaryOperator,
    site: Site,
    left: ParsedExpr,
    right: ParsedExpr,
) -> Reading<ParsedExpr>
    requires left { left.height < 64 }
    requires right { right.height < 64 }
    ensures { Builds result (binary span operator site (view_expr left.expr) (view_expr right.expr))
        (max left.height right.height + 1) }
{
    let height = left.height.max(right.height) + 1;
    let (left, right) = boxes(alloc, left.expr, right.expr)?;
    let expr = Expr::Binary {
        span,
        operator,
        site,
        left,
        right,
    };
    Ok(ParsedExpr { expr, height })
}

fn index_of(alloc: Global, span: Span, base: ParsedExpr, index: ParsedExpr) -> Reading<ParsedExpr>
    requires base { base.height < 64 }
    requires index { index.height < 64 }
    ensures { Builds result (tree.index span (view_expr base.expr) (view_expr index.expr))
        (max base.height index.height + 1) }
{
    let height = base.height.max(index.height) + 1;
    let (base, index) = boxes(alloc, base.expr, index.expr)?;
    let expr = Expr::Index(span, base, index);
    Ok(ParsedExpr { expr, height })
}

fn field_of(
    alloc: Global,
    span: Span,
    base: ParsedExpr,
    access: FieldOperator,
    name: Identifier,
) -> Reading<ParsedExpr>
    requires { base.height < 64 }
    ensures { Builds result (field span (view_expr base.expr) access name) (base.height + 1) }
{
    let height = base.height + 1;
    let (base, name) = box_beside(alloc, base.expr, name)?;
    let expr = Expr::Field {
        span,
        base,
        access,
        name,
    };
    Ok(ParsedExpr { expr, height })
}

fn unary_of(
    alloc: Global,
    span: Span,
    operator: UnaryOperator,
    operand: ParsedExpr,
) -> Reading<ParsedExpr>
    requires { operand.height < 64 }
    ensures { Builds result (unary span operator (view_expr operand.expr)) (operand.height + 1) }
{
    let expr = Expr::Unary(span, operator, Box::new(alloc, operand.expr)?);
    Ok(ParsedExpr {
        expr,
        height: operand.height + 1,
    })
}

fn front_of(alloc: Global, span: Span, front: Front, inner: ParsedExpr) -> Reading<ParsedExpr>
    requires { inner.height < 64 }
    ensures { Builds result (front_tree span front (view_expr inner.expr)) (inner.height + 1) }
{
    let height = inner.height + 1;
    let (inner, front) = box_beside(alloc, inner.expr, front)?;
    let expr = match front {
        Front::Parenthesis => Expr::Parentheses(span, inner),
        Front::Spawn(function) => Expr::Spawn(span, function, inner),
        Front::Value(call) => Expr::OnValue(span, call, inner),
        Front::Place(call) => Expr::OnPlace(span, call, inner),
        Front::Cast(written) => {
            let (written, inner) = box_beside(alloc, written, inner)?;
            Expr::Cast(span, written, inner)
        }
    };
    Ok(ParsedExpr { expr, height })
}

/// How tightly what follows it has to hold together.
fn least_of(front: &Front) -> u8
    ensures { result ≡ max 1 (front_level (bare_front front.now)) }
{
    match front {
        Front::Place(_) | Front::Cast(_) => 11,
        _ => 1,
    }
}

/// An expression whose operators bind at least as tightly as that.
#[cycle(expr)]
#[tactic(auto, using(crate::proofs::Steps::operator_goes, crate::proofs::Steps::operator_deep))]
pub(crate) fn binary(
    alloc: Global,
    tokens: &[Token],
    at: &mut usize,
    least: u8,
    room: u8,
) -> Reading<ParsedExpr>
    requires low { 1 ≤ least }
    requires high { least ≤ 11 }
    requires room { room ≤ 64 }
    requires there { IsPlace tokens.now at.old }
    ensures reads { ReadsFrom least room result (from tokens.now at.old) (from tokens.now at.new) }
    ensures height { IsHigh room result }
    ensures placed { IsPlaced result tokens.now at.old at.new }
    ensures grip { IfOk result (λ _. grip (from tokens.now at.new) < least) }
    ensures onward { GoesOn tokens.now at.old at.new }
{
    let first = *at;
    let mut left = unary(alloc, tokens, at, room)?;
    while let Some(op) = operator(tokens, at, least, room - left.height)? {
        let place = site(tokens, *at - 1);
        let right = binary(alloc, tokens, at, strength_of(op) + 1, room - 1)?;
        left = binary_of(alloc, span(tokens, first, *at), op, place, left, right)?;
    }
    Ok(left)
}

/// An operand with the operators before it.
#[cycle(expr)]
#[tactic(auto, using(crate::proofs::Steps::whole_unary, crate::proofs::Steps::unary_goes, crate::proofs::Steps::unary_deep))]
pub(crate) fn unary(
    alloc: Global,
    tokens: &[Token],
    at: &mut usize,
    room: u8,
) -> Reading<ParsedExpr>
    requires room { room ≤ 64 }
    requires there { IsPlace tokens.now at.old }
    ensures reads { ReadsFrom 11 room result (from tokens.now at.old) (from tokens.now at.new) }
    ensures height { IsHigh room result }
    ensures placed { IsPlaced result tokens.now at.old at.new }
    ensures grip { IfOk result (λ _. grip (from tokens.now at.new) ≤ 11) }
    ensures onward { GoesOn tokens.now at.old at.new }
{
    let first = *at;
    match unary_operator(tokens, at, room)? {
        Some(op) => {
            let operand = unary(alloc, tokens, at, room - 1)?;
            unary_of(alloc, span(tokens, first, *at), op, operand)
        }
        None => postfix(alloc, tokens, at, room),
    }
}

/// An operand with the indexes and fields after it.
#[cycle(expr)]
#[tactic(auto, using(crate::proofs::Steps::index_deep, crate::proofs::Steps::access_deep, crate::proofs::Steps::no_field, crate::proofs::Steps::no_call, crate::proofs::Steps::ends_postfix))]
fn postfix(alloc: Global, tokens: &[Token], at: &mut usize, room: u8) -> Reading<ParsedExpr>
    requires room { room ≤ 64 }
    requires there { IsPlace tokens.now at.old }
    requires prefix { NoUnary (from tokens.now at.old) }
    ensures reads { ReadsFrom 12 room result (from tokens.now at.old) (from tokens.now at.new) }
    ensures height { IsHigh room result }
    ensures placed { IsPlaced result tokens.now at.old at.new }
    ensures grip { IfOk result (λ _. grip (from tokens.now at.new) ≤ 11) }
    ensures onward { GoesOn tokens.now at.old at.new }
{
    let first = *at;
    let mut base = primary(alloc, tokens, at, room)?;
    loop {
        if enter(tokens, at, Punctuator::OpenBracket, room - base.height)? {
            let index = binary(alloc, tokens, at, 1, room - 1)?;
            expect(tokens, at, Punctuator::CloseBracket)?;
            base = index_of(alloc, span(tokens, first, *at), base, index)?;
        } else if let Some(access) = access(tokens, at, room - base.height)? {
            let Some(name) = name(alloc, tokens, at)? else {
                return Err(ReadingFault::Wrong);
            };
            base = field_of(alloc, span(tokens, first, *at), base, access, name)?;
        } else if is_at(tokens, *at, Punctuator::OpenParenthesis) {
            return Err(ReadingFault::Wrong);
        } else {
            return Ok(base);
        }
    }
}

/// The innermost part of an operand.
#[cycle(expr)]
#[tactic(auto, using(crate::proofs::Steps::front_goes, crate::proofs::Steps::front_deep, crate::proofs::Steps::no_operand, crate::proofs::Steps::front_missing))]
fn primary(alloc: Global, tokens: &[Token], at: &mut usize, room: u8) -> Reading<ParsedExpr>
    requires room { room ≤ 64 }
    requires there { IsPlace tokens.now at.old }
    requires prefix { NoUnary (from tokens.now at.old) }
    ensures reads { ReadsFrom 12 room result (from tokens.now at.old) (from tokens.now at.new) }
    ensures height { IsHigh room result }
    ensures placed { IsPlaced result tokens.now at.old at.new }
    ensures call { IfOk result (λ r. NoCall (phrase_of r.expr) (from tokens.now at.new)) }
    ensures onward { GoesOn tokens.now at.old at.new }
{
    let first = *at;
    if let Some(word) = front_word(tokens, at, room)? {
        let front = rest_of_front(alloc, tokens, at, word)?;
        let least = least_of(&front);
        let (front, inner) = both(front, binary(alloc, tokens, at, least, room - 1))?;
        let (front, inner) = expect_behind(
            tokens,
            at,
            (front, inner),
            Punctuator::CloseParenthesis,
        )?;
        front_of(alloc, span(tokens, first, *at), front, inner)
    } else if let Some(name) = name(alloc, tokens, at)? {
        name_or_call(alloc, tokens, at, first, name, room)
    } else if let Some(constant) = constant(tokens, at) {
        Ok(ParsedExpr {
            expr: Expr::Constant(span(tokens, first, *at), constant),
            height: 0,
        })
    } else {
        Err(ReadingFault::Wrong)
    }
}

/// The name that is token number `first`, or a call of it where a `(` follows.
#[cycle(expr)]
#[tactic(auto, using(crate::proofs::Steps::call_deep))]
fn name_or_call(
    alloc: Global,
    tokens: &[Token],
    at: &mut usize,
    first: usize,
    name: Identifier,
    room: u8,
) -> Reading<ParsedExpr>
    requires room { room ≤ 64 }
    requires behind { at.old ≡ first + 1 }
    requires there { IsPlace tokens.now at.old }
    requires named { name.site ≡ site_in tokens.now first }
    ensures reads { ReadsBehindName name.text room result (from tokens.now at.old) (from tokens.now at.new) }
    ensures height { IsHigh room result }
    ensures placed { IsPlaced result tokens.now first at.new }
    ensures call { IfOk result (λ r. NoCall (phrase_of r.expr) (from tokens.now at.new)) }
    ensures onward { GoesOn tokens.now at.old at.new }
{
    let (name, opens) = both(name, enter(tokens, at, Punctuator::OpenParenthesis, room))?;
    if opens {
        let (name, (arguments, highest)) = both(name, arguments(alloc, tokens, at, room - 1))?;
        Ok(ParsedExpr {
            expr: Expr::call(span(tokens, first, *at), name, arguments),
            height: highest + 1,
        })
    } else {
        Ok(ParsedExpr {
            expr: Expr::Identifier(span(tokens, first, *at), name),
            height: 0,
        })
    }
}

/// The arguments after `name (`, and the `)`; and the height of the highest.
#[cycle(expr)]
fn arguments(alloc: Global, tokens: &[Token], at: &mut usize, room: u8) -> Reading<(Vec<Expr>, u8)>
    requires room { room < 64 }
    requires there { IsPlace tokens.now at.old }
    ensures reads { (f : List ℕ) (k : Cont) → depth k + room + 1 ≡ 64 → crowded k ≡ false
        → Goes (λ r. phrases_of r.0.items) result (reads_within (from tokens.now at.old) (At [] (Called f k)))
        (λ v. reads_within (from tokens.now at.new) (At [] (Have (call f v) k))) (from tokens.now at.new) }
    ensures height { IfOk result (λ r. (r.1 ≡ highest (phrases_of r.0.items)) × (r.1 ≤ room)) }
    ensures placed { IfOk result
        (λ r. (view_arguments r.0.items ≡ arguments_at (site_in tokens.now) at.old (phrases_of r.0.items))
        × (at.new ≡ at.old + sizes (phrases_of r.0.items) + 1)) }
    ensures onward { GoesOn tokens.now at.old at.new }
{
    let mut arguments = Vec::new(alloc);
    let mut highest = 0;
    if take(tokens, at, Punctuator::CloseParenthesis) {
        return Ok((arguments, highest));
    }
    loop {
        let argument = binary(alloc, tokens, at, 1, room)?;
        highest = highest.max(argument.height);
        arguments.push(argument.expr)?;
        if take(tokens, at, Punctuator::CloseParenthesis) {
            return Ok((arguments, highest));
        }
        expect(tokens, at, Punctuator::Comma)?;
    }
}
