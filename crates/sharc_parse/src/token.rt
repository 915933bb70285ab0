// Going past single tokens.

ghost use Rattle.std.specs.Prelude.{◌≡◌, ℕ, ◌+◌, ◌<◌, ◌≤◌, ◌^◌};
ghost use Rattle.sharc_parse.specs.{Grammar.{mark, keyword, strength}, Places.{site_in, span_at}};
ghost use Rattle.sharc_parse.specs.{declared.token.ReadingFault.TheVariants.Memory, Goes.{Takes, Expects, TakesName}};
ghost use Rattle.sharc_parse.specs.Goes.{TakesConstant, from, Meets, EntersAccess, Enters, EntersUnary, EntersFront};
ghost use Rattle.sharc_parse.specs.Goes.{IsOperator, EntersOperator};

use sharc_tree::token::{Keyword, Punctuator, Site, Span, Token, TokenKind};
use sharc_tree::tree::{
    BinaryOperator, Constant, Expr, FieldOperator, Identifier, PlaceCall, UnaryOperator, ValueCall,
};
use std::alloc::{AllocError, AllocFailed, Global};

/// Why reading ends early, at the token where it then is.
#[derive(Drop)]
pub enum ReadingFault {
    /// No memory.
    Memory,
    /// No program goes on with the token.
    Wrong,
    /// No program within the limits goes on with it.
    Deep,
}

/// What was read, or why reading ended early.
pub(crate) type Reading<T> = Result<T, ReadingFault>;

impl From<AllocError> for ReadingFault {
    ghost from_gives = { λ _ e. e ≡ Memory };

    fn from(_e: AllocError) -> ReadingFault {
        ReadingFault::Memory
    }
}

impl<T: Drop> From<AllocFailed<T>> for ReadingFault {
    ghost from_gives = { λ _ e. e ≡ Memory };

    fn from(_e: AllocFailed<T>) -> ReadingFault {
        ReadingFault::Memory
    }
}

/// An expression and its height.
#[derive(Drop)]
pub(crate) struct ParsedExpr {
    pub(crate) expr: Expr,
    pub(crate) height: u8,
}

/// What an expression that a `)` ends begins with.
#[derive(Clone, Copy)]
pub(crate) enum FrontWord {
    Parenthesis,
    Spawn,
    Value(ValueCall),
    Place(PlaceCall),
    Cast,
}

/// The place of token number `n`.
pub(crate) fn site(tokens: &[Token], n: usize) -> Site
    requires { n ≤ 2 ^ 20 }
    ensures { result ≡ site_in tokens.now n }
{
    if n < tokens.len() {
        let token = &tokens[n];
        Site {
            file: token.file,
            line: token.line,
            token: n as u32,
        }
    } else {
        Site {
            file: 0,
            line: 0,
            token: n as u32,
        }
    }
}

/// The tokens from number `first` to the one before `until`.
pub(crate) fn span(tokens: &[Token], first: usize, until: usize) -> Span
    requires order { first < until }
    requires few { until ≤ 2 ^ 20 }
    ensures { (length : ℕ) → until ≡ first + length → result ≡ span_at (site_in tokens.now) first length }
{
    Span {
        first: site(tokens, first),
        last: site(tokens, until - 1),
    }
}

/// Goes past the token if it is that punctuator.
pub(crate) fn take(tokens: &[Token], at: &mut usize, punctuator: Punctuator) -> bool
    ensures { Takes result (mark punctuator) tokens.now at.old at.new }
{
    if *at >= tokens.len() {
        return false;
    }
    let token = &tokens[*at];
    match token.kind {
        TokenKind::Punctuator(found) if found == punctuator => {
            *at += 1;
            true
        }
        _ => false,
    }
}

/// Goes past a token that has to be that punctuator.
pub(crate) fn expect(tokens: &[Token], at: &mut usize, punctuator: Punctuator) -> Reading<()>
    ensures { Expects result (mark punctuator) tokens.now at.old at.new }
{
    if take(tokens, at, punctuator) {
        Ok(())
    } else {
        Err(ReadingFault::Wrong)
    }
}

/// Goes past the token if it is that keyword.
pub(crate) fn take_keyword(tokens: &[Token], at: &mut usize, word: Keyword) -> bool
    ensures { Takes result (keyword word) tokens.now at.old at.new }
{
    if *at >= tokens.len() {
        return false;
    }
    let token = &tokens[*at];
    match token.kind {
        TokenKind::Keyword(found) if found == word => {
            *at += 1;
            true
        }
        _ => false,
    }
}

/// Goes past a token that has to be that keyword.
pub(crate) fn expect_keyword(tokens: &[Token], at: &mut usize, word: Keyword) -> Reading<()>
    ensures { Expects result (keyword word) tokens.now at.old at.new }
{
    if take_keyword(tokens, at, word) {
        Ok(())
    } else {
        Err(ReadingFault::Wrong)
    }
}

/// Goes past the token if it is that punctuator and there is room.
pub(crate) fn enter(
    tokens: &[Token],
    at: &mut usize,
    punctuator: Punctuator,
    room: u8,
) -> Reading<bool>
    ensures { Enters result (mark punctuator) room tokens.now at.old at.new }
{
    if *at >= tokens.len() {
        return Ok(false);
    }
    let token = &tokens[*at];
    match token.kind {
        TokenKind::Punctuator(found) if found == punctuator => {
            if room == 0 {
                return Err(ReadingFault::Deep);
            }
            *at += 1;
            Ok(true)
        }
        _ => Ok(false),
    }
}

/// Goes past a name.
pub(crate) fn name(alloc: Global, tokens: &[Token], at: &mut usize) -> Reading<Option<Identifier>>
    requires { at.old ≤ 2 ^ 20 }
    ensures { TakesName result tokens.now at.old at.new }
{
    if *at >= tokens.len() {
        return Ok(None);
    }
    let token = &tokens[*at];
    match token.kind {
        TokenKind::Identifier => {
            let text = token.text.copy(alloc)?;
            let site = site(tokens, *at);
            *at += 1;
            Ok(Some(Identifier { site, text }))
        }
        _ => Ok(None),
    }
}

/// Goes past a constant.
pub(crate) fn constant(tokens: &[Token], at: &mut usize) -> Option<Constant>
    ensures { TakesConstant result tokens.now at.old at.new }
{
    if *at >= tokens.len() {
        return None;
    }
    let token = &tokens[*at];
    let constant = match token.kind {
        TokenKind::Number(number) => Constant::Number(number),
        TokenKind::Character(byte) => Constant::Character(byte),
        TokenKind::Keyword(Keyword::Null) => Constant::Null,
        _ => return None,
    };
    *at += 1;
    Some(constant)
}

/// Goes past an operator before an operand, where there is room.
pub(crate) fn unary_operator(
    tokens: &[Token],
    at: &mut usize,
    room: u8,
) -> Reading<Option<UnaryOperator>>
    ensures { EntersUnary result room tokens.now at.old at.new }
{
    if *at >= tokens.len() {
        return Ok(None);
    }
    let token = &tokens[*at];
    let operator = match token.kind {
        TokenKind::Punctuator(Punctuator::Minus) => UnaryOperator::Negate,
        TokenKind::Punctuator(Punctuator::Exclamation) => UnaryOperator::Not,
        TokenKind::Punctuator(Punctuator::Tilde) => UnaryOperator::Complement,
        TokenKind::Punctuator(Punctuator::Star) => UnaryOperator::Dereference,
        _ => return Ok(None),
    };
    if room == 0 {
        return Err(ReadingFault::Deep);
    }
    *at += 1;
    Ok(Some(operator))
}

/// How tightly an operator binds.
pub(crate) fn strength_of(operator: BinaryOperator) -> u8
    ensures { result ≡ strength operator }
{
    match operator {
        BinaryOperator::LogicalOr => 1,
        BinaryOperator::LogicalAnd => 2,
        BinaryOperator::BitOr => 3,
        BinaryOperator::BitXor => 4,
        BinaryOperator::BitAnd => 5,
        BinaryOperator::Equal | BinaryOperator::NotEqual => 6,
        BinaryOperator::Less | BinaryOperator::Greater => 7,
        BinaryOperator::LessOrEqual | BinaryOperator::GreaterOrEqual => 7,
        BinaryOperator::ShiftLeft | BinaryOperator::ShiftRight => 8,
        BinaryOperator::Add | BinaryOperator::Subtract => 9,
        BinaryOperator::Multiply | BinaryOperator::Divide | BinaryOperator::Remainder => 10,
    }
}

/// The operator between two operands that a punctuator is.
fn operator_of(punctuator: Punctuator) -> Option<BinaryOperator>
    ensures { IsOperator result punctuator }
{
    match punctuator {
        Punctuator::OrOr => Some(BinaryOperator::LogicalOr),
        Punctuator::AndAnd => Some(BinaryOperator::LogicalAnd),
        Punctuator::Bar => Some(BinaryOperator::BitOr),
        Punctuator::Caret => Some(BinaryOperator::BitXor),
        Punctuator::Ampersand => Some(BinaryOperator::BitAnd),
        Punctuator::Equal => Some(BinaryOperator::Equal),
        Punctuator::NotEqual => Some(BinaryOperator::NotEqual),
        Punctuator::Less => Some(BinaryOperator::Less),
        Punctuator::Greater => Some(BinaryOperator::Greater),
        Punctuator::LessOrEqual => Some(BinaryOperator::LessOrEqual),
        Punctuator::GreaterOrEqual => Some(BinaryOperator::GreaterOrEqual),
        Punctuator::ShiftLeft => Some(BinaryOperator::ShiftLeft),
        Punctuator::ShiftRight => Some(BinaryOperator::ShiftRight),
        Punctuator::Plus => Some(BinaryOperator::Add),
        Punctuator::Minus => Some(BinaryOperator::Subtract),
        Punctuator::Star => Some(BinaryOperator::Multiply),
        Punctuator::Slash => Some(BinaryOperator::Divide),
        Punctuator::Percent => Some(BinaryOperator::Remainder),
        _ => None,
    }
}

/// Goes past an operator that binds at least as tightly as that, where there is room.
pub(crate) fn operator(
    tokens: &[Token],
    at: &mut usize,
    least: u8,
    room: u8,
) -> Reading<Option<BinaryOperator>>
    requires { 1 ≤ least }
    ensures { EntersOperator result least room tokens.now at.old at.new }
{
    if *at >= tokens.len() {
        return Ok(None);
    }
    let token = &tokens[*at];
    let TokenKind::Punctuator(punctuator) = token.kind else {
        return Ok(None);
    };
    let Some(operator) = operator_of(punctuator) else {
        return Ok(None);
    };
    if strength_of(operator) < least {
        return Ok(None);
    }
    if room == 0 {
        return Err(ReadingFault::Deep);
    }
    *at += 1;
    Ok(Some(operator))
}

/// Goes past the first word of an expression that a `)` ends, where there is room.
pub(crate) fn front_word(tokens: &[Token], at: &mut usize, room: u8) -> Reading<Option<FrontWord>>
    ensures { EntersFront result room tokens.now at.old at.new }
{
    if *at >= tokens.len() {
        return Ok(None);
    }
    let token = &tokens[*at];
    let word = match token.kind {
        TokenKind::Punctuator(Punctuator::OpenParenthesis) => FrontWord::Parenthesis,
        TokenKind::Keyword(Keyword::Spawn) => FrontWord::Spawn,
        TokenKind::Keyword(Keyword::Join) => FrontWord::Value(ValueCall::Join),
        TokenKind::Keyword(Keyword::Print) => FrontWord::Value(ValueCall::Print),
        TokenKind::Keyword(Keyword::Lock) => FrontWord::Place(PlaceCall::Lock),
        TokenKind::Keyword(Keyword::Unlock) => FrontWord::Place(PlaceCall::Unlock),
        TokenKind::Keyword(Keyword::Free) => FrontWord::Place(PlaceCall::Free),
        TokenKind::Keyword(Keyword::Scast) => FrontWord::Cast,
        _ => return Ok(None),
    };
    if room == 0 {
        return Err(ReadingFault::Deep);
    }
    *at += 1;
    Ok(Some(word))
}

/// Whether the next token is that punctuator.
pub(crate) fn is_at(tokens: &[Token], at: usize, punctuator: Punctuator) -> bool
    ensures { Meets result (mark punctuator) (from tokens.now at) }
{
    if at >= tokens.len() {
        return false;
    }
    let token = &tokens[at];
    match token.kind {
        TokenKind::Punctuator(found) if found == punctuator => true,
        _ => false,
    }
}

/// Goes past `.` or `->`, where there is room.
pub(crate) fn access(tokens: &[Token], at: &mut usize, room: u8) -> Reading<Option<FieldOperator>>
    ensures { EntersAccess result room tokens.now at.old at.new }
{
    if *at >= tokens.len() {
        return Ok(None);
    }
    let token = &tokens[*at];
    let access = match token.kind {
        TokenKind::Punctuator(Punctuator::Dot) => FieldOperator::Dot,
        TokenKind::Punctuator(Punctuator::Arrow) => FieldOperator::Arrow,
        _ => return Ok(None),
    };
    if room == 0 {
        return Err(ReadingFault::Deep);
    }
    *at += 1;
    Ok(Some(access))
}
