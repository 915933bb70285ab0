// Reading a program.

ghost use Rattle.std.specs.Prelude.{◌≡◌, ◌<◌, ◌≤◌, ◌^◌, All, length, drop, IfOk};
ghost use Rattle.sharc_parse.specs.{Goes.from, Programs.{Parses, ReadsItems, AreItemsPlaced, told_of, code_of}};
ghost use Rattle.sharc_parse.specs.Programs.{IsToldAt, Refuses, Completes};

use crate::fault::GrammarFault;
use crate::grammar_laws;
use crate::item::item;
use crate::token::{Reading, ReadingFault};
use sharc_tree::name::Name;
use sharc_tree::token::{FaultAt, Token, TokenKind, Tokens};
use sharc_tree::tree::{Item, Items, Program};
use std::alloc::{AllocError, Global};

/// Why tokens were not read.
#[derive(Drop)]
pub enum ParseFault {
    /// The first fault, and the tokens.
    At(FaultAt<GrammarFault>, Tokens),
    /// There was not enough memory.
    Memory,
}

impl From<AllocError> for ParseFault {
    ghost use Rattle.sharc_parse.specs.declared.program.ParseFault.TheVariants.{Memory as OutOfMemory};

    ghost from_gives = { λ _ e. e ≡ OutOfMemory };

    fn from(_error: AllocError) -> ParseFault {
        ParseFault::Memory
    }
}

/// The items of all the tokens.
#[tactic(auto, using(crate::proofs::ProgramSteps::no_items, crate::proofs::ProgramSteps::items_read))]
fn items(alloc: Global, tokens: &[Token], at: &mut usize) -> Reading<Vec<Item>>
    requires few { length tokens.now ≤ 2 ^ 20 }
    requires start { at.old ≡ 0 }
    ensures reads { ReadsItems (λ v. v.items) result tokens.now at.new }
    ensures placed { AreItemsPlaced (λ v. v.items) result tokens.now }
    ensures within { at.new ≤ length tokens.now }
{
    let mut items = Vec::new(alloc);
    while *at < tokens.len() {
        let item = item(alloc, tokens, at)?;
        items.push(item)?;
    }
    Ok(items)
}

/// What is wrong with a token.
#[derive(Clone, Copy)]
enum TokenRefusal {
    /// No program goes on with it.
    Wrong,
    /// No program within the limits goes on with it.
    Deep,
}

/// The fault at that token.
fn code_at(tokens: &[Token], at: usize, refusal: TokenRefusal) -> GrammarFault
    ensures { result ≡ code_of refusal (from tokens.now at) }
{
    if matches!(refusal, TokenRefusal::Deep) {
        return GrammarFault::Deep;
    }
    if at >= tokens.len() {
        return GrammarFault::Unexpected;
    }
    let token = &tokens[at];
    match token.kind {
        TokenKind::LeftOut => GrammarFault::LeftOut,
        _ => GrammarFault::Unexpected,
    }
}

/// What such a fault says of that token.
fn told_at(
    alloc: Global,
    tokens: &[Token],
    at: usize,
    code: GrammarFault,
) -> Result<Name, AllocError>
    ensures { IfOk result (λ text. text ≡ told_of code (drop at tokens.now)) }
{
    if matches!(code, GrammarFault::Deep) || at >= tokens.len() {
        return Ok(Name::of(Vec::new(alloc)));
    }
    let token = &tokens[at];
    token.text.copy(alloc)
}

/// The fault at that token, or at the end of input.
fn fault_at(
    alloc: Global,
    tokens: &Tokens,
    at: usize,
    refusal: TokenRefusal,
) -> Result<FaultAt<GrammarFault>, AllocError>
    requires files { All (λ t. t.file < length tokens.now.files) tokens.now.list }
    requires end_file { tokens.now.end.file < length tokens.now.files }
    ensures { IfOk result (λ fault. IsToldAt tokens.now fault at
        × (fault.code ≡ code_of refusal (from tokens.now.list at))) }
{
    let list = tokens.list.as_slice();
    let code = code_at(list, at, refusal);
    let text = told_at(alloc, list, at, code)?;
    let (file, line) = if at < list.len() {
        let token = &list[at];
        (token.file as usize, token.line)
    } else {
        (tokens.end.file as usize, tokens.end.line)
    };
    let file = tokens.files.at(file).copy(alloc)?;
    Ok(FaultAt {
        code,
        file,
        line,
        offset: 0,
        text,
    })
}

/// The refusal at that token, or at the end of input.
fn refuse(
    alloc: Global,
    tokens: Tokens,
    at: usize,
    refusal: TokenRefusal,
) -> Result<Program, ParseFault>
    requires files { All (λ t. t.file < length tokens.files) tokens.list }
    requires end_file { tokens.end.file < length tokens.files }
    ensures { Refuses result tokens at refusal }
{
    let fault = fault_at(alloc, &tokens, at, refusal)?;
    Err(ParseFault::At(fault, tokens))
}

/// The program of these items.
fn complete(alloc: Global, tokens: Tokens, items: Vec<Item>) -> Result<Program, ParseFault>
    ensures { Completes result tokens items.items }
{
    let files = tokens.files.copy(alloc)?;
    Ok(Program {
        files,
        items: Items::of(items),
        tokens,
    })
}

/// The program that the tokens are, exactly where the grammar reads all of them within the limits: 64 statements one
/// inside the other, expressions of height 64, and 8 stars in a type.
///
/// Else the fault is at the first token with which the tokens begin no such program. It is P1 where they begin no
/// program at all, or end too early, and P3 where that is so and the token is a word that C11 has and the language
/// leaves out. It is P2 where they begin a program, but none within the limits. The tokens are handed back with it.
#[tactic(auto, using(crate::proofs::ProgramSteps::stuck_there, crate::proofs::ProgramSteps::over_there, crate::proofs::ProgramSteps::parses_refused, crate::proofs::ProgramSteps::parses_complete))]
pub fn parse(alloc: Global, tokens: Tokens) -> Result<Program, ParseFault>
    requires few { length tokens.list ≤ 2 ^ 20 }
    requires files { All (λ t. t.file < length tokens.files) tokens.list }
    requires end_file { tokens.end.file < length tokens.files }
    ensures { Parses result tokens }
{
    grammar_laws::reads_only_within();
    grammar_laws::stuck_at_fault();
    grammar_laws::over_at_fault();
    let mut at = 0;
    match items(alloc, tokens.list.as_slice(), &mut at) {
        Ok(items) => complete(alloc, tokens, items),
        Err(ReadingFault::Wrong) => refuse(alloc, tokens, at, TokenRefusal::Wrong),
        Err(ReadingFault::Deep) => refuse(alloc, tokens, at, TokenRefusal::Deep),
        Err(ReadingFault::Memory) => Err(ParseFault::Memory),
    }
}
