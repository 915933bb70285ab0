//! From bytes to a program with its modes.

ghost use Rattle.std.specs.Prelude.{◌≤◌, length};
ghost use Rattle.sharc_front_end.specs.Front.{Types, Fronts};

use sharc_ctype::typed::{TypeFault, Typed, type_program};
use sharc_infer::infer;
use sharc_lex::{LexFault, lex};
use sharc_mode::moded::Moded;
use sharc_parse::grammar_laws::programs_are_placed;
use sharc_parse::{ParseFault, parse};
use sharc_reach::{Reached, reach};
use sharc_report::SourceFault;
use std::alloc::{AllocError, Global};

/// Why a source is no program with its modes. Whether these are accepted is not looked at.
#[derive(Drop)]
pub enum Refusal {
    /// The first fault of the first stage that has one.
    Source(SourceFault),
    /// Memory was wanting.
    Memory,
}

/// A program with its modes, and what threads reach in it.
#[derive(Drop)]
pub struct ReachedProgram {
    pub program: Moded,
    pub reached: Reached,
}

/// The typed program of a source.
fn typed(alloc: Global, source: &[u8]) -> Result<Typed, Refusal>
    requires { length source.now ≤ 1_048_576 }
    ensures { Types source.now result }
{
    let tokens = match lex(alloc, source) {
        Ok(tokens) => tokens,
        Err(LexFault::At(at)) => return Err(Refusal::Source(SourceFault::Lexer(at))),
        Err(LexFault::Memory) => return Err(Refusal::Memory),
    };
    let program = match parse(alloc, tokens) {
        Ok(program) => program,
        Err(ParseFault::At(at, _)) => return Err(Refusal::Source(SourceFault::Parser(at))),
        Err(ParseFault::Memory) => return Err(Refusal::Memory),
    };
    programs_are_placed();
    match type_program(alloc, program) {
        Ok(typed) => {
            let _resolved = typed.program();
            Ok(typed)
        }
        Err(TypeFault::At(at)) => Err(Refusal::Source(SourceFault::Typing(at))),
        Err(TypeFault::Memory) => Err(Refusal::Memory),
    }
}

/// The program that a source is, with the least assignment of modes and with what threads reach in it, or the first
/// fault of the first stage that has one.
pub fn front(alloc: Global, source: &[u8]) -> Result<ReachedProgram, Refusal>
    requires { length source.now ≤ 1_048_576 }
    ensures { Fronts source.now result }
{
    let typed = typed(alloc, source)?;
    let Ok(reached) = reach(alloc, &typed) else {
        return Err(Refusal::Memory);
    };
    match infer(alloc, typed, &reached) {
        Ok(program) => Ok(ReachedProgram { program, reached }),
        Err(_) => Err(Refusal::Memory),
    }
}
