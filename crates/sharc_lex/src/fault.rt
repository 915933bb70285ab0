//! Why a source is no list of tokens.

ghost use Rattle.std.specs.Prelude.{◌≡◌, IfOk};
ghost use Rattle.sharc_lex.specs.{Faults.{digit_of, text_of}, declared.fault.LineFailure.TheVariants.Memory};

use sharc_tree::name::Name;
use sharc_tree::token::FaultAt;
use std::alloc::{AllocError, AllocFailed, Global};

/// What is wrong where a token or a line marker should be.
#[derive(Clone, Copy, Debug)]
pub enum TokenFault {
    /// L1: this byte begins no token.
    Byte(u8),
    /// L2: a digit begins no number.
    Number,
    /// L3: a `#` begins no line marker.
    Marker,
    /// L4: an identifier of more than 64 bytes.
    Identifier,
    /// L5: a quote begins no character constant.
    Character,
}

impl TokenFault {
    /// The digit of the code.
    pub fn digit(self) -> u8
        ensures { result ≡ digit_of self }
    {
        match self {
            TokenFault::Byte(_) => 1,
            TokenFault::Number => 2,
            TokenFault::Marker => 3,
            TokenFault::Identifier => 4,
            TokenFault::Character => 5,
        }
    }

    /// The byte that the fault prints, if it prints one.
    pub fn text(self, alloc: Global) -> Result<Name, AllocError>
        ensures { IfOk result (λ text. text ≡ text_of self) }
    {
        let mut text = Vec::new(alloc);
        if let TokenFault::Byte(byte) = self {
            text.push(byte)?;
        }
        Ok(Name::of(text))
    }
}

/// A fault at an offset of the source.
#[derive(Clone, Copy)]
pub struct LineFault {
    pub offset: usize,
    pub fault: TokenFault,
}

/// Where a line is.
#[derive(Clone, Copy)]
pub struct SourceLine {
    /// The file's place in the list of files.
    pub file: u32,
    pub line: u32,
}

/// Why a line was not read.
#[derive(Drop)]
pub enum LineFailure {
    At(LineFault),
    Memory,
}

impl From<AllocError> for LineFailure {
    ghost from_gives = { λ _ e. e ≡ Memory };

    fn from(_error: AllocError) -> LineFailure {
        LineFailure::Memory
    }
}

impl<T: Drop> From<AllocFailed<T>> for LineFailure {
    ghost from_gives = { λ _ e. e ≡ Memory };

    fn from(_error: AllocFailed<T>) -> LineFailure {
        LineFailure::Memory
    }
}

/// Why a source was not read.
#[derive(Debug, Drop)]
pub enum LexFault {
    /// The first place at which the grammar of tokens does not read the source.
    At(FaultAt<TokenFault>),
    /// There was not enough memory.
    Memory,
}

impl From<AllocError> for LexFault {
    ghost use Rattle.sharc_lex.specs.declared.fault.LexFault.TheVariants.{Memory as OutOfMemory};

    ghost from_gives = { λ _ e. e ≡ OutOfMemory };

    fn from(_error: AllocError) -> LexFault {
        LexFault::Memory
    }
}
