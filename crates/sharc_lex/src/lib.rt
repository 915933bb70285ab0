//! The lexer: reads the bytes of a preprocessed source into tokens with their places.
//!
//! The layer above may use `lex`, `LexFault`, `TokenFault` and `is_keyword`. What `lex` answers is `reading` of
//! specs/Grammar.antt, the grammar of tokens: the lines of a source, line markers as GCC writes them, and on every
//! other line white space and tokens, each the longest that is there. What holds of every reading is `AreTokensOf` of
//! specs/Laws.antt: the tokens in order, each the slice of its span and the longest token there, with white space and
//! line markers alone between them, and each in the file and the line that specs/Lines.antt gives to its first byte.
//! `IsFaultIn` says the same of a fault. src/laws.rt has both without a call at hand.
#![tactic(auto)]

mod bytes;
mod characters;
mod fault;
mod files;
pub mod laws;
mod lines;
mod markers;
mod numbers;
mod punctuators;
mod reading;
mod token_at;
mod words;

pub use fault::{LexFault, TokenFault};
pub use reading::lex;
pub use words::is_keyword;
