// A cast that is to be written.

use sharc_tree::ctype::CType;
use sharc_tree::token::Site;
use std::alloc::AllocError;

/// What was written, if memory was not lacking.
pub type Rewritten<T> = Result<T, AllocError>;

/// A sharing cast that is to be written round the expression whose first and last token have these numbers. No token is
/// added: the cast and its type have the tokens of that expression.
#[derive(Drop)]
pub struct Recast {
    /// The number of the first token.
    pub from: u32,
    /// The number of the last token.
    pub until: u32,
    /// A token that names the base of the type.
    pub base: Site,
    /// The type.
    pub to: CType,
}
