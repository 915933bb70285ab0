// What there is to be said of a program's modes.

use crate::error::ModeError;
use sharc_tree::token::Span;

/// What is to be said of a construct.
#[derive(Drop)]
pub enum Finding {
    /// A case arises.
    Wrong(ModeError),
    /// A lock path names the variable or the global that this token declares.
    Names(u32),
    /// A cast or `free` takes what the variable or the global refers to that the token declares. The span is that of
    /// its lvalue.
    Takes(Span, u32),
}
