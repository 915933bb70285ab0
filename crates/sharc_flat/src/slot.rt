// The variables in scope, and how lvalues are written.

use sharc_tree::token::Span;

/// A variable in scope, given by the token that declares it.
#[derive(Clone, Copy)]
pub struct Slot {
    pub token: u32,
    pub is_pointer: bool,
}

/// How an lvalue is written: its tokens, the first of them that is no parenthesis around it, and whether it is a simple
/// place.
#[derive(Clone, Copy)]
pub struct Lvalue {
    pub words: Span,
    pub bare: u32,
    pub is_simple: bool,
}
