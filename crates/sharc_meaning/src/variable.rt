// The variables of a call.

/// A parameter or a local, given by the token that declares it.
#[derive(Clone, Copy, Drop)]
pub struct Variable {
    pub token: u32,
    pub is_pointer: bool,
    pub value: i64,
}
