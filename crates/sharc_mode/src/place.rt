// Where a type is written, as far as modes are concerned.

/// Where a type is written.
#[derive(Clone, Copy)]
pub enum Place {
    Global,
    Field,
    /// A local, a parameter or a cast.
    Local,
    Result,
}
