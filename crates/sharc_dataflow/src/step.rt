// Code, written down step by step.

/// What is done with a variable, where control goes, or how pieces are put together. A variable is a number; a read and
/// a nulling have their token.
#[derive(Clone, Copy, Drop)]
pub enum Step {
    /// The variable is read at the token.
    Read(u32, u32),
    /// The variable is nulled at the token.
    Null(u32, u32),
    /// The variable is written.
    Write(u32),
    /// Control goes to what follows the innermost loop.
    Break,
    /// Control goes to the end of the innermost piece between `Catch` and `Caught`.
    Continue,
    /// Control leaves the code.
    Return,
    /// One of two pieces begins, which are separated by `Other` and ended by `Join`.
    Fork,
    Other,
    Join,
    /// A piece begins whose continue leads to its end, at `Caught`.
    Catch,
    Caught,
    /// A piece begins that is gone through again and again until a break, from `Head` to `Again`.
    Head,
    Again,
}
