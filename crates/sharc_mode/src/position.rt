// Positions, and why they are dynamic.

use sharc_tree::ctype::Mode;
use sharc_tree::listed::Listed;

/// A level of the type of a local, parameter, result, global, cast or field: a pointer's target, or the top of a
/// global.
#[derive(Clone, Copy)]
pub struct Position {
    /// The token of the declared name, of a cast the token `SCAST`.
    pub entity: u32,
    /// 0 for the top, 1 for the target, and so on.
    pub depth: u32,
}

/// Why a position without a written mode is dynamic.
#[derive(Clone, Copy, PartialEq, Eq)]
pub enum Reason {
    /// It is the top of a global that this function names, the first one that threads may run.
    Touched(u32),
    /// It is the target of a parameter of this function, which is spawned.
    Spawned(u32),
    /// The position with this number, which is dynamic, is made equal to it or lies directly above it.
    From(u32),
}

/// The mode of each position, by its number.
pub type Modes = Listed<Mode>;

/// The reason of each position that was inferred to be dynamic, by its number.
pub type Reasons = Listed<Option<Reason>>;
