// What a thread gives up.

use sharc_tree::event::CellAt;

/// References that are given up. An object is given by its number, NULL by 0.
#[derive(Clone, Copy, Drop)]
pub enum GivenUp {
    /// By a temporary, a variable or the log of held mutexes: a reference to this object.
    Released(u32),
    /// By this pointer cell: the reference that it held before its last write.
    Replaced(CellAt),
    /// By the pointer cells of this object, which is being freed: those that they hold.
    Emptied(u32),
}
