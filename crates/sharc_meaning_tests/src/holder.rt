// What holds a reference.

use sharc_tree::event::CellAt;

/// One holder of a reference to an object.
#[derive(Clone, Copy, Drop)]
pub enum Holder {
    /// A pointer cell of a global or of a live object.
    InCell(CellAt),
    /// The argument of the thread of this number, which was spawned and has not started.
    InArgument(u64),
    /// A mutex of the object, which is held.
    InMutex(CellAt),
    /// A thread that has started: the thread, and which of the references that it holds to the object, counted from 0.
    InThread(u32, u64),
}
