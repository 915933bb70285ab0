// Source events: what the threads of a program do that other threads can see.

use crate::listed::Listed;
use crate::token::Site;

/// An object with cells.
#[derive(Clone, Copy, PartialEq, Eq)]
pub enum Object {
    /// The global of this number, counted from 0 in source order.
    Global(u32),
    /// The object that a `malloc` made under this number.
    Made(u32),
}

/// A cell of an object, counted from 0 over all its elements.
#[derive(Clone, Copy, PartialEq, Eq)]
pub struct CellAt {
    pub object: Object,
    pub cell: u64,
}

/// The mode under which a cell is accessed. A lock is the mutex cell itself.
#[derive(Clone, Copy, PartialEq, Eq)]
pub enum CellMode {
    Private,
    Readonly,
    /// The mutex cell; none only where a new or given object's lock path names no mutex.
    Locked(Option<CellAt>),
    Racy,
    Dynamic,
}

/// What a sharing cast or `free` nulls.
#[derive(Clone, Copy, PartialEq, Eq)]
pub enum Taken {
    /// A cell, with its mode.
    Cell(CellAt, CellMode),
    /// The local variable of this number.
    Local(u32),
}

/// What a reference is taken for.
#[derive(Clone, Copy, PartialEq, Eq)]
pub enum TakeKind {
    Cast,
    Free,
}

/// What an event does. A reference is written as its object's number plus 2^32 times its number of elements, and NULL
/// as 0.
#[derive(Clone, Copy, PartialEq, Eq)]
pub enum Act {
    /// Reads the cell; answers the value.
    Read(CellAt, CellMode),
    /// Writes the value to the cell.
    Write(CellAt, CellMode, i64),
    /// Makes an object: the cells of one element, the elements, the mode; answers the reference.
    New(u64, u64, CellMode),
    /// Nulls a place; answers the reference taken.
    Take(Taken, TakeKind),
    /// Gives the reference its new mode.
    Give(i64, CellMode),
    /// Frees the object of the reference.
    Freed(i64),
    /// Locks the mutex cell.
    Lock(CellAt),
    /// Unlocks the mutex cell.
    Unlock(CellAt),
    /// Starts a thread with the function of this number and the argument; answers the thread's number.
    Spawn(u32, i64),
    /// The thread starts with the argument.
    Started(i64),
    /// Has seen that the thread of this number is gone.
    Join(i64),
    /// Prints the value.
    Print(i64),
    /// The thread's function returns.
    Return,
    /// The thread is gone.
    Gone,
    /// Becomes a waiter of the condition's cell.
    Enter(CellAt),
    /// Goes on, being no waiter of the condition's cell.
    Woken(CellAt),
    /// Takes the lowest waiter away; answers its number plus 1, or 0 where there is none.
    Signal(CellAt),
    /// Takes all waiters away.
    Broadcast(CellAt),
}

/// An event of a thread. The answer is 0 where the act names none.
#[derive(Clone, Copy, PartialEq, Eq)]
pub struct SourceEvent {
    pub thread: u32,
    pub site: Site,
    pub answer: i64,
    pub act: Act,
}

/// A list of events in their order.
pub type SourceEvents = Listed<SourceEvent>;
