//! The state of a thread between two turns.

use sharc_heap::{Kind, NewState};
use sharc_tree::trap::Trap;

/// How many frames there may be.
pub const FRAMES: usize = 256;

/// What the last turn was, and whether another may come.
#[derive(Clone, Copy)]
pub enum TurnState {
    /// An event.
    Runs,
    /// A failed try.
    Tries,
    /// A report, or a stop.
    Stopped,
    /// The last event.
    Ended,
}

/// Where a thread is: the place in the code, the first register of its frame in each bank, and how many frames there
/// are.
#[derive(Clone, Copy)]
pub struct At {
    pub pc: usize,
    pub ints: u32,
    pub refs: u32,
    pub depth: u32,
    pub state: TurnState,
}

/// A caller's place, and the first registers of its frame.
#[derive(Clone, Copy)]
pub struct Frame {
    pub pc: usize,
    pub ints: u32,
    pub refs: u32,
}

/// How far an instruction of several turns has come, by its next word operation.
#[derive(Clone, Copy)]
pub enum Stage {
    /// The first.
    Rests,
    /// Clear: the Load of the shadow word of this data granule, of this many.
    Looks(u64, u64),
    /// Clear: the Swap of it, where this was found.
    Clears(u64, u64, u64),
    /// New: what its state asks for.
    Makes(NewState),
    /// Free: the Swap to 0 of this pointer cell, of an object with this many elements.
    Empties(u64, u64),
    /// Free: the Lower of the reference that was found in it.
    Lowers(u64, u64, u64),
    /// Free: the Load of the shadow word of this data granule.
    FreeLooks(u64, u64),
    /// Free: the Swap of it, where this was found.
    FreeClears(u64, u64, u64),
    /// Free: the Swap of the count.
    Uncounts(u64),
    /// Free: the Swap of the length.
    Links(u64),
    /// Spawn: the Swap of the function of this thread.
    Names(u32),
    /// Spawn: the Swap of its argument.
    Hands(u32),
    /// Spawn: the Swap of its state.
    Begins(u32),
    /// Start: the Load of the argument, for this function.
    Enters(u64),
    /// Exit: the Load of the shadow word of the granule in this row of the access table.
    Withdraws(u32),
    /// Exit: the Cas of it, where this was found.
    WithdrawsFrom(u32, u64),
    /// Exit: the Swap of the state to 3.
    Leaves,
    /// CondSignal: the Cas of the cell, where this was found.
    Wakes(u64),
}

/// A check that found a conflict: its kind and site, the granule with its epoch, and the word found.
#[derive(Clone, Copy)]
pub struct ConflictAt {
    pub kind: Kind,
    pub site: u32,
    pub granule: u32,
    pub epoch: u32,
    pub old: u64,
}

/// Why a thread stopped.
#[derive(Clone, Copy)]
pub enum Stop {
    /// A1 or A2.
    Conflict(ConflictAt),
    /// A3: the site, and the mutex's word.
    NoLock(u32, u32),
    /// A4: the site, and the count.
    NotSole(u32, u64),
    /// X1 to X13: the trap, and its site.
    Trap(Trap, u32),
}

/// What a thread's next turn asks for that it may have to wait for, with the site.
#[derive(Clone, Copy)]
pub enum Wait {
    /// The mutex in this word.
    Mutex(u32, u32),
    /// The end of the thread of this number.
    Join(u32, u32),
    /// That the thread is no waiter in this word.
    Cond(u32, u32),
}

/// A print: its place in the order of all, and its value.
#[derive(Clone, Copy)]
pub struct Print {
    pub place: u64,
    pub value: i64,
}
