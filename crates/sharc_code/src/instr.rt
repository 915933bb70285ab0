//! Instructions. A register is a number within a frame, of one bank for integers and one for references.

/// The type in which an integer is computed or kept.
#[derive(Clone, Copy)]
pub enum Width {
    Char,
    Int,
    Long,
}

/// An operation on two integers (C11, 6.5.5 to 6.5.12).
#[derive(Clone, Copy)]
pub enum Operator {
    Add,
    Subtract,
    Multiply,
    Divide,
    Remainder,
    ShiftLeft,
    ShiftRight,
    And,
    Or,
    Xor,
    Equal,
    NotEqual,
    Less,
    Greater,
    AtMost,
    AtLeast,
}

/// A cell.
#[derive(Clone, Copy)]
pub enum Cell {
    /// Of the global of this number, the cell that has this number, counted from the first cell of granule 0.
    Global(u32, u32),
    /// The same, with the cell's number in this integer register.
    GlobalAt(u32, u32),
    /// Of the object in this reference register, the cell of this number.
    Object(u32, u32),
    /// The same, with the cell's number in this integer register.
    ObjectAt(u32, u32),
}

/// A register of either bank.
#[derive(Clone, Copy)]
pub enum Register {
    Int(u32),
    Reference(u32),
}

/// One instruction. Where a variant has a site, it is its last number; a register that is written comes first.
#[derive(Clone, Copy)]
pub enum Instr {
    // ---- registers alone
    /// To this integer register, this value.
    Constant(u32, i64),
    /// To this integer register, the value of that one.
    Move(u32, u32),
    /// To this reference register, the reference of that one, which is then NULL.
    MoveReference(u32, u32),
    /// This reference register is NULL.
    Null(u32),
    /// To this integer register, what the operator makes of the next two, as an `int`: it stops with X3 or X4.
    ComputeInt(Operator, u32, u32, u32, u32),
    /// The same as a `long`.
    ComputeLong(Operator, u32, u32, u32, u32),
    /// To this register, the negative of that one as an `int`: it stops with X4.
    NegateInt(u32, u32, u32),
    /// The same as a `long`.
    NegateLong(u32, u32, u32),
    /// To this register, all bits of that one turned.
    Complement(u32, u32),
    /// To this register, 1 where that one is 0, else 0.
    Not(u32, u32),
    /// To this integer register, 1 where these two reference registers are the same, else 0.
    SameReference(u32, u32, u32),
    /// Stops with X4 where the integer is none of this type.
    ChkWidth(Width, u32, u32),
    /// To this place.
    Jump(u32),
    /// To the place where this integer register is 0.
    JumpIfZero(u32, u32),
    /// To the place where this reference register is NULL.
    JumpIfNull(u32, u32),
    /// To this place, with frames that begin at these registers of the two banks: it stops with X10 where there are 256
    /// frames.
    Call(u32, u32, u32, u32),
    /// Back to the caller: at the thread's last return it stops with X11 where a mutex is held.
    Return(u32),
    /// Stops with X1 where this reference register is NULL.
    ChkNull(u32, u32),
    /// Stops with X5 where the mutex in this cell is not held.
    ChkHeld(Cell, u32),
    /// Stops with X6 where it is held.
    ChkNotHeld(Cell, u32),
    /// Stops with X12 where this integer register is below 1.
    ChkPositive(u32, u32),
    /// Stops with X13 where sixteen mutexes are held.
    ChkRoom(u32),
    /// Reports A3 where the mutex in this cell is not held, and stops with X1 where the cell is one of NULL.
    ChkLock(Cell, u32),
    /// The same of the mutex in the first cell of the object whose reference was loaded last.
    ChkLockLoaded(u32),
    // ---- cells
    /// This integer register holds an index of the object in that reference register, whose elements have this many
    /// cells; it becomes the number of this field of the element: it stops with X2 where there is no such element.
    Bounds(u32, u32, u32, u32, u32),
    /// The same for a global of this many elements; the field is counted from the first cell of granule 0.
    GlobalBounds(u32, u32, u32, u32, u32),
    /// The check of a read of this cell.
    ChkRead(Cell, u32),
    /// The check of a write.
    ChkWrite(Cell, u32),
    /// To this integer register, the value of the cell.
    Load(u32, Cell, u32),
    /// To this cell, the value of this integer register.
    Store(u32, Cell, u32),
    /// The reference in this cell is loaded, and not yet counted.
    LoadRef(Cell, u32),
    /// The reference of this register goes to the cell, and that of the cell to the register.
    Exchange(u32, Cell, u32),
    // ---- counts
    /// To this reference register, the reference of that one, which is counted once more.
    Raise(u32, u32),
    /// To this reference register, the reference that was loaded, which is counted.
    RaiseLoaded(u32),
    /// The reference of this register is counted once less, and the register is NULL.
    Lower(u32),
    // ---- objects
    /// To this reference register, a new object of as many elements as this integer register has, each of this many
    /// cells: it stops with X9.
    New(u32, u32, u32, u32),
    /// To this reference register, the reference of the cell, which is then NULL.
    TakeCell(u32, Cell, u32),
    /// To this reference register, that of the local in the other one, which is then NULL.
    TakeLocal(u32, u32, u32),
    /// Reports A4 where the object in this register has another count than 1.
    TestSole(u32, u32),
    /// Clears the granules of the object in this register, whose elements have this many cells.
    Clear(u32, u32),
    /// The object in this register has a new mode.
    Give(u32, u32),
    /// Frees the object in this register, whose elements have this layout; the register is NULL.
    Free(u32, u32, u32),
    // ---- mutexes
    /// Takes the mutex in this cell; the reference of the cell's register goes to the held log.
    Lock(Cell, u32),
    /// Gives the mutex in the cell back; to this reference register, the reference of the held log.
    Unlock(u32, Cell, u32),
    // ---- threads
    /// To this integer register, the number of a new thread of this function with the argument in that register: it
    /// stops with X8.
    Spawn(u32, u32, Register, u32),
    /// Waits for the thread of the number in this integer register: it stops with X7.
    Join(u32, u32),
    /// Prints this integer register.
    Print(u32, u32),
    /// The beginning of a thread: a call of its function with its argument.
    Start(u32),
    /// The end of a thread.
    Exit,
    // ---- conditions
    /// The thread is among the waiters in this cell.
    CondEnter(Cell, u32),
    /// Waits until it is not.
    CondWait(Cell, u32),
    /// Takes the lowest waiter away.
    CondSignal(Cell, u32),
    /// Takes all waiters away.
    CondBroadcast(Cell, u32),
}
