// Traps: what stops a thread of a program that is accepted.

ghost use Rattle.std.specs.Prelude.{◌≡◌};
ghost use Rattle.sharc_tree.specs.Traps.{trap_number};

/// Why a thread is stopped, X1 to X13.
#[derive(Clone, Copy, PartialEq, Eq, Debug)]
pub enum Trap {
    /// X1: NULL is the base of an access, or what its lock path goes through, or an argument of `wait`, `signal`
    /// or `broadcast`.
    NullPointer,
    /// X2: an object has no element of this index.
    IndexOutOfBounds,
    /// X3: `/` or `%` by 0.
    DivisionByZero,
    /// X4: the type does not hold the value, or a shift is not by a count of its bits.
    OutOfRange,
    /// X5: `unlock` or `wait` of a mutex that the thread does not hold.
    MutexNotHeld,
    /// X6: `lock` of a mutex that the thread holds.
    MutexAlreadyHeld,
    /// X7: `join` of a number that no started thread has.
    NoSuchThread,
    /// X8: `spawn` where there are as many threads as there may be.
    ThreadLimit,
    /// X9: `malloc` where the heap has no room for the object.
    HeapFull,
    /// X10: a call where there are as many frames as there may be.
    CallDepth,
    /// X11: a thread's function returns while a mutex is held.
    ReturnWithLockHeld,
    /// X12: `malloc` of fewer than one element.
    SizeNotPositive,
    /// X13: `lock` where as many mutexes are held as may be.
    TooManyLocks,
}

impl Trap {
    /// The number after the X.
    pub fn number(self) -> u8
        ensures { result ≡ trap_number self }
    {
        match self {
            Trap::NullPointer => 1,
            Trap::IndexOutOfBounds => 2,
            Trap::DivisionByZero => 3,
            Trap::OutOfRange => 4,
            Trap::MutexNotHeld => 5,
            Trap::MutexAlreadyHeld => 6,
            Trap::NoSuchThread => 7,
            Trap::ThreadLimit => 8,
            Trap::HeapFull => 9,
            Trap::CallDepth => 10,
            Trap::ReturnWithLockHeld => 11,
            Trap::SizeNotPositive => 12,
            Trap::TooManyLocks => 13,
        }
    }
}
