//! Laws of words of waiters. A proof above has them where its function calls this.

ghost use Rattle.sharc_locks.specs.Laws.{WaitersLaws};

/// What holds of every word of waiters: it is determined by the threads that wait; the Or of `enter` adds one; and
/// where it is not 0 there is a lowest-numbered waiter, which `wake` takes away alone.
#[inline(always)]
pub fn waiters_laws()
    ensures { WaitersLaws }
{}
