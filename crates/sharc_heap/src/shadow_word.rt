//! The shadow word of a granule: bit 0 is the written bit, bit `1 + k` that of thread `k`, and the bits from 32 on are
//! the epoch.

ghost use Rattle.std.specs.Prelude.{◌≡◌, ℕ, ◌+◌, ◌^◌, ◌<◌, ◌==◌, ◌↔◌, IsTrue, IfSome, IfNone, IsNone, is_some, bit_or};
ghost use Rattle.sharc_heap.specs.ShadowWord.{epoch_of, is_written, stands, HasOther, AddsAccess, HasBits, Conflicts};
ghost use Rattle.sharc_heap.specs.ShadowWord.{IsFirstOther, Clears, Withdraws, is_of};
ghost use Rattle.sharc_heap.specs.Functions.{bits_of, cleared_of, withdrawn_of, lowest_other, conflicts_in, first_in};
ghost use Rattle.sharc_heap.specs.Others.{AreOthers};

use sharc_word::THREADS;

/// The kind of an access, and of the check before it.
#[derive(Clone, Copy, Debug, PartialEq, Eq)]
pub enum Kind {
    Read,
    Write,
}

// The written bit, and the bits of all threads.
const WRITTEN: u64 = 1;

const ALL_THREADS: u64 = 0xffff_fffe;

/// The bits that a check of this kind by this thread sets: that of the thread, and for a write the written bit too. An
/// `Or` of them adds exactly that.
#[tactic(auto, unfolding(crate::specs::Functions::bits_of))]
pub fn bits(thread: u32, kind: Kind) -> u64
    requires { thread < THREADS }
    ensures sets { HasBits result thread kind }
    ensures adds { (old : ℕ) → AddsAccess old (bit_or old result) thread kind }
    ensures is { result ≡ bits_of thread kind }
{
    match kind {
        Kind::Read => bit_of(thread),
        Kind::Write => bit_of(thread) | WRITTEN,
    }
}

/// The epoch of a shadow word: how often it was cleared, modulo 2^32.
pub fn epoch(old: u64) -> u32
    ensures { result ≡ epoch_of old }
{
    (old >> 32) as u32
}

/// Whether a check conflicts with the accesses that the word shows, where the check found `old`, and `wrote` is the
/// epoch of the thread's own note of kind write on the granule (the SharC paper; SharC's own in that a thread which
/// wrote in this epoch may read, since every other bit that is set is then that of a refused check).
#[tactic(auto, unfolding(crate::specs::Functions::conflicts_in))]
pub fn conflicts(old: u64, thread: u32, kind: Kind, wrote: Option<u32>) -> bool
    requires { thread < THREADS }
    ensures conflicts { IsTrue result ↔ Conflicts old thread kind wrote }
    ensures is { result ≡ conflicts_in old thread kind wrote }
{
    match kind {
        Kind::Write => has_other(old, thread),
        Kind::Read => has_other(old, thread) && is_written(old) && !is_of_epoch(wrote, old),
    }
}

/// The lowest-numbered other thread whose bit is set, where the check conflicts; else `None`.
pub fn first(old: u64, thread: u32, kind: Kind, wrote: Option<u32>) -> Option<u32>
    requires { thread < THREADS }
    ensures none { IsNone result ↔ ¬ Conflicts old thread kind wrote }
    ensures lowest { IfSome result (IsFirstOther old thread) }
    ensures is { result ≡ first_in old thread kind wrote }
{
    if conflicts(old, thread, kind, wrote) {
        Some(others(old, thread).trailing_zeros() - 1)
    } else {
        None
    }
}

/// The word after a clear: no bits, and the epoch plus 1 modulo 2^32.
pub fn cleared(old: u64) -> u64
    ensures clears { Clears old result }
    ensures is { result ≡ cleared_of old }
{
    u64::from(epoch(old).wrapping_add(1)) << 32
}

/// The word after a thread has withdrawn: without its bit, and without the written bit too where the thread wrote in
/// this epoch, that is, where `wrote` is the epoch of the word.
pub fn withdrawn(old: u64, thread: u32, wrote: Option<u32>) -> u64
    requires { thread < THREADS }
    ensures withdraws { Withdraws old result thread wrote }
    ensures is { result ≡ withdrawn_of old thread wrote }
{
    let left = old & !bit_of(thread);
    if is_of_epoch(wrote, old) {
        left & !WRITTEN
    } else {
        left
    }
}

/// Whether the bit of a thread is set.
pub fn stands(word: u64, thread: u32) -> bool
    requires { thread < THREADS }
    ensures { result ≡ stands word thread }
{
    (word >> (1 + thread)) & 1 == 1
}

/// Whether the written bit is set.
pub fn is_written(word: u64) -> bool
    ensures { result ≡ is_written word }
{
    word & WRITTEN == 1
}

// Whether the bit of another thread is set.
fn has_other(old: u64, thread: u32) -> bool
    requires { thread < THREADS }
    ensures other { IsTrue result ↔ HasOther old thread }
    ensures is { result ≡ is_some (lowest_other old thread) }
{
    others(old, thread) != 0
}

// Whether a note's epoch is that of the word.
fn is_of_epoch(noted: Option<u32>, old: u64) -> bool
    ensures { result ≡ is_of noted (epoch_of old) }
{
    match noted {
        Some(of) => of == epoch(old),
        None => false,
    }
}

// The bit of a thread.
fn bit_of(thread: u32) -> u64
    requires { thread < THREADS }
    ensures { result ≡ 2 ^ (1 + thread) }
{
    2 << thread
}

// The bits of the other threads.
fn others(old: u64, thread: u32) -> u64
    requires { thread < THREADS }
    ensures { AreOthers old thread result }
{
    old & !bit_of(thread) & ALL_THREADS
}
