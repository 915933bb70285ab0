// The line of a thread that is not gone.

ghost use Rattle.std.specs.Prelude.{◌≡◌, ◌++◌, ◌<◌, codes, decimal, slice_index};
ghost use Rattle.sharc_tree.specs.Texts.{Appends};
ghost use Rattle.sharc_run.specs.{Places.{at_site, lvalue_at}, Others.{IsAllowed, AreAllowed}, RunText.of_kind};
ghost use Rattle.sharc_run.specs.RunText.{access_text, code_of, other_text, conflict_text, of_use, no_lock_text};
ghost use Rattle.sharc_run.specs.RunText.{of_taking, not_sole_text, trap_words, trap_text, stop_text, wait_text};
ghost use Rattle.sharc_run.specs.RunText.{made_text, unstopped_text, why_text, is_gone, thread_line};
ghost use Rattle.sharc_code.specs.Waits.{is_held_up};

use crate::other::{NotedCheck, other_access};
use crate::put::{place_at, put_at, put_lock, put_lvalue_at, put_number};
use sharc_code::{Code, ConflictAt, Stop, TurnState, Use, Wait};
use sharc_cpu::Thread;
use sharc_heap::Kind;
use sharc_locks::waits;
use sharc_tree::trap::Trap;
use sharc_word::THREADS;
use std::alloc::AllocError;

fn of_kind(kind: Kind) -> &'static [u8]
    ensures { result.now ≡ of_kind kind }
{
    match kind {
        Kind::Read => b"read of ",
        Kind::Write => b"write of ",
    }
}

fn code_of(kind: Kind) -> &'static [u8]
    ensures { result.now ≡ code_of kind }
{
    match kind {
        Kind::Read => b"A1 ",
        Kind::Write => b"A2 ",
    }
}

fn put_access(text: &mut Vec<u8>, code: &Code, kind: Kind, site: u32) -> Result<(), AllocError>
    ensures { Appends result (access_text code.now kind site) text.old.items text.new.items }
{
    text.extend_from_slice(of_kind(kind))?;
    put_lvalue_at(text, code, site)
}

fn put_other(text: &mut Vec<u8>, code: &Code, other: Option<NotedCheck>) -> Result<(), AllocError>
    ensures { Appends result (other_text code.now other) text.old.items text.new.items }
{
    match other {
        None => Ok(()),
        Some(access) => {
            text.extend_from_slice(b" conflicts with ")?;
            put_access(text, code, access.kind, access.site)?;
            text.extend_from_slice(b" by thread ")?;
            put_number(text, u64::from(access.thread))
        }
    }
}

fn put_conflict(
    text: &mut Vec<u8>,
    code: &Code,
    threads: &[Thread],
    thread: u32,
    c: ConflictAt,
) -> Result<(), AllocError>
    requires thread { thread < THREADS }
    requires threads { AreAllowed threads.now }
    ensures { Appends result (conflict_text code.now threads.now thread c) text.old.items text.new.items }
{
    text.extend_from_slice(code_of(c.kind))?;
    put_access(text, code, c.kind, c.site)?;
    put_other(text, code, other_access(c, threads, thread))
}

fn of_use(at: Use) -> &'static [u8]
    ensures { result.now ≡ of_use at }
{
    match at {
        Use::Read | Use::Other => b"read of ",
        Use::Write | Use::Cast(_) | Use::Free(_) => b"write of ",
    }
}

fn put_no_lock(text: &mut Vec<u8>, code: &Code, site: u32) -> Result<(), AllocError>
    ensures { Appends result (no_lock_text code.now site) text.old.items text.new.items }
{
    text.extend_from_slice(b"A3 ")?;
    text.extend_from_slice(of_use(place_at(code, site).at))?;
    put_lvalue_at(text, code, site)?;
    text.extend_from_slice(b" without lock ")?;
    put_lock(text, code, site)
}

fn of_taking(at: Use) -> &'static [u8]
    ensures { result.now ≡ of_taking at }
{
    match at {
        Use::Free(_) => b"A4 free of ",
        Use::Read | Use::Write | Use::Cast(_) | Use::Other => b"A4 cast of ",
    }
}

fn put_not_sole(text: &mut Vec<u8>, code: &Code, site: u32, count: u64) -> Result<(), AllocError>
    ensures { Appends result (not_sole_text code.now site count) text.old.items text.new.items }
{
    text.extend_from_slice(of_taking(place_at(code, site).at))?;
    put_lvalue_at(text, code, site)?;
    text.extend_from_slice(b" with ")?;
    put_number(text, count)?;
    text.extend_from_slice(b" references")
}

fn trap_words(trap: Trap) -> &'static [u8]
    ensures { result.now ≡ trap_words trap }
{
    match trap {
        Trap::NullPointer => b"null",
        Trap::IndexOutOfBounds => b"bounds",
        Trap::DivisionByZero => b"zero divisor",
        Trap::OutOfRange => b"out of range",
        Trap::MutexNotHeld => b"mutex not held",
        Trap::MutexAlreadyHeld => b"mutex already held",
        Trap::NoSuchThread => b"no such thread",
        Trap::ThreadLimit => b"thread limit",
        Trap::HeapFull => b"heap full",
        Trap::CallDepth => b"call depth",
        Trap::ReturnWithLockHeld => b"return with a lock held",
        Trap::SizeNotPositive => b"size not positive",
        Trap::TooManyLocks => b"too many locks",
    }
}

fn put_trap(text: &mut Vec<u8>, code: &Code, trap: Trap, site: u32) -> Result<(), AllocError>
    ensures { Appends result (trap_text code.now trap site) text.old.items text.new.items }
{
    text.extend_from_slice(b"X")?;
    put_number(text, u64::from(trap.number()))?;
    text.extend_from_slice(b" ")?;
    text.extend_from_slice(trap_words(trap))?;
    put_at(text, code, site)
}

fn put_stop(
    text: &mut Vec<u8>,
    code: &Code,
    threads: &[Thread],
    thread: u32,
    stop: Stop,
) -> Result<(), AllocError>
    requires thread { thread < THREADS }
    requires threads { AreAllowed threads.now }
    ensures { Appends result (stop_text code.now threads.now thread stop) text.old.items text.new.items }
{
    match stop {
        Stop::Conflict(c) => put_conflict(text, code, threads, thread, c),
        Stop::NoLock(site, _) => put_no_lock(text, code, site),
        Stop::NotSole(site, count) => put_not_sole(text, code, site, count),
        Stop::Trap(trap, site) => put_trap(text, code, trap, site),
    }
}

// What a word holds, 0 where there is none of this number.
fn word_in(words: &[u64], word: u64) -> u64
    ensures { result ≡ slice_index words.now word }
{
    words.get(word as usize).copied().unwrap_or(0)
}

// Whether the thread waits where the words are these.
fn is_held_up(words: &[u64], number: u32, wait: Wait) -> bool
    requires { number < THREADS }
    ensures { result ≡ is_held_up words.now number wait }
{
    match wait {
        Wait::Mutex(word, _) => word_in(words, u64::from(word)) != 0,
        Wait::Join(thread, _) => {
            let state = word_in(words, 4 + 3 * u64::from(thread));
            state == 1 || state == 2
        }
        Wait::Cond(word, _) => waits(word_in(words, u64::from(word)), number),
    }
}

fn put_held_mutex(text: &mut Vec<u8>, code: &Code, site: u32, holder: u64) -> Result<(), AllocError>
    ensures { Appends result (codes "waits for mutex " ++ lvalue_at code.now site ++ codes " held by thread "
        ++ decimal holder) text.old.items text.new.items }
{
    text.extend_from_slice(b"waits for mutex ")?;
    put_lvalue_at(text, code, site)?;
    text.extend_from_slice(b" held by thread ")?;
    put_number(text, holder)
}

fn put_joined(text: &mut Vec<u8>, code: &Code, thread: u32, site: u32) -> Result<(), AllocError>
    ensures { Appends result
        (codes "waits for thread " ++ decimal thread ++ at_site code.now site) text.old.items text.new.items }
{
    text.extend_from_slice(b"waits for thread ")?;
    put_number(text, u64::from(thread))?;
    put_at(text, code, site)
}

fn put_wait(text: &mut Vec<u8>, code: &Code, words: &[u64], wait: Wait) -> Result<(), AllocError>
    ensures { Appends result (wait_text code.now words.now wait) text.old.items text.new.items }
{
    match wait {
        Wait::Mutex(word, site) => {
            let held = word_in(words, u64::from(word));
            put_held_mutex(text, code, site, held.saturating_sub(1))
        }
        Wait::Join(thread, site) => put_joined(text, code, thread, site),
        Wait::Cond(_, site) => {
            text.extend_from_slice(b"waits for signal of ")?;
            put_lvalue_at(text, code, site)
        }
    }
}

fn put_made(text: &mut Vec<u8>, made: u64) -> Result<(), AllocError>
    ensures { Appends result (made_text made) text.old.items text.new.items }
{
    text.extend_from_slice(b"made ")?;
    put_number(text, made)?;
    text.extend_from_slice(b" events")
}

fn put_unstopped(
    text: &mut Vec<u8>,
    code: &Code,
    words: &[u64],
    t: &Thread,
) -> Result<(), AllocError>
    requires { IsAllowed t.now }
    ensures { Appends result (unstopped_text code.now words.now t.now t.now.wait) text.old.items text.new.items }
{
    match t.wait() {
        Some(wait) => {
            if is_held_up(words, t.number(), wait) {
                put_wait(text, code, words, wait)
            } else {
                put_made(text, t.made())
            }
        }
        None => put_made(text, t.made()),
    }
}

fn put_why(
    text: &mut Vec<u8>,
    code: &Code,
    words: &[u64],
    threads: &[Thread],
    t: &Thread,
) -> Result<(), AllocError>
    requires thread { IsAllowed t.now }
    requires threads { AreAllowed threads.now }
    ensures { Appends result
        (why_text code.now words.now threads.now t.now t.now.machine.own.stop) text.old.items text.new.items }
{
    match t.stop() {
        Some(stop) => put_stop(text, code, threads, t.number(), stop),
        None => put_unstopped(text, code, words, t),
    }
}

fn is_gone(state: TurnState) -> bool
    ensures { result ≡ is_gone state }
{
    match state {
        TurnState::Ended => true,
        TurnState::Runs | TurnState::Tries | TurnState::Stopped => false,
    }
}

/// The line of a thread, which has none where it is gone.
pub(crate) fn put_thread(
    text: &mut Vec<u8>,
    code: &Code,
    words: &[u64],
    threads: &[Thread],
    t: &Thread,
) -> Result<(), AllocError>
    requires thread { IsAllowed t.now }
    requires threads { AreAllowed threads.now }
    ensures { Appends result (thread_line code.now words.now threads.now t.now) text.old.items text.new.items }
{
    if is_gone(t.state()) {
        return Ok(());
    }
    text.extend_from_slice(b"thread ")?;
    put_number(text, u64::from(t.number()))?;
    text.extend_from_slice(b": ")?;
    put_why(text, code, words, threads, t)?;
    text.extend_from_slice(b"\n")
}
