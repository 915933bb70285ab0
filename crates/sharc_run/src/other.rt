// The other access of a conflict.

ghost use Rattle.std.specs.{Prelude.{◌≡◌, ◌<◌, find}, Option.option_copied};
ghost use Rattle.sharc_run.specs.Others.{noted, has_written, is_same_place, refused, check_by, access_of, has_number};
ghost use Rattle.sharc_run.specs.Others.{is_write, wrote_before, was_refused_first, or_refused, against_write};
ghost use Rattle.sharc_run.specs.Others.{against_read, other_access, IsAllowed, AreAllowed};

use sharc_code::{ConflictAt, Stop};
use sharc_cpu::Thread;
use sharc_heap::{Kind, first, is_written, stands};
use sharc_word::THREADS;

/// A check of a granule: its kind, its site, and the number of its thread.
#[derive(Clone, Copy)]
pub struct NotedCheck {
    pub kind: Kind,
    pub site: u32,
    pub thread: u32,
}

// The site of the thread's check of this kind of the granule of a conflict, in its epoch.
fn noted(c: ConflictAt, kind: Kind, t: &Thread) -> Option<u32>
    ensures { result ≡ noted c kind t.now }
{
    t.noted(c.granule, kind, c.epoch)
}

// Its check there that was refused.
fn refused(c: ConflictAt, t: &Thread) -> Option<ConflictAt>
    ensures { result ≡ refused c t.now }
{
    match t.stop() {
        Some(Stop::Conflict(d)) => {
            if d.granule == c.granule && d.epoch == c.epoch {
                Some(d)
            } else {
                None
            }
        }
        Some(Stop::NoLock(_, _)) => None,
        Some(Stop::NotSole(_, _)) => None,
        Some(Stop::Trap(_, _)) => None,
        None => None,
    }
}

fn check_by(kind: Kind, t: &Thread, site: u32) -> NotedCheck
    ensures { result ≡ check_by kind t.now site }
{
    NotedCheck {
        kind,
        site,
        thread: t.number(),
    }
}

// What the thread did there: its write, else its read, else its refused check.
fn access_of(c: ConflictAt, t: &Thread) -> Option<NotedCheck>
    ensures { result ≡ access_of c t.now }
{
    match noted(c, Kind::Write, t) {
        Some(site) => Some(check_by(Kind::Write, t, site)),
        None => match noted(c, Kind::Read, t) {
            Some(site) => Some(check_by(Kind::Read, t, site)),
            None => match refused(c, t) {
                Some(d) => Some(check_by(d.kind, t, d.site)),
                None => None,
            },
        },
    }
}

// The thread of this number.
fn with_number(number: u32, threads: &[Thread]) -> Option<&Thread>
    ensures { option_copied result ≡ find (has_number number) threads.now }
{
    for t in threads {
        if t.number() == number {
            return Some(t);
        }
    }
    None
}

// The other access of a refused write.
#[tactic(auto, using(crate::proofs::Firsts::first_is))]
fn against_write(c: ConflictAt, threads: &[Thread], thread: u32) -> Option<NotedCheck>
    requires { thread < THREADS }
    ensures { result ≡ against_write c threads.now thread }
{
    match first(c.old, thread, Kind::Write, None) {
        Some(number) => match with_number(number, threads) {
            Some(t) => access_of(c, t),
            None => None,
        },
        None => None,
    }
}

// Whether this is another thread whose bit was set, and which has written there.
fn wrote_before(c: ConflictAt, thread: u32, t: &Thread) -> bool
    requires { IsAllowed t.now }
    ensures { result ≡ wrote_before c thread t.now }
{
    let number = t.number();
    number != thread && stands(c.old, number) && noted(c, Kind::Write, t).is_some()
}

// The first of these.
fn first_writer(c: ConflictAt, threads: &[Thread], thread: u32) -> Option<&Thread>
    requires { AreAllowed threads.now }
    ensures { option_copied result ≡ find (wrote_before c thread) threads.now }
{
    for t in threads {
        if wrote_before(c, thread, t) {
            return Some(t);
        }
    }
    None
}

fn is_write(kind: Kind) -> bool
    ensures { result ≡ is_write kind }
{
    match kind {
        Kind::Read => false,
        Kind::Write => true,
    }
}

// Whether the thread's write there was refused where the written bit was not set.
fn was_refused_first(c: ConflictAt, t: &Thread) -> bool
    ensures { result ≡ was_refused_first c t.now }
{
    match refused(c, t) {
        Some(d) => is_write(d.kind) && !is_written(d.old),
        None => false,
    }
}

// The first of these.
fn first_refused(c: ConflictAt, threads: &[Thread]) -> Option<&Thread>
    ensures { option_copied result ≡ find (was_refused_first c) threads.now }
{
    for t in threads {
        if was_refused_first(c, t) {
            return Some(t);
        }
    }
    None
}

// The refused check of a thread there.
fn refused_access(c: ConflictAt, t: &Thread) -> Option<NotedCheck>
    ensures { result ≡ or_refused t.now (refused c t.now) }
{
    match refused(c, t) {
        Some(d) => Some(check_by(d.kind, t, d.site)),
        None => None,
    }
}

// The other access of a refused read.
fn against_read(c: ConflictAt, threads: &[Thread], thread: u32) -> Option<NotedCheck>
    requires { AreAllowed threads.now }
    ensures { result ≡ against_read c threads.now thread }
{
    match first_writer(c, threads, thread) {
        Some(t) => access_of(c, t),
        None => match first_refused(c, threads) {
            Some(t) => refused_access(c, t),
            None => None,
        },
    }
}

/// The other access of a conflict of the thread of this number, among these threads, which are in the order of their
/// numbers.
pub(crate) fn other_access(c: ConflictAt, threads: &[Thread], thread: u32) -> Option<NotedCheck>
    requires thread { thread < THREADS }
    requires threads { AreAllowed threads.now }
    ensures { result ≡ other_access c threads.now thread }
{
    match c.kind {
        Kind::Read => against_read(c, threads, thread),
        Kind::Write => against_write(c, threads, thread),
    }
}
