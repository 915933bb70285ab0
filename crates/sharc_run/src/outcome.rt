//! How a run ended, by its causes.

ghost use Rattle.std.specs.{Prelude.◌≡◌, List.list_any};
ghost use Rattle.sharc_cpu.specs.Thread.{is_stop};
ghost use Rattle.sharc_run.specs.Outcome.{has_reported, was_stopped, outcome_of};

use sharc_code::{Stop, TurnState};
use sharc_cpu::Thread;
use sharc_threads::End;

/// How a run ended.
#[derive(Clone, Copy, Debug, PartialEq, Eq)]
pub enum Outcome {
    /// Each thread that was started is gone.
    Done,
    /// Some thread reported an access or a cast (A1 to A4).
    Reported,
    /// No thread reported, and some thread was stopped (X1 to X13).
    Stopped,
    /// No thread was stopped, some thread is not gone, and each such thread waits.
    Stuck,
    /// None of these: some thread has made all the events that it may, and is not gone.
    Limit,
}

/// Whether the thread was stopped by a report.
fn has_reported(thread: &Thread) -> bool
    ensures { result ≡ has_reported thread.now }
{
    match thread.stop() {
        Some(Stop::Conflict(_)) | Some(Stop::NoLock(_, _)) | Some(Stop::NotSole(_, _)) => true,
        Some(Stop::Trap(_, _)) | None => false,
    }
}

/// Whether the thread was stopped.
fn was_stopped(thread: &Thread) -> bool
    ensures { result ≡ was_stopped thread.now }
{
    match thread.state() {
        TurnState::Stopped => true,
        TurnState::Runs | TurnState::Tries | TurnState::Ended => false,
    }
}

fn any_reported(threads: &[Thread]) -> bool
    ensures { result ≡ list_any has_reported threads.now }
{
    threads.iter().any(|thread| has_reported(thread))
}

fn any_stopped(threads: &[Thread]) -> bool
    ensures { result ≡ list_any was_stopped threads.now }
{
    threads.iter().any(|thread| was_stopped(thread))
}

/// How a run of these threads ended, where it ended so.
pub(crate) fn outcome_of(threads: &[Thread], end: End) -> Outcome
    ensures { result ≡ outcome_of threads.now end }
{
    if any_reported(threads) {
        return Outcome::Reported;
    }
    if any_stopped(threads) {
        return Outcome::Stopped;
    }
    match end {
        End::AllDone => Outcome::Done,
        End::Stuck => Outcome::Stuck,
        End::Budget => Outcome::Limit,
    }
}
