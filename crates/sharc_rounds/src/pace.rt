//! Who makes a round: workers at the same time, or the caller alone, by how fast the rounds of both were.

ghost use Rattle.std.specs.Prelude.{◌≡◌, ◌<◌};
ghost use Rattle.sharc_rounds.specs.declared.stint.TheConstants.{QUANTUM as quantum};
ghost use Rattle.sharc_rounds.specs.Pace.{made_by, waits_on, keeps_up, or_others, caller_for, next_makers};
ghost use Rattle.sharc_rounds.specs.Pace.{three_quarters, speed_of, speed_with, since_with, workers_lately, apart_with};
ghost use Rattle.sharc_rounds.specs.Pace.{pace_with, calm_with, pace_after, makers_for};

use crate::busy::Busy;
use crate::stint::{QUANTUM, Stint};
use sharc_cpu::{Thread, Wait};

/// Who makes a round.
#[derive(Clone, Copy, PartialEq, Eq)]
pub(crate) enum Makers {
    /// The workers, each in a thread of the system.
    Workers,
    /// The caller, who makes the quantum of one thread after that of another.
    Caller,
    /// The caller, who goes round the threads and makes a part of the quantum of each.
    CallerByParts,
}

/// How many events a round made; when it began and ended, if the time was told; whether a thread waited for another at
/// its end.
#[derive(Clone, Copy)]
pub(crate) struct Lap {
    pub(crate) events: u64,
    pub(crate) begun: Option<u64>,
    pub(crate) ended: Option<u64>,
    pub(crate) waited: bool,
}

/// How many events were made in how many nanoseconds.
#[derive(Clone, Copy)]
pub(crate) struct Speed {
    pub(crate) events: u64,
    pub(crate) nanoseconds: u64,
}

/// How fast the rounds so far were: those of the caller and those of workers; how long the ones who made the last round
/// have gone on; for how many times the time of a round by workers the caller goes on before they are tried again; and
/// how many rounds ended since one at whose end a thread waited for another.
#[derive(Clone, Copy)]
pub(crate) struct Pace {
    pub(crate) caller: Option<Speed>,
    pub(crate) workers: Option<Speed>,
    pub(crate) last: Makers,
    pub(crate) since: u64,
    pub(crate) apart: u64,
    pub(crate) calm: u64,
}

/// Workers are tried once the caller has gone on for this many times the time of its last rounds.
pub(crate) const FIRST: u64 = 4;

/// Who did not make the last rounds is tried again once the others have gone on for this many times as long as its own
/// last rounds took. For workers it is twice as many each time that they were no faster.
pub(crate) const APART: u64 = 32;

/// It is at most so many times.
pub(crate) const MOST_APART: u64 = 1_024;

/// The caller makes whole quanta once no thread waited for another at the end of this many rounds.
pub(crate) const CALM: u64 = 16;

/// The events that the thread which is there has made.
pub(crate) fn made_by(seat: &Option<Thread>) -> u64
    ensures { result ≡ made_by seat.now }
{
    match seat {
        None => 0,
        Some(thread) => thread.made(),
    }
}

/// Whether the thread which is there waits for what another may do at any time: a mutex or a condition.
pub(crate) fn waits_on(seat: &Option<Thread>) -> bool
    ensures { result ≡ waits_on seat.now }
{
    match seat {
        None => false,
        Some(thread) => match thread.wait() {
            None | Some(Wait::Join(_, _)) => false,
            Some(Wait::Mutex(_, _)) | Some(Wait::Cond(_, _)) => true,
        },
    }
}

impl Makers {
    /// To how many workers the threads are dealt, where so many would be needed.
    pub(crate) fn count(self, needed: u32) -> u32
        requires { 0 < needed }
        ensures some { 0 < result }
        ensures workers { self ≡ Makers.Workers → result ≡ needed }
        ensures whole { self ≡ Makers.Caller → result ≡ 1 }
        ensures alone { self ≡ Makers.CallerByParts → result ≡ 1 }
    {
        match self {
            Makers::Workers => needed,
            Makers::Caller | Makers::CallerByParts => 1,
        }
    }

    /// In how many threads of the system so many workers work.
    pub(crate) fn threads(self, workers: usize) -> usize
        requires { 0 < workers }
        ensures some { 0 < result }
    {
        match self {
            Makers::Workers => workers,
            Makers::Caller | Makers::CallerByParts => 1,
        }
    }

    /// What each thread makes in one go, where it makes its quantum so.
    pub(crate) fn stint(self) -> Stint
        ensures { result.turns ≡ quantum }
    {
        match self {
            Makers::Workers => Stint::beside(),
            Makers::Caller | Makers::CallerByParts => Stint::alone(QUANTUM),
        }
    }
}

impl Lap {
    // How fast it was, if the time was told.
    fn speed(self) -> Option<Speed>
        ensures { result ≡ speed_of self.events self.begun self.ended }
    {
        match (self.begun, self.ended) {
            (Some(begun), Some(ended)) => Some(Speed {
                events: self.events,
                nanoseconds: ended.saturating_sub(begun),
            }),
            _ => None,
        }
    }
}

fn three_quarters(n: u64) -> u64
    ensures { result ≡ three_quarters n }
{
    n - n / 4
}

impl Speed {
    // Whether it is at least eight ninths of the other one.
    fn keeps_up(self, other: Speed) -> bool
        ensures { result ≡ keeps_up self other }
    {
        let one = u128::from(self.events) * u128::from(other.nanoseconds);
        let other = u128::from(other.events) * u128::from(self.nanoseconds);
        other - other / 9 <= one
    }

    // With one more round: what was before it counts a quarter less.
    fn with(before: Option<Speed>, round: Speed) -> Speed
        ensures { result ≡ speed_with before round }
    {
        match before {
            None => round,
            Some(before) => Speed {
                events: three_quarters(before.events).saturating_add(round.events),
                nanoseconds: three_quarters(before.nanoseconds).saturating_add(round.nanoseconds),
            },
        }
    }
}

// These, or the others, if these have gone on for more than so many times as long as the others took.
fn or_others(these: Makers, others: Makers, times: u64, took: u64, since: u64) -> Makers
    ensures { result ≡ or_others these others times took since }
{
    if u128::from(took) * u128::from(times) < u128::from(since) {
        others
    } else {
        these
    }
}

impl Pace {
    /// Before the first round.
    pub(crate) fn new() -> Pace {
        Pace {
            caller: None,
            workers: None,
            last: Makers::Caller,
            since: 0,
            apart: APART,
            calm: 0,
        }
    }

    // How the caller makes a round: by parts, if a thread waited for another lately.
    fn caller(self) -> Makers
        ensures { result ≡ caller_for self.calm }
    {
        if self.calm < CALM {
            Makers::CallerByParts
        } else {
            Makers::Caller
        }
    }

    // Who makes the next round where several workers are busy.
    fn next(self) -> Makers
        ensures { result ≡ next_makers self }
    {
        let (caller, workers) = (self.caller(), Makers::Workers);
        match (self.caller, self.workers) {
            (None, _) => caller,
            (Some(one), None) => or_others(caller, workers, FIRST, one.nanoseconds, self.since),
            (Some(one), Some(other)) => {
                if one.keeps_up(other) {
                    or_others(caller, workers, self.apart, other.nanoseconds, self.since)
                } else {
                    or_others(workers, caller, APART, one.nanoseconds, self.since)
                }
            }
        }
    }

    /// Who makes the next round, where so many workers are busy. Where no time is told, the gate may hold a thread
    /// until another has made a step.
    pub(crate) fn makers(self, busy: Busy, time: Option<u64>) -> Makers
        ensures { result ≡ makers_for self busy time }
    {
        match (busy, time) {
            (Busy::Several, Some(_)) => self.next(),
            (Busy::Several, None) => Makers::Workers,
            (_, Some(_)) => self.caller(),
            (_, None) => Makers::Caller,
        }
    }

    // How long those who made the last round have gone on, where these made one more that took so long.
    fn since_with(self, makers: Makers, took: u64) -> u64
        ensures { result ≡ since_with makers self.last self.since took }
    {
        match (makers, self.last) {
            (Makers::Workers, Makers::Workers) => self.since.saturating_add(took),
            (Makers::Workers, _) | (_, Makers::Workers) => took,
            _ => self.since.saturating_add(took),
        }
    }

    // How fast the workers were, if they made the last round too. What they made longer ago were other turns.
    fn workers_lately(self) -> Option<Speed>
        ensures { result ≡ workers_lately self.workers self.last }
    {
        match self.last {
            Makers::Workers => self.workers,
            Makers::Caller | Makers::CallerByParts => None,
        }
    }

    // How far apart workers are tried, where they were so fast: twice as far each time that the caller keeps up.
    fn apart_with(self, workers: Speed) -> u64
        ensures { result ≡ apart_with self.caller workers self.apart }
    {
        match self.caller {
            None => APART,
            Some(caller) => {
                if !caller.keeps_up(workers) {
                    APART
                } else if self.apart < MOST_APART {
                    self.apart * 2
                } else {
                    MOST_APART
                }
            }
        }
    }

    // After a round that these made so fast.
    fn with(self, makers: Makers, round: Speed) -> Pace
        ensures { result ≡ pace_with self makers round }
    {
        let since = self.since_with(makers, round.nanoseconds);
        match makers {
            Makers::Workers => {
                let workers = Speed::with(self.workers_lately(), round);
                Pace {
                    workers: Some(workers),
                    last: makers,
                    since,
                    apart: self.apart_with(workers),
                    ..self
                }
            }
            Makers::Caller | Makers::CallerByParts => Pace {
                caller: Some(Speed::with(self.caller, round)),
                last: makers,
                since,
                ..self
            },
        }
    }

    // After one more round, at whose end a thread waited for another or none did.
    fn calm_with(self, waited: bool) -> Pace
        ensures { result ≡ calm_with self waited }
    {
        Pace {
            calm: if waited {
                0
            } else {
                self.calm.saturating_add(1)
            },
            ..self
        }
    }

    /// After a round that these made, where so many workers were busy. How fast it was counts only where several were.
    pub(crate) fn after(self, busy: Busy, makers: Makers, lap: Lap) -> Pace
        ensures { result
            ≡ pace_after (calm_with self lap.waited) busy makers (speed_of lap.events lap.begun lap.ended) }
    {
        let pace = self.calm_with(lap.waited);
        match (busy, lap.speed()) {
            (Busy::Several, Some(round)) => pace.with(makers, round),
            _ => pace,
        }
    }
}
