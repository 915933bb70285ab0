//! The words between two rounds.

ghost use Rattle.std.specs.Prelude.{◌≡◌, ◌≢◌, ◌<◌, ℕ, None, true, false, length, slice_index, slice_index_or, vec_len};
ghost use Rattle.std.specs.Prelude.{IfOk};
ghost use Rattle.sharc_word.specs.declared.step.TheConstants.{THREADS as threads};
ghost use Rattle.sharc_code.specs.{Layout.state_word, Waits.held_up};
ghost use Rattle.sharc_threads.specs.Seats.{has_number, may_turn_at};
ghost use Rattle.sharc_rounds.specs.Round.{AreWords, SameWords, wait_word};

use crate::busy::Busy;
use sharc_bus::{Bus, BusRest, Opening};
use sharc_cpu::{Thread, Wait};
use sharc_threads::{ThreadTable, may_turn_at};
use sharc_word::THREADS;
use std::alloc::{AllocError, Global};

/// The words between two rounds. They lie on one bus through the whole run, so none is copied; `seen` has those that
/// were looked at since the round, and the others as they were seen last.
#[derive(Drop)]
pub(crate) struct Words {
    pub(crate) bus: Bus,
    pub(crate) rest: BusRest,
    pub(crate) seen: Vec<u64>,
}

// The number of the word that says whether a thread has to wait.
fn wait_word(wait: Wait) -> usize
    ensures { result ≡ wait_word wait }
{
    match wait {
        Wait::Mutex(mutex, _) => mutex as usize,
        Wait::Join(other, _) => 4 + 3 * other as usize,
        Wait::Cond(cond, _) => cond as usize,
    }
}

impl Words {
    /// The words before the first round.
    ///
    /// An `Err` says that memory was not found.
    pub(crate) fn open(alloc: Global, words: Vec<u64>) -> Result<Words, AllocError>
        requires { 0 < vec_len words }
        ensures words { IfOk result AreWords }
        ensures rest { IfOk result (λ w. w.rest.words ≡ words.items) }
        ensures seen { IfOk result (λ w. w.seen.items ≡ words.items) }
    {
        let opening = Opening {
            words,
            ports: THREADS,
        };
        let (bus, rest) = Bus::open(alloc, &opening)?;
        let Opening { words, ports: _ } = opening;
        Ok(Words {
            bus,
            rest,
            seen: words,
        })
    }

    // Looks at the word of this number, if there is one.
    fn look(&mut self, number: usize)
        requires { AreWords self.old }
        ensures same { SameWords self.old self.new }
        ensures here { slice_index self.new.seen.items number ≡ slice_index self.old.rest.words number }
        ensures others { (n : ℕ) → n ≢ number → slice_index self.new.seen.items n ≡ slice_index self.old.seen.items n }
    {
        if number < self.seen.len() {
            self.seen[number] = self.bus.word(&mut self.rest, number);
        }
    }

    /// Looks at the state words of all threads.
    pub(crate) fn look_at_states(&mut self)
        requires { AreWords self.old }
        ensures same { SameWords self.old self.new }
        ensures states { (t : ℕ) → t < threads
            → slice_index self.new.seen.items (state_word t) ≡ slice_index self.old.rest.words (state_word t) }
    {
        for n in 0..THREADS as usize {
            self.look(4 + 3 * n);
        }
    }

    // Looks at the word that says whether this thread has to wait.
    fn look_for(&mut self, thread: &Thread)
        requires { AreWords self.old }
        ensures same { SameWords self.old self.new }
        ensures held { held_up self.new.seen.items thread.now.machine.own.number thread.now.wait
            ≡ held_up self.old.rest.words thread.now.machine.own.number thread.now.wait }
    {
        match thread.wait() {
            None => (),
            Some(wait) => self.look(wait_word(wait)),
        }
    }

    // Whether a thread is there that is enabled.
    fn may_turn(&mut self, seat: &Option<Thread>, limit: u64) -> bool
        requires words { AreWords self.old }
        requires number { has_number seat.now }
        ensures same { SameWords self.old self.new }
        ensures may { result ≡ may_turn_at self.old.rest.words limit seat.now }
    {
        match seat {
            None => (),
            Some(thread) => self.look_for(thread),
        }
        may_turn_at(seat, self.seen.as_slice(), limit)
    }

    /// How many workers have a thread that is enabled.
    pub(crate) fn busy(&mut self, threads: &ThreadTable, workers: u32, limit: u64) -> Busy
        requires words { AreWords self.old }
        requires workers { 0 < workers }
        requires numbers { (t : ℕ) → has_number (slice_index_or threads.now.seats.items t None) }
        ensures same { SameWords self.old self.new }
        ensures none { result ≡ Busy.Nobody
            → (t : ℕ) → may_turn_at self.old.rest.words limit (slice_index_or threads.now.seats.items t None) ≡ false }
        ensures some { result ≢ Busy.Nobody
            → (t : ℕ) × (may_turn_at self.old.rest.words limit (slice_index_or threads.now.seats.items t None) ≡ true) }
    {
        let mut first = None;
        for n in 0..threads.seats.len() {
            if self.may_turn(&threads.seats[n], limit) {
                let worker = n % workers as usize;
                match first {
                    None => first = Some(worker),
                    Some(other) => {
                        if other != worker {
                            return Busy::Several;
                        }
                    }
                }
            }
        }
        match first {
            None => Busy::Nobody,
            Some(_) => Busy::One,
        }
    }

    /// All words as they are.
    pub(crate) fn close(self) -> Vec<u64>
        requires { AreWords self }
        ensures { result.items ≡ self.rest.words }
    {
        let Words {
            bus,
            rest,
            mut seen,
        } = self;
        bus.close(rest, seen.as_mut_slice());
        seen
    }
}
