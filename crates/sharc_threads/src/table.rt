//! The threads of a run by their numbers.

ghost use Rattle.std.specs.Prelude.{◌≡◌, ◌<◌, ◌++◌, [], ◌∷◌, ℕ, Option, Some, None, true, false, length, IfOk, OnOk};
ghost use Rattle.std.specs.Prelude.{slice_index_or};
ghost use Rattle.sharc_word.specs.declared.step.TheConstants.{THREADS as threads};
ghost use Rattle.sharc_code.specs.{declared.code.Code.Code, declared.shape.Shape.Shape, Layout.Fits, Machine.Machine};
ghost use Rattle.sharc_code.specs.{Path.begun, Runs.is_started, Whole.bounds};
ghost use Rattle.sharc_threads.specs.{Ends.{Standing, is_enabled, AreStarted, EndIs}, Seats.{AreSeats, AreOf}};
ghost use Rattle.sharc_threads.specs.Seats.{HasBegun, has_number, is_on_at, waits_at, may_turn_at, present};

use crate::end::End;
use crate::state::{is_on, may_turn, waits, word};
use sharc_code::{Code, Shape};
use sharc_cpu::Thread;
use sharc_word::THREADS;
use std::alloc::{AllocError, Global};

/// The threads of a run, each at the place of its number. A thread that was not started has not been made.
#[derive(Drop)]
pub struct ThreadTable {
    pub seats: Vec<Option<Thread>>,
}

// Whether the state word of the thread of this number is 1.
fn is_started(words: &[u64], number: u32) -> bool
    ensures { result ≡ is_started bounds words.now number }
{
    number < THREADS && word(words, 4 + 3 * u64::from(number)) == 1
}

// Whether a thread is there that is neither gone nor stopped.
fn is_on_at(seat: &Option<Thread>) -> bool
    ensures { result ≡ is_on_at seat.now }
{
    match seat {
        None => false,
        Some(thread) => is_on(thread),
    }
}

// Whether a thread is there that waits.
fn waits_at(seat: &Option<Thread>, words: &[u64]) -> bool
    requires { has_number seat.now }
    ensures { result ≡ waits_at words.now seat.now }
{
    match seat {
        None => false,
        Some(thread) => waits(thread, words),
    }
}

/// Whether a thread is there that is enabled.
pub fn may_turn_at(seat: &Option<Thread>, words: &[u64], limit: u64) -> bool
    requires { has_number seat.now }
    ensures { result ≡ may_turn_at words.now limit seat.now }
{
    match seat {
        None => false,
        Some(thread) => may_turn(thread, words, limit),
    }
}

// Makes the thread of this number, if it has not been made and its state word is 1.
fn begin_at(
    alloc: Global,
    code: &Code,
    shape: &Shape,
    words: &[u64],
    number: u32,
    seat: &mut Option<Thread>,
) -> Result<(), AllocError>
    requires fits { Fits code.now shape.now }
    requires number { number < threads }
    ensures { OnOk result (HasBegun code.now shape.now words.now number seat.old seat.new) }
{
    if seat.is_none() && is_started(words, number) {
        *seat = Some(Thread::new(alloc, code, shape, number)?);
    }
    Ok(())
}

// Puts a thread that is there at the end of the list.
fn push_present(threads: &mut Vec<Thread>, seat: Option<Thread>) -> Result<(), AllocError>
    ensures { OnOk result (threads.new.items ≡ threads.old.items ++ present (seat ∷ [])) }
{
    match seat {
        None => Ok(()),
        Some(thread) => {
            threads.push(thread)?;
            Ok(())
        }
    }
}

// This many places with no thread.
fn empty(alloc: Global) -> Result<Vec<Option<Thread>>, AllocError>
    ensures count { IfOk result (λ seats. length seats.items ≡ threads) }
    ensures none { IfOk result (λ seats. (t : ℕ) → slice_index_or seats.items t None ≡ None) }
{
    let mut seats = Vec::with_capacity(alloc, THREADS as usize)?;
    for _ in 0..THREADS {
        seats.push(None)?;
    }
    Ok(seats)
}

impl ThreadTable {
    /// The table of a run of which no turn was made and which begins with these words.
    ///
    /// An `Err` says that memory was not found.
    pub fn open(
        alloc: Global,
        code: &Code,
        shape: &Shape,
        words: &[u64],
    ) -> Result<ThreadTable, AllocError>
        requires { Fits code.now shape.now }
        ensures { IfOk result (λ table. AreSeats code.now shape.now (begun code.now shape.now) (λ t. 0)
            (is_started bounds words.now) table.seats.items) }
    {
        let mut table = ThreadTable {
            seats: empty(alloc)?,
        };
        table.begin(alloc, code, shape, words)?;
        Ok(table)
    }

    /// Makes the threads that have been started: those whose state word is 1.
    ///
    /// An `Err` says that memory was not found. Some of these threads may then have been made.
    pub fn begin(
        &mut self,
        alloc: Global,
        code: &Code,
        shape: &Shape,
        words: &[u64],
    ) -> Result<(), AllocError>
        requires fits { Fits code.now shape.now }
        requires count { length self.old.seats.items ≡ threads }
        ensures count { length self.new.seats.items ≡ length self.old.seats.items }
        ensures each { OnOk result ((t : ℕ) → t < threads → HasBegun code.now shape.now words.now t
            (slice_index_or self.old.seats.items t None) (slice_index_or self.new.seats.items t None)) }
    {
        for number in 0..self.seats.len() {
            begin_at(
                alloc,
                code,
                shape,
                words,
                number as u32,
                &mut self.seats[number],
            )?;
        }
        Ok(())
    }

    // Whether no thread goes on.
    fn all_done(&self) -> bool
        ensures done { result ≡ true → (t : ℕ) → is_on_at (slice_index_or self.now.seats.items t None) ≡ false }
        ensures on { result ≡ false → (t : ℕ) × (is_on_at (slice_index_or self.now.seats.items t None) ≡ true) }
    {
        for seat in &self.seats {
            if is_on_at(seat) {
                return false;
            }
        }
        true
    }

    // Whether each thread that goes on waits.
    fn all_wait(&self, words: &[u64]) -> bool
        requires { (t : ℕ) → has_number (slice_index_or self.now.seats.items t None) }
        ensures wait { result ≡ true → (t : ℕ) → is_on_at (slice_index_or self.now.seats.items t None) ≡ true
            → waits_at words.now (slice_index_or self.now.seats.items t None) ≡ true }
        ensures goes { result ≡ false → (t : ℕ) × (is_on_at (slice_index_or self.now.seats.items t None) ≡ true)
            × (waits_at words.now (slice_index_or self.now.seats.items t None) ≡ false) }
    {
        for seat in &self.seats {
            if is_on_at(seat) && !waits_at(seat, words) {
                return false;
            }
        }
        true
    }

    /// How a run that is at this place ended.
    pub fn end(&self, words: &[u64]) -> End
        requires { (t : ℕ) → has_number (slice_index_or self.now.seats.items t None) }
        ensures { (code : Code) (s : Shape) (g : Standing) → AreOf code s g words.now self.now.seats.items
            → EndIs code s g result }
    {
        if self.all_done() {
            End::AllDone
        } else if self.all_wait(words) {
            End::Stuck
        } else {
            End::Budget
        }
    }

    /// Whether some thread is enabled there.
    pub fn any_may_turn(&self, words: &[u64], limit: u64) -> bool
        requires { (t : ℕ) → has_number (slice_index_or self.now.seats.items t None) }
        ensures none { result ≡ false
            → (t : ℕ) → may_turn_at words.now limit (slice_index_or self.now.seats.items t None) ≡ false }
        ensures one { result ≡ true
            → (t : ℕ) × (may_turn_at words.now limit (slice_index_or self.now.seats.items t None) ≡ true) }
    {
        for seat in &self.seats {
            if may_turn_at(seat, words, limit) {
                return true;
            }
        }
        false
    }

    /// The threads that were started, in rising order of their numbers.
    ///
    /// An `Err` says that memory was not found.
    pub fn into_started(self, alloc: Global) -> Result<Vec<Thread>, AllocError>
        ensures { IfOk result (λ started. started.items ≡ present self.seats.items) }
    {
        let ThreadTable { seats } = self;
        let mut threads = Vec::new(alloc);
        for seat in seats {
            push_present(&mut threads, seat)?;
        }
        Ok(threads)
    }
}
