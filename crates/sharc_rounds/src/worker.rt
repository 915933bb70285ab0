//! The workers of a round: which threads each has, and what they do.

ghost use Rattle.std.specs.Prelude.{◌≡◌, ◌<◌, ◌≤◌, ◌%◌, ◌^◌, ℕ, IsSome, length, Option, Some, None, IfOk};
ghost use Rattle.std.specs.Prelude.{slice_index_or};
ghost use Rattle.sharc_word.specs.declared.step.TheConstants.{THREADS as threads};
ghost use Rattle.sharc_bus.specs.Bus.{SeatView};
ghost use Rattle.sharc_rounds.specs.{declared.hand.Hand.Hand, declared.worker.Worker.Worker, Shares.needed};
ghost use Rattle.sharc_rounds.specs.Round.{AreLentBy, MayRunAt, HasRunAt, KeepsRoomAt, MayAllRunBy, HaveAllRunBy};
ghost use Rattle.sharc_rounds.specs.Round.{KeepAllRoom, Seat, goes_on, hand_at};

use crate::gate::Gate;
use crate::hand::Hand;
use crate::lent::Lent;
use crate::stint::Stint;
use sharc_bus::{Bus, BusSeat};
use sharc_cpu::Thread;
use sharc_threads::is_on;
use sharc_word::THREADS;
use std::alloc::{AllocError, Global};
use std::thread;
use std::thread::Threads;

/// The threads of one worker: each is at its number, and the places of others are empty.
#[derive(Drop)]
pub struct Worker<S> {
    pub hands: Vec<Option<Hand<S>>>,
}

/// How many of these workers there are up to the last that has a thread, where thread `n` is at worker `n % workers`;
/// at least one. The others would have nothing to do, and without them each thread has the same worker.
pub fn workers_needed(seats: &[Option<Thread>], workers: u32) -> u32
    requires { 0 < workers }
    ensures is { result ≡ needed seats.now workers }
    ensures some { 0 < result }
    ensures same { (n : ℕ) → IsSome (slice_index_or seats.now n None) → n % result ≡ n % workers }
{
    let mut behind = 0;
    for n in 0..seats.len() {
        if seats[n].is_some() {
            behind = n + 1;
        }
    }
    if behind < workers as usize {
        (behind as u32).max(1)
    } else {
        workers
    }
}

// Whether a thread is at the place that is neither gone nor stopped.
fn goes_on(hand: &Option<Hand<BusSeat>>) -> bool
    ensures { result ≡ goes_on hand.now }
{
    match hand {
        None => false,
        Some(hand) => match &hand.seat {
            None => false,
            Some(thread) => is_on(thread),
        },
    }
}

// One stint of the thread at a place, if one is there that is neither gone nor stopped.
fn run_at<G: Gate>(hand: &mut Option<Hand<BusSeat>>, lent: &Lent<Bus, G>, number: u32, stint: Stint)
    requires lent { AreLentBy lent.now (length lent.now.shared.now.opening) }
    requires some { 0 < stint.turns }
    requires may { MayRunAt lent.now.code.now lent.now.shape.now lent.now.limit lent.now.shared.now stint.turns
        hand.old }
    ensures ran { HasRunAt lent.now.code.now lent.now.shape.now lent.now.limit hand.old hand.new }
    ensures room { KeepsRoomAt stint.turns hand.old hand.new }
{
    if !goes_on(hand) {
        return;
    }
    *hand = match hand.take() {
        None => None,
        Some(hand) => Some(hand.run(lent, number, stint)),
    };
}

impl<S: Drop> Worker<S> {
    // A worker with no thread.
    fn new(alloc: Global) -> Result<Worker<S>, AllocError>
        ensures { IfOk result (λ w. (length w.hands.items ≡ threads)
            × ((n : ℕ) → slice_index_or w.hands.items n None ≡ None)) }
    {
        let mut hands = Vec::with_capacity(alloc, THREADS as usize)?;
        for _ in 0..THREADS {
            hands.push(None)?;
        }
        Ok(Worker { hands })
    }
}

impl Worker<BusSeat> {
    /// One stint of each thread, in rising order of their numbers.
    pub(crate) fn run<G: Gate>(&mut self, lent: &Lent<Bus, G>, workers: u32, stint: Stint)
        requires workers { 0 < workers }
        requires lent { AreLentBy lent.now (length lent.now.shared.now.opening) }
        requires some { 0 < stint.turns }
        requires may { MayAllRunBy lent.now stint.turns self.old }
        ensures ran { HaveAllRunBy lent.now self.old self.new }
        ensures room { KeepAllRoom stint.turns self.old self.new }
    {
        for n in 0..self.hands.len() {
            let worker = (n % workers as usize) as u32;
            run_at(&mut self.hands[n], lent, worker, stint);
        }
    }
}

// This many workers with no thread.
fn idle<S: Drop>(alloc: Global, count: u32) -> Result<Vec<Worker<S>>, AllocError>
    ensures count { IfOk result (λ all. length all.items ≡ count) }
    ensures each { IfOk result (λ all. (w : ℕ) (d : Worker S) → w < count
        → length (slice_index_or all.items w d).hands.items ≡ threads) }
    ensures none { IfOk result (λ all. (w n : ℕ) (d : Worker S) → w < count → hand_at all.items w n d ≡ None) }
{
    let mut workers = Vec::new(alloc);
    for _ in 0..count {
        workers.push(Worker::new(alloc)?)?;
    }
    Ok(workers)
}

/// Gives each thread, with its seat at what the round shares, to the worker of its number modulo the number of workers.
///
/// An `Err` says that memory was not found.
pub fn deal<S: Drop>(
    alloc: Global,
    count: u32,
    seats: Vec<Option<Thread>>,
    ports: Vec<S>,
) -> Result<Vec<Worker<S>>, AllocError>
    requires some { 0 < count }
    requires seats { length seats.items ≡ threads }
    requires ports { length ports.items ≡ threads }
    ensures count { IfOk result (λ all. length all.items ≡ count) }
    ensures each { IfOk result (λ all. (n : ℕ) (d : Worker S) (a : Seat) (p : S) → n < threads
        → hand_at all.items (n % count) n d
        ≡ Some record { seat = slice_index_or seats.items n a; port = slice_index_or ports.items n p }) }
    ensures only { IfOk result (λ all. (w n : ℕ) (d : Worker S) (hand : Hand S) → w < count
        → hand_at all.items w n d ≡ Some hand → (n < threads) × (hand
        ≡ record { seat = slice_index_or seats.items n hand.seat; port = slice_index_or ports.items n hand.port })) }
{
    let mut workers = idle(alloc, count)?;
    let mut n = 0;
    for (seat, port) in seats.into_iter().zip(ports) {
        workers[n % count as usize].hands[n] = Some(Hand { seat, port });
        n += 1;
    }
    Ok(workers)
}

/// Every worker gives each of its threads one stint, in so many threads of the system. The work of one that cannot be
/// started is done by another.
pub(crate) fn run_all<R: Threads + Sync, G: Gate + Sync>(
    rt: &R,
    lent: &Lent<Bus, G>,
    workers: u32,
    crew: &mut Vec<Worker<BusSeat>>,
    threads: usize,
    stint: Stint,
)
    requires lent { AreLentBy lent.now (length lent.now.shared.now.opening) }
    requires workers { 0 < workers }
    requires threads { 0 < threads }
    requires some { 0 < stint.turns }
    requires may { (w : ℕ) (d : Worker SeatView) → w < length crew.old.items
        → MayAllRunBy lent.now stint.turns (slice_index_or crew.old.items w d) }
    ensures count { length crew.new.items ≡ length crew.old.items }
    ensures each { (w : ℕ) (d : Worker SeatView) → w < length crew.old.items
        → HaveAllRunBy lent.now (slice_index_or crew.old.items w d) (slice_index_or crew.new.items w d) }
{
    thread::for_each_mut(
        rt,
        crew.as_mut_slice(),
        threads,
        &|_w: usize, worker: &mut Worker<BusSeat>|
            requires lent { AreLentBy lent.now (length lent.now.shared.now.opening) }
            requires workers { 0 < workers }
            requires some { 0 < stint.turns }
            requires may { MayAllRunBy lent.now stint.turns worker.old }
            ensures { HaveAllRunBy lent.entry.now worker.old worker.new }
        { worker.run(lent, workers, stint) },
    );
}

/// Takes all threads and their seats back, in the order of their numbers.
///
/// An `Err` says that memory was not found.
pub fn gather<S: Drop>(
    alloc: Global,
    mut workers: Vec<Worker<S>>,
) -> Result<(Vec<Option<Thread>>, Vec<S>), AllocError>
    requires some { 0 < length workers.items }
    requires each { (n : ℕ) (d : Worker S) → n < threads
        → (hand : Hand S) × (hand_at workers.items (n % length workers.items) n d ≡ Some hand) }
    ensures seats { IfOk result (λ r. length r.0.items ≡ threads) }
    ensures ports { IfOk result (λ r. length r.1.items ≡ threads) }
    ensures each { IfOk result (λ r. (n : ℕ) (d : Worker S) (a : Seat) (p : S) → n < threads
        → hand_at workers.items (n % length workers.items) n d
        ≡ Some record { seat = slice_index_or r.0.items n a; port = slice_index_or r.1.items n p }) }
{
    let mut seats = Vec::with_capacity(alloc, THREADS as usize)?;
    let mut ports = Vec::with_capacity(alloc, THREADS as usize)?;
    let count = workers.len();
    for n in 0..THREADS as usize {
        let Hand { seat, port } = workers[n % count].hands[n].take().unwrap();
        seats.push(seat)?;
        ports.push(port)?;
    }
    Ok((seats, ports))
}
