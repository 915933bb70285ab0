//! What the workers of a round do.

ghost use Rattle.std.specs.Prelude.{◌≡◌, ◌<◌, ◌^◌, ℕ, length, slice_index_or};
ghost use Rattle.sharc_record.specs.{Shared.SeatView, Round.{MayRunAt, HasRunAt, MayAllBeRunBy, WereAllRunBy}};
ghost use Rattle.sharc_rounds.specs.{declared.worker.Worker.Worker, Round.AreLentBy};

use crate::hand::run_hand;
use crate::seat::JournalSeat;
use crate::shared::SharedJournal;
use sharc_rounds::{Gate, Hand, Lent, Worker};
use std::sync::Wait;
use std::thread;
use std::thread::Threads;

// One quantum of the thread at a place, if there is one.
fn run_at<R: Wait, G: Gate>(
    rt: &R,
    hand: Option<Hand<JournalSeat>>,
    lent: &Lent<SharedJournal, G>,
    number: u32,
) -> Option<Hand<JournalSeat>>
    requires lent { AreLentBy lent.now (length lent.now.shared.now.opened.words) }
    requires may { MayRunAt lent.now.code.now lent.now.shape.now lent.now.limit lent.now.shared.now hand }
    ensures { HasRunAt lent.now.code.now lent.now.shape.now lent.now.limit hand result }
{
    match hand {
        None => None,
        Some(hand) => Some(run_hand(rt, hand, lent, number)),
    }
}

// One quantum of each thread, in rising order of their numbers.
fn run_worker<R: Wait, G: Gate>(
    rt: &R,
    worker: &mut Worker<JournalSeat>,
    lent: &Lent<SharedJournal, G>,
    number: u32,
)
    requires lent { AreLentBy lent.now (length lent.now.shared.now.opened.words) }
    requires may { MayAllBeRunBy lent.now worker.old }
    ensures { WereAllRunBy lent.now worker.old worker.new }
{
    for n in 0..worker.hands.len() {
        let hand = worker.hands[n].take();
        worker.hands[n] = run_at(rt, hand, lent, number);
    }
}

/// Every worker gives each of its threads one quantum. A worker that cannot be started has its work done by another.
pub(crate) fn run_all<R: Threads + Wait + Sync, G: Gate + Sync>(
    rt: &R,
    lent: &Lent<SharedJournal, G>,
    workers: &mut Vec<Worker<JournalSeat>>,
)
    requires lent { AreLentBy lent.now (length lent.now.shared.now.opened.words) }
    requires some { 0 < length workers.old.items }
    requires few { length workers.old.items < 2 ^ 32 }
    requires may { (w : ℕ) (d : Worker SeatView) → w < length workers.old.items
        → MayAllBeRunBy lent.now (slice_index_or workers.old.items w d) }
    ensures count { length workers.new.items ≡ length workers.old.items }
    ensures each { (w : ℕ) (d : Worker SeatView) → w < length workers.old.items
        → WereAllRunBy lent.now (slice_index_or workers.old.items w d) (slice_index_or workers.new.items w d) }
{
    let count = workers.len();
    thread::for_each_mut(
        rt,
        workers.as_mut_slice(),
        count,
        &|w: usize, worker: &mut Worker<JournalSeat>|
            requires lent { AreLentBy lent.now (length lent.now.shared.now.opened.words) }
            requires number { w < 2 ^ 32 }
            requires may { MayAllBeRunBy lent.now worker.old }
            ensures { WereAllRunBy lent.entry.now worker.old worker.new }
        { run_worker(rt, worker, lent, w as u32) },
    );
}
