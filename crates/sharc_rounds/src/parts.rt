//! A round that the caller makes alone by parts: it goes round the threads, and makes a part of the quantum of each.

ghost use Rattle.std.specs.Prelude.{◌≡◌, ◌<◌, length};
ghost use Rattle.sharc_rounds.specs.{declared.stint.TheConstants.QUANTUM as quantum, Pace.{next_part, made_at}};
ghost use Rattle.sharc_rounds.specs.{Pace.events_at_hands, Round.{AreLentBy, MayAllRunBy, HaveAllRunBy}};

use crate::gate::Gate;
use crate::hand::Hand;
use crate::lent::Lent;
use crate::pace::made_by;
use crate::stint::{QUANTUM, Stint};
use crate::worker::Worker;
use sharc_bus::{Bus, BusSeat};

// The turns of the first part of a quantum, and the least of each other one.
pub(crate) const PART: u32 = 1_000;

// The turns of the part behind one of so many: about the least, and one more each time, so that no loop of a thread is
// at the same place at the end of each.
fn next_part(turns: u32) -> u32
    ensures { result ≡ next_part turns }
{
    PART + turns % PART + 1
}

// The events that the thread at a place has made.
fn made_at(hand: &Option<Hand<BusSeat>>) -> u64
    ensures { result ≡ made_at hand.now }
{
    match hand {
        None => 0,
        Some(hand) => made_by(&hand.seat),
    }
}

impl Worker<BusSeat> {
    // The events that its threads have made.
    fn events(&self) -> u64
        ensures { result ≡ events_at_hands self.now.hands.items }
    {
        let mut all: u64 = 0;
        for n in 0..self.hands.len() {
            all = all.saturating_add(made_at(&self.hands[n]));
        }
        all
    }

    /// One quantum of each thread by parts: one of each thread, then the next of each, and so on, until the quanta are
    /// made or no thread makes an event. The gate is told that the threads are at so many workers.
    pub(crate) fn run_by_parts<G: Gate>(&mut self, lent: &Lent<Bus, G>, workers: u32)
        requires workers { 0 < workers }
        requires lent { AreLentBy lent.now (length lent.now.shared.now.opening) }
        requires may { MayAllRunBy lent.now quantum self.old }
        ensures { HaveAllRunBy lent.now self.old self.new }
    {
        let mut left = QUANTUM;
        let mut part = PART;
        let mut before = self.events();
        'parts: loop {
            let turns = part.min(left);
            self.run(lent, workers, Stint::alone(turns));
            left -= turns;
            let events = self.events();
            if left == 0 || events == before {
                return;
            }
            before = events;
            part = next_part(turns);
        }
    }
}
