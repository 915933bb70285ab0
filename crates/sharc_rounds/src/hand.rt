//! A thread in a round.

ghost use Rattle.std.specs.Prelude.{◌≡◌, ◌<◌, ◌≤◌, ◌↔◌, true, Some, IsTrue, length};
ghost use Rattle.sharc_word.specs.declared.step.TheConstants.{THREADS as threads};
ghost use Rattle.sharc_code.specs.Path.{may_go};
ghost use Rattle.sharc_rounds.specs.Round.{AreLentBy, MayTurn, HasRunBy, MayRunBy, KeepsRoom, IsInSection, is_on};

use crate::gate::{Gate, GatedPort};
use crate::lent::Lent;
use crate::share::most_events;
use crate::stint::Stint;
use sharc_bus::{Bus, BusPort, BusSeat, name_laws};
use sharc_cpu::{Thread, run_trying};
use sharc_threads::is_on;
use sharc_word::place_laws;

/// A place of the table of threads, and its seat at what the threads of the round share.
#[derive(Drop)]
pub struct Hand<S> {
    pub seat: Option<Thread>,
    pub port: S,
}

// One go of a thread that is neither gone nor stopped.
fn run_thread<G: Gate>(
    mut thread: Thread,
    port: BusSeat,
    lent: &Lent<Bus, G>,
    worker: u32,
    stint: Stint,
) -> Hand<BusSeat>
    requires lent { AreLentBy lent.now (length lent.now.shared.now.opening) }
    requires bus { port.bus ≡ lent.now.shared.now.id }
    requires some { 0 < stint.turns }
    requires on { may_go thread.machine.at.state ≡ true }
    requires may { MayTurn lent.now.code.now lent.now.shape.now lent.now.limit stint.turns thread port.number }
    ensures ran { HasRunBy lent.now record { seat = Some thread; port = port } result }
    ensures room { KeepsRoom stint.turns (Some thread) result.seat }
{
    name_laws();
    place_laws();
    let most = most_events(thread.made(), lent.limit);
    let mut port = GatedPort {
        port: BusPort::of(lent.shared, port),
        gate: lent.gate,
        worker,
        thread: thread.number(),
    };
    run_trying(
        lent.code,
        Some(lent.plan),
        lent.shape,
        &mut thread,
        &mut port,
        stint.turns,
        most,
        stint.tries,
    );
    let GatedPort { port, .. } = port;
    Hand {
        seat: Some(thread),
        port: port.into_seat(),
    }
}

// Whether a thread is there that goes on, holds a mutex, and asks for nothing that it may have to wait for.
fn is_in_section(seat: &Option<Thread>) -> bool
    ensures { IsTrue result ↔ IsInSection seat.now }
{
    match seat {
        None => false,
        Some(thread) => is_on(thread) && !thread.holds_none() && thread.wait().is_none(),
    }
}

impl Hand<BusSeat> {
    // One go of the thread, which is neither gone nor stopped.
    fn go<G: Gate>(self, lent: &Lent<Bus, G>, worker: u32, stint: Stint) -> Hand<BusSeat>
        requires lent { AreLentBy lent.now (length lent.now.shared.now.opening) }
        requires some { 0 < stint.turns }
        requires on { is_on self.seat ≡ true }
        requires may { MayRunBy lent.now stint.turns self }
        ensures ran { HasRunBy lent.now self result }
        ensures room { KeepsRoom stint.turns self.seat result.seat }
    {
        let Hand { seat, port } = self;
        match seat {
            None => Hand { seat: None, port },
            Some(thread) => run_thread(thread, port, lent, worker, stint),
        }
    }

    /// One stint of the thread, which is neither gone nor stopped. Where it can, it ends with no mutex held: behind the
    /// first go the thread goes on while it is in a critical section, out of the turns that were kept back.
    pub(crate) fn run<G: Gate>(
        self,
        lent: &Lent<Bus, G>,
        worker: u32,
        stint: Stint,
    ) -> Hand<BusSeat>
        requires lent { AreLentBy lent.now (length lent.now.shared.now.opening) }
        requires some { 0 < stint.turns }
        requires on { is_on self.seat ≡ true }
        requires may { MayRunBy lent.now stint.turns self }
        ensures ran { HasRunBy lent.now self result }
        ensures room { KeepsRoom stint.turns self.seat result.seat }
    {
        let first = stint.first();
        let mut left = stint.turns - first.turns;
        let mut hand = self.go(lent, worker, first);
        while left > 0 && is_in_section(&hand.seat) {
            let further = stint.further(left);
            hand = hand.go(lent, worker, further);
            left -= further.turns;
        }
        hand
    }
}
