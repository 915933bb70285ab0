//! One round.

ghost use Rattle.std.specs.Prelude.{◌≡◌, ◌<◌, ℕ, length, IfOk, slice_index_or};
ghost use Rattle.sharc_word.specs.declared.step.TheConstants.{THREADS as threads};
ghost use Rattle.sharc_code.specs.Layout.{Fits, words_of};
ghost use Rattle.sharc_cpu.specs.Rows.{IsPlan};
ghost use Rattle.sharc_bus.specs.Bus.{SeatView};
ghost use Rattle.sharc_rounds.specs.{declared.stint.TheConstants.QUANTUM as quantum, declared.worker.Worker.Worker};
ghost use Rattle.sharc_rounds.specs.Round.{AreLentBy, MayBegin, MayAllRunBy, HaveAllRunBy, MadeRound, AreWords};
ghost use Rattle.sharc_rounds.specs.Round.{KeptBus};

use crate::gate::Gate;
use crate::lent::Lent;
use crate::pace::Makers;
use crate::room::reserve;
use crate::stint::QUANTUM;
use crate::words::Words;
use crate::worker::{Worker, deal, gather, run_all, workers_needed};
use sharc_bus::{Bus, BusSeat};
use sharc_code::{Code, Shape};
use sharc_cpu::RowPlan;
use sharc_threads::ThreadTable;
use std::alloc::{AllocError, Global};
use std::thread::Threads;

/// The threads and the words between two rounds.
#[derive(Drop)]
pub(crate) struct Rounds {
    pub(crate) threads: ThreadTable,
    pub(crate) words: Words,
}

// Each worker gives each of its threads a quantum.
fn work<R: Threads + Sync, G: Gate + Sync>(
    rt: &R,
    lent: &Lent<Bus, G>,
    workers: u32,
    crew: &mut Vec<Worker<BusSeat>>,
    makers: Makers,
)
    requires lent { AreLentBy lent.now (length lent.now.shared.now.opening) }
    requires workers { 0 < workers }
    requires some { 0 < length crew.old.items }
    requires alone { makers ≡ Makers.CallerByParts → length crew.old.items ≡ 1 }
    requires may { (w : ℕ) (d : Worker SeatView) → w < length crew.old.items
        → MayAllRunBy lent.now quantum (slice_index_or crew.old.items w d) }
    ensures count { length crew.new.items ≡ length crew.old.items }
    ensures each { (w : ℕ) (d : Worker SeatView) → w < length crew.old.items
        → HaveAllRunBy lent.now (slice_index_or crew.old.items w d) (slice_index_or crew.new.items w d) }
{
    match makers {
        Makers::CallerByParts => crew[0].run_by_parts(lent, workers),
        Makers::Workers | Makers::Caller => {
            let threads = makers.threads(crew.len());
            let stint = makers.stint();
            run_all(rt, lent, workers, crew, threads, stint);
        }
    }
}

impl Rounds {
    /// Each worker gives each of its threads a quantum over the bus.
    ///
    /// An `Err` says that memory was not found.
    pub(crate) fn make<R: Threads + Sync, G: Gate + Sync>(
        self,
        rt: &R,
        alloc: Global,
        code: &Code,
        plan: &RowPlan,
        shape: &Shape,
        workers: u32,
        limit: u64,
        gate: &G,
        makers: Makers,
    ) -> Result<Rounds, AllocError>
        requires plan { IsPlan code.now plan.now }
        requires fits { Fits code.now shape.now }
        requires workers { 0 < workers }
        requires words { AreWords self.words }
        requires count { length self.words.rest.words ≡ words_of shape.now }
        requires seats { MayBegin code.now shape.now limit self.threads.seats.items }
        ensures kept { IfOk result (λ r. KeptBus self.words r.words) }
        ensures made { IfOk result (λ r. MadeRound code.now shape.now limit self.words.rest.words r.words.rest.words
            self.threads.seats.items r.threads.seats.items) }
    {
        let Rounds { threads, words } = self;
        let Words { bus, rest, seen } = words;
        let ThreadTable { mut seats } = threads;
        reserve(&mut seats, QUANTUM)?;
        let (ports, round) = bus.begin(alloc, rest)?;
        let count = makers.count(workers_needed(seats.as_slice(), workers));
        let mut crew = deal(alloc, count, seats, ports)?;
        let lent = Lent {
            code,
            plan,
            shape,
            shared: &bus,
            gate,
            limit,
        };
        work(rt, &lent, workers, &mut crew, makers);
        let (seats, ports) = gather(alloc, crew)?;
        let rest = bus.end(round, ports);
        Ok(Rounds {
            threads: ThreadTable { seats },
            words: Words { bus, rest, seen },
        })
    }
}
