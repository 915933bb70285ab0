//! One round.

ghost use Rattle.std.specs.Prelude.{◌≡◌, ◌<◌, length, IfOk};
ghost use Rattle.sharc_code.specs.Layout.{Fits, words_of};
ghost use Rattle.sharc_cpu.specs.Rows.{IsPlan};
ghost use Rattle.sharc_rounds.specs.Round.{MayBegin};
ghost use Rattle.sharc_record.specs.Round.{RecordedRound};

use crate::journal::{Journal, QUANTUM};
use crate::shared::SharedJournal;
use crate::worker::run_all;
use sharc_code::{Code, Shape};
use sharc_cpu::RowPlan;
use sharc_rounds::{Gate, Lent, deal, gather, quantum_laws, reserve, workers_needed};
use sharc_threads::ThreadTable;
use sharc_word::{MemPort, THREADS, WordEvent};
use std::alloc::{AllocError, Global};
use std::sync::Wait;
use std::thread::Threads;

/// The threads, the words and the events so far, between two rounds.
#[derive(Drop)]
pub(crate) struct Rounds {
    pub(crate) threads: ThreadTable,
    pub(crate) port: MemPort,
    pub(crate) events: Vec<WordEvent>,
}

impl Rounds {
    /// Each worker gives each of its threads a quantum over one journal.
    ///
    /// An `Err` says that memory was not found.
    pub(crate) fn make<R: Threads + Wait + Sync, G: Gate + Sync>(
        self,
        rt: &R,
        alloc: Global,
        code: &Code,
        plan: &RowPlan,
        shape: &Shape,
        workers: u32,
        limit: u64,
        gate: &G,
    ) -> Result<Rounds, AllocError>
        requires plan { IsPlan code.now plan.now }
        requires fits { Fits code.now shape.now }
        requires workers { 0 < workers }
        requires words { length self.port ≡ words_of shape.now }
        requires seats { MayBegin code.now shape.now limit self.threads.seats.items }
        ensures { IfOk result (λ r. RecordedRound code.now shape.now limit self.port r.port self.threads.seats.items
            r.threads.seats.items self.events.items r.events.items) }
    {
        quantum_laws();
        let Rounds {
            threads,
            port,
            events,
        } = self;
        let ThreadTable { mut seats } = threads;
        reserve(&mut seats, QUANTUM)?;
        let mut journal = Journal {
            words: port,
            events,
        };
        journal.make_room()?;
        let (shared, ports) = SharedJournal::open(alloc, journal, THREADS)?;
        let count = workers_needed(seats.as_slice(), workers);
        let mut workers = deal(alloc, count, seats, ports)?;
        let lent = Lent {
            code,
            plan,
            shape,
            shared: &shared,
            gate,
            limit,
        };
        run_all(rt, &lent, &mut workers);
        let (seats, ports) = gather(alloc, workers)?;
        let Journal {
            words: port,
            events,
        } = shared.close(ports);
        Ok(Rounds {
            threads: ThreadTable { seats },
            port,
            events,
        })
    }
}
