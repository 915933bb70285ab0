//! Whole runs.

ghost use Rattle.std.specs.Prelude.{◌≡◌, ◌≤◌, ℕ, None, length, IfOk, slice_index_or};
ghost use Rattle.sharc_word.specs.declared.step.TheConstants.{THREADS as threads};
ghost use Rattle.sharc_code.specs.{declared.code.Code.Code, declared.shape.Shape.Shape, Layout.Fits};
ghost use Rattle.sharc_threads.specs.{Ends.Standing, Seats.{AreOf, has_number}};
ghost use Rattle.sharc_seq.specs.{Choice.Chooses, Run.IsSeqRun, Table.Ends};

use crate::chooser::Chooser;
use crate::table::Table;
use crate::told::ToldPort;
use crate::walk::Walk;
use sharc_code::{Code, Shape, fits_law, run_laws};
use sharc_cpu::Thread;
use sharc_threads::{End, table_laws};
use sharc_word::THREADS;
use std::alloc::{AllocError, Global};

/// A run that has ended: for each turn the number of the thread that made it, the words, the threads that were started
/// in rising order of their numbers, and how it ended.
#[derive(Drop)]
pub struct SeqRun {
    pub schedule: Vec<u8>,
    pub words: Vec<u64>,
    pub threads: Vec<Thread>,
    pub end: End,
}

// The run that ended there.
fn finish(alloc: Global, table: Table) -> Result<SeqRun, AllocError>
    requires { (t : ℕ) → has_number (slice_index_or table.walk.threads.seats.items t None) }
    ensures { IfOk result (λ run. (code : Code) (s : Shape) (g : Standing) → s.threads ≡ threads
        → AreOf code s g table.walk.port.port table.walk.threads.seats.items → Ends code s g table.schedule.items run) }
{
    table_laws();
    let Table { walk, schedule } = table;
    let Walk {
        threads,
        started: _,
        port,
    } = walk;
    let ToldPort { port, .. } = port;
    let end = threads.end(port.words());
    Ok(SeqRun {
        schedule,
        words: port.into_words(),
        threads: threads.into_started(alloc)?,
        end,
    })
}

/// Runs the code: each turn is made by the thread at the place that the chooser answers for the number of the turn and
/// for how many threads are enabled, these in rising order; a thread is enabled where it was started, is neither gone
/// nor stopped, has made fewer events than `limit`, and does not wait. The run ends where none is.
///
/// An `Err` says that memory was not found.
pub fn run_seq<F: Fn(u64, u64) -> u64>(
    alloc: Global,
    code: &Code,
    shape: &Shape,
    chooser: &Chooser<F>,
    limit: u64,
) -> Result<SeqRun, AllocError>
    requires fits { Fits code.now shape.now }
    requires chooses { Chooses F.pre F.post chooser.now.f }
    requires limit { limit ≤ 100000000 }
    ensures { IfOk result (IsSeqRun (F.post chooser.now.f) code.now shape.now limit) }
{
    fits_law(code, shape);
    run_laws();
    table_laws();
    let mut table = Table::new(alloc, code, shape)?;
    let mut among = Vec::with_capacity(alloc, THREADS as usize)?;
    'turns: loop {
        if !table.turn(alloc, code, shape, chooser, limit, &mut among)? {
            return finish(alloc, table);
        }
    }
}
