//! A run whose turns the caller picks.

ghost use Rattle.std.specs.Prelude.{◌≡◌, ◌<◌, ◌≤◌, ◌+◌, ℕ, [], None, true, List, length, filter, is_some, IfOk, OnOk};
ghost use Rattle.std.specs.{Prelude.{slice_index, slice_index_or}, Option.option_copied, List.range_with_len};
ghost use Rattle.sharc_word.specs.declared.step.TheConstants.{THREADS as threads};
ghost use Rattle.sharc_code.specs.{declared.code.Code.Code, declared.shape.Shape.Shape, Layout.Fits, Runs.Turn};
ghost use Rattle.sharc_code.specs.Whole.{place_after};
ghost use Rattle.sharc_cpu.specs.Rows.{IsPlan};
ghost use Rattle.sharc_threads.specs.{Ends.is_enabled, Seats.{has_number, may_turn_at}};
ghost use Rattle.sharc_seq.specs.{Run.enabled, Quiet.IsQuiet, Walk.{Began, HaveBegun, StandsAt, IsWalk, IsThreadThere}};
ghost use Rattle.sharc_seq.specs.Walk.{MayGoOn, WentOn, WentQuietly, events_left};

use crate::quiet::Quiet;
use crate::told::ToldPort;
use crate::turn::{quiet_turns_at, turn_at};
use sharc_code::{Code, Shape, fits_law, opening, standing_laws, thread_laws};
use sharc_cpu::{RowPlan, Thread};
use sharc_threads::{ThreadTable, may_turn_at, table_laws};
use sharc_word::{MemPort, THREADS};
use std::alloc::{AllocError, Global};

/// A run of which the caller picks each turn: its threads, the numbers of those that were started in rising order, and
/// the words.
#[derive(Drop)]
pub struct Walk {
    pub(crate) threads: ThreadTable,
    pub(crate) started: Vec<u8>,
    pub(crate) port: ToldPort,
}

// Lists the numbers of the threads that were started, in rising order.
fn list_started(table: &ThreadTable, started: &mut Vec<u8>) -> Result<(), AllocError>
    requires { length table.now.seats.items ≡ threads }
    ensures { OnOk result (started.new.items
        ≡ filter (λ t. is_some (slice_index_or table.now.seats.items t None)) (range_with_len 0 threads)) }
{
    started.clear();
    for number in 0..table.seats.len() {
        if table.seats[number].is_some() {
            started.push(number as u8)?;
        }
    }
    Ok(())
}

// The numbers of the threads that are enabled, among those that were started, in their order.
fn collect(
    table: &ThreadTable,
    started: &Vec<u8>,
    words: &[u64],
    limit: u64,
    among: &mut Vec<u8>,
) -> Result<(), AllocError>
    requires numbers { (t : ℕ) → has_number (slice_index_or table.now.seats.items t None) }
    requires within { (i : ℕ) → i < length started.now.items
        → slice_index started.now.items i < length table.now.seats.items }
    ensures { OnOk result (among.new.items
        ≡ filter (λ t. may_turn_at words.now limit (slice_index_or table.now.seats.items t None)) started.now.items) }
{
    among.clear();
    for index in 0..started.len() {
        let number = started[index];
        if may_turn_at(&table.seats[number as usize], words, limit) {
            among.push(number)?;
        }
    }
    Ok(())
}

// Makes the threads that have been started, and lists all anew.
fn begin_all(
    alloc: Global,
    code: &Code,
    shape: &Shape,
    words: &[u64],
    table: &mut ThreadTable,
    started: &mut Vec<u8>,
) -> Result<(), AllocError>
    requires fits { Fits code.now shape.now }
    requires count { length table.old.seats.items ≡ threads }
    ensures { OnOk result
        (HaveBegun code.now shape.now words.now table.old.seats.items table.new.seats.items started.new.items) }
{
    table.begin(alloc, code, shape, words)?;
    list_started(table, started)?;
    Ok(())
}

// So it does after a turn that starts the thread of this number, and nothing after one that starts none.
fn begin(
    begins: Option<u32>,
    alloc: Global,
    code: &Code,
    shape: &Shape,
    words: &[u64],
    table: &mut ThreadTable,
    started: &mut Vec<u8>,
) -> Result<(), AllocError>
    requires fits { Fits code.now shape.now }
    requires count { length table.old.seats.items ≡ threads }
    ensures { OnOk result (Began code.now shape.now words.now begins table.old.seats.items table.new.seats.items
        started.old.items started.new.items) }
{
    match begins {
        None => Ok(()),
        Some(_) => begin_all(alloc, code, shape, words, table, started),
    }
}

impl Walk {
    /// The run before the first turn.
    ///
    /// An `Err` says that memory was not found.
    pub fn new(alloc: Global, code: &Code, shape: &Shape) -> Result<Walk, AllocError>
        requires { Fits code.now shape.now }
        ensures { IfOk result (StandsAt code.now shape.now []) }
    {
        table_laws();
        let port = MemPort::new(opening(alloc, code, shape)?);
        let words = port.words();
        let threads = ThreadTable::open(alloc, code, shape, words)?;
        let mut started = Vec::with_capacity(alloc, THREADS as usize)?;
        list_started(&threads, &mut started)?;
        Ok(Walk {
            threads,
            started,
            port: ToldPort {
                port,
                told: false,
                found: 0,
            },
        })
    }

    /// The thread of this number, if it was started.
    pub fn thread(&self, number: u8) -> Option<&Thread>
        requires number { number < threads }
        requires walk { (code : Code) × (s : Shape) × IsWalk code s self.now }
        ensures { (code : Code) (s : Shape) (turns : List Turn) → StandsAt code s turns self.now
            → IsThreadThere code s turns number (option_copied result) }
    {
        self.threads.seats[number as usize].as_ref()
    }

    /// What the word operation of the last turn found; 0 where it had none.
    pub fn found(&self) -> u64
        ensures { result ≡ self.now.port.found }
    {
        self.port.found
    }

    /// Whether the thread of this number is enabled.
    pub fn may_turn(&self, number: u8, limit: u64) -> bool
        requires number { number < threads }
        requires walk { (code : Code) × (s : Shape) × IsWalk code s self.now }
        ensures { (code : Code) (s : Shape) (turns : List Turn) → StandsAt code s turns self.now
            → result ≡ is_enabled code s limit (place_after code s turns) number }
    {
        table_laws();
        may_turn_at(
            &self.threads.seats[number as usize],
            self.port.port.words(),
            limit,
        )
    }

    /// Lists the numbers of the threads that are enabled, in rising order.
    ///
    /// An `Err` says that memory was not found.
    pub fn list_enabled(&self, limit: u64, among: &mut Vec<u8>) -> Result<(), AllocError>
        requires { (code : Code) × (s : Shape) × IsWalk code s self.now }
        ensures { OnOk result ((code : Code) (s : Shape) (turns : List Turn) → s.threads ≡ threads
            → StandsAt code s turns self.now → among.new.items ≡ enabled code s limit (place_after code s turns)) }
    {
        table_laws();
        let words = self.port.port.words();
        collect(&self.threads, &self.started, words, limit, among)?;
        Ok(())
    }

    /// Makes a turn of the thread of this number, which is enabled, and answers whether it made a word operation.
    ///
    /// An `Err` says that memory was not found.
    pub fn turn(
        &mut self,
        alloc: Global,
        code: &Code,
        shape: &Shape,
        number: u8,
        limit: u64,
    ) -> Result<bool, AllocError>
        requires fits { Fits code.now shape.now }
        requires limit { limit ≤ 100000000 }
        requires may { MayGoOn code.now shape.now limit number self.old }
        ensures went { IfOk result (λ told. (turns : List Turn) → StandsAt code.now shape.now turns self.old
            → WentOn code.now shape.now number turns told self.new) }
        ensures less { IfOk result (λ told. events_left limit self.new < events_left limit self.old) }
    {
        fits_law(code, shape);
        standing_laws();
        table_laws();
        let begins = turn_at(
            &mut self.threads.seats[number as usize],
            code,
            shape,
            &mut self.port,
            limit,
        )?;
        let now = self.port.port.words();
        begin(
            begins,
            alloc,
            code,
            shape,
            now,
            &mut self.threads,
            &mut self.started,
        )?;
        Ok(self.port.told)
    }

    /// Makes turns of the thread of this number, which is enabled, that are known to have no word operation, and
    /// answers how many.
    pub fn quiet_turns(
        &mut self,
        code: &Code,
        plan: &RowPlan,
        quiet: &Quiet,
        shape: &Shape,
        number: u8,
        limit: u64,
    ) -> u64
        requires plan { IsPlan code.now plan.now }
        requires quiet { IsQuiet code.now quiet.now }
        requires fits { Fits code.now shape.now }
        requires limit { limit ≤ 100000000 }
        requires may { MayGoOn code.now shape.now limit number self.old }
        ensures went { (turns : List Turn) → StandsAt code.now shape.now turns self.old
            → WentQuietly code.now shape.now limit number turns result self.new }
        ensures few { result ≤ limit }
        ensures left { events_left limit self.new + result ≤ events_left limit self.old }
    {
        fits_law(code, shape);
        standing_laws();
        table_laws();
        thread_laws();
        quiet_turns_at(
            &mut self.threads.seats[number as usize],
            code,
            plan,
            quiet,
            shape,
            &mut self.port,
            limit,
        )
    }
}
