//! The schedule of a run, made from its word events.

ghost use Rattle.std.specs.Prelude.{◌≡◌, ◌<◌, ◌≤◌, ◌+◌, ℕ, true, List, IfOk, OnOk, if◌then◌else◌};
ghost use Rattle.sharc_word.specs.declared.step.TheConstants.{THREADS as threads};
ghost use Rattle.sharc_code.specs.{Layout.Fits, Runs.Turn, declared.code.Code.Code, declared.shape.Shape.Shape};
ghost use Rattle.sharc_code.specs.Whole.{place_after};
ghost use Rattle.sharc_cpu.specs.Rows.{IsPlan};
ghost use Rattle.sharc_threads.specs.Ends.{is_enabled};
ghost use Rattle.sharc_seq.specs.{Quiet.IsQuiet, Run.enabled, Walk.{IsWalk, MayGoOn, StandsAt, events_left}};
ghost use Rattle.sharc_schedule.specs.Going.{GoesAt, Hurried, HurriedOn, IsGoing, OneMore, Reached};
ghost use Rattle.sharc_schedule.specs.{Journal.IsJournalOf, Schedule.{place_in, schedule_of}};

use crate::counting::count;
use crate::file::Places;
use sharc_code::{Code, Shape, fits_law, run_laws, thread_laws};
use sharc_cpu::RowPlan;
use sharc_seq::{Quiet, Walk};
use sharc_threads::table_laws;
use sharc_word::{THREADS, WordEvent};
use std::alloc::{AllocError, Global};

/// A run, with the places of its turns.
#[derive(Drop)]
pub(crate) struct Going {
    pub(crate) walk: Walk,
    pub(crate) places: Vec<(u32, u32)>,
}

// 1 for a thread that is enabled, else 0.
fn one_if(enabled: bool) -> u32
    ensures { result ≡ (if enabled then 1 else 0) }
{
    if enabled { 1 } else { 0 }
}

// The place of a thread that is enabled, among all that are: so many with lower numbers are enabled.
fn place_of(walk: &Walk, limit: u64, t: u8) -> u32
    requires low { t < threads }
    requires walk { (code : Code) × (s : Shape) × IsWalk code s walk.now }
    ensures { (code : Code) (s : Shape) (turns : List Turn) → s.threads ≡ threads → StandsAt code s turns walk.now
        → is_enabled code s limit (place_after code s turns) t ≡ true
        → result ≡ place_in t (enabled code s limit (place_after code s turns)) }
{
    let mut place = 0;
    for n in 0..t {
        let enabled = walk.may_turn(n, limit);
        let one = one_if(enabled);
        place += one;
    }
    place
}

impl Going {
    // Makes one turn of the thread, which is enabled and has this place, writes the place, and answers whether it made
    // a word operation.
    fn turn(
        &mut self,
        alloc: Global,
        code: &Code,
        shape: &Shape,
        limit: u64,
        t: u8,
        place: u32,
    ) -> Result<bool, AllocError>
        requires fits { Fits code.now shape.now }
        requires limit { limit ≤ 100000000 }
        requires going { IsGoing code.now shape.now limit self.old }
        requires may { MayGoOn code.now shape.now limit t self.old.walk }
        requires place { (turns : List Turn) → StandsAt code.now shape.now turns self.old.walk
            → place ≡ place_in t (enabled code.now shape.now limit (place_after code.now shape.now turns)) }
        ensures went { IfOk result (λ told. (turns : List Turn) → GoesAt code.now shape.now limit turns self.old
            → OneMore code.now shape.now limit t turns told self.new) }
        ensures less { IfOk result (λ told. events_left limit self.new.walk < events_left limit self.old.walk) }
    {
        fits_law(code, shape);
        run_laws();
        thread_laws();
        table_laws();
        count(&mut self.places, place, 1)?;
        let told = self.walk.turn(alloc, code, shape, t, limit)?;
        Ok(told)
    }

    // Makes turns of the thread, which is enabled and has this place, that are known to have no word operation, writes
    // their places, and answers how many.
    fn hurry(
        &mut self,
        code: &Code,
        plan: &RowPlan,
        quiet: &Quiet,
        shape: &Shape,
        limit: u64,
        t: u8,
        place: u32,
    ) -> Result<u64, AllocError>
        requires plan { IsPlan code.now plan.now }
        requires quiet { IsQuiet code.now quiet.now }
        requires fits { Fits code.now shape.now }
        requires limit { limit ≤ 100000000 }
        requires going { IsGoing code.now shape.now limit self.old }
        requires may { MayGoOn code.now shape.now limit t self.old.walk }
        requires place { (turns : List Turn) → StandsAt code.now shape.now turns self.old.walk
            → place ≡ place_in t (enabled code.now shape.now limit (place_after code.now shape.now turns)) }
        ensures went { IfOk result (λ made. (turns : List Turn) → GoesAt code.now shape.now limit turns self.old
            → Hurried code.now shape.now limit t turns made self.new) }
        ensures left { IfOk result (λ made. events_left limit self.new.walk + made ≤ events_left limit self.old.walk) }
    {
        fits_law(code, shape);
        run_laws();
        thread_laws();
        table_laws();
        let made = self.walk.quiet_turns(code, plan, quiet, shape, t, limit);
        if made > 0 {
            count(&mut self.places, place, made as u32)?;
        }
        Ok(made)
    }

    // Makes such turns as long as some are known and the thread is enabled, and answers whether it is enabled then.
    fn hurry_on(
        &mut self,
        code: &Code,
        plan: &RowPlan,
        quiet: &Quiet,
        shape: &Shape,
        limit: u64,
        t: u8,
        place: u32,
    ) -> Result<bool, AllocError>
        requires plan { IsPlan code.now plan.now }
        requires quiet { IsQuiet code.now quiet.now }
        requires fits { Fits code.now shape.now }
        requires limit { limit ≤ 100000000 }
        requires going { IsGoing code.now shape.now limit self.old }
        requires low { t < threads }
        requires may { MayGoOn code.now shape.now limit t self.old.walk }
        requires place { (turns : List Turn) → StandsAt code.now shape.now turns self.old.walk
            → place ≡ place_in t (enabled code.now shape.now limit (place_after code.now shape.now turns)) }
        ensures went { IfOk result (λ on. (turns : List Turn) → GoesAt code.now shape.now limit turns self.old
            → HurriedOn code.now shape.now limit t turns on self.new) }
        ensures left { IfOk result (λ on. events_left limit self.new.walk ≤ events_left limit self.old.walk) }
    {
        fits_law(code, shape);
        run_laws();
        thread_laws();
        table_laws();
        'turns: loop {
            let made = self.hurry(code, plan, quiet, shape, limit, t, place)?;
            if made == 0 {
                return Ok(true);
            }
            let on = self.walk.may_turn(t, limit);
            if !on {
                return Ok(false);
            }
        }
    }

    // Makes turns of the thread until one has made a word operation, or until the thread is not enabled. Its place
    // stays the same up to there, since only a word operation changes who else is enabled.
    fn reach(
        &mut self,
        alloc: Global,
        code: &Code,
        plan: &RowPlan,
        quiet: &Quiet,
        shape: &Shape,
        limit: u64,
        t: u8,
    ) -> Result<(), AllocError>
        requires plan { IsPlan code.now plan.now }
        requires quiet { IsQuiet code.now quiet.now }
        requires fits { Fits code.now shape.now }
        requires limit { limit ≤ 100000000 }
        requires going { IsGoing code.now shape.now limit self.old }
        requires low { t < threads }
        ensures { OnOk result ((turns : List Turn) → GoesAt code.now shape.now limit turns self.old
            → Reached code.now shape.now limit t turns self.new) }
    {
        fits_law(code, shape);
        run_laws();
        thread_laws();
        table_laws();
        let may = self.walk.may_turn(t, limit);
        if !may {
            return Ok(());
        }
        let place = place_of(&self.walk, limit, t);
        'turns: loop {
            let on = self.hurry_on(code, plan, quiet, shape, limit, t, place)?;
            if !on {
                return Ok(());
            }
            let told = self.turn(alloc, code, shape, limit, t, place)?;
            if told {
                return Ok(());
            }
            let still = self.walk.may_turn(t, limit);
            if !still {
                return Ok(());
            }
        }
    }
}

/// The schedule of the run whose word events these are: for each event the thread that made it makes turns until one
/// has made a word operation, or until it waits, and then each thread makes those that are left to it.
///
/// An `Err` says that memory was not found.
pub fn make_places(
    alloc: Global,
    code: &Code,
    plan: &RowPlan,
    shape: &Shape,
    journal: &[WordEvent],
    limit: u64,
) -> Result<Places, AllocError>
    requires plan { IsPlan code.now plan.now }
    requires fits { Fits code.now shape.now }
    requires limit { limit ≤ 100000000 }
    requires run { (turns : List Turn) × IsJournalOf code.now shape.now limit journal.now turns }
    ensures { IfOk result (λ places. (turns : List Turn) → IsJournalOf code.now shape.now limit journal.now turns
        → places ≡ schedule_of code.now shape.now limit turns) }
{
    fits_law(code, shape);
    run_laws();
    thread_laws();
    let quiet = Quiet::of(alloc, code)?;
    let mut going = Going {
        walk: Walk::new(alloc, code, shape)?,
        places: Vec::new(alloc),
    };
    for i in 0..journal.len() {
        let t = journal[i].thread as u8;
        going.reach(alloc, code, plan, &quiet, shape, limit, t)?;
    }
    for t in 0..THREADS {
        going.reach(alloc, code, plan, &quiet, shape, limit, t as u8)?;
    }
    let Going { places, .. } = going;
    Ok(Places::new(places))
}
