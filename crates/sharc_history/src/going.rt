//! A run by a schedule between two turns, with its events so far.

ghost use Rattle.std.specs.Prelude.{◌≡◌, ◌<◌, ◌≤◌, ◌+◌, ℕ, List, [], true, false, length, get_or, take, IfOk, OnOk};
ghost use Rattle.sharc_word.specs.declared.step.TheConstants.{THREADS as threads};
ghost use Rattle.sharc_code.specs.{Layout.Fits, Runs.Turn};
ghost use Rattle.sharc_schedule.specs.Places.{total};
ghost use Rattle.sharc_seq.specs.Walk.{MayGoOn, events_left};
ghost use Rattle.sharc_history.specs.Going.{GoesAt, IsGoing, OneMore, AwaitsAt, Tells, IsTraced, IsOver};

use crate::elements::{elements_of, note};
use crate::event::{Event, event_of};
use crate::next::{Coming, next_of};
use sharc_code::{Code, Shape, fits_law};
use sharc_schedule::place_at;
use sharc_seq::{Walk, enabled_laws};
use std::alloc::{AllocError, Global};
use std::collections::HashMap;

/// Where the run is, the numbers of those that made the turns so far, the elements of the objects, and the events.
#[derive(Drop)]
pub(crate) struct Going {
    pub(crate) walk: Walk,
    pub(crate) schedule: Vec<u8>,
    pub(crate) made: HashMap<u64, u64>,
    pub(crate) events: Vec<Event>,
}

impl Going {
    /// The run before the first turn.
    ///
    /// An `Err` says that memory was not found.
    pub(crate) fn new(alloc: Global, code: &Code, shape: &Shape) -> Result<Going, AllocError>
        requires { Fits code.now shape.now }
        ensures { IfOk result (GoesAt code.now shape.now []) }
    {
        Ok(Going {
            walk: Walk::new(alloc, code, shape)?,
            schedule: Vec::new(alloc),
            made: HashMap::new(alloc),
            events: Vec::new(alloc),
        })
    }

    // What the next turn of the thread of this number is, which is enabled.
    fn coming(&self, code: &Code, shape: &Shape, limit: u64, number: u8) -> Coming
        requires low { number < threads }
        requires may { MayGoOn code.now shape.now limit number self.now.walk }
        ensures { (turns : List Turn) → GoesAt code.now shape.now turns self.now
            → AwaitsAt code.now shape.now turns number result }
    {
        match self.walk.thread(number) {
            Some(thread) => next_of(code, thread),
            None => unreachable!(),
        }
    }

    // Notes the event of a turn of the thread of this number, if it was one, where that was coming and this was found.
    fn tell(&mut self, number: u8, coming: Coming, found: u64) -> Result<(), AllocError>
        requires { number < threads }
        ensures { OnOk result (Tells number coming found self.old self.new) }
    {
        let elements = elements_of(&self.made, coming.speaks_of(found));
        match event_of(coming, u32::from(number), found, elements) {
            Some(event) => {
                note(&mut self.made, &event)?;
                self.events.push(event)?;
                Ok(())
            }
            None => Ok(()),
        }
    }

    // Makes one turn of the thread, which is enabled.
    fn turn(
        &mut self,
        alloc: Global,
        code: &Code,
        shape: &Shape,
        limit: u64,
        number: u8,
    ) -> Result<(), AllocError>
        requires fits { Fits code.now shape.now }
        requires limit { limit ≤ 100000000 }
        requires low { number < threads }
        requires going { IsGoing code.now shape.now self.old }
        requires may { MayGoOn code.now shape.now limit number self.old.walk }
        ensures went { OnOk result ((turns : List Turn) → GoesAt code.now shape.now turns self.old
            → OneMore code.now shape.now number turns self.new) }
        ensures less { OnOk result (events_left limit self.new.walk < events_left limit self.old.walk) }
    {
        let coming = self.coming(code, shape, limit, number);
        self.schedule.push(number)?;
        self.walk.turn(alloc, code, shape, number, limit)?;
        let found = self.walk.found();
        self.tell(number, coming, found)?;
        Ok(())
    }

    /// Makes the turn that these places choose, and answers whether there was one to make.
    ///
    /// An `Err` says that memory was not found.
    pub(crate) fn go_on(
        &mut self,
        alloc: Global,
        code: &Code,
        shape: &Shape,
        places: &[(u32, u32)],
        ends: &[u64],
        limit: u64,
        among: &mut Vec<u8>,
    ) -> Result<bool, AllocError>
        requires fits { Fits code.now shape.now }
        requires limit { limit ≤ 100000000 }
        requires count { length ends.now ≡ length places.now }
        requires each { (k : ℕ) → k < length places.now → get_or ends.now k 0 ≡ total (take (k + 1) places.now) }
        requires traced { IsTraced code.now shape.now places.now limit self.old }
        ensures traced { IfOk result (λ more. more ≡ true → IsTraced code.now shape.now places.now limit self.new) }
        ensures less { IfOk result (λ more. more ≡ true
            → events_left limit self.new.walk < events_left limit self.old.walk) }
        ensures over { IfOk result (λ more. more ≡ false → IsOver code.now shape.now places.now limit self.new) }
    {
        fits_law(code, shape);
        enabled_laws();
        self.walk.list_enabled(limit, among)?;
        let count = among.len();
        if count == 0 {
            return Ok(false);
        }
        let place = place_at(places, ends, self.schedule.len() as u64, count as u64);
        let number = among[place as usize];
        self.turn(alloc, code, shape, limit, number)?;
        Ok(true)
    }
}
