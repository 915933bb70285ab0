//! A run by a chooser between two turns.

ghost use Rattle.std.specs.Prelude.{◌≡◌, ◌<◌, ◌≤◌, [], true, false, IfOk};
ghost use Rattle.sharc_code.specs.Layout.{Fits};
ghost use Rattle.sharc_seq.specs.{Choice.Chooses, Table.{IsTable, IsOver}, Walk.{StandsAt, events_left}};

use crate::chooser::Chooser;
use crate::walk::Walk;
use sharc_code::{Code, Shape, fits_law};
use std::alloc::{AllocError, Global};

/// Where the run is, and the numbers of those that made the turns so far.
#[derive(Drop)]
pub(crate) struct Table {
    pub(crate) walk: Walk,
    pub(crate) schedule: Vec<u8>,
}

impl Table {
    /// The table before the first turn.
    ///
    /// An `Err` says that memory was not found.
    pub(crate) fn new(alloc: Global, code: &Code, shape: &Shape) -> Result<Table, AllocError>
        requires { Fits code.now shape.now }
        ensures { IfOk result (λ table. StandsAt code.now shape.now [] table.walk × (table.schedule.items ≡ [])) }
    {
        Ok(Table {
            walk: Walk::new(alloc, code, shape)?,
            schedule: Vec::new(alloc),
        })
    }

    /// Makes the turn that the chooser chooses, and answers whether there was one to make.
    ///
    /// An `Err` says that memory was not found.
    pub(crate) fn turn<F: Fn(u64, u64) -> u64>(
        &mut self,
        alloc: Global,
        code: &Code,
        shape: &Shape,
        chooser: &Chooser<F>,
        limit: u64,
        among: &mut Vec<u8>,
    ) -> Result<bool, AllocError>
        requires fits { Fits code.now shape.now }
        requires chooses { Chooses F.pre F.post chooser.now.f }
        requires limit { limit ≤ 100000000 }
        requires table { IsTable (F.post chooser.now.f) code.now shape.now limit self.old }
        ensures table { IfOk result (λ more. more ≡ true
            → IsTable (F.post chooser.now.f) code.now shape.now limit self.new) }
        ensures less { IfOk result (λ more. more ≡ true
            → events_left limit self.new.walk < events_left limit self.old.walk) }
        ensures over { IfOk result (λ more. more ≡ false
            → IsOver (F.post chooser.now.f) code.now shape.now limit self.new) }
    {
        fits_law(code, shape);
        self.walk.list_enabled(limit, among)?;
        let count = among.len();
        if count == 0 {
            return Ok(false);
        }
        let place = chooser.place(self.schedule.len() as u64, count as u64);
        let number = among[place as usize];
        self.schedule.push(number)?;
        self.walk.turn(alloc, code, shape, number, limit)?;
        Ok(true)
    }
}
