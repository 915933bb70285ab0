//! What mutexes and conditions are called, by the last lock or wait of each.

ghost use Rattle.std.specs.Prelude.{◌≡◌, [], ◌∷◌, List, OnOk};
ghost use Rattle.sharc_history.specs.{declared.event.Event.Event, Names.{AreNames, IsNoted}, Places.called};
ghost use Rattle.sharc_history.specs.Places.{last_named, named_by, name_of};

use crate::cells::{Origin, Where};
use crate::event::{Deed, Event};
use crate::places::lvalues::lvalue_of;
use sharc_code::Code;
use std::alloc::{AllocError, Global};
use std::collections::HashMap;

/// Where the last lock or wait of each cell is, of the cells of globals and of objects that were made.
#[derive(Drop)]
pub(crate) struct LastOrigins {
    globals: HashMap<(u32, u64), Origin>,
    made: HashMap<(u64, u64), Origin>,
}

impl LastOrigins {
    /// Before the first event.
    pub(crate) fn new(alloc: Global) -> LastOrigins
        ensures { AreNames result [] }
    {
        LastOrigins {
            globals: HashMap::new(alloc),
            made: HashMap::new(alloc),
        }
    }

    // The last lock or wait of this cell, if there was one.
    fn find(&self, cell: Where) -> Option<Origin>
        ensures { (earlier : List Event) → AreNames self.now earlier → result ≡ last_named earlier cell }
    {
        match cell {
            Where::Global(number, cell) => self.globals.get(&(number, cell)).copied(),
            Where::Made(number, cell) => self.made.get(&(number, cell)).copied(),
        }
    }

    // Notes a lock or a wait of this cell.
    fn put(&mut self, cell: Where, origin: Origin) -> Result<(), AllocError>
        ensures { OnOk result (IsNoted cell origin self.old self.new) }
    {
        match cell {
            Where::Global(number, cell) => {
                self.globals.insert((number, cell), origin)?;
                Ok(())
            }
            Where::Made(number, cell) => {
                self.made.insert((number, cell), origin)?;
                Ok(())
            }
        }
    }

    /// Notes the event, if it is a lock or a wait.
    pub(crate) fn note(&mut self, event: &Event) -> Result<(), AllocError>
        ensures { OnOk result ((earlier : List Event) → AreNames self.old earlier
            → AreNames self.new (event.now ∷ earlier)) }
    {
        match event.deed {
            Deed::Locks(cell) | Deed::Enters(cell) => self.put(cell, event.origin),
            _ => Ok(()),
        }
    }

    // What the cell is called; nothing where it was neither locked nor waited at.
    fn called<'a>(&self, code: &'a Code, cell: Where) -> &'a [u8]
        ensures { (earlier : List Event) → AreNames self.now earlier
            → result.now ≡ called code.now (last_named earlier cell) }
    {
        match self.find(cell) {
            Some(origin) => lvalue_of(code, origin),
            None => b"",
        }
    }

    // What an unlock, a signal and a broadcast are of is called as by the last lock or wait of its cell.
    fn named_by<'a>(&self, code: &'a Code, deed: Deed) -> &'a [u8]
        ensures { (earlier : List Event) → AreNames self.now earlier → result.now ≡ named_by code.now earlier deed }
    {
        match deed {
            Deed::Unlocks(at) | Deed::Signals(at, _) | Deed::Broadcasts(at) => {
                self.called(code, at)
            }
            _ => b"",
        }
    }

    /// How what the event is of is written, where these are the names behind the events before it.
    pub(crate) fn name_of<'a>(&self, code: &'a Code, event: &Event) -> &'a [u8]
        ensures { (earlier : List Event) → AreNames self.now earlier → result.now ≡ name_of code.now earlier event.now }
    {
        let lvalue = lvalue_of(code, event.origin);
        if lvalue.is_empty() {
            self.named_by(code, event.deed)
        } else {
            lvalue
        }
    }
}
