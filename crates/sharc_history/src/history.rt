//! The source events of a run.

ghost use Rattle.std.specs.Prelude.{◌≤◌, length, IfOk};
ghost use Rattle.sharc_code.specs.Layout.{Fits};
ghost use Rattle.sharc_history.specs.History.{IsHistory};

use crate::event::Event;
use crate::going::Going;
use crate::last::{Last, lasts};
use sharc_code::{Code, Shape, fits_law, run_laws};
use sharc_schedule::ends_of;
use sharc_word::THREADS;
use std::alloc::{AllocError, Global};

/// The events of a run that has ended, in their order, and the threads that then wait or were stopped.
pub struct History {
    pub events: Vec<Event>,
    pub lasts: Vec<Last>,
}

/// A drop that is written out is proved here once; one that is derived is proved in each crate that drops a history.
impl Drop for History {
    fn drop(self) {
        let History { events, lasts } = self;
        drop(events);
        drop(lasts);
    }
}

/// The events of the run of this code in which turn `i` is made by the thread at the place that is written for it, if
/// there is one and it is below the number of threads that are enabled, and else by the first. No thread makes more
/// than `limit` events.
///
/// An `Err` says that memory was not found.
pub fn history_by_schedule(
    alloc: Global,
    code: &Code,
    shape: &Shape,
    places: &[(u32, u32)],
    limit: u64,
) -> Result<History, AllocError>
    requires fits { Fits code.now shape.now }
    requires limit { limit ≤ 100000000 }
    requires few { length places.now ≤ 1073741824 }
    ensures { IfOk result (IsHistory code.now shape.now places.now limit) }
{
    fits_law(code, shape);
    run_laws();
    let ends = ends_of(alloc, places)?;
    let mut among = Vec::with_capacity(alloc, THREADS as usize)?;
    let mut going = Going::new(alloc, code, shape)?;
    'turns: loop {
        if !going.go_on(alloc, code, shape, places, &ends, limit, &mut among)? {
            let Going { events, walk, .. } = going;
            let lasts = lasts(alloc, code, &walk)?;
            return Ok(History { events, lasts });
        }
    }
}
