//! Laws of histories and of ports. A proof above has them where its function calls these.

ghost use Rattle.sharc_word.specs.Laws.{HistoryLaws, PlaceLaws, LeadsJoin};

use crate::port::Port;

/// What holds of every legal history.
#[inline(always)]
pub fn history_laws()
    ensures { HistoryLaws }
{}

/// The events that lead a port from one place to another come in parts.
#[inline(always)]
pub fn port_laws<P: Port>()
    ensures { LeadsJoin P.leads }
{}

/// What holds of the events that lead ports, whether they have their words for themselves or share them.
#[inline(always)]
pub fn place_laws()
    ensures { PlaceLaws }
{}
