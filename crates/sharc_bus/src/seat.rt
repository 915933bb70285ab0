//! The seat of one port at a bus.

ghost use Rattle.std.specs.Prelude.{◌≡◌, ◌<◌, ◌++◌, ◌∷◌, [], length};

use crate::bus::Bus;
use crate::rule::Parts;
use crate::step::make_step;
use atomic_table::Seat;
use sharc_word::WordStep;
use std::alloc::Allocator;
use std::marker::Model;

/// The right to make the steps of one port of a bus in a round, with the events that this port has made in it, which
/// take no memory.
///
/// Contracts see it as a `SeatView`.
#[derive(Drop)]
pub struct BusSeat {
    pub(crate) seat: Seat<(), Parts>,
    pub(crate) bit: u64,
}

impl Model for BusSeat {
    ghost use Rattle.std.specs.Prelude.{◌≡◌, [], ◌∷◌};
    ghost use Rattle.sharc_bus.specs.{declared.rule.Part.Part, Bus.SeatView, Rule.{own_bit, first_number}};
    ghost use Rattle.sharc_bus.specs.Table.{seat_view};

    ghost Value = { SeatView };

    ghost view = { λ s. seat_view s.seat.table_id s.seat.me.0 };

    ghost invariant = { λ s. ((part : Part) × (s.seat.me.0 ≡ part ∷ [])) × (s.seat.me.1 ≡ [])
        × (s.bit ≡ own_bit (first_number s.seat.me.0)) };
}

impl BusSeat {
    ghost use Rattle.sharc_word.specs.Place.{event_of};
    ghost use Rattle.sharc_bus.specs.{declared.rule.Part.Part, Rule.{own_bit, first_number}, Table.HasPart};
    ghost use Rattle.sharc_bus.specs.Table.{seat_view};

    // The seat of one port, with the bit that its checks set.
    pub(crate) fn new(seat: Seat<(), Parts>, bit: u64) -> BusSeat
        requires part { ((part : Part) × (seat.me.0 ≡ part ∷ [])) × (seat.me.1 ≡ []) }
        requires bit { bit ≡ own_bit (first_number seat.me.0) }
        ensures { result ≡ seat_view seat.table_id seat.me.0 }
    {
        BusSeat { seat, bit }
    }

    // The seat at the table.
    pub(crate) fn into_inner(self) -> Seat<(), Parts>
        ensures bus { result.table_id ≡ self.bus }
        ensures part { HasPart self.number self.events result.me.0 }
        ensures one { length result.me.0 ≡ 1 }
        ensures none { result.me.1 ≡ [] }
    {
        let BusSeat { seat, bit: _ } = self;
        seat
    }

    // Makes one step on the bus, and answers the word that it found.
    #[inline(always)]
    pub(crate) fn step<A: Allocator>(&mut self, bus: &Bus<A>, step: WordStep) -> u64
        requires bus { self.old.bus ≡ bus.now.id }
        requires word { step.word < length bus.now.opening }
        ensures { self.new ≡ record self.old { events = self.old.events ++ event_of self.old.number step result ∷ [] } }
    {
        make_step(&bus.table.shared, &mut self.seat, step, self.bit)
    }
}
