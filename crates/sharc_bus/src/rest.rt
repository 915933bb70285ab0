//! A bus between two rounds, and what is left of that in a round.

ghost use Rattle.std.specs.Prelude.{◌≡◌, ◌<◌, slice_index};
ghost use Rattle.sharc_bus.specs.Table.{IsRest, IsRound, rest_view, round_view};

use crate::rule::{BusLaw, Looks, Opening, Parts};
use atomic_table::{Seat, Shared};
use std::alloc::Allocator;
use std::marker::Model;

/// A bus between two rounds: no port has a seat, so the words stay as they are. Contracts see it as a `RestView`, with
/// these words.
#[derive(Drop)]
pub struct BusRest {
    seat: Seat<(), Parts>,
}

impl Model for BusRest {
    ghost use Rattle.sharc_bus.specs.{Bus.RestView, Table.{IsRest, rest_view}};

    ghost Value = { RestView };

    ghost view = { λ r. rest_view r.seat.table_id r.seat.me.0 };

    ghost invariant = { λ r. IsRest r.seat.me };
}

impl BusRest {
    // The rest of a seat that has all parts.
    pub(crate) fn new(seat: Seat<(), Parts>) -> BusRest
        requires { IsRest seat.me }
        ensures { result ≡ rest_view seat.table_id seat.me.0 }
    {
        BusRest { seat }
    }

    // The word of this number.
    pub(crate) fn look<A: Allocator>(
        &mut self,
        words: &Shared<(), Parts, Opening<A>, BusLaw>,
        number: usize,
    ) -> u64
        requires own { self.old.bus ≡ words.now.table_id }
        requires ports { self.old.ports ≡ words.now.key.ports }
        requires number { number < words.now.table_id.words }
        ensures rest { self.new ≡ self.old }
        ensures word { result ≡ slice_index self.old.words number }
    {
        words.load::<Looks>(&mut self.seat, number)
    }

    // The seat at the table.
    pub(crate) fn into_inner(self) -> Seat<(), Parts>
        ensures view { self ≡ rest_view result.table_id result.me.0 }
        ensures rest { IsRest result.me }
    {
        let BusRest { seat } = self;
        seat
    }
}

/// A round of a bus: its ports have seats. Contracts see it as a `RestView`, with the words at its beginning.
#[derive(Drop)]
pub struct BusRound {
    seat: Seat<(), Parts>,
}

impl Model for BusRound {
    ghost use Rattle.sharc_bus.specs.{Bus.RestView, Table.{IsRound, round_view}};

    ghost Value = { RestView };

    ghost view = { λ r. round_view r.seat.table_id r.seat.me.0 };

    ghost invariant = { λ r. IsRound r.seat.me };
}

impl BusRound {
    // The round of a seat that has the last part.
    pub(crate) fn new(seat: Seat<(), Parts>) -> BusRound
        requires { IsRound seat.me }
        ensures { result ≡ round_view seat.table_id seat.me.0 }
    {
        BusRound { seat }
    }

    // The seat at the table.
    pub(crate) fn into_inner(self) -> Seat<(), Parts>
        ensures view { self ≡ round_view result.table_id result.me.0 }
        ensures round { IsRound result.me }
    {
        let BusRound { seat } = self;
        seat
    }
}
