//! The port of a bus.

ghost use Rattle.std.specs.Prelude.{◌≡◌};

use crate::bus::Bus;
use crate::seat::BusSeat;
use sharc_word::{Port, WordStep};
use std::alloc::{Allocator, Global};
use std::marker::Model;

/// A port on a shared bus, which serves the thread of its number. Contracts see it as a `PortView`.
#[derive(Drop)]
pub struct BusPort<'a, A: Allocator = Global> {
    bus: &'a Bus<A>,
    seat: BusSeat,
}

impl<'a, A: Allocator> Model for BusPort<'a, A> {
    ghost use Rattle.std.specs.Prelude.{◌≡◌};
    ghost use Rattle.sharc_bus.specs.Bus.{PortView};

    ghost Value = { PortView };

    ghost view = { λ p. record { bus = p.bus.now; seat = p.seat } };

    ghost invariant = { λ p. p.seat.bus ≡ p.bus.now.id };
}

impl<'a, A: Allocator> BusPort<'a, A> {
    /// The port of a seat of this bus.
    pub fn of(bus: &'a Bus<A>, seat: BusSeat) -> Self
        requires { seat.bus ≡ bus.now.id }
        ensures { result ≡ record { bus = bus.now; seat = seat } }
    {
        BusPort { bus, seat }
    }

    /// Gives the seat back, with the events that the port has made.
    pub fn into_seat(self) -> BusSeat
        ensures { result ≡ self.entry.seat }
    {
        let BusPort { bus: _, seat } = self;
        seat
    }
}

impl<'a, A: Allocator> Port for BusPort<'a, A> {
    ghost use Rattle.std.specs.Prelude.{◌≡◌, ℕ, ◌<◌, ◌∷◌, ◌++◌, [], length, refl};
    ghost use Rattle.sharc_word.specs.Place.{event_of, place_of_events, LeadsInEvents};
    ghost use Rattle.sharc_bus.specs.Bus.{name_of};

    ghost count = { λ p. length p.bus.opening };

    ghost name = { λ p. name_of p.seat };

    ghost serves = { λ p thread. thread ≡ p.seat.number };

    ghost place = { λ p. place_of_events p.seat.events };

    ghost leads = { LeadsInEvents };

    ghost serves_some = { λ p. (p.seat.number, refl) };

    #[inline(always)]
    fn step(&mut self, step: WordStep) -> u64
        requires { step.word < length self.old.bus.opening }
        ensures bus { self.new.bus ≡ self.old.bus }
        ensures serves { (thread : ℕ) → thread ≡ self.old.seat.number → thread ≡ self.new.seat.number }
        ensures leads { (thread : ℕ) → thread ≡ self.old.seat.number
            → LeadsInEvents (place_of_events self.old.seat.events) (event_of thread step result)
            (place_of_events self.new.seat.events) }
        ensures seat { self.new.seat
            ≡ record self.old.seat { events = self.old.seat.events ++ event_of self.old.seat.number step result ∷ [] } }
    {
        self.seat.step(self.bus, step)
    }
}
