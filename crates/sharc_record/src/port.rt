//! The port of a shared journal.

ghost use Rattle.std.specs.Prelude.{◌≡◌};

use crate::seat::JournalSeat;
use crate::shared::SharedJournal;
use sharc_word::{Port, WordStep};
use std::marker::Model;
use std::sync::Wait;

/// A port at a shared journal, which serves the thread of its number. It holds what it needs to wait for its turn.
/// Contracts see it as a `PortView`.
#[derive(Drop)]
pub struct JournalPort<'a, R: Wait> {
    rt: &'a R,
    shared: &'a SharedJournal,
    seat: JournalSeat,
}

impl<'a, R: Wait> Model for JournalPort<'a, R> {
    ghost use Rattle.std.specs.Prelude.{◌≡◌, length};
    ghost use Rattle.sharc_record.specs.Shared.{PortView};

    ghost Value = { PortView };

    ghost view = { λ p. record { shared = p.shared.now; seat = p.seat } };

    ghost invariant = { λ p. (p.seat.id ≡ p.shared.now.id) × (p.seat.count ≡ length p.shared.now.opened.words) };
}

impl<'a, R: Wait> JournalPort<'a, R> {
    ghost use Rattle.std.specs.Prelude.{length};

    /// The port of a seat at this shared journal.
    pub fn of(rt: &'a R, shared: &'a SharedJournal, seat: JournalSeat) -> Self
        requires id { seat.id ≡ shared.now.id }
        requires count { seat.count ≡ length shared.now.opened.words }
        ensures { result ≡ record { shared = shared.now; seat = seat } }
    {
        JournalPort { rt, shared, seat }
    }

    /// Gives the seat back, with the events that the port has made.
    pub fn into_seat(self) -> JournalSeat
        ensures { result ≡ self.entry.seat }
    {
        let JournalPort {
            rt: _,
            shared: _,
            seat,
        } = self;
        seat
    }
}

impl<'a, R: Wait> Port for JournalPort<'a, R> {
    ghost use Rattle.std.specs.Prelude.{◌≡◌, ℕ, ◌<◌, ◌∷◌, ◌++◌, [], length, refl};
    ghost use Rattle.sharc_word.specs.Place.{event_of, place_of_events, LeadsInEvents};
    ghost use Rattle.sharc_record.specs.Shared.{name_of};

    ghost count = { λ p. length p.shared.opened.words };

    ghost name = { λ p. name_of p.seat };

    ghost serves = { λ p thread. thread ≡ p.seat.number };

    ghost place = { λ p. place_of_events p.seat.events };

    ghost leads = { LeadsInEvents };

    ghost serves_some = { λ p. (p.seat.number, refl) };

    fn step(&mut self, step: WordStep) -> u64
        requires { step.word < length self.old.shared.opened.words }
        ensures shared { self.new.shared ≡ self.old.shared }
        ensures serves { (thread : ℕ) → thread ≡ self.old.seat.number → thread ≡ self.new.seat.number }
        ensures leads { (thread : ℕ) → thread ≡ self.old.seat.number
            → LeadsInEvents (place_of_events self.old.seat.events) (event_of thread step result)
            (place_of_events self.new.seat.events) }
        ensures seat { self.new.seat
            ≡ record self.old.seat { events = self.old.seat.events ++ event_of self.old.seat.number step result ∷ [] } }
    {
        self.seat.step(self.rt, self.shared, step)
    }
}
