//! The seat of one port at a shared journal.

ghost use Rattle.std.specs.Prelude.{◌≡◌, ◌<◌, ◌++◌, ◌∷◌, [], length};

use crate::journal::Journal;
use crate::rule::View;
use crate::shared::SharedJournal;
use crate::step::make_step;
use atomic_table::Seat;
use sharc_word::WordStep;
use std::marker::Model;
use std::sync::Wait;

/// The right to make the steps of one port at a shared journal, and the number of that port. Contracts see it as a
/// `SeatView`, which has the events that the port has made; they take no memory.
#[derive(Drop)]
pub struct JournalSeat {
    pub(crate) seat: Seat<Option<Journal>, View>,
    pub(crate) thread: u32,
}

impl Model for JournalSeat {
    ghost use Rattle.std.specs.Prelude.{◌≡◌};
    ghost use Rattle.sharc_record.specs.{declared.rule.Part.Part, Rule.idle, Shared.SeatView, Table.seat_view};

    ghost Value = { SeatView };

    ghost view = { λ s. seat_view s.seat.table_id s.seat.me.0.parts };

    ghost invariant = { λ s. (part : Part) × (s.seat.me ≡ idle part) × (part.number ≡ s.thread) };
}

impl JournalSeat {
    ghost use Rattle.sharc_word.specs.Place.{event_of};
    ghost use Rattle.sharc_record.specs.{declared.rule.Part.Part, Rule.idle, Table.{part_of, seat_view}};

    // The seat of one port.
    pub(crate) fn new(seat: Seat<Option<Journal>, View>, thread: u32) -> JournalSeat
        requires { (part : Part) × (seat.me ≡ idle part) × (part.number ≡ thread) }
        ensures { result ≡ seat_view seat.table_id seat.me.0.parts }
    {
        JournalSeat { seat, thread }
    }

    // The seat at the table.
    pub(crate) fn into_inner(self) -> Seat<Option<Journal>, View>
        ensures { (result.table_id ≡ self.id) × (result.me ≡ idle (part_of self)) }
    {
        let JournalSeat { seat, thread: _ } = self;
        seat
    }

    // Makes one step at the shared journal, and answers the word that it found.
    pub(crate) fn step<R: Wait>(&mut self, rt: &R, shared: &SharedJournal, step: WordStep) -> u64
        requires id { self.old.id ≡ shared.now.id }
        requires word { step.word < self.old.count }
        ensures { self.new ≡ record self.old { events = self.old.events ++ event_of self.old.number step result ∷ [] } }
    {
        make_step(rt, &shared.table.shared, &mut self.seat, self.thread, step)
    }
}
