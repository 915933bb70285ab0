//! A journal that several ports share, and how it is taken in and given back.

ghost use Rattle.std.specs.Prelude.{◌≡◌, ◌<◌, [], All, IfOk};
ghost use Rattle.sharc_record.specs.{Room.HasRoomFor, Shared.{AreSeatsOf, OneJournal, lists_of}};

use crate::journal::Journal;
use crate::parts::{give_seats, take_seats};
use crate::rule::{JournalLaw, Opening, View};
use crate::seat::JournalSeat;
use atomic_table::{Refused, Table};
use sharc_word::history_laws;
use std::alloc::{AllocError, Global};
use std::marker::Model;
use std::snapshot::Snapshot;

pub(crate) type Kept = Table<Option<Journal>, View, Opening, JournalLaw, Global>;

/// A journal that the ports of a round share. Contracts see it as a `SharedView`.
#[derive(Drop)]
pub struct SharedJournal {
    pub(crate) table: Kept,
}

impl Model for SharedJournal {
    ghost use Rattle.sharc_record.specs.{Shared.SharedView, Table.IsJournalTable};
    ghost use Rattle.std.specs.Prelude.{◌<◌};

    ghost Value = { SharedView };

    ghost view = { λ b. record {
      id = b.table.shared.table_id;
      opened = b.table.shared.key.journal.value;
      ports = b.table.shared.key.ports;
    } };

    ghost invariant = { λ b. IsJournalTable b.table.shared.table_id × (0 < b.table.shared.key.ports) };
}

impl SharedJournal {
    /// Takes this journal in, which has room for a quantum of each port, and gives the seats of this many ports, in the
    /// order of their numbers. No port has made an event.
    ///
    /// An `Err` says that memory was not found. The journal is lost then.
    pub fn open(
        alloc: Global,
        journal: Journal,
        ports: u32,
    ) -> Result<(SharedJournal, Vec<JournalSeat>), AllocError>
        requires ports { 0 < ports }
        requires room { HasRoomFor ports journal }
        ensures shared { IfOk result (λ r. (r.0.opened ≡ journal) × (r.0.ports ≡ ports)) }
        ensures seats { IfOk result (λ r. AreSeatsOf r.0 r.1.items) }
        ensures unbegun { IfOk result (λ r. All (λ s. s.events ≡ []) r.1.items) }
    {
        let mut all = Vec::with_capacity(alloc, ports as usize)?;
        let mut slots = Vec::with_capacity(alloc, 1)?;
        let opening = Opening {
            journal: Snapshot::of(&journal),
            ports,
        };
        slots.push_reserved(Some(journal));
        // For the proof that a table opens under its rule.
        history_laws();
        let (table, first) = match Table::new(alloc, &[0, 0], slots, &opening) {
            Ok(opened) => opened,
            Err(Refused { slots: _ }) => return Err(AllocError),
        };
        give_seats(&table, first, ports, &mut all)?;
        Ok((SharedJournal { table }, all))
    }

    /// Gives the journal back, once all seats are back, in the order of their numbers. It takes no memory.
    pub fn close(self, seats: Vec<JournalSeat>) -> Journal
        requires { AreSeatsOf self seats.items }
        ensures { OneJournal self.opened (lists_of seats.items) result }
    {
        let SharedJournal { table } = self;
        let all = take_seats(&table, seats);
        let mut closed = table.close_with(all);
        let journal = closed.take(0).unwrap();
        closed.free();
        journal
    }
}
