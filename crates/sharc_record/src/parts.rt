//! The seats at a shared journal, cut off the first seat of its table and put together again.

ghost use Rattle.std.specs.Prelude.{◌≡◌, ◌<◌, [], length, vec_len, All, IfOk};
ghost use Rattle.sharc_record.specs.{declared.rule.Turn.TheVariants.Idle, Rule.unbegun, Table.{HasAll, seats_with}};
ghost use Rattle.sharc_record.specs.Table.{IsJournalTable};

use crate::journal::Journal;
use crate::rule::{FirstPart, Together, View};
use crate::seat::JournalSeat;
use crate::shared::Kept;
use atomic_table::Seat;
use std::alloc::AllocError;

// Cuts the seats of all ports off the seat that has all parts.
pub(crate) fn give_seats(
    table: &Kept,
    first: Seat<Option<Journal>, View>,
    ports: u32,
    seats: &mut Vec<JournalSeat>,
) -> Result<(), AllocError>
    requires own { first.table_id ≡ table.now.shared.table_id }
    requires table { IsJournalTable table.now.shared.table_id }
    requires parts { first.me
        ≡ (record { parts = unbegun (length table.now.shared.key.journal.value.words) 0 ports; turn = Idle }, []) }
    requires some { 0 < ports }
    requires none { seats.old.items ≡ [] }
    ensures { IfOk result (λ _. seats.new.items
        ≡ seats_with table.now.shared.table_id (unbegun (length table.now.shared.key.journal.value.words) 0 ports)) }
{
    let mut rest = first;
    for number in 0..ports - 1 {
        let others = table.shared.split_seat::<FirstPart>(&mut rest);
        seats.push(JournalSeat::new(rest, number))?;
        rest = others;
    }
    seats.push(JournalSeat::new(rest, ports - 1))?;
    Ok(())
}

// Puts the parts of all seats together, in one seat.
pub(crate) fn take_seats(table: &Kept, mut seats: Vec<JournalSeat>) -> Seat<Option<Journal>, View>
    requires own { All (λ s. s.id ≡ table.now.shared.table_id) seats.items }
    requires table { IsJournalTable table.now.shared.table_id }
    requires some { 0 < vec_len seats }
    ensures own { result.table_id ≡ table.now.shared.table_id }
    ensures all { HasAll seats.items result.me.0.parts }
    ensures idle { result.me.0.turn ≡ Idle }
{
    let mut all = seats.pop().unwrap().into_inner();
    while let Some(seat) = seats.pop() {
        table
            .shared
            .join_seat::<Together>(&mut all, seat.into_inner());
    }
    all
}
