//! The seats of a bus, cut off the seat of all parts and put together again, and the words of a table that is closed.

ghost use Rattle.std.specs.Prelude.{slice_index, suc, ◌≡◌, ◌<◌, ◌+◌, ◌++◌, List, [], length, All, IfOk};
ghost use Rattle.std.specs.Mem.Slots.{slots_items, slots_len, IsFull};
ghost use Rattle.sharc_bus.specs.{declared.rule.Part.Part, Rule.{unbegun, words_known}, Table.{HasAll, seats_with}};

use crate::bus::Words;
use crate::rule::{FirstPart, Parts, Together};
use crate::seat::BusSeat;
use atomic_table::{Closed, Seat};
use std::alloc::{AllocError, Allocator};

// Cuts the seats of all ports off the seat that has all parts, and gives what is left of it.
pub(crate) fn give_seats<A: Allocator>(
    table: &Words<A>,
    first: Seat<(), Parts>,
    ports: u32,
    seats: &mut Vec<BusSeat, A>,
) -> Result<Seat<(), Parts>, AllocError>
    requires own { first.table_id ≡ table.now.shared.table_id }
    requires parts { first.me ≡ (unbegun (words_known first.me.0) 0 (suc ports), []) }
    requires words { 0 < table.now.shared.table_id.words }
    requires none { seats.old.items ≡ [] }
    ensures seats { IfOk result (λ _. seats.new.items
        ≡ seats_with table.now.shared.table_id (unbegun (words_known first.me.0) 0 ports)) }
    ensures own { IfOk result (λ rest. rest.table_id ≡ table.now.shared.table_id) }
    ensures rest { IfOk result (λ rest. rest.me ≡ (unbegun (words_known first.me.0) ports 1, [])) }
{
    let mut rest = first;
    let mut bit = 2u64;
    for _ in 0..ports {
        let others = table.shared.split_seat::<FirstPart>(&mut rest);
        seats.push(BusSeat::new(rest, bit))?;
        rest = others;
        bit = bit.wrapping_add(bit);
    }
    Ok(rest)
}

// Puts the parts of all seats after those of the first.
pub(crate) fn take_seats<A: Allocator, B: Allocator>(
    table: &Words<A>,
    first: Seat<(), Parts>,
    mut seats: Vec<BusSeat, B>,
) -> Seat<(), Parts>
    requires first { first.table_id ≡ table.now.shared.table_id }
    requires own { All (λ s. s.bus ≡ table.now.shared.table_id) seats.items }
    requires words { 0 < table.now.shared.table_id.words }
    ensures own { result.table_id ≡ table.now.shared.table_id }
    ensures all { HasAll seats.items result.me.0 }
    ensures count { length result.me.0 ≡ length first.me.0 + length seats.items }
    ensures first { (more : List Part) × (result.me.0 ≡ first.me.0 ++ more) }
    ensures none { result.me.1 ≡ first.me.1 }
{
    let mut all = first;
    while let Some(seat) = seats.pop() {
        table
            .shared
            .join_seat::<Together>(&mut all, seat.into_inner());
    }
    all
}

// The words of a table that nobody shares any more.
pub(crate) fn read_words<A: Allocator>(closed: &Closed<(), A>, words: &mut [u64])
    requires len { length words.old ≡ slots_len closed.now.words }
    requires full { IsFull closed.now.words }
    ensures { words.new ≡ slots_items closed.now.words }
{
    for (i, word) in words.iter_mut().enumerate() {
        *word = word_at(closed, i);
    }
}

// The word at a place of such a table.
fn word_at<A: Allocator>(closed: &Closed<(), A>, i: usize) -> u64
    requires within { i < slots_len closed.now.words }
    requires full { IsFull closed.now.words }
    ensures { result ≡ slice_index (slots_items closed.now.words) i }
{
    closed.word(i)
}
