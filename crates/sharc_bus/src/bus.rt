//! The bus: its words, and how it is opened, used in rounds and closed.

ghost use Rattle.std.specs.Prelude.{◌≡◌, ◌<◌, [], length, slice_index, vec_len, All, IfOk};
ghost use Rattle.sharc_bus.specs.Bus.{AreSeatsOf, IsOf, OneHistory, lists_of};

use crate::parts::{give_seats, read_words, take_seats};
use crate::rest::{BusRest, BusRound};
use crate::rule::{BusLaw, Looks, Opening, Parts, Settles};
use crate::seat::BusSeat;
use atomic_table::Table;
use sharc_word::history_laws;
use std::alloc::{AllocError, Allocator, Global};
use std::marker::Model;

pub(crate) type Words<A> = Table<(), Parts, Opening<A>, BusLaw, A>;

/// Words that the ports of a bus share. Contracts see it as a `BusView`.
#[derive(Drop)]
pub struct Bus<A: Allocator = Global> {
    pub(crate) table: Words<A>,
    pub(crate) ports: u32,
}

impl<A: Allocator> Model for Bus<A> {
    ghost use Rattle.std.specs.Prelude.{◌≡◌};
    ghost use Rattle.sharc_bus.specs.{Bus.BusView, Table.IsBusTable};

    ghost Value = { BusView };

    ghost view = { λ b. record {
      id = b.table.shared.table_id;
      opening = b.table.shared.key.words.items;
      ports = b.table.shared.key.ports;
    } };

    ghost invariant = { λ b. IsBusTable b.table.shared.table_id b.table.shared.key.words.items b.table.shared.key.ports
        × (b.ports ≡ b.table.shared.key.ports) };
}

impl<A: Allocator> Bus<A> {
    /// A bus with a copy of these words, and the rest before its first round.
    ///
    /// An `Err` says that memory was not found.
    pub fn open(alloc: A, opening: &Opening<A>) -> Result<(Bus<A>, BusRest), AllocError>
        requires words { 0 < vec_len opening.now.words }
        requires ports { 0 < opening.now.ports }
        ensures bus { IfOk result (λ r. (r.0.opening ≡ opening.now.words.items) × (r.0.ports ≡ opening.now.ports)) }
        ensures rest { IfOk result (λ r. IsOf r.0 r.1) }
        ensures words { IfOk result (λ r. r.1.words ≡ opening.now.words.items) }
    {
        // For the proof that a table opens under its rule.
        history_laws();
        let (table, seat) = Table::of_words(alloc, opening.words.as_slice(), opening)?;
        let ports = opening.ports;
        Ok((Bus { table, ports }, BusRest::new(seat)))
    }

    /// Begins a round: gives the seats of all ports, in the order of their numbers. No port has made an event.
    ///
    /// An `Err` says that memory was not found. The rest is lost then, and with it what is known of the words.
    pub fn begin(&self, alloc: A, rest: BusRest) -> Result<(Vec<BusSeat, A>, BusRound), AllocError>
        requires { IsOf self.now rest }
        ensures seats { IfOk result (λ r. AreSeatsOf self.now r.0.items) }
        ensures unbegun { IfOk result (λ r. All (λ s. s.events ≡ []) r.0.items) }
        ensures round { IfOk result (λ r. r.1 ≡ rest) }
    {
        let mut seats = Vec::with_capacity(alloc, self.ports as usize)?;
        let last = give_seats(&self.table, rest.into_inner(), self.ports, &mut seats)?;
        Ok((seats, BusRound::new(last)))
    }

    /// Ends a round, once all seats are back, in the order of their numbers.
    pub fn end<B: Allocator>(&self, round: BusRound, seats: Vec<BusSeat, B>) -> BusRest
        requires round { IsOf self.now round }
        requires seats { AreSeatsOf self.now seats.items }
        ensures rest { IsOf self.now result }
        ensures history { OneHistory round.words (lists_of seats.items) result.words }
    {
        // For the proof that the words as they are begin a history.
        history_laws();
        let mut all = take_seats(&self.table, round.into_inner(), seats);
        self.table.shared.load::<Settles>(&mut all, 0);
        BusRest::new(all)
    }

    /// The word of this number, as it is.
    pub fn word(&self, rest: &mut BusRest, number: usize) -> u64
        requires bus { IsOf self.now rest.old }
        requires number { number < length self.now.opening }
        ensures rest { rest.new ≡ rest.old }
        ensures word { result ≡ slice_index rest.old.words number }
    {
        rest.look(&self.table.shared, number)
    }

    /// Gives the words as they are.
    pub fn close(self, rest: BusRest, words: &mut [u64])
        requires bus { IsOf self rest }
        requires words { length words.old ≡ length self.opening }
        ensures { words.new ≡ rest.words }
    {
        let Bus { table, ports: _ } = self;
        let closed = table.close_with(rest.into_inner());
        read_words(&closed, words);
        closed.free();
    }
}
