//! What the seats of a bus know, the rule of its table, and what each kind of step reports.

use atomic_table::{Join, Play, Split, TableRule};
use sharc_word::WordEvent;
use std::alloc::Allocator;
use std::collections::LinkedList;

/// The events that one port has made in this round, oldest first, and the words at its beginning. No value of it is
/// made: it occurs in proofs alone.
pub struct Part {
    pub number: u64,
    pub words: LinkedList<u64>,
    pub events: LinkedList<WordEvent>,
}

/// What a seat knows: the parts of the history that it has.
pub type Parts = LinkedList<Part>;

/// What a bus is opened with: its words, and the number of its ports.
#[derive(Drop)]
pub struct Opening<A: Allocator> {
    pub words: Vec<u64, A>,
    pub ports: u32,
}

/// The rule of a bus: there is one legal history of the steps of this round.
pub struct BusLaw;

impl<A: Allocator> TableRule<(), Parts, Opening<A>> for BusLaw {
    ghost use Rattle.std.specs.Prelude.{suc};
    ghost use Rattle.sharc_bus.specs.Rule.{BusRule, unbegun};

    ghost holds = { λ opening. BusRule opening.words.items (suc opening.ports) };

    ghost first = { λ opening. unbegun opening.words.items 0 (suc opening.ports) };
}

/// A seat keeps its first part, and a new seat has the others.
pub(crate) struct FirstPart;

impl Split<Parts> for FirstPart {
    ghost use Rattle.std.specs.Prelude.{take, drop};

    ghost left = { take 1 };

    ghost right = { drop 1 };
}

/// A seat takes in the parts of another.
pub(crate) struct Together;

impl Join<Parts> for Together {
    ghost use Rattle.std.specs.Prelude.{[], ◌++◌};

    ghost both = { λ parts others. parts ++ others };

    ghost spent = { [] };
}

pub(crate) struct Loads;

impl Play<(), Parts> for Loads {
    ghost use Rattle.sharc_word.specs.declared.step.WordOp.TheVariants.{Load};
    ghost use Rattle.sharc_bus.specs.Rule.{Appends};

    ghost then = { Appends (λ _ _. Load) };
}

pub(crate) struct Swaps;

impl Play<(), Parts> for Swaps {
    ghost use Rattle.sharc_word.specs.declared.step.WordOp.TheVariants.{Swap};
    ghost use Rattle.sharc_bus.specs.Rule.{Appends};

    ghost then = { Appends (λ new _. Swap new) };
}

pub(crate) struct Adds;

impl Play<(), Parts> for Adds {
    ghost use Rattle.sharc_word.specs.declared.step.WordOp.TheVariants.{Add};
    ghost use Rattle.sharc_bus.specs.Rule.{Appends};

    ghost then = { Appends (λ number _. Add number) };
}

pub(crate) struct Subs;

impl Play<(), Parts> for Subs {
    ghost use Rattle.sharc_word.specs.declared.step.WordOp.TheVariants.{Sub};
    ghost use Rattle.sharc_bus.specs.Rule.{Appends};

    ghost then = { Appends (λ number _. Sub number) };
}

pub(crate) struct Ors;

impl Play<(), Parts> for Ors {
    ghost use Rattle.sharc_word.specs.declared.step.WordOp.TheVariants.{Or};
    ghost use Rattle.sharc_bus.specs.Rule.{Appends};

    ghost then = { Appends (λ bits _. Or bits) };
}

/// An Or of the bit of the seat's port, where that stands already: the word stays as it is, so it is only read.
pub(crate) struct OrsOwnBit;

impl Play<(), Parts> for OrsOwnBit {
    ghost use Rattle.sharc_bus.specs.Rule.{AppendsStanding, own_bit};

    ghost then = { AppendsStanding own_bit };
}

/// The same of that bit and the lowest one.
pub(crate) struct OrsOwnBits;

impl Play<(), Parts> for OrsOwnBits {
    ghost use Rattle.sharc_bus.specs.Rule.{AppendsStanding, own_bits};

    ghost then = { AppendsStanding own_bits };
}

pub(crate) struct Ands;

impl Play<(), Parts> for Ands {
    ghost use Rattle.sharc_word.specs.declared.step.WordOp.TheVariants.{And};
    ghost use Rattle.sharc_bus.specs.Rule.{Appends};

    ghost then = { Appends (λ bits _. And bits) };
}

pub(crate) struct Exchanges;

impl Play<(), Parts> for Exchanges {
    ghost use Rattle.sharc_word.specs.declared.step.WordOp.TheVariants.{Cas};
    ghost use Rattle.sharc_bus.specs.Rule.{Appends};

    ghost then = { Appends (λ expected new. Cas expected new) };
}

/// All parts begin a round, with the words as they are.
pub(crate) struct Settles;

impl Play<(), Parts> for Settles {
    ghost use Rattle.sharc_bus.specs.Rule.{SettlesTo};

    ghost then = { SettlesTo };
}

/// A look at a word, where no part has begun.
pub(crate) struct Looks;

impl Play<(), Parts> for Looks {
    ghost use Rattle.sharc_bus.specs.Rule.{Finds};

    ghost then = { Finds };
}
