//! What the seats at a journal know, the rule of its table, and what each kind of step reports.

use crate::journal::Journal;
use atomic_table::{Join, Play, Split, TableRule};
use sharc_word::WordEvent;
use std::collections::LinkedList;
use std::snapshot::Snapshot;

/// The events of one port in this round, oldest first, and the number of the words. No value of it is made: it occurs
/// in proofs alone, as the next two do.
pub struct Part {
    pub number: u64,
    pub count: u64,
    pub events: LinkedList<WordEvent>,
}

/// Whether a port has drawn a ticket, and whether it has the turn, with the journal as it was when it found that.
pub enum Turn {
    Idle,
    Drawn(u64),
    Has(Journal),
}

/// What a seat knows: the parts of the history that it has, and its turn.
pub struct View {
    pub parts: LinkedList<Part>,
    pub turn: Turn,
}

/// What a table is opened with: the journal, and the number of its ports.
#[derive(Drop)]
pub struct Opening {
    pub journal: Snapshot<Journal>,
    pub ports: u32,
}

/// The rule of the table: while no port has the turn the journal is in its slot, and it is right.
pub struct JournalLaw;

impl TableRule<Option<Journal>, View, Opening> for JournalLaw {
    ghost use Rattle.sharc_record.specs.Rule.{JournalRule, unbegun_view};

    ghost holds = { λ opening. JournalRule opening.journal.value opening.ports };

    ghost first = { λ opening. unbegun_view opening.journal.value opening.ports };
}

/// A seat keeps its first part, and a new seat has the others.
pub(crate) struct FirstPart;

impl Split<View> for FirstPart {
    ghost use Rattle.sharc_record.specs.Rule.{first_of, others_of};

    ghost left = { first_of };

    ghost right = { others_of };
}

/// A seat takes in the parts of another.
pub(crate) struct Together;

impl Join<View> for Together {
    ghost use Rattle.sharc_record.specs.Rule.{joined, spent_view};

    ghost both = { joined };

    ghost spent = { spent_view };
}

/// A ticket is drawn.
pub(crate) struct Draws;

impl Play<Option<Journal>, View> for Draws {
    ghost use Rattle.std.specs.Prelude.{◌≡◌};
    ghost use Rattle.sharc_record.specs.Rule.{drawn};

    ghost then = { λ step before found after. after ≡ drawn before found };
}

/// A port looks whether its ticket is served.
pub(crate) struct Looks;

impl Play<Option<Journal>, View> for Looks {
    ghost use Rattle.sharc_record.specs.Rule.{Looked};

    ghost then = { λ step before found after. Looked before found after };
}

/// The turn is passed on.
pub(crate) struct PassesOn;

impl Play<Option<Journal>, View> for PassesOn {
    ghost use Rattle.std.specs.Prelude.{◌≡◌};
    ghost use Rattle.sharc_record.specs.Rule.{passed};

    ghost then = { λ step before found after. after ≡ passed before };
}
