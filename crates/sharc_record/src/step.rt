//! One step at a shared journal: a ticket is drawn, the journal is taken out in its turn, and the turn is passed on.

ghost use Rattle.std.specs.Prelude.{◌≡◌, ◌<◌, ◌∷◌, [], ℕ, true, false, length, Some};
ghost use Rattle.sharc_record.specs.{declared.journal.Journal.Journal, declared.rule.Part.Part, Rule.{idle, waiting}};
ghost use Rattle.sharc_record.specs.{Rule.having, Table.{stepped, IsJournalTable, Made, MadeStep}};

use crate::journal::Journal;
use crate::rule::{Draws, JournalLaw, Looks, Opening, PassesOn, View};
use atomic_table::{Seat, Shared};
use sharc_word::{WordStep, history_laws};
use std::sync::Wait;
use std::thread;

pub(crate) type Words = Shared<Option<Journal>, View, Opening, JournalLaw>;

// The word that counts the tickets drawn, and the one that counts those served.
const DRAWN: usize = 0;

const SERVED: usize = 1;

// The slot of the journal.
const SLOT: usize = 0;

// Draws a ticket.
fn draw(words: &Words, seat: &mut Seat<Option<Journal>, View>) -> u64
    requires own { seat.old.table_id ≡ words.now.table_id }
    requires table { IsJournalTable words.now.table_id }
    requires idle { (part : Part) × (seat.old.me ≡ idle part) }
    ensures own { seat.new.table_id ≡ seat.old.table_id }
    ensures drawn { (part : Part) → seat.old.me ≡ idle part → seat.new.me ≡ waiting part result }
{
    words.fetch_add::<Draws>(seat, DRAWN, 1)
}

// Whether the ticket is served, and the seat has the turn.
fn look(words: &Words, seat: &mut Seat<Option<Journal>, View>, ticket: u64) -> bool
    requires own { seat.old.table_id ≡ words.now.table_id }
    requires table { IsJournalTable words.now.table_id }
    requires waits { (part : Part) × (seat.old.me ≡ waiting part ticket) }
    ensures own { seat.new.table_id ≡ seat.old.table_id }
    ensures none { result ≡ false → seat.new.me ≡ seat.old.me }
    ensures turn { result ≡ true → (part : Part) → seat.old.me ≡ waiting part ticket → (journal : Journal)
        × (length journal.words ≡ part.count) × (seat.new.me ≡ having part journal (Some journal)) }
{
    // For the proof that the journal has as many words as it had.
    history_laws();
    words.load::<Looks>(seat, SERVED) == ticket
}

// Waits until the ticket is served.
fn wait<R: Wait>(rt: &R, words: &Words, seat: &mut Seat<Option<Journal>, View>, ticket: u64)
    requires own { seat.old.table_id ≡ words.now.table_id }
    requires table { IsJournalTable words.now.table_id }
    requires waits { (part : Part) × (seat.old.me ≡ waiting part ticket) }
    ensures own { seat.new.table_id ≡ seat.old.table_id }
    ensures turn { (part : Part) → seat.old.me ≡ waiting part ticket → (journal : Journal)
        × (length journal.words ≡ part.count) × (seat.new.me ≡ having part journal (Some journal)) }
{
    for _ in rt.forever() {
        if look(words, seat, ticket) {
            return;
        }
        thread::yield_now();
    }
    unreachable!()
}

// Waits for ever: there is no room for another event, and a step takes no memory.
fn rest<R: Wait>(rt: &R)
    ensures { ⊥ }
{
    for _ in rt.forever() {
        thread::yield_now();
    }
    unreachable!()
}

// Makes the step on the journal that is in the slot of this seat.
fn write<R: Wait>(
    rt: &R,
    words: &Words,
    seat: &mut Seat<Option<Journal>, View>,
    thread: u32,
    step: WordStep,
) -> u64
    requires own { seat.old.table_id ≡ words.now.table_id }
    requires turn { (part : Part) × (journal : Journal) × (step.word < part.count) × (length journal.words ≡ part.count)
        × (seat.old.me ≡ having part journal (Some journal)) }
    ensures own { seat.new.table_id ≡ seat.old.table_id }
    ensures made { (part : Part) (journal : Journal) → seat.old.me ≡ having part journal (Some journal)
        → (now : Journal) × Made journal thread step result now × (seat.new.me ≡ having part journal (Some now)) }
{
    let mut journal = words.exchange(seat, SLOT, None).unwrap();
    if !journal.has_room() {
        rest(rt);
    }
    let found = journal.step(thread, step);
    words.exchange(seat, SLOT, Some(journal));
    found
}

// Passes the turn on.
fn pass_on(words: &Words, seat: &mut Seat<Option<Journal>, View>)
    requires own { seat.old.table_id ≡ words.now.table_id }
    requires table { IsJournalTable words.now.table_id }
    requires made { MadeStep seat.old.me }
    ensures own { seat.new.table_id ≡ seat.old.table_id }
    ensures passed { (part : Part) (old now : Journal) (step : WordStep) (found : ℕ)
        → seat.old.me ≡ having part old (Some now) → Made old part.number step found now
        → seat.new.me ≡ idle (stepped part step found) }
{
    // For the proof that the journal is right after the step.
    history_laws();
    words.fetch_add::<PassesOn>(seat, SERVED, 1);
}

// One step of the port of this seat, whose number is that of the thread. It answers the word that it found.
pub(crate) fn make_step<R: Wait>(
    rt: &R,
    words: &Words,
    seat: &mut Seat<Option<Journal>, View>,
    thread: u32,
    step: WordStep,
) -> u64
    requires own { seat.old.table_id ≡ words.now.table_id }
    requires table { IsJournalTable words.now.table_id }
    requires idle { (part : Part) × (part.number ≡ thread) × (step.word < part.count) × (seat.old.me ≡ idle part) }
    ensures own { seat.new.table_id ≡ seat.old.table_id }
    ensures appended { (part : Part) → seat.old.me ≡ idle part → seat.new.me ≡ idle (stepped part step result) }
{
    let ticket = draw(words, seat);
    wait(rt, words, seat, ticket);
    let found = write(rt, words, seat, thread, step);
    pass_on(words, seat);
    found
}
