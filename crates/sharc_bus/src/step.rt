//! One step on the table of a bus.

ghost use Rattle.std.specs.Prelude.{◌≡◌, ◌<◌, ◌∷◌, [], length};
ghost use Rattle.sharc_bus.specs.{declared.rule.Part.Part, Rule.{with_step, own_bit, first_number}};
ghost use Rattle.sharc_word.specs.declared.step.WordOp.TheVariants.{Or};

use crate::rule::{
    Adds, Ands, BusLaw, Exchanges, Loads, Opening, Ors, OrsOwnBit, OrsOwnBits, Parts, Subs, Swaps,
};
use atomic_table::{Seat, Shared};
use sharc_word::{WordOp, WordStep, history_laws};
use std::alloc::Allocator;

type Words<A> = Shared<(), Parts, Opening<A>, BusLaw>;

// An Or. One of the bits that the checks of this seat's port set leaves the word as it is where they stand, and then it
// is made as a load: so threads that check the same granule again and again do not write its word.
#[inline(always)]
fn make_or<A: Allocator>(
    words: &Words<A>,
    seat: &mut Seat<(), Parts>,
    word: u32,
    bits: u64,
    own: u64,
) -> u64
    requires own { seat.old.table_id ≡ words.now.table_id }
    requires part { (part : Part) × (seat.old.me.0 ≡ part ∷ []) }
    requires bit { own ≡ own_bit (first_number seat.old.me.0) }
    requires opening { words.now.table_id.words ≡ length words.now.key.words.items }
    requires word { word < words.now.table_id.words }
    ensures own { seat.new.table_id ≡ seat.old.table_id }
    ensures appended { seat.new.me
        ≡ (with_step seat.old.me.0 record { word = word; op = Or bits } result, seat.old.me.1) }
{
    // For the proof that each operation keeps the rule.
    history_laws();
    if bits == own {
        let found = words.load::<OrsOwnBit>(seat, word as usize);
        if found | bits == found {
            return found;
        }
    } else if bits == own.wrapping_add(1) {
        let found = words.load::<OrsOwnBits>(seat, word as usize);
        if found | bits == found {
            return found;
        }
    }
    words.fetch_or::<Ors>(seat, word as usize, bits)
}

// One atomic step on a word, which its seat then has at the end of its part. It answers the word that it found. `own`
// is the bit of the seat's port.
#[inline(always)]
pub(crate) fn make_step<A: Allocator>(
    words: &Words<A>,
    seat: &mut Seat<(), Parts>,
    step: WordStep,
    own: u64,
) -> u64
    requires own { seat.old.table_id ≡ words.now.table_id }
    requires part { (part : Part) × (seat.old.me.0 ≡ part ∷ []) }
    requires bit { own ≡ own_bit (first_number seat.old.me.0) }
    requires opening { words.now.table_id.words ≡ length words.now.key.words.items }
    requires word { step.word < words.now.table_id.words }
    ensures own { seat.new.table_id ≡ seat.old.table_id }
    ensures appended { seat.new.me ≡ (with_step seat.old.me.0 step result, seat.old.me.1) }
{
    // For the proof that each operation keeps the rule.
    history_laws();
    let word = step.word as usize;
    match step.op {
        WordOp::Load => words.load::<Loads>(seat, word),
        WordOp::Swap(new) => words.swap::<Swaps>(seat, word, new),
        WordOp::Add(number) => words.fetch_add::<Adds>(seat, word, number),
        WordOp::Sub(number) => words.fetch_sub::<Subs>(seat, word, number),
        WordOp::Or(bits) => make_or(words, seat, step.word, bits, own),
        WordOp::And(bits) => words.fetch_and::<Ands>(seat, word, bits),
        WordOp::Cas(expected, new) => {
            words.compare_exchange::<Exchanges>(seat, word, expected, new)
        }
    }
}
