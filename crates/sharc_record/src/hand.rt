//! A thread in a round.

ghost use Rattle.std.specs.Prelude.{◌≡◌, length, Some};
ghost use Rattle.sharc_rounds.specs.Round.{AreLentBy, MayTurn};
ghost use Rattle.sharc_record.specs.declared.journal.TheConstants.{QUANTUM as quantum};
ghost use Rattle.sharc_record.specs.Round.{WasRunBy, MayBeRunBy};

use crate::journal::QUANTUM;
use crate::journaled::journal_laws;
use crate::port::JournalPort;
use crate::seat::JournalSeat;
use crate::shared::SharedJournal;
use sharc_cpu::{Thread, run_trying};
use sharc_rounds::{Gate, GatedPort, Hand, Lent, most_events, quantum_laws};
use sharc_threads::is_on;
use std::sync::Wait;

// One quantum of a thread that is neither gone nor stopped.
fn run_thread<R: Wait, G: Gate>(
    rt: &R,
    mut thread: Thread,
    port: JournalSeat,
    lent: &Lent<SharedJournal, G>,
    worker: u32,
) -> Hand<JournalSeat>
    requires lent { AreLentBy lent.now (length lent.now.shared.now.opened.words) }
    requires shared { port.id ≡ lent.now.shared.now.id }
    requires count { port.count ≡ length lent.now.shared.now.opened.words }
    requires may { MayTurn lent.now.code.now lent.now.shape.now lent.now.limit quantum thread port.number }
    ensures { WasRunBy lent.now record { seat = Some thread; port = port } result }
{
    journal_laws();
    quantum_laws();
    if !is_on(&thread) {
        return Hand {
            seat: Some(thread),
            port,
        };
    }
    let most = most_events(thread.made(), lent.limit);
    let mut port = GatedPort {
        port: JournalPort::of(rt, lent.shared, port),
        gate: lent.gate,
        worker,
        thread: thread.number(),
    };
    run_trying(
        lent.code,
        Some(lent.plan),
        lent.shape,
        &mut thread,
        &mut port,
        QUANTUM,
        most,
        0,
    );
    let GatedPort { port, .. } = port;
    Hand {
        seat: Some(thread),
        port: port.into_seat(),
    }
}

/// One quantum of the thread, if one is there that is neither gone nor stopped.
pub(crate) fn run_hand<R: Wait, G: Gate>(
    rt: &R,
    hand: Hand<JournalSeat>,
    lent: &Lent<SharedJournal, G>,
    worker: u32,
) -> Hand<JournalSeat>
    requires lent { AreLentBy lent.now (length lent.now.shared.now.opened.words) }
    requires may { MayBeRunBy lent.now hand }
    ensures { WasRunBy lent.now hand result }
{
    let Hand { seat, port } = hand;
    match seat {
        None => Hand { seat: None, port },
        Some(thread) => run_thread(rt, thread, port, lent, worker),
    }
}
