//! Steps of four threads at once at one journal.

ghost use Rattle.std.specs.Prelude.{◌≡◌, ◌<◌, ◌≤◌, length, vec_len, IfOk};
ghost use Rattle.sharc_record.specs.Shared.{AreSeatsOf};

use sharc_record::{Journal, JournalPort, JournalSeat, SharedJournal, journal_laws};
use sharc_word::{MemPort, Port, WordEvent, WordOp, WordStep};
use std::alloc::{AllocError, Global};
use std::sync::Wait;
use std::test::Fail;
use std::thread;
use std::thread::Threads;

// The answer of one step, by what a port promises and nothing else.
fn at<P: Port>(port: &mut P, word: u32, op: WordOp) -> u64
    requires { word < P.count port.old }
    ensures count { P.count port.new ≡ P.count port.old }
    ensures name { P.name port.new ≡ P.name port.old }
{
    port.step(WordStep { word, op })
}

// Adds 1 this many times.
fn repeat<P: Port>(port: &mut P, times: u32)
    requires { 0 < P.count port.old }
    ensures count { P.count port.new ≡ P.count port.old }
    ensures name { P.name port.new ≡ P.name port.old }
{
    for _ in 0..times {
        at(port, 0, WordOp::Add(1));
    }
}

// A port does its job here.
fn work<R: Wait>(rt: &R, shared: &SharedJournal, seat: JournalSeat) -> JournalSeat
    requires id { seat.id ≡ shared.now.id }
    requires count { seat.count ≡ length shared.now.opened.words }
    requires words { 1 ≤ length shared.now.opened.words }
    ensures id { result.id ≡ seat.id }
    ensures count { result.count ≡ seat.count }
    ensures number { result.number ≡ seat.number }
{
    journal_laws();
    let mut port = JournalPort::of(rt, shared, seat);
    repeat(&mut port, 100);
    port.into_seat()
}

// Each port does the job in a thread of its own.
fn work_in_threads<R: Threads + Wait + Sync>(
    rt: &R,
    shared: &SharedJournal,
    seats: Vec<JournalSeat>,
) -> Result<Vec<JournalSeat>, AllocError>
    requires seats { AreSeatsOf shared.now seats.items }
    requires words { 1 ≤ length shared.now.opened.words }
    ensures { IfOk result (λ all. AreSeatsOf shared.now all.items) }
{
    thread::map_vec(
        rt,
        seats,
        &|seat: JournalSeat| -> JournalSeat
            requires id { seat.id ≡ shared.now.id }
            requires count { seat.count ≡ length shared.now.opened.words }
            requires words { 1 ≤ length shared.now.opened.words }
            ensures id { result.id ≡ seat.id }
            ensures count { result.count ≡ seat.count }
            ensures number { result.number ≡ seat.number }
        { work(rt, shared, seat) },
    )
}

// The journal of ports that have done the job.
fn journal_after<R: Threads + Wait + Sync>(
    rt: &R,
    alloc: Global,
    words: Vec<u64>,
    ports: u32,
) -> Result<Journal, AllocError>
    requires words { 1 ≤ vec_len words }
    requires ports { 0 < ports }
    requires few { ports ≤ 31 }
{
    let mut journal = Journal {
        words: MemPort::new(words),
        events: Vec::new(alloc),
    };
    journal.make_room()?;
    let (shared, seats) = SharedJournal::open(alloc, journal, ports)?;
    let seats = work_in_threads(rt, &shared, seats)?;
    Ok(shared.close(seats))
}

#[test]
fn four_threads_count_up(rt: HostRuntime) -> Result<(), Fail> {
    let words = vec![in rt.alloc(); 7]?;
    let Journal { words, events } = journal_after(&rt, rt.alloc(), words, 4)?;
    let words = words.into_words();
    assert_eq!(rt; words.as_slice(), [407].as_slice());
    assert_eq!(rt; events.len(), 400);
    for (i, event) in events.iter().enumerate() {
        assert_eq!(rt; event.result, 7 + i as u64);
    }
    let first = events.iter().filter(|e: &&WordEvent| e.thread == 0).count();
    assert_eq!(rt; first, 100);
    Ok(())
}
