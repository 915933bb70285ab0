//! Steps of two and of four threads at once over one bus, and a port that is lent to another thread.

ghost use Rattle.std.specs.Prelude.{◌≡◌, ◌<◌, ◌≤◌, length, vec_len, IfOk};
ghost use Rattle.sharc_bus.specs.Bus.{AreSeatsOf};

use super::*;
use sharc_word::{Port, WordOp, WordStep};
use std::alloc::{AllocError, Global};
use std::test::Fail;
use std::thread;
use std::thread::Threads;

// The word at which threads meet, and how often each looks at most.
const READY: u32 = 8;

const LOOKS: u32 = 10_000_000;

// The answer of one step, by what a port promises and nothing else.
fn at<P: Port>(port: &mut P, word: u32, op: WordOp) -> u64
    requires { word < P.count port.old }
    ensures count { P.count port.new ≡ P.count port.old }
    ensures name { P.name port.new ≡ P.name port.old }
{
    port.step(WordStep { word, op })
}

// Makes one step this many times.
fn repeat<P: Port>(port: &mut P, word: u32, op: WordOp, times: u32)
    requires { word < P.count port.old }
    ensures count { P.count port.new ≡ P.count port.old }
    ensures name { P.name port.new ≡ P.name port.old }
{
    for _ in 0..times {
        at(port, word, op);
    }
}

// Waits until this many threads are here, or this one has looked long enough.
fn meet<P: Port>(port: &mut P, all: u64)
    requires { 9 ≤ P.count port.old }
    ensures count { P.count port.new ≡ P.count port.old }
    ensures name { P.name port.new ≡ P.name port.old }
{
    at(port, READY, WordOp::Add(1));
    for _ in 0..LOOKS {
        if at(port, READY, WordOp::Load) >= all {
            break;
        }
    }
}

// Adds 1 to word 6 where no other thread comes between, a hundred times, and adds 256 to word 7 for each that it did.
fn try_to_add<P: Port>(port: &mut P)
    requires { 9 ≤ P.count port.old }
    ensures count { P.count port.new ≡ P.count port.old }
    ensures name { P.name port.new ≡ P.name port.old }
{
    for _ in 0..100 {
        let seen = at(port, 6, WordOp::Load);
        if at(port, 6, WordOp::Cas(seen, seen.wrapping_add(1))) == seen {
            at(port, 7, WordOp::Add(256));
        }
    }
}

// Each operation, on a word of its own. The first takes a number that no other thread has.
fn mixed_steps<P: Port>(port: &mut P)
    requires { 9 ≤ P.count port.old }
    ensures count { P.count port.new ≡ P.count port.old }
    ensures name { P.name port.new ≡ P.name port.old }
{
    meet(port, 4);
    let number = at(port, 7, WordOp::Add(1)) % 64;
    let bit = 1u64 << number;
    at(port, 2, WordOp::Or(bit));
    at(port, 3, WordOp::And(!bit));
    at(port, 4, WordOp::Swap(number + 1));
    at(port, 5, WordOp::Cas(0, number + 1));
    repeat(port, 0, WordOp::Add(5), 100);
    repeat(port, 1, WordOp::Sub(3), 100);
    try_to_add(port);
}

// A thousand additions of 1 to the first word.
fn count_up<P: Port>(port: &mut P)
    requires { 9 ≤ P.count port.old }
    ensures count { P.count port.new ≡ P.count port.old }
    ensures name { P.name port.new ≡ P.name port.old }
{
    meet(port, 2);
    repeat(port, 0, WordOp::Add(1), 1000);
}

// What each port of a test does.
#[derive(Clone, Copy)]
enum Job {
    CountUp,
    Mix,
    HandOver,
}

fn do_job<P: Port>(port: &mut P, job: Job)
    requires { 9 ≤ P.count port.old }
    ensures count { P.count port.new ≡ P.count port.old }
    ensures name { P.name port.new ≡ P.name port.old }
{
    match job {
        Job::CountUp => count_up(port),
        Job::Mix => mixed_steps(port),
        Job::HandOver => {
            at(port, 0, WordOp::Add(2));
        }
    }
}

// A port does its job here, or after a step in another thread.
fn work<R: Threads + Sync>(rt: &R, bus: &Bus, seat: BusSeat, job: Job) -> BusSeat
    requires bus { seat.bus ≡ bus.now.id }
    requires words { 9 ≤ length bus.now.opening }
    ensures bus { result.bus ≡ seat.bus }
    ensures number { result.number ≡ seat.number }
{
    let mut port = BusPort::of(bus, seat);
    if matches!(job, Job::HandOver) {
        at(&mut port, 0, WordOp::Sub(1));
        thread::join_mut(
            rt,
            &mut || repeat(&mut port, 0, WordOp::Swap(40), 1),
            &mut || (),
        );
    }
    do_job(&mut port, job);
    port.into_seat()
}

// Each port does the job in a thread of its own.
fn work_in_threads<R: Threads + Sync>(
    rt: &R,
    bus: &Bus,
    seats: Vec<BusSeat>,
    job: Job,
) -> Result<Vec<BusSeat>, AllocError>
    requires seats { AreSeatsOf bus.now seats.items }
    requires words { 9 ≤ length bus.now.opening }
    ensures { IfOk result (λ all. AreSeatsOf bus.now all.items) }
{
    thread::map_vec(
        rt,
        seats,
        &|seat: BusSeat| -> BusSeat
            requires bus { seat.bus ≡ bus.now.id }
            requires words { 9 ≤ length bus.now.opening }
            ensures bus { result.bus ≡ seat.bus }
            ensures number { result.number ≡ seat.number }
        { work(rt, bus, seat, job) },
    )
}

// The words of a bus whose ports have done the job.
fn words_after<R: Threads + Sync>(
    rt: &R,
    alloc: Global,
    words: Vec<u64>,
    ports: u32,
    job: Job,
) -> Result<Vec<u64>, AllocError>
    requires words { 9 ≤ vec_len words }
    requires ports { 0 < ports }
{
    let mut opening = Opening { words, ports };
    let (bus, rest) = Bus::open(alloc, &opening)?;
    let (seats, round) = bus.begin(alloc, rest)?;
    let seats = work_in_threads(rt, &bus, seats, job)?;
    let rest = bus.end(round, seats);
    bus.close(rest, opening.words.as_mut_slice());
    Ok(opening.words)
}

#[test]
fn two_threads_count_up(rt: HostRuntime) -> Result<(), Fail> {
    let words = vec![in rt.alloc(); 0; 9]?;
    let words = words_after(&rt, rt.alloc(), words, 2, Job::CountUp)?;
    assert_eq!(rt; words.as_slice(), [2000, 0, 0, 0, 0, 0, 0, 0, 2].as_slice());
    Ok(())
}

#[test]
fn four_threads_mix_operations(rt: HostRuntime) -> Result<(), Fail> {
    let words = vec![in rt.alloc(); 7, 5000, 0, u64::MAX, 0, 0, 0, 0, 0]?;
    let words = words_after(&rt, rt.alloc(), words, 4, Job::Mix)?;
    assert_eq!(rt; words.len(), 9);
    assert_eq!(rt;
        &words[..4],
        [2007, 3800, 0b1111, u64::MAX - 0b1111].as_slice()
    );
    assert!(rt; 1 <= words[4] && words[4] <= 4, "a last swap");
    assert!(rt; 1 <= words[5] && words[5] <= 4, "a first exchange");
    assert!(rt;
        100 <= words[6] && words[6] <= 400,
        "exchanges that found no other"
    );
    assert_eq!(rt; words[7] / 256, words[6]);
    assert_eq!(rt; words[7] % 256, 4);
    assert_eq!(rt; words[8], 4);
    Ok(())
}

#[test]
fn a_port_goes_to_another_thread_and_back(rt: HostRuntime) -> Result<(), Fail> {
    let words = vec![in rt.alloc(); 50, 3, 0, 0, 0, 0, 0, 0, 0]?;
    let words = words_after(&rt, rt.alloc(), words, 1, Job::HandOver)?;
    assert_eq!(rt; words.as_slice(), [42, 3, 0, 0, 0, 0, 0, 0, 0].as_slice());
    Ok(())
}
