//! Lists of words that are commands, with the numbers of each, which what is written of them does not show.

use sharc_cli::{Command, read_words};
use std::alloc::{AllocError, Global};
use std::process::Abort;
use std::test::Fail;

/// What the words of a line say, which are separated by single spaces.
fn read_line(alloc: Global, line: &str) -> Result<Option<Command>, AllocError> {
    let mut words = Vec::new(alloc);
    for word in line.split(' ') {
        words.push(String::from_str(alloc, word)?)?;
    }
    let command = read_words(alloc, words.as_slice());
    drop(words);
    command
}

/// A command as the table has it: its name and its numbers, the seed of a run last, if it has one.
fn command_text(alloc: Global, command: Command) -> Result<String, AllocError> {
    match command {
        Command::Check => String::from_str(alloc, "check"),
        Command::Explain => String::from_str(alloc, "explain"),
        Command::Replay => String::from_str(alloc, "replay"),
        Command::Audit => String::from_str(alloc, "audit"),
        Command::Load { number, workers } => format!(in alloc; "load {number} {workers}"),
        Command::Record {
            workers,
            granules,
            events,
        } => format!(in alloc; "record {workers} {granules} {events}"),
        Command::Run {
            workers,
            granules,
            events,
            seed,
        } => run_text(alloc, [workers, granules, events], seed),
    }
}

fn run_text(alloc: Global, numbers: [u64; 3], seed: Option<u64>) -> Result<String, AllocError> {
    let [workers, granules, events] = numbers;
    match seed {
        None => format!(in alloc; "run {workers} {granules} {events}"),
        Some(seed) => format!(in alloc; "run {workers} {granules} {events} {seed}"),
    }
}

/// Lines, and the commands that they are.
const COMMANDS: &str = "check => check
explain => explain
replay => replay
audit => audit
run => run 4 4096 1000000
record => record 4 4096 100000
run --workers 2 => run 2 4096 1000000
run --workers=2 => run 2 4096 1000000
run --granules 20 => run 4 20 1000000
run --granules=20 => run 4 20 1000000
run --events 9 => run 4 4096 9
run --events=9 => run 4 4096 9
run --seed 7 => run 4 4096 1000000 7
run --seed=7 => run 4 4096 1000000 7
record --workers 2 => record 2 4096 100000
record --workers=2 => record 2 4096 100000
record --granules 20 => record 4 20 100000
record --granules=20 => record 4 20 100000
record --events 9 => record 4 4096 9
record --events=9 => record 4 4096 9
run --workers 2 --granules=20 => run 2 20 1000000
run --workers=2 --events=9 => run 2 4096 9
run --workers 2 --seed 7 => run 2 4096 1000000 7
run --granules=20 --workers 2 => run 2 20 1000000
run --granules 20 --events=9 => run 4 20 9
run --granules=20 --seed=7 => run 4 20 1000000 7
run --events 9 --workers 2 => run 2 4096 9
run --events=9 --granules 20 => run 4 20 9
run --events 9 --seed=7 => run 4 4096 9 7
run --seed=7 --workers=2 => run 2 4096 1000000 7
run --seed 7 --granules 20 => run 4 20 1000000 7
run --seed=7 --events 9 => run 4 4096 9 7
record --workers 2 --granules=20 => record 2 20 100000
record --workers=2 --events=9 => record 2 4096 9
record --granules 20 --workers 2 => record 2 20 100000
record --granules=20 --events 9 => record 4 20 9
record --events 9 --workers=2 => record 2 4096 9
record --events=9 --granules=20 => record 4 20 9
run --seed 7 --events=9 --granules 20 --workers=2 => run 2 20 9 7
run --granules=20 --workers 2 --seed=7 --events 9 => run 2 20 9 7
record --granules=17 --workers 5 --events=1 => record 5 17 1
run --workers 1 => run 1 4096 1000000
run --workers=16 => run 16 4096 1000000
run --granules 16 => run 4 16 1000000
run --granules=65536 => run 4 65536 1000000
run --events 1 => run 4 4096 1
run --events=100000000 => run 4 4096 100000000
run --seed 0 => run 4 4096 1000000 0
run --seed=18446744073709551615 => run 4 4096 1000000 18446744073709551615
record --events 1 => record 4 4096 1
record --events 200000 => record 4 4096 200000
record --workers 16 => record 16 4096 100000
record --granules 65536 => record 4 65536 100000
load 1 => load 1 4
load 10000 => load 10000 4
load 8 --workers 3 => load 8 3
load 8 --workers=3 => load 8 3
load --workers=3 8 => load 8 3
load --workers 3 0008 => load 8 3
load 00000000000000000008 => load 8 4
run --workers 00000000000000000016 => run 16 4096 1000000
run --seed 00000000000000000000 => run 4 4096 1000000 0
run --seed=018446744073709551 => run 4 4096 1000000 18446744073709551
load 8 --workers 0016 => load 8 16
";

/// Asserts that a line is a command.
fn assert_command(rt: &(impl Abort + AllocGlobal), line: &str, wanted: &str) -> Result<(), Fail> {
    let Some(command) = read_line(rt.alloc(), line)? else {
        panic!(rt; "no command: {line}")
    };
    let found = command_text(rt.alloc(), command)?;
    assert_eq!(rt; found.as_str(), wanted, "at {line}");
    Ok(())
}

#[test]
fn reads_each_command_with_its_options(rt: HostRuntime) -> Result<(), Fail> {
    for case in COMMANDS.lines() {
        let Some((line, wanted)) = case.split_once(" => ") else {
            panic!(rt; "no case: {case}")
        };
        assert_command(&rt, line, wanted)?;
    }
    Ok(())
}
