//! Reading the words.

ghost use Rattle.std.specs.Prelude.{false, ◌<◌, ◌≡◌, ◌∷◌, [], codes, map, option_map, string_bytes, IfOk, Some, None};
ghost use Rattle.std.specs.{List.list_all, Str.all_ascii_digits};
ghost use Rattle.clap.specs.{Simple.{app_of, subcommand_rows_of}, Walk.rows_of, Matches.found_of};
ghost use Rattle.sharc_cli.specs.Commands.{command_of, commands, load_of, number_in, number_or, record_of, run_of};
ghost use Rattle.sharc_cli.specs.Line.{command_in, bare_line, is_plain, IsSubcommand, line, seen, values_in, with_form};

use crate::command::Command;
use clap::error::ErrorKind;
use clap::{Arg, ArgMatches};
use std::alloc::{AllocError, Global};

fn is_plain(word: &str) -> bool
    ensures { result ≡ is_plain word.now }
{
    let bytes = word.as_bytes();
    if !bytes.is_empty() && bytes[0] == b'-' {
        bytes.len() > 2 && bytes[1] == b'-'
    } else {
        true
    }
}

fn are_plain(words: &[String]) -> bool
    ensures { result ≡ list_all is_plain (map string_bytes words.now) }
{
    for word in words {
        if !is_plain(word.as_str()) {
            return false;
        }
    }
    true
}

/// A subcommand with a number, or with nothing.
fn opened<'a>(
    alloc: Global,
    name: &'a str,
    number: Option<&'a str>,
) -> Result<clap::Command<'a>, AllocError>
    ensures { IfOk result (λ c. IsSubcommand c name.entry.now (option_map (λ n. n.now) number.entry) []) }
{
    let command = clap::Command::new(alloc, name);
    match number {
        Some(number) => command.arg(Arg::new(alloc, number)),
        None => Ok(command),
    }
}

/// A subcommand with these options, and before them a number where it has one.
fn subcommand<'a>(
    alloc: Global,
    name: &'a str,
    number: Option<&'a str>,
    options: &[&'a str],
) -> Result<clap::Command<'a>, AllocError>
    ensures { IfOk result
        (λ c. IsSubcommand c name.entry.now (option_map (λ n. n.now) number.entry) (map (λ s. s.now) options.now)) }
{
    let mut command = opened(alloc, name, number)?;
    for option in options {
        command = command.arg(Arg::new(alloc, *option).long(*option))?;
    }
    Ok(command)
}

/// The command line with one subcommand more: with these options, and before them a number where it has one.
fn with_subcommand<'a>(
    alloc: Global,
    line: clap::Command<'a>,
    name: &'a str,
    number: Option<&'a str>,
    options: &[&'a str],
) -> Result<clap::Command<'a>, AllocError>
    ensures { IfOk result (λ c. app_of c ≡ with_form (app_of line.entry) name.entry.now
        (option_map (λ n. n.now) number.entry) (map (λ s. s.now) options.now)) }
{
    line.subcommand(subcommand(alloc, name, number, options)?)
}

/// A command line without subcommands, with no help and no version.
fn bare_line<'a>(alloc: Global) -> clap::Command<'a>
    ensures { app_of result ≡ bare_line }
{
    clap::Command::new(alloc, "sharc")
        .no_binary_name(true)
        .disable_help_flag(true)
        .disable_help_subcommand(true)
        .disable_version_flag(true)
}

/// The seven commands as subcommands. Nothing is kept beside the command line while the next one is made.
fn command_line<'a>(alloc: Global) -> Result<clap::Command<'a>, AllocError>
    ensures { IfOk result (λ c. app_of c ≡ line) }
{
    let line = with_subcommand(alloc, bare_line(alloc), "check", None, [].as_slice())?;
    let line = with_subcommand(alloc, line, "explain", None, [].as_slice())?;
    let line = with_subcommand(
        alloc,
        line,
        "run",
        None,
        ["workers", "granules", "events", "seed"].as_slice(),
    )?;
    let line = with_subcommand(alloc, line, "load", Some("number"), ["workers"].as_slice())?;
    let line = with_subcommand(
        alloc,
        line,
        "record",
        None,
        ["workers", "granules", "events"].as_slice(),
    )?;
    let line = with_subcommand(alloc, line, "replay", None, [].as_slice())?;
    with_subcommand(alloc, line, "audit", None, [].as_slice())
}

fn are_digits(bytes: &[u8]) -> bool
    ensures { result ≡ all_ascii_digits bytes.now }
{
    for byte in bytes {
        if !byte.is_ascii_digit() {
            return false;
        }
    }
    true
}

/// The number that the text writes in 1 to 20 decimal digits, where it lies within the bounds.
fn number_in(low: u64, high: u64, text: &str) -> Option<u64>
    ensures { result ≡ number_in low high text.now }
{
    let bytes = text.as_bytes();
    if bytes.is_empty() || bytes.len() > 20 || !are_digits(bytes) {
        return None;
    }
    match text.parse::<u64>() {
        Ok(number) => {
            if low <= number && number <= high {
                Some(number)
            } else {
                None
            }
        }
        Err(_) => None,
    }
}

/// The number of an option that may be left out.
fn number_or(default: u64, low: u64, high: u64, text: Option<&str>) -> Option<u64>
    ensures { result ≡ number_or default low high (option_map (λ s. s.now) text.entry) }
{
    match text {
        Some(text) => number_in(low, high, text),
        None => Some(default),
    }
}

/// How many workers: 1 to 16, or 4.
fn workers_in(text: Option<&str>) -> Option<u64>
    ensures { result ≡ number_or 4 1 16 (option_map (λ s. s.now) text.entry) }
{
    number_or(4, 1, 16, text)
}

/// How many granules: 16 to 65,536, or 4,096.
fn granules_in(text: Option<&str>) -> Option<u64>
    ensures { result ≡ number_or 4096 16 65536 (option_map (λ s. s.now) text.entry) }
{
    number_or(4096, 16, 65_536, text)
}

fn run_of(
    workers: Option<&str>,
    granules: Option<&str>,
    events: Option<&str>,
    seed: Option<&str>,
) -> Option<Command>
    ensures { result ≡ run_of (seen None workers.entry granules.entry events.entry seed.entry) }
{
    let workers = workers_in(workers)?;
    let granules = granules_in(granules)?;
    let events = number_or(1_000_000, 1, 100_000_000, events)?;
    let seed = match seed {
        Some(text) => Some(number_in(0, u64::MAX, text)?),
        None => None,
    };
    Some(Command::Run {
        workers,
        granules,
        events,
        seed,
    })
}

fn load_of(number: Option<&str>, workers: Option<&str>) -> Option<Command>
    ensures { result ≡ load_of (seen number.entry workers.entry None None None) }
{
    let number = number_in(1, 10_000, number?)?;
    let workers = workers_in(workers)?;
    Some(Command::Load { number, workers })
}

fn record_of(workers: Option<&str>, granules: Option<&str>, events: Option<&str>) -> Option<Command>
    ensures { result ≡ record_of (seen None workers.entry granules.entry events.entry None) }
{
    let workers = workers_in(workers)?;
    let granules = granules_in(granules)?;
    let events = number_or(100_000, 1, 200_000, events)?;
    Some(Command::Record {
        workers,
        granules,
        events,
    })
}

/// The command of this name, by the values that its options have.
fn command_of(name: &str, matches: &ArgMatches) -> Option<Command>
    ensures { result ≡ command_of name.now (values_in (rows_of (found_of matches.now))) }
{
    let workers = matches.get_str("workers");
    let granules = matches.get_str("granules");
    let events = matches.get_str("events");
    match name {
        "check" => Some(Command::Check),
        "explain" => Some(Command::Explain),
        "run" => run_of(workers, granules, events, matches.get_str("seed")),
        "load" => load_of(matches.get_str("number"), workers),
        "record" => record_of(workers, granules, events),
        "replay" => Some(Command::Replay),
        "audit" => Some(Command::Audit),
        _ => None,
    }
}

/// The command that clap found.
fn command_in(matches: &ArgMatches) -> Option<Command>
    ensures { result ≡ command_in (subcommand_rows_of matches.now) }
{
    match matches.subcommand() {
        Some((name, inner)) => command_of(name, inner),
        None => None,
    }
}

/// The command that the words are, or `None` where they are not one: `commands` of specs/Commands.antt says which are.
pub fn read_words(alloc: Global, words: &[String]) -> Result<Option<Command>, AllocError>
    ensures { IfOk result (λ command. command ≡ commands (map string_bytes words.now)) }
{
    if !are_plain(words) {
        return Ok(None);
    }
    let line = command_line(alloc)?;
    match line.try_get_matches_from(words) {
        Ok(matches) => Ok(command_in(&matches)),
        Err(error) => match error.kind() {
            ErrorKind::OutOfMemory => Err(AllocError),
            _ => Ok(None),
        },
    }
}
