//! The program sharc-trace: the call over the words, standard input and standard output. Why not all events are written
//! goes to standard error.
#![tactic(auto)]

mod call;
mod command_line;
mod why;

use call::{exit_code, traced};
use command_line::words;
use sharc_io::{StdSink, StdSource};
use std::process::ExitCode;
use why::say;

fn main(rt: HostRuntime) -> ExitCode {
    let mut input = StdSource::new(rt.stdin());
    let mut out = StdSink::new(rt.stdout());
    let ended = traced(rt.alloc(), words(&rt), &mut input, &mut out);
    if let Some(why) = ended.why {
        let _ = eprintln!(rt; "sharc-trace: event {}: {}", why.event, say(why.cut));
    }
    exit_code(ended)
}
