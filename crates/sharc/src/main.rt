//! The program sharc: the top call over the words, standard input and standard output.
#![tactic(auto)]

mod call;
mod command_line;

use call::exit_code;
use command_line::words;
use sharc_io::{StdSink, StdSource};
use sharc_run::TimedGate;
use std::process::ExitCode;

fn main(rt: HostRuntime) -> ExitCode {
    let mut input = StdSource::new(rt.stdin());
    let mut out = StdSink::new(rt.stdout());
    exit_code(
        &rt,
        &TimedGate { clock: &rt },
        rt.alloc(),
        words(&rt),
        &mut input,
        &mut out,
    )
}
