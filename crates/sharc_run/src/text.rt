// The whole text.

ghost use Rattle.std.specs.{Prelude.{◌≡◌, ◌++◌, IfOk, OnOk}, List.flat_map};
ghost use Rattle.sharc_tree.specs.Texts.{Appends};
ghost use Rattle.sharc_run.specs.{Others.AreAllowed, RunText.{print_line, thread_line, IsRunText}};

use crate::line::put_thread;
use crate::printed::{prints_in_order, put_print};
use sharc_code::{Code, Print};
use sharc_cpu::Thread;
use std::alloc::{AllocError, Global};

fn put_prints(text: &mut Vec<u8>, prints: &[Print]) -> Result<(), AllocError>
    ensures { Appends result (flat_map print_line prints.now) text.old.items text.new.items }
{
    for p in prints {
        put_print(text, *p)?;
    }
    Ok(())
}

fn put_threads(
    text: &mut Vec<u8>,
    code: &Code,
    words: &[u64],
    threads: &[Thread],
) -> Result<(), AllocError>
    requires { AreAllowed threads.now }
    ensures { Appends result
        (flat_map (thread_line code.now words.now threads.now) threads.now) text.old.items text.new.items }
{
    for t in threads {
        put_thread(text, code, words, threads, t)?;
    }
    Ok(())
}

/// The text of a run of this code that has ended with these words and these threads, which are in the order of their
/// numbers: each print as a decimal number on a line, in the order in which all were made, and then a line for each
/// thread that is not gone, which says why: its report (A1 to A4), its stop (X1 to X13), what it waits for, or how many
/// events it has made (the texts are own).
///
/// An `Err` says that memory was not found.
pub fn run_text(
    alloc: Global,
    code: &Code,
    words: &[u64],
    threads: &[Thread],
) -> Result<Vec<u8>, AllocError>
    requires { AreAllowed threads.now }
    ensures { IfOk result (λ text. IsRunText code.now words.now threads.now text.items) }
{
    let prints = prints_in_order(alloc, threads)?;
    let mut text = Vec::new(alloc);
    put_prints(&mut text, prints.as_slice())?;
    drop(prints);
    put_threads(&mut text, code, words, threads)?;
    Ok(text)
}
