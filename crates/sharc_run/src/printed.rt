// The prints of all threads.

ghost use Rattle.std.specs.{Prelude.{◌≡◌, IfOk, OnOk}, List.flat_map};
ghost use Rattle.sharc_tree.specs.Texts.{Appends};
ghost use Rattle.sharc_run.specs.RunText.{prints_of, print_line, AreInOrder};

use itoa::Buffer;
use sharc_code::Print;
use sharc_cpu::Thread;
use std::alloc::{AllocError, Global};

// The prints of the threads, one thread after the other.
fn prints_of_all(alloc: Global, threads: &[Thread]) -> Result<Vec<Print>, AllocError>
    ensures { IfOk result (λ prints. prints.items ≡ flat_map prints_of threads.now) }
{
    let mut prints = Vec::new(alloc);
    for t in threads {
        prints.extend_from_slice(t.prints())?;
    }
    Ok(prints)
}

/// The prints of all threads, in the order of their places.
pub(crate) fn prints_in_order(alloc: Global, threads: &[Thread]) -> Result<Vec<Print>, AllocError>
    ensures { IfOk result (λ prints. AreInOrder threads.now prints.items) }
{
    let mut prints = prints_of_all(alloc, threads)?;
    prints.sort_by_key(|p| p.place)?;
    Ok(prints)
}

/// The value of a print on a line.
pub(crate) fn put_print(text: &mut Vec<u8>, p: Print) -> Result<(), AllocError>
    ensures { Appends result (print_line p) text.old.items text.new.items }
{
    let mut buffer = Buffer::new();
    text.extend_from_slice(buffer.format(p.value).as_bytes())?;
    text.extend_from_slice(b"\n")
}
