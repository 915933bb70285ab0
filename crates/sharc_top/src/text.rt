//! Text that is written: its lines, and writing it line by line.

ghost use Rattle.std.specs.Prelude.{◌≡◌, ◌+◌, ◌∷◌, ◌++◌, ◌<◌, ◌≤◌, [], ℕ, List, length, take, drop, decimal, flat_map};
ghost use Rattle.std.specs.{Prelude.{IfOk, IfErr, OnOk, OnErr}, Io.KnownBytes.Appends};
ghost use Rattle.sharc_io.specs.Causes.{EitherRose};
ghost use Rattle.sharc_top.specs.Text.{line};

use sharc_io::{Sink, WriteFault, write_all};

/// Where the line ends that begins at an index: after its newline, or at the end of the text.
fn line_end(text: &[u8], from: usize) -> usize
    requires { from < length text.now }
    ensures later { from < result }
    ensures within { result ≤ length text.now }
{
    for (i, byte) in text[from..].iter().enumerate() {
        if *byte == b'\n' {
            return from + i + 1;
        }
    }
    text.len()
}

/// Writes the text, each line by one call that writes all of it.
///
/// After a fault the sink has as many bytes of the text as the fault says.
pub fn write_lines<O: Sink>(out: &mut O, text: &[u8]) -> Result<(), WriteFault>
    ensures all { OnOk result (Appends (O.held out.old) (O.held out.new) text.now) }
    ensures part { IfErr result (λ fault. Appends (O.held out.old) (O.held out.new) (take fault.written text.now)) }
    ensures short { IfErr result (λ fault. fault.written < length text.now) }
    ensures cause { OnErr result
        (EitherRose (O.faults out.old) (O.faults out.new) (O.stalls out.old) (O.stalls out.new)) }
    ensures faults { O.faults out.old ≤ O.faults out.new }
    ensures stalls { O.stalls out.old ≤ O.stalls out.new }
{
    let mut from = 0;
    while from < text.len() {
        let end = line_end(text, from);
        if let Err(fault) = write_all(out, &text[from..end]) {
            return Err(WriteFault {
                written: from + fault.written,
            });
        }
        from = end;
    }
    Ok(())
}
