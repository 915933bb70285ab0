//! Standard input and standard output: the trusted edge.

ghost use Rattle.std.specs.{Prelude.{◌≡◌, is_err, if◌then◌else◌, IfOk, OnErr, MatchResult}, Io.ReadsAtMost};
ghost use Rattle.std.specs.{Io.WritesAtMost, Io.KnownBytes.{ReadConsumes, WriteAppends}};
ghost use Rattle.sharc_io.specs.{Causes.{HasCause, HasStallCause, one_more}, Memory.stalls_after};

use crate::{Failed, Sink, Source};
use std::io::{Read, Stdin, Stdout, Write};
use std::marker::Model;

/// Standard input. It does not show its bytes.
#[derive(Drop)]
pub struct StdSource {
    input: Stdin,
    faults: u64,
}

impl Model for StdSource {
    ghost use Rattle.std.specs.Prelude.{ℕ};

    ghost Value = { ℕ };

    ghost view = { λ s. s.faults };
}

impl StdSource {
    /// A source over standard input, with no fault so far.
    pub fn new(input: Stdin) -> Self
        ensures { result ≡ 0 }
    {
        StdSource { input, faults: 0 }
    }
}

impl Source for StdSource {
    ghost use Rattle.std.specs.Prelude.{None};

    ghost left = { λ _. None };

    ghost faults = { λ s. s };

    fn read(&mut self, buf: &mut [u8]) -> Result<usize, Failed>
        ensures bound { ReadsAtMost result buf.new }
        ensures cause { HasCause self.old self.new result }
        ensures faults { self.new ≡ (if is_err result then one_more self.old else self.old) }
    {
        match self.input.read(buf) {
            Ok(count) => Ok(count),
            Err(_) => {
                self.faults = self.faults.saturating_add(1);
                Err(Failed)
            }
        }
    }
}

/// Standard output. It does not show its bytes.
#[derive(Drop)]
pub struct StdSink {
    output: Stdout,
    faults: u64,
    stalls: u64,
}

impl Model for StdSink {
    ghost use Rattle.sharc_io.specs.Memory.{Counts};

    ghost Value = { Counts };

    ghost view = { λ s. record { faults = s.faults; stalls = s.stalls } };
}

impl StdSink {
    /// A sink over standard output, with no fault and no stall so far.
    pub fn new(output: Stdout) -> Self
        ensures { result ≡ record { faults = 0; stalls = 0 } }
    {
        StdSink {
            output,
            faults: 0,
            stalls: 0,
        }
    }
}

impl Sink for StdSink {
    ghost use Rattle.std.specs.Prelude.{None};

    ghost held = { λ _. None };

    ghost faults = { λ s. s.faults };

    ghost stalls = { λ s. s.stalls };

    /// Each write is flushed. Where the flush fails the write has failed, though its bytes may have gone out.
    fn write(&mut self, piece: &[u8]) -> Result<usize, Failed>
        ensures bound { WritesAtMost result piece.now }
        ensures cause { HasCause self.old.faults self.new.faults result }
        ensures stall { HasStallCause self.old.stalls self.new.stalls result piece.now }
        ensures faults { self.new.faults ≡ (if is_err result then one_more self.old.faults else self.old.faults) }
        ensures stalls { MatchResult result (λ count. self.new.stalls ≡ stalls_after self.old.stalls count piece.now)
            (λ _. self.new.stalls ≡ self.old.stalls) }
    {
        let Ok(count) = write_and_flush(&mut self.output, piece) else {
            self.faults = self.faults.saturating_add(1);
            return Err(Failed);
        };
        if count == 0 && !piece.is_empty() {
            self.stalls = self.stalls.saturating_add(1);
        }
        Ok(count)
    }
}

// Writes once, and flushes.
fn write_and_flush(output: &mut Stdout, piece: &[u8]) -> std::io::Result<usize>
    ensures { WritesAtMost result piece.now }
{
    let count = output.write(piece)?;
    output.flush()?;
    Ok(count)
}
