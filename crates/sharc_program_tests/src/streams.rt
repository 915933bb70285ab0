//! Streams that move one byte at each call.

use sharc_io::{Failed, Sink, Source, SureSink, SureSource};

/// A source that gives one byte at each call.
#[derive(Drop)]
pub(crate) struct Dripping(pub(crate) SureSource);

impl Source for Dripping {
    ghost use Rattle.std.specs.Prelude.{Some};

    ghost left = { λ s. Some s.0 };

    ghost faults = { λ _. 0 };

    fn read(&mut self, buf: &mut [u8]) -> Result<usize, Failed> {
        if buf.is_empty() {
            return Ok(0);
        }
        self.0.read(&mut buf[..1])
    }
}

/// A sink that takes one byte at each call, and nothing at the call of one number, counted from 1.
#[derive(Drop)]
pub(crate) struct Trickling {
    pub(crate) sink: SureSink,
    pub(crate) nothing_at: u64,
    pub(crate) calls: u64,
    pub(crate) stalls: u64,
}

impl Sink for Trickling {
    ghost use Rattle.std.specs.Prelude.{Some, ◌+◌};

    ghost held = { λ s. Some s.sink.held };

    ghost faults = { λ _. 0 };

    ghost stalls = { λ s. s.stalls + s.sink.stalls };

    fn write(&mut self, piece: &[u8]) -> Result<usize, Failed> {
        self.calls = self.calls.saturating_add(1);
        if self.calls == self.nothing_at {
            self.stalls = self.stalls.saturating_add(1);
            return Ok(0);
        }
        self.sink.write(&piece[..piece.len().min(1)])
    }
}
