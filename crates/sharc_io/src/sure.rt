//! A source and a sink in memory that never fail.

ghost use Rattle.std.specs.{Prelude.{◌≡◌, ◌-◌, ◌≤◌, [], length, min, OnOk, IfOk, IsOk, IsOkAnd}, Io.ReadsAtMost};
ghost use Rattle.std.specs.{Io.WritesAtMost, Io.KnownBytes.{ReadConsumes, WriteAppends}};
ghost use Rattle.sharc_io.specs.{Causes.{HasCause, HasStallCause}, Memory.stalls_after};

use crate::store::Store;
use crate::unread::Unread;
use crate::{Failed, Sink, Source};
use std::alloc::{AllocError, Global};
use std::marker::Model;

/// A source of bytes in memory that never fails.
#[derive(Debug, Drop)]
pub struct SureSource {
    unread: Unread,
}

impl Model for SureSource {
    ghost use Rattle.std.specs.Prelude.{ℕ, List};

    ghost Value = { List ℕ };

    ghost view = { λ s. s.unread };
}

impl SureSource {
    /// A source of these bytes.
    pub fn new(bytes: Vec<u8>) -> Self
        ensures { result ≡ bytes.items }
    {
        SureSource {
            unread: Unread::new(bytes),
        }
    }
}

impl Source for SureSource {
    ghost use Rattle.std.specs.Prelude.{Some};

    ghost left = { λ s. Some s };

    ghost faults = { λ _. 0 };

    fn read(&mut self, buf: &mut [u8]) -> Result<usize, Failed>
        ensures bound { ReadsAtMost result buf.new }
        ensures bytes { ReadConsumes (Some self.old) (Some self.new) result buf.new }
        ensures cause { HasCause 0 0 result }
        ensures count { IsOkAnd result (λ count. count ≡ min (length buf.old) (length self.old)) }
    {
        Ok(self.unread.give(buf))
    }
}

/// A sink of bytes in memory that never fails, with a room that it reserves when it is made.
#[derive(Debug, Drop)]
pub struct SureSink {
    store: Store,
}

impl Model for SureSink {
    ghost use Rattle.sharc_io.specs.Memory.{Holding};

    ghost Value = { Holding };

    ghost view = { λ s. s.store };
}

impl SureSink {
    /// A sink with room for this many bytes.
    pub fn new(alloc: Global, room: usize) -> Result<Self, AllocError>
        ensures { IfOk result (λ sink. sink ≡ record { held = []; room = room; stalls = 0 }) }
    {
        Ok(SureSink {
            store: Store::new(alloc, room)?,
        })
    }

    /// The bytes that it holds.
    pub fn bytes(&self) -> &[u8]
        ensures { result.now ≡ self.now.held }
    {
        self.store.bytes()
    }
}

impl Sink for SureSink {
    ghost use Rattle.std.specs.Prelude.{Some};

    ghost held = { λ s. Some s.held };

    ghost faults = { λ _. 0 };

    ghost stalls = { λ s. s.stalls };

    fn write(&mut self, piece: &[u8]) -> Result<usize, Failed>
        ensures bound { WritesAtMost result piece.now }
        ensures bytes { WriteAppends (Some self.old.held) (Some self.new.held) result piece.now }
        ensures cause { HasCause 0 0 result }
        ensures stall { HasStallCause self.old.stalls self.new.stalls result piece.now }

        // It takes as much as there is room for.
        ensures count { IsOkAnd result (λ count. count
            ≡ min (length piece.now) (self.old.room - length self.old.held)) }
        ensures stalls { IfOk result (λ count. self.new.stalls ≡ stalls_after self.old.stalls count piece.now) }
        ensures room { self.new.room ≡ self.old.room }
        ensures within { length self.new.held ≤ self.new.room }
    {
        Ok(self.store.put(piece))
    }
}
