//! Bytes in memory that are written at the end, up to a room that was reserved.

ghost use Rattle.std.specs.Prelude.{◌≡◌, ◌+◌, ◌-◌, ◌<◌, ◌≤◌, ◌++◌, [], length, min, take, IfOk, if◌then◌else◌};
ghost use Rattle.sharc_io.specs.{Causes.Rose, Memory.stalls_after};

use std::alloc::{AllocError, Global};
use std::marker::Model;

/// Bytes, the room that was reserved for them, and how often there was no room for any of a piece.
#[derive(Debug, Drop)]
pub(crate) struct Store {
    bytes: Vec<u8>,
    room: usize,
    stalls: u64,
}

impl Model for Store {
    ghost use Rattle.std.specs.Prelude.{◌≤◌, vec_len, vec_capacity};
    ghost use Rattle.sharc_io.specs.Memory.{Holding};

    ghost Value = { Holding };

    ghost view = { λ s. record { held = s.bytes.items; room = s.room; stalls = s.stalls } };

    ghost invariant = { λ s. (vec_len s.bytes ≤ s.room) × (s.room ≤ vec_capacity s.bytes) };
}

impl Store {
    /// No bytes, and this much room for them.
    pub(crate) fn new(alloc: Global, room: usize) -> Result<Self, AllocError>
        ensures { IfOk result (λ store. store ≡ record { held = []; room = room; stalls = 0 }) }
    {
        Ok(Store {
            bytes: Vec::with_capacity(alloc, room)?,
            room,
            stalls: 0,
        })
    }

    pub(crate) fn bytes(&self) -> &[u8]
        ensures { result.now ≡ self.now.held }
    {
        &self.bytes
    }

    /// Appends as many bytes of the piece as there is room for. It takes no memory.
    pub(crate) fn put(&mut self, piece: &[u8]) -> usize
        ensures count { result ≡ min (length piece.now) (self.old.room - length self.old.held) }
        ensures held { self.new.held ≡ self.old.held ++ take result piece.now }
        ensures room { self.new.room ≡ self.old.room }
        ensures within { length self.new.held ≤ self.new.room }
        ensures stalls { self.new.stalls ≡ stalls_after self.old.stalls result piece.now }
        ensures stalled { result ≡ 0 → 0 < length piece.now → Rose self.old.stalls self.new.stalls }
        ensures later { self.old.stalls ≤ self.new.stalls }
    {
        let count = piece.len().min(self.room - self.bytes.len());
        self.bytes.extend_from_slice(&piece[..count]).unwrap();
        if count == 0 && !piece.is_empty() {
            self.stalls = self.stalls.saturating_add(1);
        }
        count
    }
}
