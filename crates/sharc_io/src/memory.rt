//! A source and a sink in memory that fail at the calls that they are given.

ghost use Rattle.std.specs.{Prelude.{◌≡◌, ◌-◌, ◌≤◌, [], length, min, is_err, OnOk, OnErr, IfOk}, Io.ReadsAtMost};
ghost use Rattle.std.specs.{Io.WritesAtMost, Io.KnownBytes.{ReadConsumes, WriteAppends}};
ghost use Rattle.sharc_io.specs.{Causes.{HasCause, HasStallCause}, Memory.{MakesCall, stalls_after}};

use crate::plan::FaultPlan;
use crate::store::Store;
use crate::unread::Unread;
use crate::{Failed, Sink, Source};
use std::alloc::{AllocError, Global};
use std::marker::Model;

/// A source of bytes in memory. Exactly the calls that are listed fail.
#[derive(Debug, Drop)]
pub struct MemSource {
    unread: Unread,
    plan: FaultPlan,
}

impl Model for MemSource {
    ghost use Rattle.sharc_io.specs.Memory.{PlannedInput};

    ghost Value = { PlannedInput };

    ghost view = { λ s. record { left = s.unread; plan = s.plan } };
}

impl MemSource {
    /// A source of these bytes, whose calls with these numbers fail.
    ///
    /// Calls are numbered from 0; the number 2^64 - 1 stands for all later calls too.
    pub fn new(bytes: Vec<u8>, fails: Vec<u64>) -> Self
        ensures left { result.left ≡ bytes.items }
        ensures plan { result.plan ≡ record { fails = fails.items; call = 0; faults = 0 } }
    {
        MemSource {
            unread: Unread::new(bytes),
            plan: FaultPlan::new(fails),
        }
    }
}

impl Source for MemSource {
    ghost use Rattle.std.specs.Prelude.{Some};

    ghost left = { λ s. Some s.left };

    ghost faults = { λ s. s.plan.faults };

    fn read(&mut self, buf: &mut [u8]) -> Result<usize, Failed>
        ensures bound { ReadsAtMost result buf.new }
        ensures bytes { ReadConsumes (Some self.old.left) (Some self.new.left) result buf.new }
        ensures cause { HasCause self.old.plan.faults self.new.plan.faults result }

        // It fails exactly where the number of the call is listed, and else gives as much as there is room for.
        ensures call { MakesCall self.old.plan self.new.plan (is_err result) }
        ensures count { IfOk result (λ count. count ≡ min (length buf.old) (length self.old.left)) }
    {
        if self.plan.next_fails() {
            return Err(Failed);
        }
        Ok(self.unread.give(buf))
    }
}

/// A sink of bytes in memory, with a room that it reserves when it is made. Exactly the calls that are listed fail.
#[derive(Debug, Drop)]
pub struct MemSink {
    store: Store,
    plan: FaultPlan,
}

impl Model for MemSink {
    ghost use Rattle.std.specs.Prelude.{◌≤◌, length};
    ghost use Rattle.sharc_io.specs.Memory.{PlannedOutput};

    ghost Value = { PlannedOutput };

    ghost view = { λ s. record { holding = s.store; plan = s.plan } };

    ghost invariant = { λ s. length s.store.held ≤ s.store.room };
}

impl MemSink {
    /// A sink with room for this many bytes, whose calls with these numbers fail.
    ///
    /// Calls are numbered from 0; the number 2^64 - 1 stands for all later calls too.
    pub fn new(alloc: Global, room: usize, fails: Vec<u64>) -> Result<Self, AllocError>
        ensures holding { IfOk result (λ sink. sink.holding ≡ record { held = []; room = room; stalls = 0 }) }
        ensures plan { IfOk result (λ sink. sink.plan ≡ record { fails = fails.items; call = 0; faults = 0 }) }
    {
        Ok(MemSink {
            store: Store::new(alloc, room)?,
            plan: FaultPlan::new(fails),
        })
    }

    /// The bytes that it holds.
    pub fn bytes(&self) -> &[u8]
        ensures { result.now ≡ self.now.holding.held }
    {
        self.store.bytes()
    }
}

impl Sink for MemSink {
    ghost use Rattle.std.specs.Prelude.{Some};

    ghost held = { λ s. Some s.holding.held };

    ghost faults = { λ s. s.plan.faults };

    ghost stalls = { λ s. s.holding.stalls };

    fn write(&mut self, piece: &[u8]) -> Result<usize, Failed>
        ensures bound { WritesAtMost result piece.now }
        ensures bytes { WriteAppends (Some self.old.holding.held) (Some self.new.holding.held) result piece.now }
        ensures cause { HasCause self.old.plan.faults self.new.plan.faults result }
        ensures stall { HasStallCause self.old.holding.stalls self.new.holding.stalls result piece.now }

        // It fails exactly where the number of the call is listed, and else takes as much as there is room for.
        ensures call { MakesCall self.old.plan self.new.plan (is_err result) }
        ensures count { IfOk result (λ count. count
            ≡ min (length piece.now) (self.old.holding.room - length self.old.holding.held)) }
        ensures stalls { IfOk result (λ count. self.new.holding.stalls
            ≡ stalls_after self.old.holding.stalls count piece.now) }
        ensures room { self.new.holding.room ≡ self.old.holding.room }
        ensures within { length self.new.holding.held ≤ self.new.holding.room }
        ensures unchanged { OnErr result (self.new.holding ≡ self.old.holding) }
    {
        if self.plan.next_fails() {
            return Err(Failed);
        }
        Ok(self.store.put(piece))
    }
}
