//! A thread between two quanta.

use crate::begin::begun;
use crate::parts::ThreadParts;
use crate::waits::wait_of;
use sharc_code::{At, Code, Print, Shape, Stage, Stop, TurnState, Wait, fits_law};
use sharc_heap::Kind;
use std::alloc::{AllocError, Global};
use std::marker::Model;

/// One thread of a code and a shape. Contracts see it as a `ThreadView`.
#[derive(Drop)]
pub struct Thread {
    pub(crate) at: At,
    pub(crate) parts: Box<ThreadParts>,
    pub(crate) made: u64,
    pub(crate) wait: Option<Wait>,
}

impl Model for Thread {
    ghost use Rattle.std.specs.Prelude.{◌-◌, vec_len, vec_capacity};
    ghost use Rattle.sharc_cpu.specs.{Thread.ThreadView, View.machine_of};

    ghost Value = { ThreadView };

    ghost view = { λ t. record {
      machine = machine_of t.at t.parts.value;
      made = t.made;
      wait = t.wait;
      room = vec_capacity t.parts.value.prints - vec_len t.parts.value.prints;
    } };
}

impl Thread {
    ghost use Rattle.std.specs.Prelude.{◌≡◌, ◌≤◌, ◌<◌, ◌↔◌, [], length, IsTrue, IfOk, OnOk};
    ghost use Rattle.sharc_word.specs.declared.step.TheConstants.{THREADS as threads};
    ghost use Rattle.sharc_heap.specs.Accesses.{note_of, site_at};
    ghost use Rattle.sharc_code.specs.{Layout.Fits, Machine.{int, ref}, Path.begun, Stages.begins_of};
    ghost use Rattle.sharc_cpu.specs.Thread.{IsThread};

    /// The thread of this number, which made no turn.
    ///
    /// An `Err` says that memory was not found.
    pub fn new(alloc: Global, code: &Code, shape: &Shape, number: u32) -> Result<Thread, AllocError>
        requires fits { Fits code.now shape.now }
        requires number { number < threads }
        ensures thread { IfOk result (λ t. IsThread code.now shape.now t) }
        ensures machine { IfOk result (λ t. t.machine ≡ begun code.now shape.now number) }
        ensures made { IfOk result (λ t. t.made ≡ 0) }
    {
        fits_law(code, shape);
        let at = At {
            pc: 0,
            ints: 0,
            refs: 0,
            depth: 0,
            state: TurnState::Runs,
        };
        let parts = Box::new(alloc, begun(alloc, code, *shape, number)?)?;
        let wait = wait_of(code, *shape, at, &parts);
        Ok(Thread {
            at,
            parts,
            made: 0,
            wait,
        })
    }

    /// Makes room for this many prints.
    ///
    /// An `Err` says that memory was not found.
    pub fn reserve(&mut self, turns: u32) -> Result<(), AllocError>
        ensures room { OnOk result (turns ≤ self.new.room) }
        ensures thread { (code : _) (shape : _) → IsThread code shape self.old → IsThread code shape self.new }
        ensures machine { self.new.machine ≡ self.old.machine }
        ensures made { self.new.made ≡ self.old.made }
        ensures wait { self.new.wait ≡ self.old.wait }
    {
        self.parts.prints.reserve(turns as usize)
    }

    /// Its number.
    pub fn number(&self) -> u32
        ensures { result ≡ self.now.machine.own.number }
    {
        self.parts.number
    }

    /// What its last turn was, and whether another may come.
    pub fn state(&self) -> TurnState
        ensures { result ≡ self.now.machine.at.state }
    {
        self.at.state
    }

    /// The number of the thread that its next turn starts, where that is the last of a Spawn.
    pub fn begins(&self) -> Option<u32>
        ensures { result ≡ begins_of self.now.machine.own.stage }
    {
        match self.parts.stage {
            Stage::Begins(number) => Some(number),
            _ => None,
        }
    }

    /// The place of its next instruction.
    pub fn pc(&self) -> usize
        ensures { result ≡ self.now.machine.at.pc }
    {
        self.at.pc
    }

    /// The integer in a register of its frame.
    pub fn int(&self, register: u32) -> i64
        ensures { result ≡ int self.now.machine register }
    {
        self.parts.int(self.at, register)
    }

    /// The reference in a register of its frame.
    pub fn reference(&self, register: u32) -> u64
        ensures { result ≡ ref self.now.machine register }
    {
        self.parts.reference(self.at, register)
    }

    /// How far its next instruction has come.
    pub fn stage(&self) -> Stage
        ensures { result ≡ self.now.machine.own.stage }
    {
        self.parts.stage
    }

    /// The number of its function.
    pub fn function(&self) -> u64
        ensures { result ≡ self.now.machine.own.function }
    {
        self.parts.function
    }

    /// The events that it has made.
    pub fn made(&self) -> u64
        ensures { result ≡ self.now.made }
    {
        self.made
    }

    /// Its stop, if it has one.
    pub fn stop(&self) -> Option<Stop>
        ensures { result ≡ self.now.machine.own.stop }
    {
        self.parts.stop
    }

    /// Whether it holds no mutex.
    pub fn holds_none(&self) -> bool
        ensures { IsTrue result ↔ (self.now.machine.own.held ≡ []) }
    {
        self.parts.held.is_empty()
    }

    /// What its next turn asks for that it may have to wait for: `None` where it asks for nothing such, or makes no
    /// turn.
    pub fn wait(&self) -> Option<Wait>
        ensures { result ≡ self.now.wait }
    {
        self.wait
    }

    /// The prints that it made.
    pub fn prints(&self) -> &[Print]
        ensures { result.now ≡ self.now.machine.own.prints }
    {
        self.parts.prints.as_slice()
    }

    /// The site of its last check of the granule and kind, if that was made in this epoch.
    pub fn noted(&self, granule: u32, kind: Kind, epoch: u32) -> Option<u32>
        ensures { result ≡ site_at (note_of self.now.machine.own.table granule kind) epoch }
    {
        if granule < self.parts.table.granules() {
            self.parts.table.site(granule, kind, epoch)
        } else {
            None
        }
    }
}
