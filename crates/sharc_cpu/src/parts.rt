//! What a thread has for itself beside its place.

use sharc_code::{At, Frame, Print, Stage, Stop};
use sharc_heap::AccessTable;
use sharc_locks::HeldLog;

/// Both banks of registers, the reference that was loaded last, the callers' frames, and what a thread notes.
#[derive(Drop)]
pub struct ThreadParts {
    pub ints: Vec<i64>,
    pub refs: Vec<u64>,
    pub pending: u64,
    pub frames: Vec<Frame>,
    pub number: u32,
    pub function: u64,
    pub table: AccessTable,
    pub held: HeldLog,
    pub heads: Vec<u64>,
    pub prints: Vec<Print>,
    pub stage: Stage,
    pub stop: Option<Stop>,
}

impl ThreadParts {
    ghost use Rattle.std.specs.Prelude.{◌≡◌, ◌<◌, ◌+◌, ◌++◌, [], ◌∷◌, Some, pos, slice_index, slice_index_or};
    ghost use Rattle.std.specs.Prelude.{slice_set, vec_len, vec_capacity};
    ghost use Rattle.sharc_code.specs.{declared.state.Print.Print, Machine.no_frame};
    ghost use Rattle.sharc_cpu.specs.View.{rest_of};

    /// The integer in a register of the frame.
    #[inline(always)]
    pub(crate) fn int(&self, at: At, register: u32) -> i64
        ensures { result ≡ slice_index_or self.now.ints.items (at.ints + register) (pos 0) }
    {
        let place = at.ints as usize + register as usize;
        let ints = self.ints.as_slice();
        if place < ints.len() { ints[place] } else { 0 }
    }

    #[inline(always)]
    pub(crate) fn set_int(&mut self, at: At, register: u32, value: i64)
        ensures rest { rest_of self.new
            ≡ record (rest_of self.old) { ints = slice_set self.old.ints.items (at.ints + register) value } }
        ensures room { vec_capacity self.new.prints ≡ vec_capacity self.old.prints }
    {
        let place = at.ints as usize + register as usize;
        if place < self.ints.len() {
            self.ints[place] = value;
        }
    }

    /// The reference in a register of the frame.
    #[inline(always)]
    pub(crate) fn reference(&self, at: At, register: u32) -> u64
        ensures { result ≡ slice_index self.now.refs.items (at.refs + register) }
    {
        let place = at.refs as usize + register as usize;
        let refs = self.refs.as_slice();
        if place < refs.len() { refs[place] } else { 0 }
    }

    #[inline(always)]
    pub(crate) fn set_reference(&mut self, at: At, register: u32, value: u64)
        ensures rest { rest_of self.new
            ≡ record (rest_of self.old) { refs = slice_set self.old.refs.items (at.refs + register) value } }
        ensures room { vec_capacity self.new.prints ≡ vec_capacity self.old.prints }
    {
        let place = at.refs as usize + register as usize;
        if place < self.refs.len() {
            self.refs[place] = value;
        }
    }

    /// The frame of a caller.
    #[inline(always)]
    pub(crate) fn frame(&self, place: usize) -> Frame
        ensures { result ≡ slice_index_or self.now.frames.items place no_frame }
    {
        let frames = self.frames.as_slice();
        if place < frames.len() {
            frames[place]
        } else {
            Frame {
                pc: 0,
                ints: 0,
                refs: 0,
            }
        }
    }

    #[inline(always)]
    pub(crate) fn set_frame(&mut self, place: usize, frame: Frame)
        ensures rest { rest_of self.new
            ≡ record (rest_of self.old) { frames = slice_set self.old.frames.items place frame } }
        ensures room { vec_capacity self.new.prints ≡ vec_capacity self.old.prints }
    {
        if place < self.frames.len() {
            self.frames[place] = frame;
        }
    }

    /// The first freed block of a size, or 0.
    pub(crate) fn head(&self, size: u32) -> u64
        ensures { result ≡ slice_index self.now.heads.items size }
    {
        let heads = self.heads.as_slice();
        if (size as usize) < heads.len() {
            heads[size as usize]
        } else {
            0
        }
    }

    pub(crate) fn set_head(&mut self, size: u32, head: u64)
        ensures rest { rest_of self.new ≡ record (rest_of
            self.old) { own = record (rest_of self.old).own { heads = slice_set self.old.heads.items size head } } }
        ensures room { vec_capacity self.new.prints ≡ vec_capacity self.old.prints }
    {
        if (size as usize) < self.heads.len() {
            self.heads[size as usize] = head;
        }
    }

    /// Notes a print. There is room for it.
    #[inline(always)]
    pub(crate) fn print(&mut self, place: u64, value: i64)
        requires { vec_len self.old.prints < vec_capacity self.old.prints }
        ensures rest { rest_of self.new ≡ record (rest_of self.old) {
          own = record (rest_of
              self.old).own { prints = self.old.prints.items ++ record { place = place; value = value } ∷ [] };
        } }
        ensures room { vec_capacity self.new.prints ≡ vec_capacity self.old.prints }
    {
        self.prints.push_reserved(Print { place, value });
    }

    #[inline(always)]
    pub(crate) fn set_pending(&mut self, reference: u64)
        ensures rest { rest_of self.new ≡ record (rest_of self.old) { pending = reference } }
        ensures room { vec_capacity self.new.prints ≡ vec_capacity self.old.prints }
    {
        self.pending = reference;
    }

    #[inline(always)]
    pub(crate) fn set_stage(&mut self, stage: Stage)
        ensures rest { rest_of self.new
            ≡ record (rest_of self.old) { own = record (rest_of self.old).own { stage = stage } } }
        ensures room { vec_capacity self.new.prints ≡ vec_capacity self.old.prints }
    {
        self.stage = stage;
    }

    #[inline(always)]
    pub(crate) fn set_function(&mut self, function: u64)
        ensures rest { rest_of self.new
            ≡ record (rest_of self.old) { own = record (rest_of self.old).own { function = function } } }
        ensures room { vec_capacity self.new.prints ≡ vec_capacity self.old.prints }
    {
        self.function = function;
    }

    #[cold]
    #[inline(never)]
    pub(crate) fn set_stop(&mut self, stop: Stop)
        ensures rest { rest_of self.new
            ≡ record (rest_of self.old) { own = record (rest_of self.old).own { stop = Some stop } } }
        ensures room { vec_capacity self.new.prints ≡ vec_capacity self.old.prints }
    {
        self.stop = Some(stop);
    }
}
