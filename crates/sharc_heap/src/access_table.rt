//! A thread's own checks: of each granule and kind the last note, which has an epoch and a site, and the granules in
//! the order in which they were noted first.

ghost use Rattle.std.specs.Prelude.{◌≡◌, ◌<◌, ◌++◌, [], ◌∷◌, replicate, length, slice_index, vec_len, vec_capacity};
ghost use Rattle.std.specs.{Prelude.{IfOk, if◌then◌else◌}, Bool.OnFalse};

use crate::shadow_word::Kind;
use std::alloc::{AllocError, Allocator, Global};
use std::marker::Model;

/// A check that passed: the epoch of the granule, and the number of the site.
#[derive(Clone, Copy, Debug, PartialEq, Eq)]
pub struct Note {
    pub epoch: u32,
    pub site: u32,
}

/// What a table has of one granule: the last note of each kind, if there is one.
#[derive(Clone, Copy, Debug, PartialEq, Eq)]
pub struct GranuleNotes {
    pub read: Option<Note>,
    pub write: Option<Note>,
}

impl GranuleNotes {
    ghost use Rattle.sharc_heap.specs.Notes.{blank, of_kind, with_note, has_note};

    // Nothing noted.
    fn blank() -> Self
        ensures { result ≡ blank }
    {
        GranuleNotes {
            read: None,
            write: None,
        }
    }

    // The last note of this kind.
    fn of(&self, kind: Kind) -> Option<Note>
        ensures { result ≡ of_kind kind self.now }
    {
        match kind {
            Kind::Read => self.read,
            Kind::Write => self.write,
        }
    }

    // The same with this note for the kind.
    fn with(self, kind: Kind, note: Note) -> Self
        ensures { result ≡ with_note kind note self }
    {
        match kind {
            Kind::Read => GranuleNotes {
                read: Some(note),
                write: self.write,
            },
            Kind::Write => GranuleNotes {
                read: self.read,
                write: Some(note),
            },
        }
    }

    // Whether there is a note of either kind.
    fn is_noted(&self) -> bool
        ensures { result ≡ has_note self.now }
    {
        self.read.is_some() || self.write.is_some()
    }
}

/// The notes of one thread, by granule and kind. Every call but `new` takes constant time, and no memory.
#[derive(Drop)]
pub struct AccessTable<A: Allocator = Global> {
    notes: Vec<GranuleNotes, A>,
    order: Vec<u32, A>,
}

impl<A: Allocator> Model for AccessTable<A> {
    ghost use Rattle.std.specs.Prelude.{ℕ, List, vec_capacity};
    ghost use Rattle.sharc_heap.specs.Accesses.{Accesses, IsTable};

    ghost Value = { Accesses };

    ghost view = { λ table. record { notes = table.notes.items; order = table.order.items } };

    ghost invariant = { λ table. IsTable table.notes.items table.order.items (vec_capacity table.order) };
}

impl<A: Allocator> AccessTable<A> {
    ghost use Rattle.sharc_heap.specs.{Notes.blank, Accesses.{note_of, site_at, NotesAccess, ListsNoted}};
    ghost use Rattle.sharc_heap.specs.Functions.{noted};

    /// A table of this many granules, of which none is noted.
    ///
    /// An `Err` says that memory was not found.
    pub fn new(alloc: A, granules: u32) -> Result<Self, AllocError>
    where
        A: Clone,
        ensures { IfOk result (λ table. table ≡ record { notes = replicate granules blank; order = [] }) }
    {
        let order = Vec::with_capacity(alloc.clone()?, granules as usize)?;
        let notes = vec![in alloc; GranuleNotes::blank(); granules as usize]?;
        Ok(AccessTable { notes, order })
    }

    /// Notes a check at this site, in place of an earlier note of the granule and kind.
    pub fn note(&mut self, granule: u32, kind: Kind, epoch: u32, site: u32)
        requires { granule < length self.old.notes }
        ensures notes { NotesAccess self.old self.new granule kind record { epoch = epoch; site = site } }
        ensures is { self.new ≡ noted self.old granule kind record { epoch = epoch; site = site } }
    {
        let had = self.notes[granule as usize];
        list_first(&mut self.order, granule, had.is_noted());
        self.notes[granule as usize] = had.with(kind, Note { epoch, site });
    }

    /// The site of the last note of the granule and kind. `None` comes exactly where there is no such note, or its
    /// epoch is another.
    pub fn site(&self, granule: u32, kind: Kind, epoch: u32) -> Option<u32>
        requires { granule < length self.now.notes }
        ensures { result ≡ site_at (note_of self.now granule kind) epoch }
    {
        match self.notes[granule as usize].of(kind) {
            Some(note) if note.epoch == epoch => Some(note.site),
            _ => None,
        }
    }

    /// The number of granules of which there are notes, or could be.
    pub fn granules(&self) -> u32
        ensures { result ≡ length self.now.notes }
    {
        self.notes.len() as u32
    }

    /// The number of granules that were noted.
    pub fn rows(&self) -> u32
        ensures count { result ≡ length self.now.order }
        ensures listed { ListsNoted self.now }
    {
        self.order.len() as u32
    }

    /// The granule that was noted first after `i` others.
    pub fn row(&self, i: u32) -> u32
        requires { i < length self.now.order }
        ensures { result ≡ slice_index self.now.order i }
    {
        self.order[i as usize]
    }
}

// Adds a granule to the order, unless it was noted before. There is room for each granule once.
fn list_first<A: Allocator>(order: &mut Vec<u32, A>, granule: u32, noted: bool)
    requires { OnFalse noted (vec_len order.old < vec_capacity order.old) }
    ensures items { order.new.items ≡ (if noted then order.old.items else order.old.items ++ granule ∷ []) }
    ensures capacity { vec_capacity order.new ≡ vec_capacity order.old }
{
    if !noted {
        order.push_reserved(granule);
    }
}
