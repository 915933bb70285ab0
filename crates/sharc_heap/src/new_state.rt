//! A New that takes one turn at a time.

ghost use Rattle.std.specs.Prelude.{◌≡◌, ◌+◌, ◌*◌, ◌^◌, ◌<◌, ◌≤◌};
ghost use Rattle.sharc_heap.specs.Stages.{next_head};

use crate::arguments::NewArguments;
use crate::blocks::block;
use crate::stage::{NewStage, NewTurn};
use std::marker::Model;

/// A New on its way. It asks for steps of words, and is given what each found. Contracts see it as a `NewView`.
#[derive(Clone, Copy)]
pub struct NewState {
    arguments: NewArguments,
    stage: NewStage,
    head: u64,
}

impl Model for NewState {
    ghost use Rattle.sharc_heap.specs.{State.NewView, Asks.HasFewWords};

    ghost Value = { NewView };

    ghost view = { λ s. record { arguments = s.arguments; stage = s.stage; head = s.head } };

    ghost invariant = { λ s. HasFewWords s.arguments };

    ghost inverse = { λ v. record { arguments = v.arguments; stage = v.stage; head = v.head } };
}

impl NewState {
    ghost use Rattle.sharc_heap.specs.{Block.block_of, State.{begun, told, turn_of, sized}};

    /// A New of this many elements with this many cells in all, in the arena that ends before granule `end`, where
    /// `first` is the number of the word of the first cell of granule 0, and `head` the first freed block of this size
    /// on the thread's own list, or 0.
    pub fn new(elements: u64, cells: u64, end: u64, first: u32, head: u64) -> Self
        requires some { 1 ≤ elements }
        requires least { 1 ≤ cells }
        requires most { cells ≤ 2 ^ 32 }
        requires words { first + 2 * end < 2 ^ 32 }
        requires head { head < end }
        ensures { result ≡ begun record {
          elements = elements;
          cells = cells;
          end = end;
          first = first;
          head = head;
          block = block_of cells;
        } }
    {
        NewState {
            arguments: NewArguments {
                elements,
                cells,
                end,
                first,
                head,
                block: block(cells),
            },
            stage: NewStage::Begins,
            head,
        }
    }

    /// The first freed block of this size that is on the own list afterwards, or 0.
    pub fn head(&self) -> u64
        ensures { result ≡ self.now.head }
    {
        self.head
    }

    /// The granules of the block that the New takes.
    pub fn block(&self) -> u64
        ensures { result ≡ self.now.arguments.block }
    {
        self.arguments.block
    }

    /// The header of the block whose length the New asked to write last, with the elements of the object, if that is
    /// what it asked for.
    pub fn sized(&self) -> Option<(u64, u64)>
        ensures { result ≡ sized self.now.arguments self.now.stage }
    {
        match self.stage {
            NewStage::Length(header) => Some((header, self.arguments.elements)),
            _ => None,
        }
    }

    /// What the New asked for last; before the first call of `next` nothing, which is reported as a full heap.
    pub fn turn(&self) -> NewTurn
        ensures { result ≡ turn_of self.now }
    {
        let stage = self.stage;
        stage.turn(&self.arguments)
    }

    /// What the New asks for next, where `last` is the result of the step that it asked for before; the first call does
    /// not look at it. Once the answer is no step, it stays.
    pub fn next(&mut self, last: u64) -> NewTurn
        ensures turn { result ≡ turn_of self.new }
        ensures state { self.new ≡ told self.old last }
    {
        self.head = head_after(&self.arguments, self.stage, self.head, last);
        self.stage = self.stage.next(&self.arguments, last);
        self.stage.turn(&self.arguments)
    }
}

// The head of the own list after this stage, where `last` was found.
fn head_after(of: &NewArguments, stage: NewStage, head: u64, last: u64) -> u64
    ensures { result ≡ next_head of.now stage head last }
{
    match stage {
        NewStage::Link if last < of.end => last,
        NewStage::Link => 0,
        _ => head,
    }
}
