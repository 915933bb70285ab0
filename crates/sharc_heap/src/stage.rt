//! What a New asks for, and how far it has come.

ghost use Rattle.std.specs.Prelude.{◌≡◌};
ghost use Rattle.sharc_heap.specs.{Asks.HasFewWords, Stages.{turn_of_stage, next_stage, after_cell, try_from}};

use crate::arguments::NewArguments;
use sharc_word::{WordOp, WordStep};

// The word of the first heap granule that is not yet handed out.
const TOP: u32 = 1;

/// One turn of a New.
#[derive(Clone, Copy, Debug, PartialEq, Eq)]
pub enum NewTurn {
    /// This step is to be made, and its result handed to the next call.
    Do(WordStep),
    /// The block with this header granule is the object's.
    Made(u64),
    /// The own list is empty, and the arena has no room for the block.
    HeapFull,
}

/// How far a New has come, by what it asked for last.
#[derive(Clone, Copy)]
pub enum NewStage {
    /// Nothing.
    Begins,
    /// The link of the first block of the own list.
    Link,
    /// The clearing of this cell of the block.
    Cell(u64),
    /// The top.
    Top,
    /// To move the top on, from the first of these to the second.
    Move(u64, u64),
    /// The count of the block with this header.
    Count(u64),
    /// The length of the block with this header.
    Length(u64),
    /// No more: the block with this header is made.
    Made(u64),
    /// No more: there is no room.
    Full,
}

impl NewStage {
    // The stage after this one, where `last` was found.
    pub(crate) fn next(self, of: &NewArguments, last: u64) -> NewStage
        ensures { result ≡ next_stage of.now self last }
    {
        match self {
            NewStage::Begins if of.head == 0 => NewStage::Top,
            NewStage::Begins => NewStage::Link,
            NewStage::Link => NewStage::Cell(0),
            NewStage::Cell(cell) => after_cell(of, cell),
            NewStage::Top => try_from(of, last),
            NewStage::Move(top, _) if top == last => NewStage::Count(top),
            NewStage::Move(..) => try_from(of, last),
            NewStage::Count(header) => NewStage::Length(header),
            NewStage::Length(header) => NewStage::Made(header),
            NewStage::Made(header) => NewStage::Made(header),
            NewStage::Full => NewStage::Full,
        }
    }

    // What the stage asks for.
    pub(crate) fn turn(self, of: &NewArguments) -> NewTurn
        requires { HasFewWords of.now }
        ensures { result ≡ turn_of_stage of.now self }
    {
        match self {
            NewStage::Begins => NewTurn::HeapFull,
            NewStage::Link => ask(of.length_word(of.head), WordOp::Load),
            NewStage::Cell(cell) => ask(of.cell_word(of.head, cell), WordOp::Swap(0)),
            NewStage::Top => ask(TOP, WordOp::Load),
            NewStage::Move(top, moved) => ask(TOP, WordOp::Cas(top, moved)),
            NewStage::Count(header) => ask(of.count_word(header), WordOp::Swap(1)),
            NewStage::Length(header) => ask(of.length_word(header), WordOp::Swap(of.elements)),
            NewStage::Made(header) => NewTurn::Made(header),
            NewStage::Full => NewTurn::HeapFull,
        }
    }
}

// The stage after the clearing of this cell.
fn after_cell(of: &NewArguments, cell: u64) -> NewStage
    ensures { result ≡ after_cell of.now cell }
{
    let next = cell.saturating_add(1);
    if next < of.cells {
        NewStage::Cell(next)
    } else {
        NewStage::Count(of.head)
    }
}

// The stage where the top was seen here.
fn try_from(of: &NewArguments, top: u64) -> NewStage
    ensures { result ≡ try_from of.now top }
{
    let end = of.end;
    match top.checked_add(of.block) {
        Some(moved) if moved <= end => NewStage::Move(top, moved),
        _ => NewStage::Full,
    }
}

// The turn that makes this step.
fn ask(word: u32, op: WordOp) -> NewTurn
    ensures { result ≡ NewTurn.Do record { word = word; op = op } }
{
    NewTurn::Do(WordStep { word, op })
}
