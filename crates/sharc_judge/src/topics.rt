// What an event is about. Of each topic only the last event is looked for.

ghost use Rattle.std.specs.Prelude.{◌≡◌, IfOk};
ghost use Rattle.sharc_judge.specs.Topics.{topics_of, changing, made};

use crate::access::number_of;
use crate::keys::{CellKey, GranuleKey, cell_key, granule_key};
use sharc_tree::event::{Act, CellAt, CellMode, SourceEvent, Taken};
use std::alloc::{AllocError, Global};

/// What an event is about.
#[derive(Clone, Copy, PartialEq, Eq, Hash, Drop)]
pub enum Topic {
    /// An access of the cell.
    Access(CellKey),
    /// The cell is written or taken.
    Change(CellKey),
    /// The granule is written or taken under mode dynamic.
    SharedWrite(GranuleKey),
    /// The object of this number is made.
    Make(u32),
    /// It is made or freed.
    Life(u32),
    /// It is made or given.
    Begin(u32),
    /// It is made, given or freed.
    Period(u32),
    /// The mutex is locked or unlocked.
    Mutex(CellKey),
    /// It is locked.
    Lock(CellKey),
    /// It is locked or unlocked by this thread.
    Hold(u32, CellKey),
    /// A thread is spawned, and this is answered.
    Spawn(i64),
    /// The thread's function returns.
    Return(u32),
    /// The thread of this number is gone.
    Gone(i64),
}

// Of a write or a take of the cell.
fn changing(alloc: Global, cell: CellAt, mode: CellMode) -> Result<Vec<Topic>, AllocError>
    ensures { IfOk result (λ topics. topics.items ≡ changing cell mode) }
{
    let key = cell_key(cell);
    match mode {
        CellMode::Dynamic => Ok(vec![in alloc;
            Topic::Access(key),
            Topic::Change(key),
            Topic::SharedWrite(granule_key(cell)),
        ]?),
        _ => Ok(vec![in alloc; Topic::Access(key), Topic::Change(key)]?),
    }
}

// Of the making of an object.
fn made(alloc: Global, object: u32) -> Result<Vec<Topic>, AllocError>
    ensures { IfOk result (λ topics. topics.items ≡ made object) }
{
    Ok(vec![in alloc;
        Topic::Make(object),
        Topic::Life(object),
        Topic::Begin(object),
        Topic::Period(object),
    ]?)
}

/// What the event is about.
pub(crate) fn topics_of(alloc: Global, event: &SourceEvent) -> Result<Vec<Topic>, AllocError>
    ensures { IfOk result (λ topics. topics.items ≡ topics_of event.now) }
{
    let thread = event.thread;
    match event.act {
        Act::Read(c, _) => Ok(vec![in alloc; Topic::Access(cell_key(c))]?),
        Act::Write(c, mode, _) => changing(alloc, c, mode),
        Act::Take(Taken::Cell(c, mode), _) => changing(alloc, c, mode),
        Act::New(_, _, _) => made(alloc, number_of(event.answer)),
        Act::Give(reference, _) => {
            let n = number_of(reference);
            Ok(vec![in alloc; Topic::Begin(n), Topic::Period(n)]?)
        }
        Act::Freed(reference) => {
            let n = number_of(reference);
            Ok(vec![in alloc; Topic::Life(n), Topic::Period(n)]?)
        }
        Act::Lock(c) => {
            let key = cell_key(c);
            Ok(vec![in alloc;
                Topic::Mutex(key),
                Topic::Lock(key),
                Topic::Hold(thread, key),
            ]?)
        }
        Act::Unlock(c) => {
            let key = cell_key(c);
            Ok(vec![in alloc; Topic::Mutex(key), Topic::Hold(thread, key)]?)
        }
        Act::Spawn(_, _) => Ok(vec![in alloc; Topic::Spawn(event.answer)]?),
        Act::Return => Ok(vec![in alloc; Topic::Return(thread)]?),
        Act::Gone => Ok(vec![in alloc; Topic::Gone(thread as i64)]?),
        Act::Take(Taken::Local(_), _) | Act::Started(_) | Act::Join(_) | Act::Print(_) => {
            Ok(Vec::new(alloc))
        }
        Act::Enter(_) | Act::Woken(_) | Act::Signal(_) | Act::Broadcast(_) => Ok(Vec::new(alloc)),
    }
}
