// The events so far, and what is looked up of them.

ghost use Rattle.std.specs.Prelude.{◌≡◌, [], ◌∷◌, ◌++◌, IfOk, length};
ghost use Rattle.sharc_meaning.specs.Events.{events_of};
ghost use Rattle.sharc_judge.specs.{Latest.latest_about, Reads.reads_of};

use crate::counts::{Counts, add_one};
use crate::keys::GranuleKey;
use crate::reads::{Reads, note_read};
use crate::table::{LastEvents, Noted, note};
use crate::topics::{Topic, topics_of};
use sharc_tree::event::SourceEvent;
use std::alloc::{AllocError, Global};
use std::collections::HashMap;
use std::marker::Model;

/// The events so far. A contract sees the list of them.
#[derive(Drop)]
pub struct Past {
    events: Vec<SourceEvent>,
    table: LastEvents,
    reads: Reads,
    counts: Counts,
}

impl Model for Past {
    ghost use Rattle.std.specs.Prelude.{List};
    ghost use Rattle.sharc_tree.specs.declared.event.SourceEvent.{SourceEvent};
    ghost use Rattle.sharc_judge.specs.Kept.{IsKept};

    ghost Value = { List SourceEvent };

    ghost view = { λ p. p.events.items };

    ghost invariant = { λ p. IsKept p.events.items p.table p.reads p.counts };
}

impl Past {
    /// No event.
    pub fn new(alloc: Global) -> Past
        ensures { result ≡ [] }
    {
        Past {
            events: Vec::new(alloc),
            table: HashMap::new(alloc),
            reads: HashMap::new(alloc),
            counts: HashMap::new(alloc),
        }
    }

    /// All the events.
    pub fn as_slice(&self) -> &[SourceEvent]
        ensures { result.now ≡ self.now }
    {
        self.events.as_slice()
    }

    /// One event more.
    pub fn with(self, alloc: Global, event: SourceEvent) -> Result<Past, AllocError>
        ensures { IfOk result (λ more. more ≡ self ++ event ∷ []) }
    {
        let Past {
            mut events,
            mut table,
            mut reads,
            mut counts,
        } = self;
        let noted = Noted {
            place: events.len(),
            event,
        };
        let topics = topics_of(alloc, &event)?;
        note(&mut table, topics.as_slice(), noted)?;
        note_read(alloc, &mut reads, noted)?;
        add_one(&mut counts, event.thread)?;
        events.push(event)?;
        Ok(Past {
            events,
            table,
            reads,
            counts,
        })
    }

    /// The last event about the topic.
    pub(crate) fn latest(&self, topic: Topic) -> Option<Noted>
        ensures { result ≡ latest_about topic self.now }
    {
        self.table.get(&topic).copied()
    }

    /// The reads of the granule under mode dynamic since it was last written under it.
    pub(crate) fn reads(&self, granule: GranuleKey) -> &[Noted]
        ensures { result.now ≡ reads_of granule self.now }
    {
        match self.reads.get(&granule) {
            None => &[],
            Some(reads) => reads.as_slice(),
        }
    }

    /// How many events the thread has.
    pub fn count(&self, thread: u32) -> usize
        ensures { result ≡ length (events_of thread self.now) }
    {
        self.counts.get(&thread).copied().unwrap_or(0)
    }
}
