// The last event about each topic, with its place.

ghost use Rattle.std.specs.{Prelude.{◌≡◌, OnOk, Some, if◌then◌else◌}, List.list_any};
ghost use Rattle.sharc_judge.specs.{Latest.is_behind, Topics.{same_topic, found}, declared.topics.Topic.Topic};

use crate::topics::Topic;
use sharc_tree::event::SourceEvent;
use std::alloc::AllocError;
use std::collections::HashMap;

/// An event, and how many came before it.
#[derive(Clone, Copy, Drop)]
pub struct Noted {
    pub place: usize,
    pub event: SourceEvent,
}

/// The last event about each topic.
pub(crate) type LastEvents = HashMap<Topic, Noted>;

/// Notes an event that is about these topics: four at most.
pub(crate) fn note(table: &mut LastEvents, topics: &[Topic], noted: Noted) -> Result<(), AllocError>
    ensures { OnOk result ((q : Topic)
        → found table.new q ≡ (if list_any (λ x. same_topic x q) topics.now then Some noted else found table.old q)) }
{
    match topics {
        [] => Ok(()),
        [topic, rest @ ..] => {
            table.insert(*topic, noted)?;
            note(table, rest, noted)
        }
    }
}

/// Whether the place is not before that of the event, if there is one.
pub(crate) fn is_behind(place: usize, other: Option<Noted>) -> bool
    ensures { result ≡ is_behind place other }
{
    match other {
        None => true,
        Some(noted) => noted.place <= place,
    }
}
