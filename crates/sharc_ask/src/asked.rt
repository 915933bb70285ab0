// What a thread asks for: its events, and how far it came.

use sharc_meaning::given::GivenUp;
use sharc_tree::event::{SourceEvent, SourceEvents};
use sharc_tree::listed::Listed;
use sharc_tree::token::Site;

/// The pointers that frames and temporaries hold, those of the thread's function first: of each frame its variables in
/// the order of their declarations, then its temporaries. NULL is 0.
pub type Holds = Listed<i64>;

/// What is given up, in its order.
pub type GivesUp = Listed<GivenUp>;

/// How far a thread came with the answers that it was given.
#[derive(Drop)]
pub enum Outcome {
    /// The answers are used up, and it wants this event. What it holds there is given beside it.
    Wants(SourceEvent, Holds),
    /// It is gone.
    Ended,
    /// It is stopped: the number of the trap, and where.
    StoppedX(u8, Site),
    /// More statements and expressions were to be entered than there was fuel.
    Fuel,
}

/// The events that a thread asks for after its start, each with its answer, and how far it came.
#[derive(Drop)]
pub struct Asked {
    pub events: SourceEvents,
    pub outcome: Outcome,
    /// What it gave up since the last of the events, or since its start.
    pub given_up: GivesUp,
}
