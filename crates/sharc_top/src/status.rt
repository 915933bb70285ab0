//! The exit statuses.

ghost use Rattle.std.specs.Prelude.{◌≡◌};
ghost use Rattle.sharc_top.specs.Status.{code_of};

/// How a call ends.
#[derive(Clone, Copy, Debug, PartialEq, Eq)]
pub enum Status {
    /// Each thread that ran is gone, or the modes are accepted.
    Done,
    /// The modes of the source are refused.
    ModesRefused,
    /// The source is too long, or the lexer, the parser or C typing refuses it.
    SourceRefused,
    /// A thread reported an access or a cast.
    Reported,
    /// No thread reported, and one was stopped.
    Stopped,
    /// No thread was stopped, and the run is stuck.
    Stuck,
    /// None of these, and a thread has made all the events that it may.
    Limit,
    /// The words are no command.
    Usage,
    /// Reading failed.
    ReadFault,
    /// Writing failed, or stalled.
    WriteFault,
    /// Memory was wanting.
    NoMemory,
    /// An event is not asked for, not legal, or breaks a rule of the modes.
    EventsRefused,
    /// The fuel of a thread is spent before its next event.
    FuelSpent,
}

impl Status {
    /// The exit status.
    pub fn code(self) -> u8
        ensures { result ≡ code_of self }
    {
        match self {
            Status::Done => 0,
            Status::ModesRefused => 1,
            Status::SourceRefused => 2,
            Status::Reported => 3,
            Status::Stopped => 4,
            Status::Stuck => 5,
            Status::Limit => 6,
            Status::Usage => 8,
            Status::ReadFault => 9,
            Status::WriteFault => 10,
            Status::NoMemory => 11,
            Status::EventsRefused => 12,
            Status::FuelSpent => 13,
        }
    }
}
