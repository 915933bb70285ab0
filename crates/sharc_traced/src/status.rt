//! The exit statuses.

ghost use Rattle.std.specs.Prelude.{◌≡◌};
ghost use Rattle.sharc_top.specs.{declared.status.Status.Status as Answer, Status.code_of as code_of_answer};
ghost use Rattle.sharc_traced.specs.Replies.{code_of};

use sharc_top::status::Status as Answer;

/// How a call ends.
#[derive(Clone, Copy)]
pub enum Status {
    /// All events of the run are written.
    Whole,
    /// The first events of the run are.
    Part,
    /// The input is no recorded file of an accepted program; it ends as `sharc` does for that.
    Refused(Answer),
    /// The words are not those of this program.
    Usage,
    /// Reading failed.
    ReadFault,
    /// Writing failed, or stalled.
    WriteFault,
    /// Memory was wanting.
    NoMemory,
}

impl Status {
    /// The exit status.
    pub fn code(self) -> u8
        ensures { result ≡ code_of self }
    {
        match self {
            Status::Whole => 0,
            Status::Part => 7,
            Status::Refused(answer) => answer.code(),
            Status::Usage => 8,
            Status::ReadFault => 9,
            Status::WriteFault => 10,
            Status::NoMemory => 11,
        }
    }
}
