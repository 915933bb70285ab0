//! What is written, and how the call then ends.

ghost use Rattle.std.specs.Prelude.{◌≡◌, ◌≤◌, IfOk};
ghost use Rattle.sharc_top.specs.Text.{line};
ghost use Rattle.sharc_traced.specs.Replies.{status_by, why_by, IsPlain};

use crate::cut::{Cut, EventPrefix};
use crate::status::Status;
use sharc_top::reply::{Reply as Answer, line_reply};
use sharc_top::status::Status as AnswerStatus;
use std::alloc::{AllocError, Global};

/// What is written, how the call then ends, and why the text has not all events, if it has not.
#[derive(Drop)]
pub struct Reply {
    pub status: Status,
    pub text: Vec<u8>,
    pub why: Option<Stopped>,
}

/// The number of the first event that is not written, from 1, and why it is not.
#[derive(Clone, Copy)]
pub struct Stopped {
    pub event: usize,
    pub cut: Cut,
}

/// How a call ends that wrote so many events.
pub(crate) fn status_of(cut: Cut) -> Status
    ensures { result ≡ status_by cut }
{
    match cut {
        Cut::Whole => Status::Whole,
        Cut::NoLine | Cut::Many | Cut::Fuel | Cut::Refused(_) => Status::Part,
    }
}

/// Why it wrote no more, if there are more.
pub(crate) fn why_of(front: EventPrefix) -> Option<Stopped>
    requires { front.count ≤ 4096 }
    ensures { result ≡ why_by front.count front.cut }
{
    match front.cut {
        Cut::Whole => None,
        Cut::NoLine | Cut::Many | Cut::Fuel | Cut::Refused(_) => Some(Stopped {
            event: front.count + 1,
            cut: front.cut,
        }),
    }
}

/// The same as `sharc` writes.
pub(crate) fn answered(answer: Answer) -> Reply
    ensures { IsPlain result (Status.Refused answer.status) answer.text.items }
{
    Reply {
        status: Status::Refused(answer.status),
        text: answer.text,
        why: None,
    }
}

/// The line of an input, or of its source, that is too long.
pub(crate) fn too_long(alloc: Global, text: &[u8]) -> Result<Reply, AllocError>
    ensures { IfOk result (λ reply. IsPlain reply (Status.Refused AnswerStatus.SourceRefused) (line text.now)) }
{
    let answer = line_reply(alloc, AnswerStatus::SourceRefused, text)?;
    Ok(answered(answer))
}
