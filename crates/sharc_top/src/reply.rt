//! A reply, and those that are one line.

ghost use Rattle.std.specs.Prelude.{◌≡◌, IfOk};
ghost use Rattle.sharc_top.specs.Text.{line};

use crate::status::Status;
use std::alloc::{AllocError, Global};

/// What is written, and how the call then ends.
#[derive(Debug, Drop)]
pub struct Reply {
    pub status: Status,
    pub text: Vec<u8>,
}

/// The reply of one line.
pub fn line_reply(alloc: Global, status: Status, text: &[u8]) -> Result<Reply, AllocError>
    ensures { IfOk result (λ reply. (reply.status ≡ status) × (reply.text.items ≡ line text.now)) }
{
    let mut whole = Vec::from_slice(alloc, text)?;
    whole.push(b'\n')?;
    Ok(Reply {
        status,
        text: whole,
    })
}
