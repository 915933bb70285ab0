//! The limit of a source, what is written for a source with a fault, and why there is no reply.

ghost use Rattle.std.specs.Prelude.{◌≡◌, IfOk};
ghost use Rattle.sharc_report.specs.Refusals.{refusal_line};
ghost use Rattle.sharc_top.specs.declared.status.Status.TheVariants.{SourceRefused};

use crate::reply::Reply;
use crate::status::Status;
use sharc_report::{SourceFault, fault_text};
use std::alloc::{AllocError, Global};

/// The largest source, in bytes.
pub const SOURCE_LIMIT: usize = 1_048_576;

/// Why there is no reply.
#[derive(Clone, Copy, Debug, PartialEq, Eq)]
pub enum Failure {
    Source,
    Memory,
}

impl From<AllocError> for Failure {
    ghost use Rattle.sharc_top.specs.declared.refused.Failure.TheVariants.{Memory};

    ghost from_gives = { λ _ e. e ≡ Memory };

    fn from(_error: AllocError) -> Failure {
        Failure::Memory
    }
}

/// What is written for a source that has a fault.
pub fn refusal(alloc: Global, fault: &SourceFault) -> Result<Reply, AllocError>
    ensures { IfOk result (λ reply. (reply.status ≡ SourceRefused) × (reply.text.items ≡ refusal_line fault.now)) }
{
    let text = fault_text(alloc, fault)?;
    Ok(Reply {
        status: Status::SourceRefused,
        text,
    })
}
