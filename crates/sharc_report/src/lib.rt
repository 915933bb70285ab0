//! The texts that the program writes.
//!
//! The layer above uses [`fault_text`], the line of `refusal_line` of specs/Refusals.antt; [`check_text`] and
//! [`accepted_text`], the texts of specs/Verdicts.antt; and [`explain_text`], that of specs/Explanations.antt.
#![tactic(auto)]

mod accepted;
mod explained;
mod owners;
mod put;
mod refusal;
mod refused;

pub use accepted::accepted_text;
pub use explained::explain_text;
pub use refusal::{SourceFault, fault_text};
pub use refused::check_text;
