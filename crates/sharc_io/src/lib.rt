//! The outside: where bytes come from and where they go, with every failure counted.
//!
//! A [`Source`] has bytes left and a count of faults; a [`Sink`] holds bytes and has a count of faults and one of
//! stalls. A call answers a failure only where a count rose (`Rose` of specs/Causes.antt), so code that is generic over
//! the two cannot give up by itself. The layer above uses [`read_all`] and [`write_all`]; README.md says which clause
//! carries what.
#![tactic(auto)]

mod memory;
mod plan;
mod reading;
mod sink;
mod source;
mod standard;
mod store;
mod sure;
mod unread;
mod writing;

pub use memory::{MemSink, MemSource};
pub use reading::{ReadError, read_all};
pub use sink::Sink;
pub use source::{Failed, Source};
pub use standard::{StdSink, StdSource};
pub use sure::{SureSink, SureSource};
pub use writing::{WriteFault, write_all};
