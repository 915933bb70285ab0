//! The warnings of `nulled_uses` beside the meaning: no read of a nulled local is without one.
//!
//! The layer above may call the laws of src/laws.rt, each the contract of a function that does nothing.
//! specs/Traces.antt has what they say.
#![tactic(auto)]

pub mod laws;
