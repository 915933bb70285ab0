//! Which events are a legal store, and which rule they break: by a plain program, and by tables.
//!
//! Which lists of source events are legal stores, and which rule of the modes a list breaks: by plain programs, which
//! look at every place.
//!
//! The layer above may use `first_illegal` and `lowest_broken`. They answer exactly what the sets and relations of
//! sharc_meaning say (`LegalStore`, `Obeys`); what they answer where not all is well is written in specs/Judged.antt.
//! They are for small lists: their time grows with the third power of a list's length.
//!
//! A layer that goes through a list by itself may use the tests of one place, which the modules have as public
//! functions: each equals its definition of specs/Deciding.antt. The laws of src/laws.rt say that a rule holds exactly
//! where no access breaks it by these tests.
//!
//! The events of a run so far, so that what the next one asks of them is looked up.
//!
//! The layer above may use `Past`: a contract sees the list of its events. `may_come` says whether an event may come
//! after them, and `broken_by` the lowest rule of the modes that it breaks, as sharc_judge does of plain lists. Each
//! takes a few looks into tables, however many events there are.
#![tactic(auto)]

pub mod access;
pub mod coming;
pub mod counts;
pub mod history;
pub mod keys;
pub mod laws;
pub mod legal;
pub mod pair;
pub mod past;
pub mod reads;
pub mod rule;
pub mod rules;
pub mod same;
pub mod starts;
pub mod store;
pub mod table;
pub mod topics;

pub use legal::first_illegal;
pub use pair::Until;
pub use past::Past;
pub use rule::{Rule, lowest_broken};
