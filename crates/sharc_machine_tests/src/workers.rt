//! Code written by hand that workers run in rounds: over a bus, and recorded over a journal, to be run again by its
//! schedule.

mod bench;
mod gates;
mod pace;
mod runs;
mod starts;
mod stints;
mod tries;
