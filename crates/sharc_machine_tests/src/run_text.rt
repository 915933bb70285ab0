//! Texts of runs of code written by hand: tests alone.

mod bench;
mod reports;
mod unstopped;
