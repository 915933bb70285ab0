//! Tables of sources and schedules, with the references to an object after the events: tests alone.

mod counted;
mod tables;
mod threads;
