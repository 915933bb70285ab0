//! Code written by hand, and what the machine makes of it: tests alone.

mod alone;
mod bench;
mod chosen;
mod limits;
mod references;
mod together;
