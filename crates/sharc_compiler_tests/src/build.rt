//! Listings of the code that is built of small sources, and which sources none is built of: tests alone.

mod faults;
mod listings;
