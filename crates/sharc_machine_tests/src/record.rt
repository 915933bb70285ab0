//! Steps of several threads at one journal.

mod journal;
