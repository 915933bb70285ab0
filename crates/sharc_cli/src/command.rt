//! The commands.

/// A command with its numbers. What each does is described in the README of the repository.
#[derive(Clone, Copy, Debug, PartialEq, Eq)]
pub enum Command {
    Check,
    Explain,
    Run {
        /// How many workers run the threads: 1 to 16, or 4.
        workers: u64,
        /// How many granules of 16 bytes the heap has: 16 to 65,536, or 4,096.
        granules: u64,
        /// How many events a thread makes at most: 1 to 100,000,000, or 1,000,000.
        events: u64,
        /// The number of the one interleaving that is to be run, if one is.
        seed: Option<u64>,
    },
    Load {
        /// How many functions the source has: 1 to 10,000.
        number: u64,
        /// As for `Run`.
        workers: u64,
    },
    Record {
        /// As for `Run`.
        workers: u64,
        /// As for `Run`.
        granules: u64,
        /// How many events a thread makes at most: 1 to 200,000, or 100,000.
        events: u64,
    },
    Replay,
    Audit,
}
