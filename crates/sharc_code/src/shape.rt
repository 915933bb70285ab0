//! How many threads and granules there are.

/// The numbers that the layout of the words rests on.
#[derive(Clone, Copy)]
pub struct Shape {
    /// How many threads there may be.
    pub threads: u32,
    /// The granules of all globals.
    pub globals: u32,
    /// The granules of the heap.
    pub heap: u32,
}
