//! Values made by hand, and what the crates that need no source make of them: tests alone.

mod cond;
mod count;
mod flow;
mod granule;
mod graph;
mod load;
mod locks;
mod paths;
mod random;
mod recorded;
mod shadow;
mod word;
