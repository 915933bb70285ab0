//! Tables of sources with their flat code, its texts and its tables, and large sources: tests alone.

mod large;
mod lines;
mod shown;
mod sources;
mod tables;
mod texts;
