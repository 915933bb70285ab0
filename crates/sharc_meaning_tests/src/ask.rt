//! Tables of sources, and what their threads ask for: tests alone, over the front end and `ask`.

mod asked;
pub(crate) mod question;
mod tables;
pub(crate) mod told;
