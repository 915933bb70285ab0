//! What the commands that read a source do with it.

use crate::ran::RunNumbers;

/// What is to be done with a source.
#[derive(Clone, Copy, Debug, PartialEq, Eq)]
pub enum SourceTask {
    /// Report what is wrong with its modes, or that nothing is.
    Check,
    /// Report every variable's type with its modes and reasons, and then as `Check`.
    Explain,
    /// Run it.
    Run(RunNumbers),
}
