//! The law of lines: the contract of a function that does nothing.

ghost use Rattle.sharc_traced.specs.EventFileLaws.{LinesAreOfSources};

/// The lines of events are those of the source events that these are.
pub fn lines_are_of_sources()
    ensures { LinesAreOfSources }
{}
