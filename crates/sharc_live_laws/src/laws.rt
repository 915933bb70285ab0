// The laws: each is the contract of a function that does nothing.

ghost use Rattle.sharc_live_laws.specs.Traces.{SilentReadsAreSafe, SilentReadsInRunsAreSafe};

/// Whatever function a thread runs, whatever argument and answers it gets, and however far it goes: where it reads a
/// local, and the last write or nulling of that local in that frame was a nulling by a sharing cast or `free`, the read
/// has a warning, which names this nulling or an earlier one of the source.
pub fn silent_reads_are_safe()
    ensures { SilentReadsAreSafe }
{}

/// So it is with each thread of a source run, by the answers that it got there.
pub fn silent_reads_in_runs_are_safe()
    ensures { SilentReadsInRunsAreSafe }
{}
