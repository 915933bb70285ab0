// Laws of the definitions. A proof above has them where its function calls one of these.

ghost use Rattle.sharc_meaning.specs.Frees.{EmptiedWereTaken, FreesFollow};
ghost use Rattle.sharc_meaning.specs.Laws.{AskLaws, ModesAlone, ReferenceLaws, RunLaws, StoreLaws};

/// What a thread asks for goes on where there is more fuel or there are more answers, and changes only where it ended
/// for want of them. It ends for want of fuel only where all is used up. With more fuel and no event more, what was
/// given up is the front of what is given up then. Each event uses up one answer. An event is wanted where they are
/// used up, and it comes with one answer more.
pub fn ask_laws()
    ensures { AskLaws }
{}

/// What comes before in a legal store is one, and an event that may come makes it one with one event more.
pub fn store_laws()
    ensures { StoreLaws }
{}

/// What comes before in a source run is one, with the same fuel; and what comes before in a run that obeys obeys. A
/// source run goes on with an event that is the next of its thread, or the first of a thread that has the right to
/// start, and that may come; with one fuel for all threads too, and then by no other event: its last one was asked for.
pub fn run_laws()
    ensures { RunLaws }
{}

/// What a cell's mode is depends on the resolved program and the modes alone, and so do the modes of what an expression
/// points to.
pub fn mode_laws()
    ensures { ModesAlone }
{}

/// Where each thread that was started comes to its next want, its stop or its end with a fuel, the references to an
/// object are those with this fuel; and each reference is one with every fuel from some fuel on.
pub fn reference_laws()
    ensures { ReferenceLaws }
{}

/// What a thread takes to free it, it frees by its next event; where it wants that event, it has given up what the
/// pointer cells of that hold. And where it has given up the cells of an object since its last event, that event took
/// the object to free it.
pub fn free_laws()
    ensures follow { FreesFollow }
    ensures emptied { EmptiedWereTaken }
{}
