//! Laws of tables of threads. A proof above has them where its function calls this.

ghost use Rattle.sharc_threads.specs.Laws.{TableLaws};

/// What holds of every table of a place where a run is: its threads have numbers that threads have; a thread is enabled
/// exactly where its place has one that may make a turn; the threads that it has are those that were started, and no
/// others are there; and where threads begin whose state words are 1, it is the table of the place at which they were
/// started too.
#[inline(always)]
pub fn table_laws()
    ensures { TableLaws }
{}
