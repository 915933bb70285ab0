//! Laws of the threads that are enabled. A proof above has them where its function calls this.

ghost use Rattle.sharc_seq.specs.Laws.{EnabledLaws};

/// Each thread that is listed as enabled is so, and none is where none is listed.
#[inline(always)]
pub fn enabled_laws()
    ensures { EnabledLaws }
{}
