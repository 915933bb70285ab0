//! The laws of recorded files. A proof above has them where its function calls this.

ghost use Rattle.sharc_schedule.specs.FileLaws.{FileLaws};

/// What holds of recorded files: lines are read in one way, what was written is read again, and there are no more
/// places than bytes.
#[inline(always)]
pub fn file_laws()
    ensures { FileLaws }
{}
