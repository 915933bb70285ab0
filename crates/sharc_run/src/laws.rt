//! The law of outcomes. A proof above has it where its function calls this.

ghost use Rattle.sharc_run.specs.Laws.{OutcomeIsTold};

/// The words and the threads of a run that ended determine its outcome. So it has one.
pub fn outcome_is_told()
    ensures { OutcomeIsTold }
{}
