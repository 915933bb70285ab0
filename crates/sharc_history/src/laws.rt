//! The laws: the contract of a function that does nothing.

ghost use Rattle.sharc_history.specs.Laws.{HistoryLaws};

use sharc_code::{run_laws, thread_laws};
use sharc_schedule::schedule_laws;

/// What a run tells lies in its word operations alone, and not in those of failed tries. So the run that the schedule
/// of a run chooses tells the same events in the same order.
pub fn history_laws()
    ensures { HistoryLaws }
{
    run_laws();
    thread_laws();
    schedule_laws();
}
