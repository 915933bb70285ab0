//! The laws of recorded runs. A proof above has them where its function calls this.

ghost use Rattle.sharc_replay.specs.Laws.{ReplayLaws};

use sharc_run::{outcome_is_told, text_is_one};
use sharc_schedule::{file_laws, schedule_laws};

/// What is written of a recorded run is one recorded file. The run by the schedule that it says makes the turns of the
/// recorded run, and has the text that the file says and the outcome of that run.
pub fn replay_laws()
    ensures { ReplayLaws }
{
    file_laws();
    schedule_laws();
    text_is_one();
    outcome_is_told();
}
