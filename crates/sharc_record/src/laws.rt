//! Laws of recorded runs. A proof above has them where its function calls this.

ghost use Rattle.sharc_record.specs.Laws.{RecordsReplay};

use sharc_schedule::{file_laws, schedule_laws};

/// What is written of a recorded run is one recorded file, and the run by the schedule that it says shows what the
/// recorded run does.
pub fn record_laws()
    ensures { RecordsReplay }
{
    file_laws();
    schedule_laws();
}
