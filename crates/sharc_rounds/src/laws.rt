//! Laws of quanta and of rounds. A proof above has them where its function calls this.

ghost use Rattle.sharc_rounds.specs.Laws.{QuantumLaws, RoundLaws};

use sharc_code::{run_laws, standing_laws};
use sharc_threads::table_laws;
use sharc_word::{history_laws, place_laws};

/// What holds of the quantum of a thread, whatever its turns were made on: the turns up to a share of the events that
/// are left make one; a thread that is gone or stopped stays as it is; and room for prints is enough for one, and
/// changes nothing else.
#[inline(always)]
pub fn quantum_laws()
    ensures { QuantumLaws }
{
    place_laws();
}

/// What holds of every round, whatever its threads made their steps on: by it a run goes on, where the threads begin
/// whose state words are 1 after it; its word events are those of the round; some thread made an event, where one was
/// enabled; and there are as many words as before.
pub fn round_laws()
    ensures { RoundLaws }
{
    run_laws();
    standing_laws();
    table_laws();
    history_laws();
}
