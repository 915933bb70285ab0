//! The laws, each the contract of a function that does nothing.

ghost use Rattle.sharc_history_laws.specs.Told.{StatesAreTold, SpawnsAreNew};

use sharc_code::{run_laws, standing_laws};

/// At each place of each checked run the state word of a thread is 3 exactly where the thread has ended, 0 exactly
/// where it was not started, and never above 3; and a thread that a Spawn is about to start was not started.
pub fn states_law()
    ensures told { StatesAreTold }
    ensures new { SpawnsAreNew }
{
    run_laws();
    standing_laws();
}
