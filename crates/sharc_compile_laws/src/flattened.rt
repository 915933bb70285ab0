// The laws, each the contract of a function that does nothing.

ghost use Rattle.sharc_compile_laws.specs.Laws.{FlattenedLocksStand, MadeCounts, MadeLocksStand};

use sharc_flat::laws::made_is_flattened;
use sharc_guard::counted_law;

/// On all paths the operations of flattened code name the cells of the mutexes of their locks.
pub fn flattened_locks_stand()
    ensures { FlattenedLocksStand }
{}

/// So do those of what flattening makes.
pub fn made_locks_stand()
    ensures { MadeLocksStand }
{
    flattened_locks_stand();
    made_is_flattened();
}

/// The guarded code of what flattening makes counts what that holds, if that overwrites no reference: sharc_guard's
/// law, with its premise on mutexes met.
pub fn made_counts()
    ensures { MadeCounts }
{
    made_locks_stand();
    counted_law();
}
