//! The laws, each the contract of a function that calls at most the laws that it joins.

ghost use Rattle.sharc_wants_laws.specs.{Laws.CodeIsFollowed, Waits.CodeWaits};

use sharc_flat_laws::laws::made_waits;

/// In the code of flat code each check is directly before the access that it is of, at the same site, whose mode is one
/// that asks for that check.
pub fn followed_law()
    ensures { CodeIsFollowed }
{}

/// In the code of a program a thread that has entered a condition unlocks a mutex next, and then waits at the
/// condition.
pub fn waits_law()
    ensures { CodeWaits }
{
    made_waits();
}
