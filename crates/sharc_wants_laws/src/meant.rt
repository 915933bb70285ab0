// The laws, each the contract of a function that does nothing.

ghost use Rattle.sharc_wants_laws.specs.Freeing.{EmptiersTookLast, LastTakersFree, TakenAreBeingTaken};
ghost use Rattle.sharc_wants_laws.specs.Held.{HeldAreHeldOn};

use sharc_ctype_laws::laws::{
    are_plain, each_names_itself, meets_constraints, meets_statements, one_type,
};
use sharc_meaning::laws::free_laws;

/// With more fuel and no event more, a thread of a typed program holds each reference on, or has given it up.
pub fn held_are_held_on()
    ensures { HeldAreHeldOn }
{
    each_names_itself();
    one_type();
    meets_constraints();
    meets_statements();
    are_plain();
}

/// A live object that a `free` has taken is being taken: where the thread that took it follows the program, it has no
/// later event, and wants to free the object.
pub fn taken_are_being_taken()
    ensures { TakenAreBeingTaken }
{
    free_laws();
}

/// A thread whose last event takes an object to free it wants to free the object, and holds it. And a thread that has
/// given up the cells of an object since its last event has taken the object by that event, to free it.
pub fn last_takers()
    ensures free { LastTakersFree }
    ensures took { EmptiersTookLast }
{
    free_laws();
}
