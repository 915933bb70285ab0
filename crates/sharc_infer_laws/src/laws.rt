// The laws, each the contract of a function that does nothing.

ghost use Rattle.sharc_infer_laws.specs.{Laws.{FindingsAreOne, RootsAreOne, LeastIsOne}, Locks.LeastHasWrittenLocks};
ghost use Rattle.sharc_infer_laws.specs.Types.{TypesAreTold};

use sharc_ctype_laws::laws::each_names_itself;
use sharc_mode::laws::{link_laws, mode_laws};

/// What is found of a position without a written mode is one: its rank is the least, and its reason the lowest.
pub fn findings_are_one()
    ensures { FindingsAreOne }
{}

/// A root is touched or passed to a thread, never both, and the function that is named for it is one.
pub fn roots_are_one()
    ensures { RootsAreOne }
{
    each_names_itself();
}

/// A program has one least assignment: the modes are determined, and the reasons.
pub fn least_is_one()
    ensures { LeastIsOne }
{
    findings_are_one();
    roots_are_one();
}

/// Under the least assignment the M3, M4 or M5 that `well_formed` of sharc_mode answers of a type is reported of it,
/// and where it answers none neither an M4 nor an M5 is.
pub fn types_are_told()
    ensures { TypesAreTold }
{
    mode_laws();
    link_laws();
}

/// The lock paths among the least modes of a type are those that are written in it: what is inferred is private or
/// dynamic.
pub fn least_has_written_locks()
    ensures { LeastHasWrittenLocks }
{
    link_laws();
}
