//! The laws, each the contract of a function that calls at most the laws that it joins.

ghost use Rattle.sharc_reply_laws.specs.{Own.TurnsTellOwn, Prints.{PrintsAreTold, TextsBeginWithPrints}};
ghost use Rattle.sharc_reply_laws.specs.{Stopped.StopsAreStopped, Tested.{ChecksStay, TestsStay}};

use sharc_code::{run_laws, standing_laws, thread_laws};

/// Each source event that a turn of a run tells is of the thread of that turn.
pub fn turns_tell_own()
    ensures { TurnsTellOwn }
{
    thread_laws();
    standing_laws();
}

/// A thread of a checked run that has a stop is stopped.
pub fn stops_law()
    ensures { StopsAreStopped }
{
    run_laws();
}

/// A thread that is stopped by the check of an access, or whose test of a sole reference did not find the count 1,
/// stands there: nothing else of it changes to the end of the run.
pub fn refused_stay()
    ensures checks { ChecksStay }
    ensures tests { TestsStay }
{
    run_laws();
}

/// The prints of the threads of a checked run, in the order of their places, have the values of the Print events of its
/// source events, in the order of these; and no two of them have one place.
pub fn prints_law()
    ensures { PrintsAreTold }
{
    run_laws();
    standing_laws();
}

/// So the text of a run begins with a line for each Print event of its source events, and then has one for each thread
/// that is not gone.
pub fn texts_begin_with_prints()
    ensures { TextsBeginWithPrints }
{
    prints_law();
}
