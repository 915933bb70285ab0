//! The laws, each the contract of a function that calls at most the laws that it joins.

ghost use Rattle.sharc_instance_laws.specs.Instances.{SomeAlwaysObey, SomeGetStuck, SomeReportAlone};

use sharc_check::rule_laws::rules_are_met;
use sharc_code::{run_laws, standing_laws};

/// A program with two threads and a lock always obeys.
pub fn some_always_obey()
    ensures { SomeAlwaysObey }
{
    rules_are_met();
    run_laws();
}

/// A run of its code is stuck.
pub fn some_get_stuck()
    ensures { SomeGetStuck }
{
    rules_are_met();
    run_laws();
}

/// A thread of a program is stopped at a `free` where nothing is in flight.
pub fn some_report_alone()
    ensures { SomeReportAlone }
{
    rules_are_met();
    run_laws();
    standing_laws();
}
