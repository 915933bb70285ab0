// The laws, each the contract of a function that does nothing.

ghost use Rattle.sharc_check.specs.RuleLaws.{RulesAreMet, SpawnedAreTold, ReachedAreTold};

/// A program is well-moded exactly where it meets the eleven rules.
pub fn rules_are_met()
    ensures { RulesAreMet }
{}

/// A function passes the test of those that are spawned exactly where some function spawns it.
pub fn spawned_are_told()
    ensures { SpawnedAreTold }
{}

/// Which functions threads may run can be determined.
pub fn reached_are_told()
    ensures { ReachedAreTold }
{}
