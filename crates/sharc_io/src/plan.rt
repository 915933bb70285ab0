//! Which calls of an object in memory fail.

ghost use Rattle.std.specs.Prelude.{◌≡◌, [], ◌∷◌};
ghost use Rattle.sharc_io.specs.Memory.{MakesCall};

use std::marker::Model;

/// The numbers of the calls that fail, and the calls so far. Calls are numbered from 0; the number 2^64 - 1 stands for
/// all later calls too.
#[derive(Debug, Drop)]
pub(crate) struct FaultPlan {
    fails: Vec<u64>,
    call: u64,
    faults: u64,
}

impl Model for FaultPlan {
    ghost use Rattle.sharc_io.specs.Memory.{Plan};

    ghost Value = { Plan };

    ghost view = { λ p. record { fails = p.fails.items; call = p.call; faults = p.faults } };
}

impl FaultPlan {
    /// Before the first call.
    pub(crate) fn new(fails: Vec<u64>) -> Self
        ensures { result ≡ record { fails = fails.items; call = 0; faults = 0 } }
    {
        FaultPlan {
            fails,
            call: 0,
            faults: 0,
        }
    }

    /// Makes the next call, and answers whether it fails.
    pub(crate) fn next_fails(&mut self) -> bool
        ensures { MakesCall self.old self.new result }
    {
        let fails = self.fails.contains(&self.call);
        self.call = self.call.saturating_add(1);
        if fails {
            self.faults = self.faults.saturating_add(1);
        }
        fails
    }
}
