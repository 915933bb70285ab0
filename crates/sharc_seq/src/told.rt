//! A port that reports whether it made a step, and what that found.

ghost use Rattle.std.specs.Prelude.{◌≡◌, ◌<◌, length};

use sharc_word::{MemPort, Port, WordStep};

/// Words for which one thread at a time makes steps, whether a step was made since this was last forgotten, and what
/// the last one found, or 0.
#[derive(Drop)]
pub(crate) struct ToldPort {
    pub(crate) port: MemPort,
    pub(crate) told: bool,
    pub(crate) found: u64,
}

impl Port for ToldPort {
    ghost use Rattle.std.specs.Prelude.{ℕ, [], length, true};
    ghost use Rattle.sharc_word.specs.Place.{event_of};
    ghost use Rattle.sharc_seq.specs.Told.{place_told, LeadsTold};

    ghost count = { λ p. length p.port };

    ghost name = { λ p. [] };

    ghost serves = { λ p thread. Unit {0} };

    ghost place = { λ p. place_told p.told p.found p.port };

    ghost leads = { LeadsTold };

    ghost serves_some = { λ p. (0, tt) };

    fn step(&mut self, step: WordStep) -> u64
        requires { step.word < length self.old.port }
        ensures count { length self.new.port ≡ length self.old.port }
        ensures leads { (thread : ℕ) → Unit {0} → LeadsTold (place_told self.old.told self.old.found self.old.port)
            (event_of thread step result) (place_told self.new.told self.new.found self.new.port) }
    {
        self.told = true;
        self.found = self.port.step(step);
        self.found
    }
}
