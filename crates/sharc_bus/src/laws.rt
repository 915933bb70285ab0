//! The law of the names of ports. A proof above has it where its function calls this.

ghost use Rattle.sharc_bus.specs.Bus.{NamesTell};

/// A port that keeps its name keeps its bus and its number.
#[inline(always)]
pub fn name_laws()
    ensures { NamesTell }
{}
