//! Laws of shared journals. A proof above has that of names where its function calls this.

ghost use Rattle.sharc_record.specs.{Rule.OneHasTheTurn, Shared.NamesTell};

/// A port that keeps its name keeps its shared journal and its number.
#[inline(always)]
pub fn journal_laws()
    ensures { NamesTell }
{}

/// At most one port has the turn.
#[inline(always)]
pub fn turn_law()
    ensures { OneHasTheTurn }
{}
