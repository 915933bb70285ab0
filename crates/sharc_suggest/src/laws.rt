// Laws of the definitions. A proof above has them where its function calls this.

ghost use Rattle.sharc_suggest.specs.Laws.{SuggestLaws};

/// An error of a program has one answer, and what is suggested for a list of errors is what is suggested for each of
/// them.
pub fn suggest_laws()
    ensures { SuggestLaws }
{}
