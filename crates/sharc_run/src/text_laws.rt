// The law of texts, the contract of a function that does nothing.

ghost use Rattle.sharc_run.specs.TextLaws.{TextIsOne};

/// The words, and what a text says of the threads, have one text. So it does not say whether the last turn of a thread
/// was a failed try.
pub fn text_is_one()
    ensures { TextIsOne }
{}
