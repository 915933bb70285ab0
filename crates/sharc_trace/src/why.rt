//! Why an event is the first that is not written.

use sharc_traced::Cut;

/// Why, in words.
pub fn say(cut: Cut) -> &'static str {
    match cut {
        Cut::Whole => "all events are written",
        Cut::NoLine => "event files have no line for what is done with condition variables",
        Cut::Many => "an event file has at most 4096 events",
        Cut::Fuel => "U1 fuel 65536 spent",
        Cut::Refused(_) => "audit refuses it",
    }
}
