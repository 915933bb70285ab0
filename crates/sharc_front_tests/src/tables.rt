//! Tables as one text each: a case on each line, and ` => ` between its parts.

use std::process::Abort;

/// The two parts of a case.
pub(crate) fn two_parts<'a>(rt: &impl Abort, case: &'a str) -> (&'a str, &'a str) {
    match case.split_once(" => ") {
        Some(parts) => parts,
        None => panic!(rt; "no case of two parts: {case}"),
    }
}
