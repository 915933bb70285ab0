//! How many elements the objects have, by their numbers.

ghost use Rattle.std.specs.Prelude.{◌≡◌, ℕ, OnOk};
ghost use Rattle.sharc_history.specs.{Told.shown, History.{elements_of, elements_behind}};

use crate::event::{Deed, Event};
use std::alloc::AllocError;
use std::collections::HashMap;

/// The elements of the object that was made last under this number; 0 where none was.
pub(crate) fn elements_of(made: &HashMap<u64, u64>, number: u64) -> u64
    ensures { result ≡ elements_of made.now number }
{
    made.get(&number).copied().unwrap_or(0)
}

/// Notes the object that the event makes, if it makes one. The numbers of objects have 32 bits.
pub(crate) fn note(made: &mut HashMap<u64, u64>, event: &Event) -> Result<(), AllocError>
    ensures { OnOk result ((number : ℕ)
        → elements_of made.new number ≡ elements_behind (shown event.now.deed) number (elements_of made.old number)) }
{
    match event.deed {
        Deed::Makes(reference) => {
            made.insert(reference.number % 4294967296, reference.elements)?;
            Ok(())
        }
        _ => Ok(()),
    }
}
