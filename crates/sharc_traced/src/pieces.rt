//! Texts of values and functions, as event files have them.

ghost use Rattle.std.specs.Prelude.{◌≡◌};
ghost use Rattle.sharc_ctype.specs.Resolved.{function_at};
ghost use Rattle.sharc_tree.specs.Texts.{Appends};
ghost use Rattle.sharc_traced.specs.Writing.{value_text, name_in};

use sharc_ctype::typed::Typed;
use sharc_history::{GivenValue, put_reference, put_signed};
use std::alloc::AllocError;

pub(crate) fn put_value(text: &mut Vec<u8>, value: GivenValue) -> Result<(), AllocError>
    ensures { Appends result (value_text value) text.old.items text.new.items }
{
    match value {
        GivenValue::Int(value) => put_signed(text, value),
        GivenValue::Reference(reference) => put_reference(text, reference),
    }
}

/// The name of a function; nothing where there is no function of this number.
pub(crate) fn put_name(text: &mut Vec<u8>, typed: &Typed, function: u32) -> Result<(), AllocError>
    ensures { Appends result (name_in (function_at typed.now function)) text.old.items text.new.items }
{
    match typed.function_at(function) {
        Some(definition) => text.extend_from_slice(definition.name.text.as_slice()),
        None => Ok(()),
    }
}
