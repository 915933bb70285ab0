//! Texts of numbers, cells and references.

ghost use Rattle.std.specs.{Prelude.{◌≡◌, ◌++◌, ◌∷◌, decimal}, Fmt.signed_decimal};
ghost use Rattle.sharc_tree.specs.Texts.{Appends};
ghost use Rattle.sharc_history.specs.Cells.{cell_text, reference_text};

use crate::cells::Where;
use crate::event::Reference;
use itoa::Buffer;
use std::alloc::AllocError;

pub fn put_number(text: &mut Vec<u8>, number: u64) -> Result<(), AllocError>
    ensures { Appends result (decimal number) text.old.items text.new.items }
{
    let mut buffer = Buffer::new();
    text.extend_from_slice(buffer.format(number).as_bytes())
}

pub fn put_signed(text: &mut Vec<u8>, number: i64) -> Result<(), AllocError>
    ensures { Appends result (signed_decimal number) text.old.items text.new.items }
{
    let mut buffer = Buffer::new();
    text.extend_from_slice(buffer.format(number).as_bytes())
}

// A letter, two numbers and the dot between them.
fn put_cell_of(text: &mut Vec<u8>, letter: &[u8], number: u64, cell: u64) -> Result<(), AllocError>
    ensures { Appends result (letter.now ++ (decimal number ++ 46 ∷ decimal cell)) text.old.items text.new.items }
{
    text.extend_from_slice(letter)?;
    put_number(text, number)?;
    text.push(b'.')?;
    put_number(text, cell)
}

/// `gI.J` or `oH.J`.
pub fn put_cell(text: &mut Vec<u8>, at: Where) -> Result<(), AllocError>
    ensures { Appends result (cell_text at) text.old.items text.new.items }
{
    match at {
        Where::Global(number, cell) => put_cell_of(text, b"g", u64::from(number), cell),
        Where::Made(number, cell) => put_cell_of(text, b"o", number, cell),
    }
}

/// `0` or `H:E`.
pub fn put_reference(text: &mut Vec<u8>, reference: Reference) -> Result<(), AllocError>
    ensures { Appends result (reference_text reference) text.old.items text.new.items }
{
    if reference.number == 0 {
        return text.extend_from_slice(b"0");
    }
    put_number(text, reference.number)?;
    text.push(b':')?;
    put_number(text, reference.elements)
}
