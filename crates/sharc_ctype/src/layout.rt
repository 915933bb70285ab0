// Layouts: the cells of an element of a struct, and which of them are pointers.

ghost use Rattle.std.specs.Prelude.{◌≡◌, ◌≢◌, ℕ, ◌+◌, ◌<◌, ◌≤◌, false, length, slice_index_or, if◌then◌else◌};
ghost use Rattle.std.specs.Int.{bit_at};
ghost use Rattle.sharc_ctype.specs.Layouts.{pointer_cells, IsWord, IsLayout};

use sharc_names::kind::{declared_kind, is_pointer};
use sharc_tree::tree::Declaration;

/// The cells of an element of a struct.
#[derive(Clone, Copy)]
pub struct StructCells {
    /// The number of cells.
    pub cells: u32,
    /// Bit `j mod 64` of `pointers[j / 64]` is set exactly where cell `j` is a pointer.
    pub pointers: [u64; 4],
}

/// Whether there is a cell with this number and it is a pointer.
fn is_pointer_at(fields: &[Declaration], cell: usize) -> bool
    ensures { result ≡ slice_index_or (pointer_cells fields.now) cell false }
{
    if cell < fields.len() {
        is_pointer(declared_kind(&fields[cell].written))
    } else {
        false
    }
}

/// A word with one bit set, where it is to be.
#[tactic(auto, using(crate::proofs::BitLemmas::set_same, crate::proofs::BitLemmas::set_other))]
fn with_bit(word: u64, bit: usize, stands: bool) -> u64
    requires { bit < 64 }
    ensures same { bit_at result bit ≡ (if stands then 1 else bit_at word bit) }
    ensures others { (i : ℕ) → i ≢ bit → bit_at result i ≡ bit_at word i }
{
    if stands { word | (1u64 << bit) } else { word }
}

/// The bits of 64 cells from one on.
fn word_from(fields: &[Declaration], from: usize) -> u64
    requires { from ≤ 192 }
    ensures { IsWord fields.now from result }
{
    let mut word = 0u64;
    for bit in 0..64usize {
        word = with_bit(word, bit, is_pointer_at(fields, from + bit));
    }
    word
}

/// The cells of an element of a struct with these fields, of which there are at most 256.
pub(crate) fn cells_of(fields: &[Declaration]) -> StructCells
    requires { length fields.now ≤ 256 }
    ensures { IsLayout fields.now result }
{
    StructCells {
        cells: fields.len() as u32,
        pointers: [
            word_from(fields, 0),
            word_from(fields, 64),
            word_from(fields, 128),
            word_from(fields, 192),
        ],
    }
}
