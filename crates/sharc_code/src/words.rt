//! What the words hold at first.

ghost use Rattle.std.specs.Prelude.{◌≡◌, IfOk};
ghost use Rattle.sharc_code.specs.{Layout.{Fits, IsShape}, Opening.{opens_with, opening_cell, opening_words}};

use crate::code::Code;
use crate::laws::fits_law;
use crate::layout::{NEXT_THREAD, TOP, function_word, state_word};
use crate::shape::Shape;
use std::alloc::{AllocError, Allocator};

/// The opening words of a code under a shape that fits it.
///
/// An `Err` says that memory was not found.
#[tactic(auto, using(crate::proofs::Opened::one_more, crate::proofs::Opened::so_many))]
pub fn opening<A: Allocator>(
    alloc: A,
    code: &Code,
    shape: &Shape,
) -> Result<Vec<u64, A>, AllocError>
    requires { Fits code.now shape.now }
    ensures { IfOk result (λ words. words.items ≡ opening_words code.now shape.now) }
{
    fits_law(code, shape);
    let count = shape.words();
    let mut words = Vec::with_capacity(alloc, count as usize)?;
    for word in 0..count {
        words.push_reserved(opens_with(code, shape, word));
    }
    Ok(words)
}

// What one word holds.
fn opens_with(code: &Code, shape: &Shape, word: u32) -> u64
    requires { IsShape shape.now }
    ensures { result ≡ opens_with code.now shape.now word }
{
    if word == TOP {
        u64::from(1 + shape.globals)
    } else if word == NEXT_THREAD || word == state_word(0) {
        1
    } else if word == function_word(0) {
        u64::from(code.main)
    } else {
        opening_cell(code, shape, word)
    }
}

// What a word that is not one of the first holds: a global's cell, or 0.
fn opening_cell(code: &Code, shape: &Shape, word: u32) -> u64
    requires { IsShape shape.now }
    ensures { result ≡ opening_cell code.now shape.now word }
{
    let first = shape.first_cell() + 2;
    if first <= word && word < first + 2 * shape.globals {
        code.initial
            .get((word - first) as usize)
            .copied()
            .unwrap_or(0)
    } else {
        0
    }
}
