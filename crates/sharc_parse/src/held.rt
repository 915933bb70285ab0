// Values that are held while more is read.
//
// Where a function returns early, what it holds is dropped, and its proof goes through each part of that. Here this is
// proved once, for any value.

ghost use Rattle.std.specs.Prelude.{◌≡◌, Ok, IfOk, IfErr};
ghost use Rattle.sharc_parse.specs.{Grammar.mark, declared.token.ReadingFault.TheVariants.Memory, Goes.Expects};

use crate::token::{Reading, ReadingFault, expect};
use sharc_tree::token::{Punctuator, Token};
use std::alloc::Global;

/// The value, past a token that has to be that punctuator.
pub(crate) fn expect_behind<T: Drop>(
    tokens: &[Token],
    at: &mut usize,
    value: T,
    punctuator: Punctuator,
) -> Reading<T>
    ensures past { Expects result (mark punctuator) tokens.now at.old at.new }
    ensures held { IfOk result (λ v. v ≡ value) }
{
    expect(tokens, at, punctuator)?;
    Ok(value)
}

/// Two values, each in a box.
pub(crate) fn boxes<A: Drop, B: Drop>(
    alloc: Global,
    first: A,
    second: B,
) -> Reading<(Box<A>, Box<B>)>
    ensures boxed { IfOk result (λ r. (r.0.value ≡ first) × (r.1.value ≡ second)) }
    ensures memory { IfErr result (λ e. e ≡ Memory) }
{
    let first = Box::new(alloc, first)?;
    let second = Box::new(alloc, second)?;
    Ok((first, second))
}

/// The first value in a box, beside the other.
pub(crate) fn box_beside<A: Drop, B: Drop>(
    alloc: Global,
    first: A,
    other: B,
) -> Reading<(Box<A>, B)>
    ensures boxed { IfOk result (λ r. (r.0.value ≡ first) × (r.1 ≡ other)) }
    ensures memory { IfErr result (λ e. e ≡ Memory) }
{
    let first = Box::new(alloc, first)?;
    Ok((first, other))
}
