// Values that are held while others are made.
//
// Where a function returns early, what it holds is dropped, and its proof goes through each part of that. Here this is
// proved once, for any value.

ghost use Rattle.std.specs.Prelude.{◌≡◌, Ok, Err, IfOk, IfErr};

use std::alloc::{AllocError, Global};

/// The value, and what was made or read beside it.
pub fn both<A: Drop, B, E>(value: A, made: Result<B, E>) -> Result<(A, B), E>
    ensures held { IfOk result (λ r. (r.0 ≡ value) × (made ≡ Ok r.1)) }
    ensures error { IfErr result (λ e. made ≡ Err e) }
{
    match made {
        Ok(beside) => Ok((value, beside)),
        Err(error) => Err(error),
    }
}

/// The value in a box.
pub fn in_box<A: Drop>(alloc: Global, value: A) -> Result<Box<A>, AllocError>
    ensures { IfOk result (λ b. b.value ≡ value) }
{
    Ok(Box::new(alloc, value)?)
}
