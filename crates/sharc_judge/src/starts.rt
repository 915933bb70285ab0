// The function that the first thread begins with.

ghost use Rattle.std.specs.Prelude.{◌≡◌, IfOk, OnOk};
ghost use Rattle.sharc_judge.specs.Starting.{main_of, FindsEntries};

use crate::laws::entry_laws;
use sharc_ctype::typed::Typed;
use std::alloc::AllocError;

/// The number of `main`. Out of memory is answered, too, where there are more functions than a number of 32 bits
/// counts.
pub fn main_of(typed: &Typed) -> Result<Option<u32>, AllocError>
    ensures main { IfOk result (λ f. f ≡ main_of typed.now) }
    ensures entries { OnOk result (FindsEntries typed.now) }
{
    entry_laws();
    typed.program();
    for n in 0..u32::MAX {
        match typed.function_at(n) {
            None => return Ok(None),
            Some(f) => {
                if f.name.text.as_slice() == b"main".as_slice() {
                    return Ok(Some(n));
                }
            }
        }
    }
    Err(AllocError)
}
