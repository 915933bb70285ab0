//! The shape of a code.

ghost use Rattle.std.specs.Prelude.{◌≡◌, ◌≤◌};
ghost use Rattle.sharc_code.specs.Layout.{Fits};

use sharc_code::{Code, Shape};
use sharc_word::THREADS;

/// The shape of a run of this code with this many granules of heap, from 16 to 65,536.
pub fn shape_of(code: &Code, granules: u32) -> Shape
    requires least { 16 ≤ granules }
    requires most { granules ≤ 65536 }
    ensures fits { Fits code.now result }
    ensures heap { result.heap ≡ granules }
{
    Shape {
        threads: THREADS,
        globals: code.granules,
        heap: granules,
    }
}
