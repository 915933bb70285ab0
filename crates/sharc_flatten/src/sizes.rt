// The sizes of flat code that runs within the numbers of its frames.

ghost use Rattle.std.specs.Prelude.{◌≡◌, ◌*◌, ◌^◌, ◌<◌, OnOk};
ghost use Rattle.sharc_code.specs.Path.{most_ints, most_refs};
ghost use Rattle.sharc_flatten.specs.Sizes.{IsFew, AreFew};

use sharc_code::Function;
use sharc_flat::Op;
use std::alloc::AllocError;

/// The integer registers of the largest frame.
fn most_ints(rows: &[Function]) -> u32
    ensures { result ≡ most_ints rows.now }
{
    let mut most = 0;
    for row in rows {
        most = most.max(row.ints);
    }
    most
}

/// The reference registers of the largest frame.
fn most_refs(rows: &[Function]) -> u32
    ensures { result ≡ most_refs rows.now }
{
    let mut most = 0;
    for row in rows {
        most = most.max(row.refs);
    }
    most
}

/// A thread's 256 frames have so few registers that each has a number of 32 bits; else memory would not be enough.
pub fn frames_fit(rows: &[Function]) -> Result<(), AllocError>
    ensures ints { OnOk result (256 * most_ints rows.now < 2 ^ 32) }
    ensures refs { OnOk result (256 * most_refs rows.now < 2 ^ 32) }
{
    if most_ints(rows) < 16_777_216 && most_refs(rows) < 16_777_216 {
        Ok(())
    } else {
        Err(AllocError)
    }
}

/// The number of each cell of a global is below 2^63, where the operation finds a cell by an index.
fn cells_fit_in(op: &Op) -> Result<(), AllocError>
    ensures { OnOk result (IsFew op.now) }
{
    match op {
        Op::GlobalBounds(_, elements, cells, field, _) => {
            let all = u64::from(*elements) * u64::from(*cells);
            if all < 9_223_372_036_854_775_808 - u64::from(*field) {
                Ok(())
            } else {
                Err(AllocError)
            }
        }
        _ => Ok(()),
    }
}

/// The number of each cell of a global is below 2^63; else there would not be enough memory.
pub fn cells_fit(lines: &[Op]) -> Result<(), AllocError>
    ensures { OnOk result (AreFew lines.now) }
{
    for op in lines {
        cells_fit_in(op)?;
    }
    Ok(())
}
