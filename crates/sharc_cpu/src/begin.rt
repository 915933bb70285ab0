//! What a thread has for itself before its first turn.

ghost use Rattle.std.specs.Prelude.{◌≡◌, IfOk, ◌<◌, ◌*◌, min, ◌^◌, ◌-◌};
ghost use Rattle.sharc_word.specs.declared.step.TheConstants.{THREADS as threads};
ghost use Rattle.sharc_code.specs.{Layout.IsShape, Path.{begun, most_ints, most_refs}};
ghost use Rattle.sharc_cpu.specs.View.{rest_of, machine_of};

use crate::parts::ThreadParts;
use sharc_code::{Code, FRAMES, Frame, Shape, Stage};
use sharc_heap::AccessTable;
use sharc_locks::HeldLog;
use std::alloc::{AllocError, Global};

// The block sizes of an arena have a head each, from two granules to 65,536.
const HEADS: usize = 16;

/// The integer registers of the largest function.
pub(crate) fn most_ints(code: &Code) -> u32
    ensures { result ≡ most_ints code.now.functions.items }
{
    let mut most = 0;
    for function in &code.functions {
        most = most.max(function.ints);
    }
    most
}

// Its reference registers.
fn most_refs(code: &Code) -> u32
    ensures { result ≡ most_refs code.now.functions.items }
{
    let mut most = 0;
    for function in &code.functions {
        most = most.max(function.refs);
    }
    most
}

/// A thread of this number that made no turn: 256 frames, each with the registers of the largest function, and a row
/// for each granule.
///
/// An `Err` says that memory was not found.
pub(crate) fn begun(
    alloc: Global,
    code: &Code,
    shape: Shape,
    number: u32,
) -> Result<ThreadParts, AllocError>
    requires { IsShape shape }
    ensures { IfOk result (λ parts. machine_of (begun code.now shape number).at parts ≡ begun code.now shape number) }
{
    let ints = vec![in alloc; 0i64; FRAMES * most_ints(code) as usize]?;
    let refs = vec![in alloc; 0u64; FRAMES * most_refs(code) as usize]?;
    let frames = vec![in alloc; Frame {
        pc: 0,
        ints: 0,
        refs: 0
    }; FRAMES]?;
    let table = AccessTable::new(alloc, shape.granules())?;
    let heads = vec![in alloc; 0u64; HEADS]?;
    Ok(ThreadParts {
        ints,
        refs,
        pending: 0,
        frames,
        number,
        function: u64::from(code.main),
        table,
        held: HeldLog::new(),
        heads,
        prints: Vec::new(alloc),
        stage: Stage::Rests,
        stop: None,
    })
}
