//! Laws of threads and of paths. A proof above has them where its function calls these.

ghost use Rattle.std.specs.Prelude.{◌≡◌, ◌↔◌, ◌<◌, IsSome, length};
ghost use Rattle.sharc_word.specs.declared.step.TheConstants.{THREADS as threads};
ghost use Rattle.sharc_code.specs.declared.state.TurnState.TheVariants as states;
ghost use Rattle.sharc_code.specs.{Layout.granules, Stages.IsStageOf};
ghost use Rattle.sharc_cpu.specs.{Thread.IsThread, Quantum.PathsJoin};

use crate::thread::Thread;
use sharc_code::{Code, Shape, thread_laws};
use sharc_word::Port;

/// The quanta of a thread, one after the other, are one path.
#[inline(always)]
pub fn path_laws<P: Port>()
    ensures { PathsJoin P.leads }
{}

/// A thread has one of the numbers of threads, a row for each granule, a stage of the shape, and a stop exactly where
/// its last turn was one.
#[inline(always)]
pub fn thread_law(code: &Code, shape: &Shape, thread: &Thread)
    requires { IsThread code.now shape.now thread.now }
    ensures number { thread.now.machine.own.number < threads }
    ensures rows { length thread.now.machine.own.table.notes ≡ granules shape.now }
    ensures stage { IsStageOf shape.now thread.now.machine.own.stage }
    ensures stop { (thread.now.machine.at.state ≡ states.Stopped) ↔ IsSome thread.now.machine.own.stop }
{
    thread_laws();
}
