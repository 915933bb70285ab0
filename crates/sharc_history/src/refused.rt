//! Where a check refused an access or a cast.

ghost use Rattle.std.specs.{Prelude.◌≡◌, Option.option_map};
ghost use Rattle.sharc_history.specs.{Told.at, Refused.{accessed, refused_at}};

use crate::cells::{Where, cell_at};
use crate::next::instr_at;
use sharc_code::{Code, Instr};
use sharc_cpu::Thread;

// The cell that the instruction accesses.
fn accessed(code: &Code, thread: &Thread, instr: Instr) -> Option<Where>
    ensures { option_map at result ≡ accessed code.now thread.now.machine instr }
{
    match instr {
        Instr::Load(_, cell, _)
        | Instr::Store(_, cell, _)
        | Instr::LoadRef(cell, _)
        | Instr::Exchange(_, cell, _)
        | Instr::TakeCell(_, cell, _) => Some(cell_at(code, thread, cell)),
        _ => None,
    }
}

/// What the check at which the thread is looks at: the cell of its access, or the first cell of the object of its cast.
pub(crate) fn refused_at(code: &Code, thread: &Thread) -> Option<Where>
    ensures { option_map at result ≡ refused_at code.now thread.now.machine }
{
    let pc = thread.pc();
    match instr_at(code, pc) {
        Instr::ChkRead(cell, _) | Instr::ChkWrite(cell, _) => Some(cell_at(code, thread, cell)),
        Instr::ChkLock(_, _) | Instr::ChkLockLoaded(_) => {
            accessed(code, thread, instr_at(code, pc.wrapping_add(1)))
        }
        Instr::TestSole(r, _) => Some(Where::Made(thread.reference(r), 0)),
        _ => None,
    }
}
