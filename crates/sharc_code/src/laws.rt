//! Laws of shapes, of threads and of checked runs. A proof above has them where its function calls these.

ghost use Rattle.sharc_code.specs.{Layout.{Fits, IsShape}, Laws.RunLaws, Ranges.RangeLaws, StandingLaws.StandingLaws};
ghost use Rattle.sharc_code.specs.ThreadLaws.{ThreadLaws};

use crate::code::Code;
use crate::shape::Shape;
use sharc_word::history_laws;

/// What holds of every checked run: it is a run by turns of the whole machine, and the other way round; runs join;
/// where a run has got to is determined by its parts; a turn changes no other thread, counts as an event where it is no
/// failed try, and comes from no thread that is stopped or gone; the source events are by thread those of the paths;
/// and a run is that of its schedule. And what holds of each turn.
pub fn run_laws()
    ensures { RunLaws }
{
    history_laws();
    thread_laws();
}

/// A shape that fits a code has words with numbers of 32 bits.
#[inline(always)]
pub fn fits_law(code: &Code, shape: &Shape)
    requires { Fits code.now shape.now }
    ensures { IsShape shape.now }
{}

/// What holds of each turn of a thread: it has one of eleven outcomes, each of certain instructions; the word that it
/// asks for is of one of ten kinds, each of certain instructions; what it tells is an event of the thread itself, of an
/// act that its instruction may tell; its number stays, and so do the rows of its table, its prints and that its stage
/// is one of the shape; it waits exactly where its next turn would be a failed try; a failed try changes nothing else
/// and leaves the words as they are; and a turn does not look at whether the one before was a failed try.
#[inline(always)]
pub fn thread_laws()
    ensures { ThreadLaws }
{}

/// What holds wherever a run of a code is: each thread has its number and a stage of the shape; a state word that is 1
/// stays so but for turns of its own thread, and becomes 1 by the last turn of a Spawn alone, so who was started since
/// is determined by the words where only threads that had been started go on; and where no thread makes an event the
/// words stay, and whoever made a turn waits.
#[inline(always)]
pub fn standing_laws()
    ensures { StandingLaws }
{}

/// What follows of the ranges that the numbers of a code keep (`NumbersFit`): no cell is one of two globals, and no
/// count of references passes a word.
#[inline(always)]
pub fn range_laws()
    ensures { RangeLaws }
{}
