//! Laws of flattened code.

ghost use Rattle.sharc_flat.specs.Laws.{FlattenedAsksTheSame, FlattenedIsFramed, GlobalsLieApart, IsThereCode};
ghost use Rattle.sharc_flat.specs.Laws.{MadeAsksTheSame, MadeIsFlattened, MadeIsFramed};

use sharc_meaning::laws::ask_laws;

/// Flattened code asks for what the source asks for, in both directions.
pub fn asks_the_same()
    ensures { FlattenedAsksTheSame }
{
    ask_laws();
}

/// Flattened code stays within its frames, and its lines lead to lines of their function.
pub fn flattened_is_framed()
    ensures { FlattenedIsFramed }
{}

/// There is flat code of every program, whatever the places of its globals.
pub fn is_there_code()
    ensures { IsThereCode }
{}

/// What flattening makes is flat code of its program.
pub fn made_is_flattened()
    ensures { MadeIsFlattened }
{}

/// What flattening makes asks for what the source asks for.
pub fn made_asks_the_same()
    ensures { MadeAsksTheSame }
{
    ask_laws();
}

/// What flattening makes stays within its frames.
pub fn made_is_framed()
    ensures { MadeIsFramed }
{}

/// Globals lie apart.
pub fn globals_lie_apart()
    ensures { GlobalsLieApart }
{}
