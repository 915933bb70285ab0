//! The laws of code that is made of flat code.

ghost use Rattle.sharc_compile.specs.{Checked.CodeIsChecked, Coded.CodeFollowsFlat};
ghost use Rattle.sharc_compile.specs.{Made.MadeCodeFollows, Program.ProgramCodeFollows, Runs.RunsFollowSource};
ghost use Rattle.sharc_compile.specs.Source.{CodeFollowsSource};

use crate::generated_laws::{paths_law, run_paths_law};
use sharc_flat::form_laws::path_laws;
use sharc_flat::laws::{made_asks_the_same, made_is_framed};
use sharc_guard::{checked_law, framed_law, guarded_law};

/// The paths of code with consistent results are those of the flat code that it was made of, whichever checks are
/// dropped: the same events, the same stops, at most five counted turns for each line.
pub fn coded_law()
    ensures { CodeFollowsFlat }
{
    paths_law();
    guarded_law();
    framed_law();
}

/// The same of the code that `code_of` makes.
pub fn made_law()
    ensures { MadeCodeFollows }
{
    coded_law();
}

/// Where the flat code asks for what a program asks for, a thread of its code reports what the program reports by the
/// answers of these events, is over as the program is, has lowered of the references that the program has given up
/// since its last event the first ones, and makes at most 64 counted turns for each statement and expression that the
/// program entered, and 64 more.
pub fn source_law()
    ensures { CodeFollowsSource }
{
    made_law();
    path_laws();
}

/// And so it is of the code of a program that flattening knows, where its frames have numbers of 32 bits.
pub fn program_law()
    ensures { ProgramCodeFollows }
{
    source_law();
    made_asks_the_same();
    made_is_framed();
}

/// So what a thread has reported in a checked run of that code, in any interleaving, the program reports, where the
/// results of the thread's path are consistent with the objects that the run has made.
pub fn run_law()
    ensures { RunsFollowSource }
{
    program_law();
    run_paths_law();
}

/// Each access of a dynamic or locked cell in that code is no jump target, and comes directly after its check, but
/// where the check repeats one and is dropped.
pub fn checks_law()
    ensures { CodeIsChecked }
{
    checked_law();
}
