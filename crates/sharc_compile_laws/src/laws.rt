//! The laws, each the contract of a function that calls at most the laws that it joins.

ghost use Rattle.sharc_compile_laws.specs.{Names.{CodeHasMain, FunctionsAreNamed}, Paths.{OfTyped, PathsTell}};
ghost use Rattle.sharc_compile_laws.specs.{Paths.ThreadsTellInRuns, Started.{SpawnedAreThreads, ThreadsMayStart}};
ghost use Rattle.sharc_compile_laws.specs.{Threads.{OwnAreTold, ThreadsTell}, Typed.TypedThreadsTell};

use sharc_compile::{program_law, run_law};
use sharc_ctype_laws::laws::{has_main, one_function_of_name, spawns_threads};
use sharc_flat_laws::laws::{made_spawns, typed_suits};

/// The events of a thread in a history are what it says, where each thread says its own alone.
pub fn own_are_told()
    ensures { OwnAreTold }
{}

/// What a thread reports in a checked run of the code of a program, in any interleaving, is what the program asks for
/// by the answers of these events, after the Started of a function at its name; where the results of the paths of all
/// threads are consistent.
pub fn threads_tell()
    ensures { ThreadsTell }
{
    run_law();
}

/// So it is of the code of a typed, well-moded program with its least assignment.
pub fn typed_threads_tell()
    ensures { TypedThreadsTell }
{
    typed_suits();
    threads_tell();
}

/// And each path of a thread of that code whose results are consistent reports what the program asks for, is over as
/// the program is, and keeps the pace; so does each thread of a checked run whose path is such a one.
pub fn typed_paths_tell()
    ensures paths { OfTyped PathsTell }
    ensures threads { OfTyped ThreadsTellInRuns }
{
    typed_suits();
    program_law();
    run_law();
}

/// The functions that threads have, `main` and what is spawned, may be started.
pub fn threads_may_start()
    ensures { ThreadsMayStart }
{
    has_main();
    one_function_of_name();
    spawns_threads();
}

/// The functions of the code are those of the program by their numbers, and the code's first function is `main`.
pub fn functions_are_named()
    ensures named { FunctionsAreNamed }
    ensures main { CodeHasMain }
{}

/// What an instruction of the code of a typed program spawns, some function of the program spawns.
pub fn spawned_are_threads()
    ensures { SpawnedAreThreads }
{
    made_spawns();
}
