// The threads that have begun.

ghost use Rattle.std.specs.{Prelude.{◌≡◌, ◌==◌, [], ◌∷◌, ◌++◌, OnOk, MatchOption, false}, List.list_any};
ghost use Rattle.sharc_audit.specs.Known.{ArePlaces, IsPlaceOf};

use crate::run::ThreadRun;
use std::alloc::{AllocError, Global};
use std::collections::HashMap;

/// The place of the run of each thread that has begun.
pub(crate) type RunPlaces = HashMap<u32, usize>;

/// The runs of the threads that have begun.
#[derive(Drop)]
pub(crate) struct Runs {
    pub(crate) runs: Vec<ThreadRun>,
    pub(crate) places: RunPlaces,
}

impl Runs {
    /// No thread has begun.
    pub(crate) fn new(alloc: Global) -> Runs
        ensures none { result.runs.items ≡ [] }
        ensures places { ArePlaces result.places [] }
    {
        Runs {
            runs: Vec::new(alloc),
            places: HashMap::new(alloc),
        }
    }

    /// One thread more, which had not begun.
    pub(crate) fn add(&mut self, run: ThreadRun) -> Result<(), AllocError>
        requires places { ArePlaces self.old.places self.old.runs.items }
        requires other { list_any (λ x. x.thread == run.thread) self.old.runs.items ≡ false }
        ensures runs { OnOk result (self.new.runs.items ≡ self.old.runs.items ++ run ∷ []) }
        ensures places { OnOk result (ArePlaces self.new.places self.new.runs.items) }
    {
        self.places.insert(run.thread, self.runs.len())?;
        self.runs.push(run)?;
        Ok(())
    }

    /// The place of the run of the thread, where it has begun.
    pub(crate) fn place_of(&self, thread: u32) -> Option<usize>
        requires { ArePlaces self.now.places self.now.runs.items }
        ensures { MatchOption result (list_any (λ run. run.thread == thread) self.now.runs.items ≡ false)
            (IsPlaceOf thread self.now.runs.items) }
    {
        self.places.get(&thread).copied()
    }
}
