// Where code leads in which nothing is done with the variables at hand.

ghost use Rattle.std.specs.Prelude.{◌≡◌, ◌++◌, OnOk};
ghost use Rattle.sharc_dataflow.specs.{Flow.{Next, Broken, Continued, Ends}, Code.listing, Narrow.exits_to};
ghost use Rattle.sharc_dataflow.specs.Narrow.{then_exits, either_exits, caught_exits, loop_exits, may_go, on_or_ends};
ghost use Rattle.sharc_dataflow.specs.Narrow.{leading};

use crate::step::Step;
use std::alloc::AllocError;

/// The exits to which some path through the code leads.
#[derive(Clone, Copy, Drop)]
pub struct Exits {
    pub next: bool,
    pub broken: bool,
    pub continued: bool,
}

impl Exits {
    /// Those of code that goes on to what comes next.
    pub(crate) fn on() -> Exits
        ensures { result ≡ exits_to Next }
    {
        Exits {
            next: true,
            broken: false,
            continued: false,
        }
    }

    /// Those of a break.
    pub(crate) fn breaks() -> Exits
        ensures { result ≡ exits_to Broken }
    {
        Exits {
            next: false,
            broken: true,
            continued: false,
        }
    }

    /// Those of a continue.
    pub(crate) fn continues() -> Exits
        ensures { result ≡ exits_to Continued }
    {
        Exits {
            next: false,
            broken: false,
            continued: true,
        }
    }

    /// Those of a return.
    pub(crate) fn none() -> Exits
        ensures { result ≡ exits_to Ends }
    {
        Exits {
            next: false,
            broken: false,
            continued: false,
        }
    }

    /// Those of the one piece and then the other.
    pub(crate) fn then(self, other: Exits) -> Exits
        ensures { result ≡ then_exits self other }
    {
        Exits {
            next: self.next && other.next,
            broken: self.broken || (self.next && other.broken),
            continued: self.continued || (self.next && other.continued),
        }
    }

    /// Those of the one piece or the other.
    pub(crate) fn either(self, other: Exits) -> Exits
        ensures { result ≡ either_exits self other }
    {
        Exits {
            next: self.next || other.next,
            broken: self.broken || other.broken,
            continued: self.continued || other.continued,
        }
    }

    /// Those of a piece whose continue leads to its end.
    pub(crate) fn caught(self) -> Exits
        ensures { result ≡ caught_exits self }
    {
        Exits {
            next: self.next || self.continued,
            broken: self.broken,
            continued: self.continued,
        }
    }

    /// Those of a piece that is gone through again and again, until a break.
    pub(crate) fn repeated(self) -> Exits
        ensures { result ≡ loop_exits self }
    {
        Exits {
            next: self.broken,
            broken: false,
            continued: false,
        }
    }

    /// Adds the steps of code that leads there.
    pub(crate) fn add_to(self, steps: &mut Vec<Step>) -> Result<(), AllocError>
        ensures { OnOk result (steps.new.items ≡ steps.old.items ++ listing (leading self)) }
    {
        may_break(self.broken, steps)?;
        may_continue(self.continued, steps)?;
        ends_unless(self.next, steps)
    }
}

fn may_break(breaks: bool, steps: &mut Vec<Step>) -> Result<(), AllocError>
    ensures { OnOk result (steps.new.items ≡ steps.old.items ++ listing (may_go breaks Broken)) }
{
    if breaks {
        steps.push(Step::Fork)?;
        steps.push(Step::Break)?;
        steps.push(Step::Other)?;
        steps.push(Step::Join)?;
    }
    Ok(())
}

fn may_continue(continues: bool, steps: &mut Vec<Step>) -> Result<(), AllocError>
    ensures { OnOk result (steps.new.items ≡ steps.old.items ++ listing (may_go continues Continued)) }
{
    if continues {
        steps.push(Step::Fork)?;
        steps.push(Step::Continue)?;
        steps.push(Step::Other)?;
        steps.push(Step::Join)?;
    }
    Ok(())
}

fn ends_unless(goes_on: bool, steps: &mut Vec<Step>) -> Result<(), AllocError>
    ensures { OnOk result (steps.new.items ≡ steps.old.items ++ listing (on_or_ends goes_on)) }
{
    if !goes_on {
        steps.push(Step::Return)?;
    }
    Ok(())
}
