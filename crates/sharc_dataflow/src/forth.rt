// The forward pass over the steps: what holds where the variable is read.

ghost use Rattle.std.specs.Prelude.{◌≡◌, ◌++◌, OnOk, IfOk, true};
ghost use Rattle.sharc_dataflow.specs.declared.step.Step.TheVariants.{Fork, Other, Join, Catch, Caught, Head, Again};
ghost use Rattle.sharc_dataflow.specs.{Sums.warn_read, Passes.{is_caught, breaks, continues, turning, leaves_loop}};
ghost use Rattle.sharc_dataflow.specs.{Passes.{forth, told, tell_start}, Views.view_tells};

use crate::stack::pop_token;
use crate::step::Step;
use crate::way::{FlowWarning, StandingNullings, lower};
use std::alloc::{AllocError, Global};

/// What is known at a step when all before it are gone over.
#[derive(Drop)]
pub struct Tells {
    /// The least nulling that holds here and at the exits.
    stand: StandingNullings,
    /// What held at the exits and the beginnings of the open pieces, the innermost last.
    waiting: Vec<Option<u32>>,
    /// What holds at the end of a turn of each loop to come, the last loop first.
    heads: Vec<Option<u32>>,
    found: Vec<FlowWarning>,
}

impl StandingNullings {
    fn breaks(self) -> StandingNullings
        ensures { result ≡ breaks self }
    {
        StandingNullings {
            next: None,
            broken: lower(self.broken, self.next),
            continued: self.continued,
        }
    }

    fn continues(self) -> StandingNullings
        ensures { result ≡ continues self }
    {
        StandingNullings {
            next: None,
            broken: self.broken,
            continued: lower(self.continued, self.next),
        }
    }

    fn is_caught(self, before: Option<u32>) -> StandingNullings
        ensures { result ≡ is_caught before self }
    {
        StandingNullings {
            next: lower(self.next, self.continued),
            broken: self.broken,
            continued: lower(before, self.continued),
        }
    }

    fn turning(self, least: Option<u32>) -> StandingNullings
        ensures { result ≡ turning least self }
    {
        StandingNullings {
            next: lower(self.next, least),
            broken: None,
            continued: None,
        }
    }
}

fn read(token: u32, stands: Option<u32>, found: &mut Vec<FlowWarning>) -> Result<(), AllocError>
    ensures { OnOk result (found.new.items ≡ found.old.items ++ warn_read true token stands) }
{
    if let Some(since) = stands {
        found.push(FlowWarning { read: token, since })?;
    }
    Ok(())
}

impl Tells {
    /// Begins one of two pieces.
    fn forks(&mut self) -> Result<(), AllocError>
        ensures { OnOk result (view_tells self.new ≡ forth 0 Fork (view_tells self.old)) }
    {
        self.waiting.push(self.stand.next)?;
        Ok(())
    }

    /// Begins the other.
    fn turns_to_other(&mut self) -> Result<(), AllocError>
        ensures { OnOk result (view_tells self.new ≡ forth 0 Other (view_tells self.old)) }
    {
        let begun = pop_token(&mut self.waiting);
        self.waiting.push(self.stand.next)?;
        self.stand.next = begun;
        Ok(())
    }

    /// Ends both.
    fn joins(&mut self)
        ensures { view_tells self.new ≡ forth 0 Join (view_tells self.old) }
    {
        let one = pop_token(&mut self.waiting);
        self.stand.next = lower(one, self.stand.next);
    }

    /// Begins a piece whose continue leads to its end.
    fn catches(&mut self) -> Result<(), AllocError>
        ensures { OnOk result (view_tells self.new ≡ forth 0 Catch (view_tells self.old)) }
    {
        self.waiting.push(self.stand.continued)?;
        self.stand.continued = None;
        Ok(())
    }

    /// Ends it.
    fn ends_caught(&mut self)
        ensures { view_tells self.new ≡ forth 0 Caught (view_tells self.old) }
    {
        let before = pop_token(&mut self.waiting);
        self.stand = self.stand.is_caught(before);
    }

    /// Begins a loop.
    fn begins_loop(&mut self) -> Result<(), AllocError>
        ensures { OnOk result (view_tells self.new ≡ forth 0 Head (view_tells self.old)) }
    {
        let least = pop_token(&mut self.heads);
        self.waiting.push(self.stand.broken)?;
        self.waiting.push(self.stand.continued)?;
        self.stand = self.stand.turning(least);
        Ok(())
    }

    /// Leaves it.
    fn leaves_loop(&mut self)
        ensures { view_tells self.new ≡ forth 0 Again (view_tells self.old) }
    {
        let continued = pop_token(&mut self.waiting);
        let broken = pop_token(&mut self.waiting);
        self.stand = StandingNullings {
            next: self.stand.broken,
            broken,
            continued,
        };
    }

    /// Goes on over a step.
    fn step(&mut self, x: u32, step: Step) -> Result<(), AllocError>
        ensures { OnOk result (view_tells self.new ≡ forth x step (view_tells self.old)) }
    {
        match step {
            Step::Read(y, token) => {
                if y == x {
                    read(token, self.stand.next, &mut self.found)?;
                }
            }
            Step::Null(y, token) => {
                if y == x {
                    self.stand.next = lower(Some(token), self.stand.next);
                }
            }
            Step::Write(y) => {
                if y == x {
                    self.stand.next = None;
                }
            }
            Step::Break => self.stand = self.stand.breaks(),
            Step::Continue => self.stand = self.stand.continues(),
            Step::Return => self.stand.next = None,
            Step::Fork => self.forks()?,
            Step::Other => self.turns_to_other()?,
            Step::Join => self.joins(),
            Step::Catch => self.catches()?,
            Step::Caught => self.ends_caught(),
            Step::Head => self.begins_loop()?,
            Step::Again => self.leaves_loop(),
        }
        Ok(())
    }
}

/// Adds the warnings about a variable, by what holds at the end of a turn of each loop.
pub(crate) fn tell(
    alloc: Global,
    x: u32,
    steps: &[Step],
    heads: Vec<Option<u32>>,
    found: Vec<FlowWarning>,
) -> Result<Vec<FlowWarning>, AllocError>
    ensures { IfOk result (λ v. v.items ≡ (told x steps.now (tell_start heads.items found.items)).found) }
{
    let mut tells = Tells {
        stand: StandingNullings {
            next: None,
            broken: None,
            continued: None,
        },
        waiting: Vec::new(alloc),
        heads,
        found,
    };
    for step in steps {
        tells.step(x, *step)?;
    }
    Ok(tells.found)
}
