// The backward pass over the steps: what holds at the end of a turn of each loop, for one variable.

ghost use Rattle.std.specs.Prelude.{◌≡◌, OnOk, IfOk, true};
ghost use Rattle.sharc_dataflow.specs.{Sums.{only, nulled}, Passes.{nothing, does_before, ends_piece, begins_either}};
ghost use Rattle.sharc_dataflow.specs.{Passes.{begins_caught, begins_loop, back, summed, sum_start}, Views.view_sums};

use crate::stack::pop_ways;
use crate::step::Step;
use crate::way::{Way, Ways};
use std::alloc::{AllocError, Global};

/// What is known at a step when all after it have been gone over.
#[derive(Drop)]
pub struct Sums {
    /// What the steps from here to the end of the innermost open piece do.
    now: Ways,
    /// What those after the open pieces do, the innermost last.
    waiting: Vec<Ways>,
    /// What holds at the end of a turn of each loop, the last loop first.
    heads: Vec<Option<u32>>,
}

fn nothing() -> Ways
    ensures { result ≡ nothing }
{
    Ways::only(Way::free())
}

impl Sums {
    fn does(&mut self, ways: Ways)
        ensures { view_sums self.new ≡ does_before ways (view_sums self.old) }
    {
        self.now = ways.then(self.now);
    }

    fn ends_piece(&mut self) -> Result<(), AllocError>
        ensures { OnOk result (view_sums self.new ≡ ends_piece (view_sums self.old)) }
    {
        self.waiting.push(self.now)?;
        self.now = nothing();
        Ok(())
    }

    fn begins_either(&mut self)
        ensures { view_sums self.new ≡ begins_either (view_sums self.old) }
    {
        let other = pop_ways(&mut self.waiting, nothing());
        let behind = pop_ways(&mut self.waiting, nothing());
        self.now = self.now.either(other).then(behind);
    }

    fn begins_caught(&mut self)
        ensures { view_sums self.new ≡ begins_caught (view_sums self.old) }
    {
        let behind = pop_ways(&mut self.waiting, nothing());
        self.now = self.now.caught().then(behind);
    }

    fn begins_loop(&mut self) -> Result<(), AllocError>
        ensures { OnOk result (view_sums self.new ≡ begins_loop (view_sums self.old)) }
    {
        self.heads.push(self.now.next.least)?;
        let behind = pop_ways(&mut self.waiting, nothing());
        self.now = self.now.repeated().then(behind);
        Ok(())
    }

    /// Goes back over a step.
    fn step(&mut self, x: u32, step: Step) -> Result<(), AllocError>
        ensures { OnOk result (view_sums self.new ≡ back x step (view_sums self.old)) }
    {
        match step {
            Step::Read(_, _) => {}
            Step::Null(y, token) => {
                if y == x {
                    self.does(Ways::only(Way {
                        least: Some(token),
                        clear: true,
                    }));
                }
            }
            Step::Write(y) => {
                if y == x {
                    self.does(Ways::only(Way::closed()));
                }
            }
            Step::Break => self.does(Ways {
                next: Way::closed(),
                broken: Way::free(),
                continued: Way::closed(),
            }),
            Step::Continue => self.does(Ways {
                next: Way::closed(),
                broken: Way::closed(),
                continued: Way::free(),
            }),
            Step::Return => self.does(Ways::only(Way::closed())),
            Step::Fork => self.begins_either(),
            Step::Other => self.ends_piece()?,
            Step::Join => self.ends_piece()?,
            Step::Catch => self.begins_caught(),
            Step::Caught => self.ends_piece()?,
            Step::Head => self.begins_loop()?,
            Step::Again => self.ends_piece()?,
        }
        Ok(())
    }
}

/// What holds at the end of a turn of each loop, the last loop first.
pub(crate) fn heads_of(
    alloc: Global,
    x: u32,
    steps: &[Step],
) -> Result<Vec<Option<u32>>, AllocError>
    ensures { IfOk result (λ v. v.items ≡ (summed x steps.now sum_start).heads) }
{
    let mut sums = Sums {
        now: nothing(),
        waiting: Vec::new(alloc),
        heads: Vec::new(alloc),
    };
    let mut i = steps.len();
    while i > 0 {
        i -= 1;
        sums.step(x, steps[i])?;
    }
    Ok(sums.heads)
}
