// The steps that matter to some variables. Pieces in which none is left are left out whole: where they lead is kept in
// their place.

ghost use Rattle.std.specs.Prelude.{◌≡◌, ◌∷◌, ◌++◌, [], map, IfOk, OnOk};
ghost use Rattle.sharc_dataflow.specs.{declared.step.Step.TheVariants.{Caught, Again}, Flow.Next, Code.{Code, listing}};
ghost use Rattle.sharc_dataflow.specs.{Passes.{last_or, front}, Narrow.{IsSame, exits_to, kept as kept_of, whole}};
ghost use Rattle.sharc_dataflow.specs.Narrow.{nothing_kept, then_kept, either_kept, caught_kept, loop_kept};
ghost use Rattle.sharc_dataflow.specs.Narrow.{goes_behind, is_between, acts_if, opens, joins, closes, narrows};
ghost use Rattle.sharc_dataflow.specs.Views.{view_piece, view_pieces, view_narrowing};

use crate::exits::Exits;
use crate::step::Step;
use std::alloc::{AllocError, Global};

/// Variables, from the first to the last.
#[derive(Clone, Copy, Drop)]
pub struct VariableRange {
    pub first: u32,
    pub last: u32,
}

impl VariableRange {
    fn have(self, x: u32) -> bool
        ensures { result ≡ is_between self.first self.last x }
    {
        self.first <= x && x <= self.last
    }
}

/// What is kept of a piece of code, and where what is left out after it leads.
#[derive(Drop)]
pub struct CodePiece {
    kept: Vec<Step>,
    behind: Exits,
}

impl CodePiece {
    /// Of which nothing is kept.
    fn left_out(alloc: Global, exits: Exits) -> CodePiece
        ensures { view_piece result ≡ kept_of [] exits }
    {
        CodePiece {
            kept: Vec::new(alloc),
            behind: exits,
        }
    }

    /// Of which these steps are kept, and which then goes on.
    fn of(steps: Vec<Step>) -> CodePiece
        ensures { view_piece result ≡ kept_of steps.items (exits_to Next) }
    {
        CodePiece {
            kept: steps,
            behind: Exits::on(),
        }
    }

    fn of_step(alloc: Global, step: Step) -> Result<CodePiece, AllocError>
        ensures { IfOk result (λ p. view_piece p ≡ kept_of (step ∷ []) (exits_to Next)) }
    {
        let mut steps = Vec::new(alloc);
        steps.push(step)?;
        Ok(CodePiece::of(steps))
    }

    /// All its steps.
    fn whole(self) -> Result<Vec<Step>, AllocError>
        ensures { IfOk result (λ v. v.items ≡ whole (view_piece self)) }
    {
        let mut steps = self.kept;
        self.behind.add_to(&mut steps)?;
        Ok(steps)
    }

    /// Adds all its steps.
    fn add_to(self, steps: &mut Vec<Step>) -> Result<(), AllocError>
        ensures { OnOk result (steps.new.items ≡ steps.old.items ++ whole (view_piece self)) }
    {
        let more = self.whole()?;
        steps.extend_from_slice(more.as_slice())
    }

    /// The one piece and then the other.
    fn then(self, other: CodePiece) -> Result<CodePiece, AllocError>
        ensures { IfOk result (λ p. view_piece p ≡ then_kept (view_piece self) (view_piece other)) }
    {
        if other.kept.is_empty() {
            return Ok(CodePiece {
                kept: self.kept,
                behind: self.behind.then(other.behind),
            });
        }
        let mut kept = self.whole()?;
        kept.extend_from_slice(other.kept.as_slice())?;
        Ok(CodePiece {
            kept,
            behind: other.behind,
        })
    }

    /// The one piece or the other.
    fn either(self, other: CodePiece, alloc: Global) -> Result<CodePiece, AllocError>
        ensures { IfOk result (λ p. view_piece p ≡ either_kept (view_piece self) (view_piece other)) }
    {
        if self.kept.is_empty() && other.kept.is_empty() {
            return Ok(CodePiece::left_out(alloc, self.behind.either(other.behind)));
        }
        let mut steps = Vec::new(alloc);
        steps.push(Step::Fork)?;
        self.add_to(&mut steps)?;
        steps.push(Step::Other)?;
        other.add_to(&mut steps)?;
        steps.push(Step::Join)?;
        Ok(CodePiece::of(steps))
    }

    /// The piece, whose continue leads to its end.
    fn caught(self, alloc: Global) -> Result<CodePiece, AllocError>
        ensures { IfOk result (λ p. view_piece p ≡ caught_kept (view_piece self)) }
    {
        if self.kept.is_empty() {
            return Ok(CodePiece::left_out(alloc, self.behind.caught()));
        }
        let mut steps = Vec::new(alloc);
        steps.push(Step::Catch)?;
        self.add_to(&mut steps)?;
        steps.push(Step::Caught)?;
        Ok(CodePiece::of(steps))
    }

    /// The piece again and again, until a break.
    fn repeated(self, alloc: Global) -> Result<CodePiece, AllocError>
        ensures { IfOk result (λ p. view_piece p ≡ loop_kept (view_piece self)) }
    {
        if self.kept.is_empty() {
            return Ok(CodePiece::left_out(alloc, self.behind.repeated()));
        }
        let mut steps = Vec::new(alloc);
        steps.push(Step::Head)?;
        self.add_to(&mut steps)?;
        steps.push(Step::Again)?;
        Ok(CodePiece::of(steps))
    }
}

/// Takes away the last; of an empty list a piece of which nothing is kept is given.
fn pop_piece(alloc: Global, list: &mut Vec<CodePiece>) -> CodePiece
    ensures last { view_piece result ≡ last_or nothing_kept (view_pieces list.old.items) }
    ensures front { view_pieces list.new.items ≡ front (view_pieces list.old.items) }
{
    match list.pop() {
        Some(last) => last,
        None => CodePiece::left_out(alloc, Exits::on()),
    }
}

/// What is kept when the steps before are gone over: of the innermost open piece, and of those around it, the innermost
/// last.
#[derive(Drop)]
pub struct Narrowing {
    now: CodePiece,
    waiting: Vec<CodePiece>,
}

impl Narrowing {
    /// Goes on to what is known of the piece that comes next.
    fn goes_on(self, next: CodePiece) -> Result<Narrowing, AllocError>
        ensures { IfOk result (λ n. view_narrowing n ≡ goes_behind (view_piece next) (view_narrowing self)) }
    {
        Ok(Narrowing {
            now: self.now.then(next)?,
            waiting: self.waiting,
        })
    }

    /// Goes on over what is done with a variable.
    fn acts(self, alloc: Global, keeps: bool, step: Step) -> Result<Narrowing, AllocError>
        ensures { IfOk result (λ n. view_narrowing n ≡ acts_if keeps step (view_narrowing self)) }
    {
        if keeps {
            self.goes_on(CodePiece::of_step(alloc, step)?)
        } else {
            Ok(self)
        }
    }

    /// Begins a piece.
    fn opens(self, alloc: Global) -> Result<Narrowing, AllocError>
        ensures { IfOk result (λ n. view_narrowing n ≡ opens (view_narrowing self)) }
    {
        let mut waiting = self.waiting;
        waiting.push(self.now)?;
        Ok(Narrowing {
            now: CodePiece::left_out(alloc, Exits::on()),
            waiting,
        })
    }

    /// Ends the other of two pieces.
    fn joins(self, alloc: Global) -> Result<Narrowing, AllocError>
        ensures { IfOk result (λ n. view_narrowing n ≡ joins (view_narrowing self)) }
    {
        let mut waiting = self.waiting;
        let one = pop_piece(alloc, &mut waiting);
        let before = pop_piece(alloc, &mut waiting);
        Ok(Narrowing {
            now: before.then(one.either(self.now, alloc)?)?,
            waiting,
        })
    }

    /// Ends a piece whose continue leads to its end.
    fn catches(self, alloc: Global) -> Result<Narrowing, AllocError>
        ensures { IfOk result (λ n. view_narrowing n ≡ narrows 0 0 Caught (view_narrowing self)) }
    {
        let mut waiting = self.waiting;
        let before = pop_piece(alloc, &mut waiting);
        Ok(Narrowing {
            now: before.then(self.now.caught(alloc)?)?,
            waiting,
        })
    }

    /// Ends a loop.
    fn repeats(self, alloc: Global) -> Result<Narrowing, AllocError>
        ensures { IfOk result (λ n. view_narrowing n ≡ narrows 0 0 Again (view_narrowing self)) }
    {
        let mut waiting = self.waiting;
        let before = pop_piece(alloc, &mut waiting);
        Ok(Narrowing {
            now: before.then(self.now.repeated(alloc)?)?,
            waiting,
        })
    }

    /// Goes on over a step.
    fn step(
        self,
        alloc: Global,
        variables: VariableRange,
        step: Step,
    ) -> Result<Narrowing, AllocError>
        ensures { IfOk result (λ n. view_narrowing n
            ≡ narrows variables.first variables.last step (view_narrowing self)) }
    {
        match step {
            Step::Read(x, _) | Step::Null(x, _) | Step::Write(x) => {
                self.acts(alloc, variables.have(x), step)
            }
            Step::Break => self.goes_on(CodePiece::left_out(alloc, Exits::breaks())),
            Step::Continue => self.goes_on(CodePiece::left_out(alloc, Exits::continues())),
            Step::Return => self.goes_on(CodePiece::left_out(alloc, Exits::none())),
            Step::Fork | Step::Other | Step::Catch | Step::Head => self.opens(alloc),
            Step::Join => self.joins(alloc),
            Step::Caught => self.catches(alloc),
            Step::Again => self.repeats(alloc),
        }
    }
}

/// Steps of code that is the same for these variables: it does the same to each, and the same reads of it are warned
/// of.
pub(crate) fn narrowed(
    alloc: Global,
    variables: VariableRange,
    steps: &[Step],
) -> Result<Vec<Step>, AllocError>
    ensures { IfOk result (λ v. (c : Code) → steps.now ≡ listing c → IsSame variables.first variables.last v.items c) }
{
    let mut narrowed = Narrowing {
        now: CodePiece::left_out(alloc, Exits::on()),
        waiting: Vec::new(alloc),
    };
    for step in steps {
        narrowed = narrowed.step(alloc, variables, *step)?;
    }
    let kept = narrowed.now.whole()?;
    Ok(kept)
}
