// What is to be done next, and what with its value.

ghost use Rattle.std.specs.Prelude.{◌≡◌};
ghost use Rattle.sharc_ask.specs.{StepView.view_place, View.view_flow, Values.{view_value, number_in, test_in}};
ghost use Rattle.sharc_ask.specs.Values.{place_in, flow_in};

use crate::arithmetic::Width;
use crate::places::LvaluePlace;
use crate::values::Flow;
use sharc_mode::sharing::Sharing;
use sharc_names::fault::Named;
use sharc_names::kind::ExpressionKind;
use sharc_tree::token::{Site, Span};
use sharc_tree::tree::{
    BinaryOperator, Declaration, Expr, FieldOperator, ForHead, Local, Right, Simple, Stmt,
    ValueCall, WrittenType,
};

/// What a task comes to.
#[derive(Clone, Copy)]
pub enum Value {
    Nothing,
    Number(i64),
    Truth(bool),
    Place(LvaluePlace),
    Flow(Flow),
}

pub fn number_in(value: Value) -> i64
    ensures { result ≡ number_in (view_value value) }
{
    match value {
        Value::Number(number) => number,
        Value::Nothing => 0,
        Value::Truth(_) => 0,
        Value::Place(_) => 0,
        Value::Flow(_) => 0,
    }
}

pub fn test_in(value: Value) -> bool
    ensures { result ≡ test_in (view_value value) }
{
    match value {
        Value::Truth(is_true) => is_true,
        Value::Nothing => false,
        Value::Number(_) => false,
        Value::Place(_) => false,
        Value::Flow(_) => false,
    }
}

pub fn place_in(value: Value) -> LvaluePlace
    ensures { view_place result ≡ place_in (view_value value) }
{
    match value {
        Value::Place(place) => place,
        Value::Nothing => LvaluePlace::Variable(0),
        Value::Truth(_) => LvaluePlace::Variable(0),
        Value::Number(_) => LvaluePlace::Variable(0),
        Value::Flow(_) => LvaluePlace::Variable(0),
    }
}

pub fn flow_in(value: Value) -> Flow
    ensures { view_flow result ≡ flow_in (view_value value) }
{
    match value {
        Value::Flow(flow) => flow,
        Value::Nothing => Flow::Next,
        Value::Truth(_) => Flow::Next,
        Value::Number(_) => Flow::Next,
        Value::Place(_) => Flow::Next,
    }
}

/// A `while` or a `for` in a function with a result of this type.
#[derive(Clone, Copy)]
pub struct Loop<'a> {
    pub kind: ExpressionKind<'a>,
    pub statement: &'a Stmt,
}

/// What is to be done.
#[derive(Clone, Copy)]
pub enum Task<'a> {
    /// The value of an expression.
    Eval(&'a Expr),
    /// Whether it is neither 0 nor NULL.
    Test(&'a Expr),
    /// An argument for the first of these parameters.
    Argument(&'a [Declaration], &'a Expr),
    /// The place that an lvalue names; its stops are placed at the site.
    PlaceOf(Site, &'a Expr),
    /// `a[i]`
    Index(Site, &'a Expr, &'a Expr),
    /// `*a`
    Pointee(Site, &'a Expr),
    /// `a.n` and `a->n`
    Field(Site, &'a Expr, FieldOperator, Named),
    /// The right side of `=`, for this type and the mode of its target.
    Right(ExpressionKind<'a>, Sharing<'a>, &'a Right),
    Simple(&'a Simple),
    Declare(&'a Local),
    /// What comes first, and the test, in the head of a loop.
    First(&'a Box<ForHead>),
    LoopTest(Option<&'a Expr>),
    /// A `return` in a function with a result of this type.
    Return(ExpressionKind<'a>, Site, &'a Option<Box<Expr>>),
    /// A statement that is entered already, and the statements of a list.
    Entered(ExpressionKind<'a>, &'a Stmt),
    All(ExpressionKind<'a>, &'a [Stmt]),
    /// At most so many turns of a loop.
    Turns(u64, Loop<'a>),
}

/// An operator that looks at both operands. Temporaries after the mark end with it.
#[derive(Clone, Copy)]
pub struct Operation {
    pub width: Width,
    pub site: Site,
    pub operator: BinaryOperator,
    pub mark: usize,
}

/// What goes on with the value of an expression.
#[derive(Clone, Copy)]
pub enum WithValue<'a> {
    Tested,
    Passed(&'a [Declaration]),
    Spawned(Site, Named, usize),
    Performs(Site, ValueCall),
    Negated(Site),
    Inverted,
    Complemented,
    AndLeft(&'a Expr),
    OrLeft(&'a Expr),
    TruthOf,
    LeftOperand(Operation, &'a Expr),
    RightOperand(Operation, i64),
    Fitted(ExpressionKind<'a>),
    Made(Site, Sharing<'a>, &'a WrittenType),
    PointerBase(Site, &'a Expr),
    Based(Site),
    Dropped,
    Returns(ExpressionKind<'a>, Site),
}

/// What goes on with the place that an expression names, or that of what it is read from.
#[derive(Clone, Copy)]
pub enum WithPlace<'a> {
    Locks(Site, usize),
    Unlocks(Site, usize),
    Frees(Span, usize),
    Casts(Span, usize),
    Fetched(usize),
    ArrayBase(Site, &'a Expr),
    FieldIn(Named),
    Assigned(&'a Right, usize),
}

/// What goes on with an index or with a value that goes somewhere.
#[derive(Clone, Copy)]
pub enum WithNumber<'a> {
    ArrayElement(Site, &'a Expr, LvaluePlace),
    PointerElement(Site, &'a Expr, i64),
    Stored(&'a Expr, LvaluePlace, usize),
    Initialised(&'a Declaration),
}

/// What goes on behind a part of a statement.
#[derive(Clone, Copy)]
pub enum After<'a> {
    /// Behind a declaration, an assignment or a call: the next statement follows.
    Simple,
    /// Variables after the mark end with a block.
    Block(usize),
    /// The other statements of a list.
    Listed(ExpressionKind<'a>, &'a [Stmt]),
    /// One of two statements, by a test.
    Choice(ExpressionKind<'a>, &'a Stmt, Option<&'a Stmt>),
    /// Behind what comes first in the head of a `for`. Variables after the mark end with it.
    Head(Loop<'a>, usize),
    /// Behind the test, the body and the step of a loop, of which so many turns are left.
    Test(u64, Loop<'a>),
    Body(u64, Loop<'a>),
    Step(u64, Loop<'a>),
    /// Behind the body of a function that was called. Temporaries after the mark end with the call.
    Call(usize),
}

/// What goes on with the value of a task.
#[derive(Clone, Copy)]
pub enum Rest<'a> {
    /// It is the value of the whole.
    Same,
    Value(&'a Expr, WithValue<'a>),
    Place(&'a Expr, WithPlace<'a>),
    Number(WithNumber<'a>),
    After(After<'a>),
}

/// A call of what a name names.
#[derive(Clone, Copy)]
pub struct Call<'a> {
    pub site: Site,
    pub named: Named,
    pub name: &'a [u8],
    pub arguments: &'a [Expr],
}

/// How it goes on: with this value it is done; or with a task, and then with what is made of its value; or with a call.
#[derive(Clone, Copy)]
pub enum Plan<'a> {
    Done(Value),
    Goes(Task<'a>, Rest<'a>),
    Calls(Call<'a>),
}
