// Statements.

use crate::token::Span;
use crate::tree::declaration::{Declaration, WrittenType};
use crate::tree::expression::Expr;

/// The right side of `=`.
pub enum Right {
    /// `expr`
    Value(Expr),
    /// `malloc ( [ unary * ] sizeof ( plain ) )`
    Malloc(Span, Option<Expr>, WrittenType),
}

impl Drop for Right {
    fn drop(self) {
        match self {
            Right::Value(value) => drop(value),
            Right::Malloc(_, count, of) => {
                drop(count);
                drop(of);
            }
        }
    }
}

impl Right {
    ghost use Rattle.std.specs.Prelude.{◌≡◌};
    ghost use Rattle.sharc_tree.specs.{Spans.span_of_right, View.view_right};

    /// The tokens of what is there.
    pub fn span(&self) -> Span
        ensures { result ≡ span_of_right (view_right self.now) }
    {
        match self {
            Right::Value(expr) => expr.span(),
            Right::Malloc(span, _, _) => *span,
        }
    }
}

/// An assignment or a call.
pub enum Simple {
    /// `unary = right`
    Assign(Span, Expr, Right),
    /// `call`
    Call(Expr),
}

impl Drop for Simple {
    fn drop(self) {
        match self {
            Simple::Assign(_, place, right) => {
                drop(place);
                drop(right);
            }
            Simple::Call(call) => drop(call),
        }
    }
}

impl Simple {
    ghost use Rattle.std.specs.Prelude.{◌≡◌};
    ghost use Rattle.sharc_tree.specs.{Spans.span_of_simple, View.view_simple};

    /// The tokens of the assignment or the call, without a `;`.
    pub fn span(&self) -> Span
        ensures { result ≡ span_of_simple (view_simple self.now) }
    {
        match self {
            Simple::Assign(span, _, _) => *span,
            Simple::Call(call) => call.span(),
        }
    }
}

/// `type id [ = right ]`
pub struct Local {
    pub span: Span,
    pub declaration: Declaration,
    pub initial: Option<Right>,
}

impl Drop for Local {
    fn drop(self) {
        let Local {
            span: _,
            declaration,
            initial,
        } = self;
        drop(declaration);
        drop(initial);
    }
}

/// What comes first in the head of a `for`.
#[derive(Drop)]
pub enum ForFirst {
    Nothing,
    Declares(Local),
    Does(Simple),
}

/// The head of a `for`.
pub struct ForHead {
    pub first: ForFirst,
    pub test: Option<Expr>,
    pub step: Option<Simple>,
}

impl Drop for ForHead {
    fn drop(self) {
        let ForHead { first, test, step } = self;
        drop(first);
        drop(test);
        drop(step);
    }
}

/// `break` or `continue`.
#[derive(Clone, Copy)]
pub enum Jump {
    Break,
    Continue,
}

/// A statement, or a declaration among those of a block.
#[derive(Drop)]
pub enum Stmt {
    /// `;`
    Empty(Span),
    /// `{ { stmt | decl ; } }`
    Block(Span, Vec<Stmt>),
    /// `decl ;`, which is not a statement, and is in a block only
    Declare(Span, Box<Local>),
    /// `simple ;`
    Simple(Span, Box<Simple>),
    /// `break ;` or `continue ;`
    Jump(Span, Jump),
    /// `return [ expr ] ;`
    Return(Span, Option<Box<Expr>>),
    /// `if ( expr ) stmt`
    If(Span, Box<Expr>, Box<Stmt>),
    /// `if ( expr ) stmt else stmt`
    IfElse {
        span: Span,
        test: Box<Expr>,
        then: Box<Stmt>,
        otherwise: Box<Stmt>,
    },
    /// `while ( expr ) stmt`
    While(Span, Box<Expr>, Box<Stmt>),
    /// `for ( [ decl | simple ] ; [ expr ] ; [ simple ] ) stmt`
    For(Span, Box<ForHead>, Box<Stmt>),
}

impl Stmt {
    ghost use Rattle.std.specs.Prelude.{◌≡◌, option_map};
    ghost use Rattle.sharc_tree.specs.{Forms.parts_of_block, Spans.span_of_statement, Tree.block, View.view_stmt};
    ghost use Rattle.sharc_tree.specs.View.{view_statements};

    /// A block of statements.
    pub fn block(span: Span, statements: Vec<Stmt>) -> Stmt
        ensures { view_stmt result ≡ block span (view_statements statements.items) }
    {
        Stmt::Block(span, statements)
    }

    /// The statements of a block; none of any other statement.
    pub fn as_block(&self) -> Option<&[Stmt]>
        ensures { option_map (λ b. view_statements b.now) result ≡ parts_of_block (view_stmt self.now) }
    {
        match self {
            Stmt::Block(_, statements) => Some(statements.as_slice()),
            _ => None,
        }
    }

    /// The tokens of the statement.
    pub fn span(&self) -> Span
        ensures { result ≡ span_of_statement (view_stmt self.now) }
    {
        match self {
            Stmt::Empty(span) => *span,
            Stmt::Block(span, _) => *span,
            Stmt::Declare(span, _) => *span,
            Stmt::Simple(span, _) => *span,
            Stmt::Jump(span, _) => *span,
            Stmt::Return(span, _) => *span,
            Stmt::If(span, _, _) => *span,
            Stmt::IfElse { span, .. } => *span,
            Stmt::While(span, _, _) => *span,
            Stmt::For(span, _, _) => *span,
        }
    }
}
