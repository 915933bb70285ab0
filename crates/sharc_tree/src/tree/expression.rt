// Expressions.

use crate::token::{Number, Site, Span};
use crate::tree::declaration::{Identifier, WrittenType};

/// An operator between two operands (C11 6.5.5 to 6.5.14).
#[derive(Clone, Copy)]
pub enum BinaryOperator {
    /// `||`
    LogicalOr,
    /// `&&`
    LogicalAnd,
    /// `|`
    BitOr,
    /// `^`
    BitXor,
    /// `&`
    BitAnd,
    /// `==`
    Equal,
    /// `!=`
    NotEqual,
    /// `<`
    Less,
    /// `>`
    Greater,
    /// `<=`
    LessOrEqual,
    /// `>=`
    GreaterOrEqual,
    /// `<<`
    ShiftLeft,
    /// `>>`
    ShiftRight,
    /// `+`
    Add,
    /// `-`
    Subtract,
    /// `*`
    Multiply,
    /// `/`
    Divide,
    /// `%`
    Remainder,
}

/// An operator before its operand (C11 6.5.3).
#[derive(Clone, Copy)]
pub enum UnaryOperator {
    /// `-`
    Negate,
    /// `!`
    Not,
    /// `~`
    Complement,
    /// `*`
    Dereference,
}

/// How a field is named.
#[derive(Clone, Copy)]
pub enum FieldOperator {
    /// `.`
    Dot,
    /// `->`
    Arrow,
}

/// A call by keyword whose argument is a value.
#[derive(Clone, Copy)]
pub enum ValueCall {
    /// `join ( expr )`
    Join,
    /// `print ( expr )`
    Print,
}

/// A call by keyword whose argument is an lvalue.
#[derive(Clone, Copy)]
pub enum PlaceCall {
    /// `lock ( & unary )`
    Lock,
    /// `unlock ( & unary )`
    Unlock,
    /// `free ( unary )`
    Free,
}

/// A constant.
#[derive(Clone, Copy)]
pub enum Constant {
    /// A number.
    Number(Number),
    /// A character constant: the byte that it stands for.
    Character(u8),
    /// `NULL`
    Null,
}

/// An expression.
#[derive(Drop)]
pub enum Expr {
    /// `id`
    Identifier(Span, Identifier),
    /// `number`, `char` or `NULL`
    Constant(Span, Constant),
    /// `( expr )`
    Parentheses(Span, Box<Expr>),
    /// `id ( [ expr { , expr } ] )`
    Call(Span, Identifier, Vec<Expr>),
    /// `spawn ( id , expr )`
    Spawn(Span, Identifier, Box<Expr>),
    /// `join ( expr )` or `print ( expr )`
    OnValue(Span, ValueCall, Box<Expr>),
    /// `lock ( & unary )`, `unlock ( & unary )` or `free ( unary )`
    OnPlace(Span, PlaceCall, Box<Expr>),
    /// `SCAST ( type , unary )`
    Cast(Span, Box<WrittenType>, Box<Expr>),
    /// `postfix [ expr ]`
    Index(Span, Box<Expr>, Box<Expr>),
    /// `postfix . id` or `postfix -> id`
    Field {
        span: Span,
        base: Box<Expr>,
        access: FieldOperator,
        name: Identifier,
    },
    /// An operator and its operand.
    Unary(Span, UnaryOperator, Box<Expr>),
    /// An operator, where it is written, and its operands.
    Binary {
        span: Span,
        operator: BinaryOperator,
        site: Site,
        left: Box<Expr>,
        right: Box<Expr>,
    },
}

impl Expr {
    ghost use Rattle.std.specs.Prelude.{◌≡◌, option_map};
    ghost use Rattle.sharc_tree.specs.{Forms.{without_parentheses, is_lvalue, parts_of_call}, Spans.span_of, Tree.call};
    ghost use Rattle.sharc_tree.specs.View.{view_expr, view_arguments};

    /// A call of a function by its name.
    pub fn call(span: Span, name: Identifier, arguments: Vec<Expr>) -> Expr
        ensures { view_expr result ≡ call span name (view_arguments arguments.items) }
    {
        Expr::Call(span, name, arguments)
    }

    /// The name and the arguments of a call of a function by its name; none of any other expression.
    pub fn as_call(&self) -> Option<(&Identifier, &[Expr])>
        ensures { option_map (λ c. (c.0.now, view_arguments c.1.now)) result ≡ parts_of_call (view_expr self.now) }
    {
        match self {
            Expr::Call(_, name, arguments) => Some((name, arguments.as_slice())),
            _ => None,
        }
    }

    /// The expression without the parentheses around it, however many there are.
    pub fn without_parentheses(&self) -> &Expr
        ensures { view_expr result.now ≡ without_parentheses (view_expr self.now) }
    {
        match self {
            Expr::Parentheses(_, inner) => inner.without_parentheses(),
            _ => self,
        }
    }

    /// Whether the expression has the form of an lvalue: a name, `e[i]`, `e.f`, `e->f`, `*e`, or one of these in
    /// parentheses (C11 6.3.2.1).
    pub fn is_lvalue(&self) -> bool
        ensures { result ≡ is_lvalue (view_expr self.now) }
    {
        match self {
            Expr::Parentheses(_, inner) => inner.is_lvalue(),
            Expr::Identifier(_, _) => true,
            Expr::Index(_, _, _) => true,
            Expr::Field { .. } => true,
            Expr::Unary(_, UnaryOperator::Dereference, _) => true,
            _ => false,
        }
    }

    /// The tokens of the expression.
    pub fn span(&self) -> Span
        ensures { result ≡ span_of (view_expr self.now) }
    {
        match self {
            Expr::Identifier(span, _) => *span,
            Expr::Constant(span, _) => *span,
            Expr::Parentheses(span, _) => *span,
            Expr::Call(span, _, _) => *span,
            Expr::Spawn(span, _, _) => *span,
            Expr::OnValue(span, _, _) => *span,
            Expr::OnPlace(span, _, _) => *span,
            Expr::Cast(span, _, _) => *span,
            Expr::Index(span, _, _) => *span,
            Expr::Field { span, .. } => *span,
            Expr::Unary(span, _, _) => *span,
            Expr::Binary { span, .. } => *span,
        }
    }
}
