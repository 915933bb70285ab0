// The tree of a program: one variant for each production of the grammar, with its first and last token.

mod declaration;
mod expression;
mod item;
mod statement;

pub use declaration::{Declaration, Declarations, Identifier, WrittenType};
pub use expression::{
    BinaryOperator, Constant, Expr, FieldOperator, PlaceCall, UnaryOperator, ValueCall,
};
pub use item::{
    FunctionDefinition, GlobalDefinition, GlobalForm, Item, Items, Program, StructDefinition,
};
pub use statement::{ForFirst, ForHead, Jump, Local, Right, Simple, Stmt};
