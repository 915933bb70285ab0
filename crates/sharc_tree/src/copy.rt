// Copies of trees. A copy of a tree has the same view.

mod expression;
mod item;
mod statement;

pub use expression::copy_expr;
pub use item::{copy_function, copy_item};
pub use statement::{copy_head, copy_local, copy_right, copy_simple, copy_stmt};
