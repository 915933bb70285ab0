// The types of the expressions of a typed program, from what its names name alone.

ghost use Rattle.std.specs.{Prelude.◌≡◌, Option.option_copied};
ghost use Rattle.sharc_tree.specs.View.{view_expr};
ghost use Rattle.sharc_names.specs.View.{view_kind};
ghost use Rattle.sharc_ctype.specs.Resolved.{variable_kind, named_kind, called_kind, kind_at};

use crate::expr::{binary_result, class_of, constant_kind, unary_result};
use crate::typed::Typed;
use sharc_names::fault::Named;
use sharc_names::kind::{ExpressionKind, declared_kind, element_kind};
use sharc_names::meaning::{Meaning, kind_of};
use sharc_tree::tree::{Declaration, Expr};

fn variable_kind(declaration: Option<&Declaration>) -> ExpressionKind<'_>
    ensures { view_kind result ≡ variable_kind (option_copied declaration.entry) }
{
    match declaration {
        None => ExpressionKind::Function,
        Some(declaration) => declared_kind(&declaration.written),
    }
}

/// The kind of a name that names this.
fn named_kind(typed: &Typed, named: Named) -> ExpressionKind<'_>
    ensures { view_kind result ≡ named_kind typed.now named }
{
    match named {
        Named::Global(number) => match typed.global_at(number) {
            None => ExpressionKind::Function,
            Some(global) => kind_of(Meaning::Global(number, global)),
        },
        Named::Variable(token) => variable_kind(typed.declaration_at(token)),
        Named::Field(token) => variable_kind(typed.declaration_at(token)),
        Named::Struct(_) => ExpressionKind::Function,
        Named::Function(_) => ExpressionKind::Function,
        Named::Known => ExpressionKind::Function,
    }
}

/// The kind of a call of a name that names this.
fn called_kind(typed: &Typed, named: Named) -> ExpressionKind<'_>
    ensures { view_kind result ≡ called_kind typed.now named }
{
    match named {
        Named::Function(number) => match typed.function_at(number) {
            None => ExpressionKind::void(),
            Some(function) => declared_kind(&function.result),
        },
        Named::Struct(_) => ExpressionKind::void(),
        Named::Global(_) => ExpressionKind::void(),
        Named::Variable(_) => ExpressionKind::void(),
        Named::Field(_) => ExpressionKind::void(),
        Named::Known => ExpressionKind::void(),
    }
}

impl Typed {
    /// The type of an expression of the program. It looks at no argument of a call and no index.
    pub fn kind_at<'a>(&'a self, expr: &'a Expr) -> ExpressionKind<'a>
        ensures { view_kind result ≡ kind_at self.now (view_expr expr.now) }
    {
        match expr {
            Expr::Identifier(_, name) => named_kind(self, self.named(name.site.token)),
            Expr::Constant(_, constant) => constant_kind(*constant),
            Expr::Parentheses(_, inner) => self.kind_at(inner),
            Expr::Call(_, name, _) => called_kind(self, self.named(name.site.token)),
            Expr::Spawn(_, _, _) => ExpressionKind::int(),
            Expr::OnValue(_, _, _) => ExpressionKind::void(),
            Expr::OnPlace(_, _, _) => ExpressionKind::void(),
            Expr::Cast(_, written, _) => declared_kind(written),
            Expr::Index(_, base, _) => element_kind(self.kind_at(base)),
            Expr::Field { name, .. } => named_kind(self, self.named(name.site.token)),
            Expr::Unary(_, operator, operand) => unary_result(*operator, self.kind_at(operand)),
            Expr::Binary {
                operator,
                left,
                right,
                ..
            } => binary_result(class_of(*operator), self.kind_at(left), self.kind_at(right)),
        }
    }
}
