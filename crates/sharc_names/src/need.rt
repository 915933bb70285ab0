// What the place of an expression needs of it.

ghost use Rattle.std.specs.Prelude.{◌≡◌, fold};
ghost use Rattle.sharc_tree.specs.View.{view_expr};
ghost use Rattle.sharc_names.specs.Needs.{place, called, fits, met, unmet, misfit, misfit_of, agreed, unagreed};
ghost use Rattle.sharc_names.specs.{Notes.noted, View.{view_kind, view_kinds, view_root}};

use crate::fault::{FaultCode, Found};
use crate::kind::{
    ExpressionKind, Root, agrees, is_array, is_integer, is_null, is_pointer, is_struct_behind,
};
use sharc_tree::tree::Expr;

/// What is needed.
#[derive(Clone, Copy)]
pub enum Need {
    /// An integer, a pointer or `NULL`.
    Value,
    /// An integer.
    Integer,
    /// A pointer.
    Pointer,
    /// A pointer or an array.
    Indexed,
    /// A struct.
    Struct,
    /// A pointer to a struct.
    StructPointer,
}

/// The number of an expression's first token.
pub fn place(expr: &Expr) -> u32
    ensures { result ≡ place (view_expr expr.now) }
{
    expr.span().first.token
}

/// The word that a call is named by, also within parentheses.
fn called(expr: &Expr) -> Option<u32>
    ensures { result ≡ called (view_expr expr.now) }
{
    match expr {
        Expr::Parentheses(_, inner) => called(inner),
        Expr::Call(_, name, _) => Some(name.site.token),
        Expr::Spawn(span, _, _) => Some(span.first.token),
        Expr::OnValue(span, _, _) => Some(span.first.token),
        Expr::OnPlace(span, _, _) => Some(span.first.token),
        Expr::Identifier(_, _) => None,
        Expr::Constant(_, _) => None,
        Expr::Cast(_, _, _) => None,
        Expr::Index(_, _, _) => None,
        Expr::Field { .. } => None,
        Expr::Unary(_, _, _) => None,
        Expr::Binary { .. } => None,
    }
}

fn fits(need: Need, kind: ExpressionKind<'_>) -> bool
    ensures { result ≡ fits need (view_kind kind.entry) }
{
    match need {
        Need::Value => is_integer(kind) || is_pointer(kind) || is_null(kind),
        Need::Integer => is_integer(kind),
        Need::Pointer => is_pointer(kind),
        Need::Indexed => is_pointer(kind) || is_array(kind),
        Need::Struct => is_struct_behind(0, kind),
        Need::StructPointer => is_struct_behind(1, kind),
    }
}

fn misfit_of(root: Root<'_>, expr: &Expr, found: &mut Found)
    ensures { found.new ≡ fold noted found.old (misfit_of (view_root root.entry) (view_expr expr.now)) }
{
    match root {
        Root::Void => {
            if let Some(word) = called(expr) {
                found.fault(word, FaultCode::BadForm);
            }
        }
        Root::Struct(_) => found.fault(place(expr), FaultCode::TypeNotAllowed),
        Root::Int | Root::Char | Root::Long | Root::Mutex => {
            found.fault(place(expr), FaultCode::TypeMismatch)
        }
    }
}

/// Takes note of an expression whose kind is not the one that is needed.
fn misfit(kind: ExpressionKind<'_>, expr: &Expr, found: &mut Found)
    ensures { found.new ≡ fold noted found.old (misfit (view_kind kind.entry) (view_expr expr.now)) }
{
    match kind {
        ExpressionKind::Object(root, 0) => misfit_of(root, expr, found),
        ExpressionKind::Function => found.fault(
            place(expr.without_parentheses()),
            FaultCode::TypeMismatch,
        ),
        _ => found.fault(place(expr), FaultCode::TypeMismatch),
    }
}

/// The kind of an expression if it is one that is needed; else takes note of the fault.
pub fn meet<'a>(
    need: Need,
    expr: &Expr,
    kind: Option<ExpressionKind<'a>>,
    found: &mut Found,
) -> Option<ExpressionKind<'a>>
    ensures kind { view_kinds result ≡ met need (view_kinds kind.entry) }
    ensures found { found.new ≡ fold noted found.old (unmet need (view_expr expr.now) (view_kinds kind.entry)) }
{
    match kind {
        None => None,
        Some(kind) => {
            if fits(need, kind) {
                Some(kind)
            } else {
                misfit(kind, expr, found);
                None
            }
        }
    }
}

/// Whether what is assigned, passed or returned agrees with what is wanted; takes note of the fault where not.
pub fn agree(
    want: Option<ExpressionKind<'_>>,
    expr: &Expr,
    kind: Option<ExpressionKind<'_>>,
    found: &mut Found,
) -> bool
    ensures agreed { result ≡ agreed (view_kinds want.entry) (view_kinds kind.entry) }
    ensures found { found.new
        ≡ fold noted found.old (unagreed (view_kinds want.entry) (view_expr expr.now) (view_kinds kind.entry)) }
{
    let agreed = match (want, kind) {
        (Some(want), Some(kind)) => agrees(want, kind),
        _ => true,
    };
    found.fault_unless(agreed, place(expr), FaultCode::TypeMismatch);
    agreed
}
