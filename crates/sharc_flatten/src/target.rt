// What an lvalue names, and how it is written.

ghost use Rattle.std.specs.Prelude.{◌≡◌, ◌+◌};
ghost use Rattle.sharc_tree.specs.View.{view_expr};
ghost use Rattle.sharc_names.specs.View.{view_kind};
ghost use Rattle.sharc_flat.specs.Places.{own_field, named_target, target, global_of, has_base, field_of};
ghost use Rattle.sharc_flat.specs.Places.{is_simple_element, is_simple_place, names_variable, names_global};
ghost use Rattle.sharc_flat.specs.Places.{is_number_token, bare_token, lvalue_of};
ghost use Rattle.sharc_flatten.specs.View.{view_target};

use crate::lookups::field_named;
use crate::source::PlacedProgram;
use sharc_flat::slot::Lvalue;
use sharc_names::fault::Named;
use sharc_names::kind::is_array;
use sharc_tree::tree::{Constant, Expr, FieldOperator, UnaryOperator};

/// What an lvalue names: a variable; a field of a global or of an element of one; a field of the first element of an
/// object or of another one.
#[derive(Clone, Copy)]
pub enum Target {
    Variable(u32),
    InGlobal(u32, u32),
    InGlobalAt(u32, u32),
    InObject(u32),
    InObjectAt(u32),
}

/// The field of an element that the access around it names, else its own.
pub fn own_field(field: Option<u32>, otherwise: u32) -> u32
    ensures { result ≡ own_field field otherwise }
{
    match field {
        None => otherwise,
        Some(field) => field,
    }
}

fn named_target(named: Named, field: u32) -> Target
    ensures { view_target result ≡ named_target named field }
{
    match named {
        Named::Variable(token) => Target::Variable(token),
        Named::Global(number) => Target::InGlobal(number, field),
        Named::Struct(_) => Target::Variable(0),
        Named::Function(_) => Target::Variable(0),
        Named::Field(_) => Target::Variable(0),
        Named::Known => Target::Variable(0),
    }
}

/// The global of which it names something.
pub fn global_of(target: Target) -> u32
    ensures { result ≡ global_of (view_target target) }
{
    match target {
        Target::InGlobal(number, _) => number,
        Target::InGlobalAt(number, _) => number,
        Target::Variable(_) => 0,
        Target::InObject(_) => 0,
        Target::InObjectAt(_) => 0,
    }
}

/// What an lvalue names, for this field of it if there is one.
pub fn target_of(source: &PlacedProgram<'_>, field: Option<u32>, expr: &Expr) -> Target
    ensures { view_target result ≡ target source.now.m.now.typed field (view_expr expr.now) }
{
    let t = source.m.typed();
    match expr {
        Expr::Identifier(_, name) => named_target(t.named(name.site.token), own_field(field, 0)),
        Expr::Parentheses(_, inner) => target_of(source, field, inner),
        Expr::Index(_, base, _) => {
            if is_array(t.kind_at(base)) {
                let number = global_of(target_of(source, None, base));
                Target::InGlobalAt(number, own_field(field, 0))
            } else {
                Target::InObjectAt(own_field(field, 0))
            }
        }
        Expr::Field {
            base,
            access: FieldOperator::Dot,
            name,
            ..
        } => {
            let inner = own_field(field, field_named(source, t.named(name.site.token)));
            target_of(source, Some(inner), base)
        }
        Expr::Field {
            access: FieldOperator::Arrow,
            name,
            ..
        } => Target::InObject(own_field(field, field_named(source, t.named(name.site.token)))),
        Expr::Unary(_, UnaryOperator::Dereference, _) => Target::InObject(own_field(field, 0)),
        Expr::Unary(_, _, _) => Target::Variable(0),
        Expr::Constant(_, _) => Target::Variable(0),
        Expr::Call(_, _, _) => Target::Variable(0),
        Expr::Spawn(_, _, _) => Target::Variable(0),
        Expr::OnValue(_, _, _) => Target::Variable(0),
        Expr::OnPlace(_, _, _) => Target::Variable(0),
        Expr::Cast(_, _, _) => Target::Variable(0),
        Expr::Binary { .. } => Target::Variable(0),
    }
}

impl Target {
    /// Whether it is a cell of an object, whose reference is in a register.
    pub fn has_base(self) -> bool
        ensures { result ≡ has_base (view_target self) }
    {
        match self {
            Target::InObject(_) => true,
            Target::InObjectAt(_) => true,
            Target::Variable(_) => false,
            Target::InGlobal(_, _) => false,
            Target::InGlobalAt(_, _) => false,
        }
    }

    /// Its field among those of the element.
    pub fn field(self) -> u32
        ensures { result ≡ field_of (view_target self) }
    {
        match self {
            Target::Variable(_) => 0,
            Target::InGlobal(_, field) => field,
            Target::InGlobalAt(_, field) => field,
            Target::InObject(field) => field,
            Target::InObjectAt(field) => field,
        }
    }
}

fn names_variable(source: &PlacedProgram<'_>, expr: &Expr) -> bool
    ensures { result ≡ names_variable source.now.m.now.typed (view_expr expr.now) }
{
    match expr {
        Expr::Identifier(_, name) => {
            matches!(source.m.typed().named(name.site.token), Named::Variable(_))
        }
        _ => false,
    }
}

fn names_global(source: &PlacedProgram<'_>, expr: &Expr) -> bool
    ensures { result ≡ names_global source.now.m.now.typed (view_expr expr.now) }
{
    match expr {
        Expr::Identifier(_, name) => {
            matches!(source.m.typed().named(name.site.token), Named::Global(_))
        }
        _ => false,
    }
}

fn is_number_token(expr: &Expr) -> bool
    ensures { result ≡ is_number_token (view_expr expr.now) }
{
    match expr {
        Expr::Constant(_, Constant::Number(_)) => true,
        _ => false,
    }
}

fn is_simple_element(source: &PlacedProgram<'_>, expr: &Expr) -> bool
    ensures { result ≡ is_simple_element source.now.m.now.typed (view_expr expr.now) }
{
    match expr {
        Expr::Index(_, base, index) => {
            let is_array = is_array(source.m.typed().kind_at(base));
            (names_variable(source, base) || (names_global(source, base) && is_array))
                && is_number_token(index)
        }
        _ => false,
    }
}

fn is_simple_place(source: &PlacedProgram<'_>, expr: &Expr) -> bool
    ensures { result ≡ is_simple_place source.now.m.now.typed (view_expr expr.now) }
{
    match expr {
        Expr::Identifier(_, _) => names_global(source, expr),
        Expr::Index(_, _, _) => is_simple_element(source, expr),
        Expr::Field {
            base,
            access: FieldOperator::Dot,
            ..
        } => names_global(source, base) || is_simple_element(source, base),
        Expr::Field {
            base,
            access: FieldOperator::Arrow,
            ..
        } => names_variable(source, base),
        Expr::Unary(_, UnaryOperator::Dereference, operand) => names_variable(source, operand),
        _ => false,
    }
}

fn bare_token(expr: &Expr) -> u32
    ensures { result ≡ bare_token (view_expr expr.now) }
{
    match expr {
        Expr::Parentheses(_, inner) => bare_token(inner),
        _ => expr.span().first.token,
    }
}

/// How an lvalue is written.
pub fn lvalue_of(source: &PlacedProgram<'_>, expr: &Expr) -> Lvalue
    ensures { result ≡ lvalue_of source.now.m.now.typed (view_expr expr.now) }
{
    Lvalue {
        words: expr.span(),
        bare: bare_token(expr),
        is_simple: is_simple_place(source, expr),
    }
}
