// What an expression points to: positions of some declared type, and how their lock paths are read where it is used.

ghost use Rattle.std.specs.{Prelude.{◌≡◌, ◌+◌, ◌<◌, ◌≤◌, ◌^◌, IfSome}, Option.{option_copied, option_map}};
ghost use Rattle.sharc_tree.specs.View.{view_expr, view_arguments, view_function};
ghost use Rattle.sharc_ctype.specs.{Constants.is_constant, Entities.{entity_at, positions_of}};
ghost use Rattle.sharc_mode.specs.{Moded.position_count, Rows.{is_constant_named, constant_use, base_use}};
ghost use Rattle.sharc_mode.specs.Rows.{argument_use, targets_from, deeper, entity_row, declared_row, cast_row};
ghost use Rattle.sharc_mode.specs.Rows.{global_row, named_row, result_row, called_row, behind, no_row, constant_row};
ghost use Rattle.sharc_mode.specs.{Rows.{reading_through, unary_row, row_at}, View.{view_reading, view_row, view_rows}};
ghost use Rattle.sharc_mode.specs.View.{EndsWithin};

use sharc_ctype::entity::Numbered;
use sharc_ctype::typed::Typed;
use sharc_names::fault::Named;
use sharc_names::kind::is_array;
use sharc_names::types::Role;
use sharc_tree::token::Span;
use sharc_tree::tree::{
    Constant, Declaration, Expr, FieldOperator, FunctionDefinition, GlobalDefinition, UnaryOperator,
};

/// How the lock paths of a declared type are read where it is used.
#[derive(Clone, Copy)]
pub enum PathReading<'a> {
    /// As they are written.
    Written,
    /// Through `x->f` with `x` a constant variable, which is at this token: a sibling's name `m` becomes `x->m`.
    Through(u32),
    /// At a call with these parameters and arguments: `x->m` becomes `y->m` where the argument for `x` is the constant
    /// variable `y`.
    Call(&'a [Declaration], &'a [Expr]),
    /// At a spawn with these parameters and this argument, likewise.
    Spawn(&'a [Declaration], &'a Expr),
}

/// This many positions from the first on: the targets of a type from the first target down.
#[derive(Clone, Copy)]
pub struct Targets<'a> {
    pub first: u32,
    pub count: u32,
    pub reading: PathReading<'a>,
}

/// Whether a name names a constant variable.
fn is_constant_named(typed: &Typed, named: Named) -> bool
    ensures { result ≡ is_constant_named typed.now named }
{
    match named {
        Named::Variable(token) => typed.is_constant(token),
        _ => false,
    }
}

/// The token of a constant variable, where the expression is one, without parentheses.
pub fn constant_use(typed: &Typed, expr: &Expr) -> Option<u32>
    ensures { result ≡ constant_use typed.now (view_expr expr.now) }
{
    match expr {
        Expr::Identifier(_, name) => {
            let token = name.site.token;
            if is_constant_named(typed, typed.named(token)) {
                Some(token)
            } else {
                None
            }
        }
        _ => None,
    }
}

/// The token of `x` of a use `x->f`, where `x` is a constant variable.
pub fn base_use(typed: &Typed, access: FieldOperator, base: &Expr) -> Option<u32>
    ensures { result ≡ base_use typed.now access (view_expr base.now) }
{
    match access {
        FieldOperator::Arrow => constant_use(typed, base),
        FieldOperator::Dot => None,
    }
}

/// The argument for the parameter that this token declares, where it is a constant variable.
pub fn argument_use(
    typed: &Typed,
    parameters: &[Declaration],
    arguments: &[Expr],
    wanted: u32,
) -> Option<u32>
    ensures { result ≡ argument_use typed.now parameters.now (view_arguments arguments.now) wanted }
{
    for i in 0..parameters.len() {
        if i >= arguments.len() {
            return None;
        }
        let argument = &arguments[i];
        if parameters[i].name.site.token == wanted {
            return constant_use(typed, argument);
        }
    }
    None
}

impl<'a> Targets<'a> {
    /// Of what has no target.
    pub fn none() -> Self
        ensures { view_row result ≡ no_row }
    {
        Targets {
            first: 0,
            count: 0,
            reading: PathReading::Written,
        }
    }

    /// The row of what it points to in turn.
    pub fn deeper(self) -> Self
        requires { self.first + self.count < 2 ^ 32 }
        ensures { view_row result ≡ deeper (view_row self.entry) }
    {
        if self.count == 0 {
            self
        } else {
            Targets {
                first: self.first + 1,
                count: self.count - 1,
                reading: self.reading,
            }
        }
    }
}

/// The row from the first target on: the first position of a global is its top.
fn targets_from<'a>(role: Role, row: Targets<'a>) -> Targets<'a>
    requires { row.first + row.count < 2 ^ 32 }
    ensures row { view_row result ≡ targets_from role (view_row row.entry) }
    ensures ends { result.first + result.count ≤ row.entry.first + row.entry.count }
{
    match role {
        Role::Global => row.deeper(),
        _ => row,
    }
}

/// The positions of an entity.
fn row_of_entity<'a>(typed: &Typed, reading: PathReading<'a>, numbered: &Numbered) -> Targets<'a>
    requires { numbered.now.first + positions_of numbered.now.entity ≤ position_count typed.now }
    ensures row { view_row result ≡ entity_row (view_reading reading.entry) (Some numbered.now) }
    ensures within { result.first + result.count ≤ position_count typed.now }
{
    let _all = typed.position_count();
    let row = Targets {
        first: numbered.first,
        count: numbered.entity.positions() as u32,
        reading,
    };
    targets_from(numbered.entity.role, row)
}

/// The targets of the type of what this token declares, of a cast by its first and its last token.
pub fn row_between<'a>(
    typed: &Typed,
    reading: PathReading<'a>,
    token: u32,
    last: u32,
) -> Targets<'a>
    ensures row { view_row result ≡ entity_row (view_reading reading.entry) (entity_at typed.now token last) }
    ensures within { result.first + result.count ≤ position_count typed.now }
{
    match typed.entity_at(token, last) {
        None => Targets::none(),
        Some(numbered) => row_of_entity(typed, reading, numbered),
    }
}

/// The targets of the type of what this token declares.
pub fn declared_row<'a>(typed: &Typed, reading: PathReading<'a>, token: u32) -> Targets<'a>
    ensures row { view_row result ≡ declared_row typed.now (view_reading reading.entry) token }
    ensures within { result.first + result.count ≤ position_count typed.now }
{
    row_between(typed, reading, token, token)
}

/// The targets of the type of a cast at these tokens.
pub fn cast_row<'a>(typed: &Typed, span: Span) -> Targets<'a>
    ensures row { view_row result ≡ cast_row typed.now span }
    ensures within { result.first + result.count ≤ position_count typed.now }
{
    row_between(
        typed,
        PathReading::Written,
        span.first.token,
        span.last.token,
    )
}

/// The targets of the type of what a name names.
pub fn named_row<'a>(typed: &Typed, reading: PathReading<'a>, named: Named) -> Targets<'a>
    ensures row { view_row result ≡ named_row typed.now (view_reading reading.entry) named }
    ensures within { result.first + result.count ≤ position_count typed.now }
{
    match named {
        Named::Global(number) => match typed.global_at(number) {
            None => Targets::none(),
            Some(global) => declared_row(typed, reading, global.declaration.name.site.token),
        },
        Named::Variable(token) => declared_row(typed, reading, token),
        Named::Field(token) => declared_row(typed, reading, token),
        Named::Struct(_) => Targets::none(),
        Named::Function(_) => Targets::none(),
        Named::Known => Targets::none(),
    }
}

/// The targets of what a call of a name gives.
fn called_row<'a>(typed: &Typed, named: Named) -> Targets<'a>
    ensures row { view_row result ≡ called_row typed.now named }
    ensures within { result.first + result.count ≤ position_count typed.now }
{
    match named {
        Named::Function(number) => match typed.function_at(number) {
            None => Targets::none(),
            Some(function) => declared_row(typed, PathReading::Written, function.name.site.token),
        },
        Named::Struct(_) => Targets::none(),
        Named::Global(_) => Targets::none(),
        Named::Variable(_) => Targets::none(),
        Named::Field(_) => Targets::none(),
        Named::Known => Targets::none(),
    }
}

/// What it points to in turn.
pub fn behind<'a>(typed: &Typed, row: Option<Targets<'a>>) -> Option<Targets<'a>>
    requires { EndsWithin typed.now row }
    ensures row { view_rows result ≡ behind (view_rows row.entry) }
    ensures within { EndsWithin typed.now result }
{
    let _all = typed.position_count();
    match row {
        None => None,
        Some(row) => Some(row.deeper()),
    }
}

fn constant_row<'a>(constant: Constant) -> Option<Targets<'a>>
    ensures row { view_rows result ≡ constant_row constant }
    ensures none { IfSome result (λ row. row.first + row.count ≤ 0) }
{
    match constant {
        Constant::Number(_) => Some(Targets::none()),
        Constant::Character(_) => Some(Targets::none()),
        Constant::Null => None,
    }
}

fn reading_through<'a>(base: Option<u32>) -> PathReading<'a>
    ensures { view_reading result ≡ reading_through base }
{
    match base {
        None => PathReading::Written,
        Some(at) => PathReading::Through(at),
    }
}

/// What an expression of the program points to, from its first target on; none for NULL, which agrees with every
/// pointer type. It looks at no argument of a call and no index.
pub fn row_of<'a>(typed: &Typed, expr: &Expr) -> Option<Targets<'a>>
    ensures row { view_rows result ≡ row_at typed.now (view_expr expr.now) }
    ensures within { EndsWithin typed.now result }
{
    match expr {
        Expr::Identifier(_, name) => Some(named_row(
            typed,
            PathReading::Written,
            typed.named(name.site.token),
        )),
        Expr::Constant(_, constant) => constant_row(*constant),
        Expr::Parentheses(_, inner) => row_of(typed, inner),
        Expr::Call(_, name, _) => Some(called_row(typed, typed.named(name.site.token))),
        Expr::Spawn(_, _, _) => Some(Targets::none()),
        Expr::OnValue(_, _, _) => Some(Targets::none()),
        Expr::OnPlace(_, _, _) => Some(Targets::none()),
        Expr::Cast(span, _, _) => Some(cast_row(typed, *span)),
        Expr::Index(_, base, _) => {
            let row = row_of(typed, base);
            if is_array(typed.kind_at(base)) {
                row
            } else {
                behind(typed, row)
            }
        }
        Expr::Field {
            base,
            access,
            name,
            ..
        } => {
            let reading = reading_through(base_use(typed, *access, base));
            Some(named_row(typed, reading, typed.named(name.site.token)))
        }
        Expr::Unary(_, UnaryOperator::Dereference, operand) => behind(
            typed,
            row_of(typed, operand),
        ),
        Expr::Unary(_, _, _) => Some(Targets::none()),
        Expr::Binary { .. } => Some(Targets::none()),
    }
}

/// Whether the variable that the token with this number declares is constant: a parameter or an initialised local that
/// is never assigned.
pub fn constant_var(typed: &Typed, variable: u32) -> bool
    ensures { result ≡ is_constant typed.now variable }
{
    typed.is_constant(variable)
}
