// The mode of the cell that an expression names.

ghost use Rattle.std.specs.{Prelude.◌≡◌, Option.option_copied};
ghost use Rattle.sharc_tree.specs.View.{view_expr};
ghost use Rattle.sharc_names.specs.View.{view_kind};
ghost use Rattle.sharc_ctype.specs.{Entities.entity_at, Resolved.named_kind};
ghost use Rattle.sharc_mode.specs.Cells.{is_mutex_kind, is_behind_pointer, written_cell, top_of, field_cell};
ghost use Rattle.sharc_mode.specs.{Cells.{field_named, first_mode, named_cell, pointed, cell_at}, View.view_lock};
ghost use Rattle.sharc_mode.specs.View.{view_sharing, view_rows};

use crate::moded::Moded;
use crate::read::read;
use crate::row::{Targets, row_of};
use crate::sharing::{Lock, Sharing, is_private, is_sibling_lock, lock_of};
use sharc_ctype::typed::Typed;
use sharc_names::fault::Named;
use sharc_names::kind::{ExpressionKind, Root, declared_kind, is_array, is_pointer};
use sharc_names::meaning::{Meaning, kind_of};
use sharc_tree::ctype::Mode;
use sharc_tree::tree::{Declaration, Expr, FieldOperator, UnaryOperator};

/// Whether it is an object of C type mutex.
pub fn is_mutex_kind(kind: ExpressionKind<'_>) -> bool
    ensures { result ≡ is_mutex_kind (view_kind kind.entry) }
{
    match kind {
        ExpressionKind::Object(Root::Mutex, stars) => stars == 0,
        _ => false,
    }
}

/// The kind of what a variable, a field or a global is declared as; of anything else that of a function's name.
pub fn named_kind(typed: &Typed, named: Named) -> ExpressionKind<'_>
    ensures { view_kind result ≡ named_kind typed.now named }
{
    match named {
        Named::Global(number) => match typed.global_at(number) {
            None => ExpressionKind::Function,
            Some(global) => kind_of(Meaning::Global(number, global)),
        },
        Named::Variable(token) | Named::Field(token) => match typed.declaration_at(token) {
            None => ExpressionKind::Function,
            Some(declaration) => declared_kind(&declaration.written),
        },
        Named::Struct(_) | Named::Function(_) | Named::Known => ExpressionKind::Function,
    }
}

/// Whether a path names a sibling that points to a mutex.
fn is_behind_pointer(typed: &Typed, lock: Lock<'_>) -> bool
    ensures { result ≡ is_behind_pointer typed.now (view_lock lock.entry) }
{
    is_sibling_lock(typed, lock) && is_pointer(named_kind(typed, typed.named(lock.first)))
}

/// The mode of a field's cell by its written mode, in an instance of that mode.
fn written_cell<'a>(typed: &Typed, instance: Sharing<'a>, written: Option<&'a Mode>) -> Sharing<'a>
    ensures { view_sharing result ≡ written_cell typed.now (view_sharing instance.entry) (option_copied written.entry) }
{
    match written {
        None => instance,
        Some(Mode::Readonly) => {
            if is_private(instance) {
                Sharing::Private
            } else {
                Sharing::Readonly
            }
        }
        Some(Mode::Locked(path)) => {
            let lock = lock_of(path);
            if is_behind_pointer(typed, lock) && is_private(instance) {
                Sharing::Private
            } else {
                Sharing::Locked(lock)
            }
        }
        Some(Mode::Private) => Sharing::Private,
        Some(Mode::Racy) => Sharing::Racy,
        Some(Mode::Dynamic) => Sharing::Dynamic,
    }
}

/// The mode that is written at the top of a type.
pub fn top_of(levels: &[Option<Mode>]) -> Option<&Mode>
    ensures { option_copied result ≡ top_of levels.now }
{
    match levels {
        [Some(mode), ..] => Some(mode),
        _ => None,
    }
}

/// The mode of a field's cell in an instance of that mode.
pub fn field_cell<'a>(typed: &Typed, instance: Sharing<'a>, field: &'a Declaration) -> Sharing<'a>
    ensures { view_sharing result ≡ field_cell typed.now (view_sharing instance.entry) field.now.written }
{
    if is_mutex_kind(declared_kind(&field.written)) {
        Sharing::Racy
    } else {
        written_cell(
            typed,
            instance,
            top_of(field.written.ctype.levels.as_slice()),
        )
    }
}

/// The mode of the cell of the field that a name names.
fn field_named<'a>(typed: &'a Typed, instance: Sharing<'a>, named: Named) -> Sharing<'a>
    ensures { view_sharing result ≡ field_named typed.now (view_sharing instance.entry) named }
{
    match named {
        Named::Field(token) => match typed.declaration_at(token) {
            None => Sharing::Private,
            Some(field) => field_cell(typed, instance, field),
        },
        _ => Sharing::Private,
    }
}

/// The mode of a global's cells.
fn global_cell(program: &Moded, token: u32) -> Sharing<'_>
    ensures { view_sharing result ≡ first_mode program.now (entity_at program.now.typed token token) }
{
    let t = program.typed();
    match t.entity_at(token, token) {
        None => Sharing::Private,
        Some(numbered) => program.sharing(numbered.first),
    }
}

/// The mode of the cell that a name names.
fn named_cell(program: &Moded, named: Named) -> Sharing<'_>
    ensures { view_sharing result ≡ named_cell program.now named }
{
    let t = program.typed();
    match named {
        Named::Global(number) => match t.global_at(number) {
            None => Sharing::Private,
            Some(global) => global_cell(program, global.declaration.name.site.token),
        },
        _ => Sharing::Private,
    }
}

/// The mode of the first target.
pub fn pointed<'a>(program: &'a Moded, row: Option<Targets<'a>>) -> Sharing<'a>
    ensures { view_sharing result ≡ pointed program.now (view_rows row.entry) }
{
    match row {
        None => Sharing::Private,
        Some(row) => {
            if row.count == 0 {
                Sharing::Private
            } else {
                read(program.typed(), row.reading, program.sharing(row.first))
            }
        }
    }
}

/// The mode of the cell that an expression of the program names; private where it names none. It looks at no argument
/// of a call and no index.
pub fn cell_of<'a>(program: &'a Moded, expr: &'a Expr) -> Sharing<'a>
    ensures { view_sharing result ≡ cell_at program.now (view_expr expr.now) }
{
    let t = program.typed();
    match expr {
        Expr::Identifier(_, name) => named_cell(program, t.named(name.site.token)),
        Expr::Parentheses(_, inner) => cell_of(program, inner),
        Expr::Index(_, base, _) => {
            if is_array(t.kind_at(base)) {
                cell_of(program, base)
            } else {
                pointed(program, row_of(t, base))
            }
        }
        Expr::Field {
            base,
            access: FieldOperator::Dot,
            name,
            ..
        } => field_named(t, cell_of(program, base), t.named(name.site.token)),
        Expr::Field {
            base,
            access: FieldOperator::Arrow,
            name,
            ..
        } => field_named(
            t,
            pointed(program, row_of(t, base)),
            t.named(name.site.token),
        ),
        Expr::Unary(_, UnaryOperator::Dereference, operand) => pointed(program, row_of(t, operand)),
        Expr::Unary(_, _, _) => Sharing::Private,
        Expr::Constant(_, _) => Sharing::Private,
        Expr::Call(_, _, _) => Sharing::Private,
        Expr::Spawn(_, _, _) => Sharing::Private,
        Expr::OnValue(_, _, _) => Sharing::Private,
        Expr::OnPlace(_, _, _) => Sharing::Private,
        Expr::Cast(_, _, _) => Sharing::Private,
        Expr::Binary { .. } => Sharing::Private,
    }
}
