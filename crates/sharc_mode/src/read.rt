// Modes with their lock paths as they are read where a declared type is used.

ghost use Rattle.std.specs.Prelude.{◌≡◌};
ghost use Rattle.sharc_tree.specs.{Tree.{argument, no_arguments}, View.view_expr};
ghost use Rattle.sharc_mode.specs.Rows.{argument_use, lock_through, with_base, path_variable, read_lock, read};
ghost use Rattle.sharc_mode.specs.View.{view_lock, view_reading, view_sharing};

use crate::row::{PathReading, argument_use, constant_use};
use crate::sharing::{Lock, Sharing, is_sibling_lock, variable_of};
use crate::text::text_at;
use sharc_ctype::typed::Typed;
use sharc_tree::tree::{Declaration, Expr};

/// A path of a field's type through `x->f`, where `x` is at that token: a sibling's name `m` becomes `x->m`.
fn lock_through<'a>(typed: &'a Typed, at: u32, lock: Lock<'a>) -> Lock<'a>
    ensures { view_lock result ≡ lock_through typed.now at (view_lock lock.entry) }
{
    if is_sibling_lock(typed, lock) {
        Lock {
            first: at,
            second: Some(text_at(typed, lock.first)),
        }
    } else {
        lock
    }
}

/// A path with that first name, if there is one.
fn with_base<'a>(base: Option<u32>, lock: Lock<'a>) -> Lock<'a>
    ensures { view_lock result ≡ with_base base (view_lock lock.entry) }
{
    match base {
        None => lock,
        Some(first) => Lock {
            first,
            second: lock.second,
        },
    }
}

/// The variable `x` of a path `x->m`, by the token that declares it.
pub fn path_variable(typed: &Typed, lock: Lock<'_>) -> Option<u32>
    ensures { result ≡ path_variable typed.now (view_lock lock.entry) }
{
    match lock.second {
        None => None,
        Some(_) => variable_of(typed, lock),
    }
}

/// The argument of a spawn for the parameter that this token declares, where it is a constant variable.
pub fn spawn_argument_use(
    typed: &Typed,
    parameters: &[Declaration],
    value: &Expr,
    wanted: u32,
) -> Option<u32>
    ensures { result ≡ argument_use typed.now parameters.now (argument (view_expr value.now) no_arguments) wanted }
{
    match parameters {
        [] => None,
        [parameter, ..] => {
            if parameter.name.site.token == wanted {
                constant_use(typed, value)
            } else {
                None
            }
        }
    }
}

/// A path of a declared type as it is read there.
pub fn read_lock<'a>(typed: &'a Typed, reading: PathReading<'a>, lock: Lock<'a>) -> Lock<'a>
    ensures { view_lock result ≡ read_lock typed.now (view_reading reading.entry) (view_lock lock.entry) }
{
    match reading {
        PathReading::Written => lock,
        PathReading::Through(at) => lock_through(typed, at, lock),
        PathReading::Call(parameters, arguments) => match path_variable(typed, lock) {
            None => lock,
            Some(variable) => with_base(argument_use(typed, parameters, arguments, variable), lock),
        },
        PathReading::Spawn(parameters, value) => match path_variable(typed, lock) {
            None => lock,
            Some(variable) => with_base(
                spawn_argument_use(typed, parameters, value, variable),
                lock,
            ),
        },
    }
}

/// A mode of a declared type as it is read there.
pub fn read<'a>(typed: &'a Typed, reading: PathReading<'a>, sharing: Sharing<'a>) -> Sharing<'a>
    ensures { view_sharing result ≡ read typed.now (view_reading reading.entry) (view_sharing sharing.entry) }
{
    match sharing {
        Sharing::Locked(lock) => Sharing::Locked(read_lock(typed, reading, lock)),
        Sharing::Private => sharing,
        Sharing::Readonly => sharing,
        Sharing::Racy => sharing,
        Sharing::Dynamic => sharing,
    }
}
