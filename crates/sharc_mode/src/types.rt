// Types in which modes are not placed as they may be: M3, M4 and M5.

ghost use Rattle.std.specs.{Prelude.{◌≡◌, Some, None, is_some, if◌then◌else◌}, Option.{option_copied, option_or}};
ghost use Rattle.sharc_tree.specs.declared.ctype.Mode.TheVariants.{Racy as RacyMode, Dynamic as DynamicMode};
ghost use Rattle.sharc_mode.specs.{Settled.{is_mutex, settled, field_target}, WellFormed.is_private_mode};
ghost use Rattle.sharc_mode.specs.WellFormed.{begins_private, holds_private, target_otherwise, with_top, below_top};
ghost use Rattle.sharc_mode.specs.WellFormed.{meant, names_global_mutex, names_sibling_mutex, is_mutex_pointer};
ghost use Rattle.sharc_mode.specs.WellFormed.{is_readonly_top, is_readonly_lock, names_sibling_pointer, fields_named};
ghost use Rattle.sharc_mode.specs.WellFormed.{fields_behind, is_mutex_field, is_through_constant, allows_path};
ghost use Rattle.sharc_mode.specs.WellFormed.{leaves_open, allows_pointer, path_fits, top_path_fits, unfit_path};
ghost use Rattle.sharc_mode.specs.WellFormed.{unfit_top_path, unfit_path_in, first_unfit_path, is_racy_mode};
ghost use Rattle.sharc_mode.specs.WellFormed.{base_allows, level_allows, top_allows, unfit_mode, unfit_top};
ghost use Rattle.sharc_mode.specs.{WellFormed.{unfit_mode_in, first_unfit_mode, type_code}, View.view_lock};
ghost use Rattle.sharc_mode.specs.View.{view_name};
ghost use Rattle.sharc_names.specs.{Names.field_of, View.view_kind};

use crate::cell::{is_mutex_kind, named_kind, top_of};
use crate::error::ErrorCode;
use crate::place::Place;
use crate::sharing::{Lock, lock_of};
use sharc_ctype::typed::Typed;
use sharc_names::fault::Named;
use sharc_names::kind::{ExpressionKind, Root, declared_kind};
use sharc_tree::ctype::{Base, CType, Mode, Path};
use sharc_tree::tree::Declaration;

/// Whether a level with these below it is one of C type mutex.
pub fn is_mutex(base: &Base, below: &[Option<Mode>]) -> bool
    ensures { result ≡ is_mutex base.now below.now }
{
    match base {
        Base::Mutex => match below {
            [] => true,
            [_, ..] => false,
        },
        _ => false,
    }
}

/// Whether it is private.
pub fn is_private_mode(mode: &Mode) -> bool
    ensures { result ≡ is_private_mode mode.now }
{
    match mode {
        Mode::Private => true,
        _ => false,
    }
}

fn is_racy_mode(mode: &Mode) -> bool
    ensures { result ≡ is_racy_mode mode.now }
{
    match mode {
        Mode::Racy => true,
        _ => false,
    }
}

/// Whether such a base may have the mode.
fn base_allows(base: &Base, mode: &Mode) -> bool
    ensures { result ≡ base_allows base.now mode.now }
{
    match base {
        Base::Int | Base::Char | Base::Long | Base::Void => true,
        Base::Mutex => is_racy_mode(mode),
        Base::Struct(_) => !is_racy_mode(mode),
    }
}

fn level_allows(base: &Base, below: &[Option<Mode>], mode: &Mode) -> bool
    ensures { result ≡ level_allows base.now below.now mode.now }
{
    match below {
        [] => base_allows(base, mode),
        [_, ..] => !is_racy_mode(mode),
    }
}

fn top_allows(place: Place, mode: &Mode) -> bool
    ensures { result ≡ top_allows place mode.now }
{
    match place {
        Place::Global | Place::Field => true,
        Place::Local | Place::Result => is_private_mode(mode),
    }
}

fn unfit_mode<'a>(base: &Base, below: &[Option<Mode>], level: &'a Option<Mode>) -> Option<&'a Mode>
    ensures { option_copied result ≡ unfit_mode base.now below.now level.now }
{
    match level {
        None => None,
        Some(mode) => {
            if level_allows(base, below, mode) {
                None
            } else {
                Some(mode)
            }
        }
    }
}

fn unfit_top<'a>(
    place: Place,
    base: &Base,
    below: &[Option<Mode>],
    level: &'a Option<Mode>,
) -> Option<&'a Mode>
    ensures { option_copied result ≡ unfit_top place base.now below.now level.now }
{
    match level {
        None => None,
        Some(mode) => {
            if level_allows(base, below, mode) && top_allows(place, mode) {
                None
            } else {
                Some(mode)
            }
        }
    }
}

fn unfit_mode_in<'a>(base: &Base, levels: &'a [Option<Mode>]) -> Option<&'a Mode>
    ensures { option_copied result ≡ unfit_mode_in base.now levels.now }
{
    match levels {
        [] => None,
        [level, below @ ..] => match unfit_mode_in(base, below) {
            Some(mode) => Some(mode),
            None => unfit_mode(base, below, level),
        },
    }
}

/// M5: the first mode of a type in the source that is not allowed there.
pub fn first_unfit_mode<'a>(
    place: Place,
    base: &Base,
    levels: &'a [Option<Mode>],
) -> Option<&'a Mode>
    ensures { option_copied result ≡ first_unfit_mode place base.now levels.now }
{
    match levels {
        [] => None,
        [top, below @ ..] => match unfit_mode_in(base, below) {
            Some(mode) => Some(mode),
            None => unfit_top(place, base, below, top),
        },
    }
}

fn names_global_mutex(typed: &Typed, named: Named) -> bool
    ensures { result ≡ names_global_mutex typed.now named }
{
    match named {
        Named::Global(_) => is_mutex_kind(named_kind(typed, named)),
        _ => false,
    }
}

fn names_sibling_mutex(typed: &Typed, named: Named) -> bool
    ensures { result ≡ names_sibling_mutex typed.now named }
{
    match named {
        Named::Field(_) => is_mutex_kind(named_kind(typed, named)),
        _ => false,
    }
}

fn is_mutex_pointer(kind: ExpressionKind<'_>) -> bool
    ensures { result ≡ is_mutex_pointer (view_kind kind.entry) }
{
    match kind {
        ExpressionKind::Object(Root::Mutex, stars) => stars == 1,
        _ => false,
    }
}

fn is_readonly_top(top: Option<&Mode>) -> bool
    ensures { result ≡ is_readonly_top (option_copied top.entry) }
{
    match top {
        Some(Mode::Readonly) => true,
        _ => false,
    }
}

/// Whether its type is `mutex racy * readonly`: the mutex is racy whatever is written there.
fn is_readonly_lock(declaration: Option<&Declaration>) -> bool
    ensures { result ≡ is_readonly_lock (option_copied declaration.entry) }
{
    match declaration {
        None => false,
        Some(declaration) => {
            is_mutex_pointer(declared_kind(&declaration.written))
                && is_readonly_top(top_of(declaration.written.ctype.levels.as_slice()))
        }
    }
}

fn names_sibling_pointer(typed: &Typed, named: Named) -> bool
    ensures { result ≡ names_sibling_pointer typed.now named }
{
    match named {
        Named::Field(token) => is_readonly_lock(typed.declaration_at(token)),
        _ => false,
    }
}

/// The fields of the struct that a name names.
fn fields_named(typed: &Typed, named: Named) -> &[Declaration]
    ensures { result.now ≡ fields_named typed.now named }
{
    match named {
        Named::Struct(number) => match typed.struct_at(number) {
            None => &[],
            Some(definition) => definition.fields.as_slice(),
        },
        _ => &[],
    }
}

/// The fields of the struct that a type has at its bottom.
pub fn fields_behind<'a>(typed: &'a Typed, declaration: Option<&Declaration>) -> &'a [Declaration]
    ensures { result.now ≡ fields_behind typed.now (option_copied declaration.entry) }
{
    match declaration {
        None => &[],
        Some(declaration) => fields_named(typed, typed.named(declaration.written.base.token)),
    }
}

/// The first field of that name.
fn field_of<'a>(fields: &'a [Declaration], name: &[u8]) -> Option<&'a Declaration>
    ensures { option_copied result ≡ field_of fields.now name.now }
{
    match fields {
        [] => None,
        [field, rest @ ..] => {
            if field.name.text.as_slice() == name {
                Some(field)
            } else {
                field_of(rest, name)
            }
        }
    }
}

fn is_mutex_field(declaration: Option<&Declaration>) -> bool
    ensures { result ≡ is_mutex_field (option_copied declaration.entry) }
{
    match declaration {
        None => false,
        Some(declaration) => is_mutex_kind(declared_kind(&declaration.written)),
    }
}

/// Whether a path is `x->m` with `x` a constant variable and `m` a mutex field.
fn is_through_constant(typed: &Typed, named: Named, mutex: &[u8]) -> bool
    ensures { result ≡ is_through_constant typed.now named mutex.now }
{
    match named {
        Named::Variable(token) => {
            typed.is_constant(token)
                && is_mutex_field(field_of(
                    fields_behind(typed, typed.declaration_at(token)),
                    mutex,
                ))
        }
        _ => false,
    }
}

/// Whether a path is allowed at that place, by what its first name names and its second name.
fn allows_path(typed: &Typed, place: Place, named: Named, second: Option<&[u8]>) -> bool
    ensures { result ≡ allows_path typed.now place named (view_name second.entry) }
{
    match (place, second) {
        (Place::Field, None) => names_global_mutex(typed, named)
            || names_sibling_mutex(typed, named),
        (Place::Local, None) => names_global_mutex(typed, named),
        (Place::Local, Some(mutex)) => is_through_constant(typed, named, mutex),
        (Place::Global, None) => names_global_mutex(typed, named),
        (Place::Result, None) => names_global_mutex(typed, named),
        (Place::Field, Some(_)) => false,
        (Place::Global, Some(_)) => false,
        (Place::Result, Some(_)) => false,
    }
}

/// Whether some target has no mode of its own.
fn leaves_open(base: &Base, levels: &[Option<Mode>]) -> bool
    ensures { result ≡ leaves_open base.now levels.now }
{
    match levels {
        [] => false,
        [None, below @ ..] => !is_mutex(base, below) || leaves_open(base, below),
        [Some(_), below @ ..] => leaves_open(base, below),
    }
}

fn allows_pointer(
    typed: &Typed,
    place: Place,
    base: &Base,
    below: &[Option<Mode>],
    named: Named,
    second: Option<&[u8]>,
) -> bool
    ensures { result ≡ allows_pointer typed.now place base.now below.now named (view_name second.entry) }
{
    match (place, second) {
        (Place::Field, None) => names_sibling_pointer(typed, named) && !leaves_open(base, below),
        _ => false,
    }
}

fn path_fits(typed: &Typed, place: Place, lock: Lock<'_>) -> bool
    ensures { result ≡ path_fits typed.now place (view_lock lock.entry) }
{
    allows_path(typed, place, typed.named(lock.first), lock.second)
}

fn top_path_fits(
    typed: &Typed,
    place: Place,
    base: &Base,
    below: &[Option<Mode>],
    lock: Lock<'_>,
) -> bool
    ensures { result ≡ top_path_fits typed.now place base.now below.now (view_lock lock.entry) }
{
    path_fits(typed, place, lock)
        || allows_pointer(
            typed,
            place,
            base,
            below,
            typed.named(lock.first),
            lock.second,
        )
}

fn unfit_path<'a>(typed: &Typed, place: Place, level: &'a Option<Mode>) -> Option<&'a Path>
    ensures { option_copied result ≡ unfit_path typed.now place level.now }
{
    match level {
        Some(Mode::Locked(path)) => {
            if path_fits(typed, place, lock_of(path)) {
                None
            } else {
                Some(path)
            }
        }
        _ => None,
    }
}

fn unfit_top_path<'a>(
    typed: &Typed,
    place: Place,
    base: &Base,
    below: &[Option<Mode>],
    level: &'a Option<Mode>,
) -> Option<&'a Path>
    ensures { option_copied result ≡ unfit_top_path typed.now place base.now below.now level.now }
{
    match level {
        Some(Mode::Locked(path)) => {
            if top_path_fits(typed, place, base, below, lock_of(path)) {
                None
            } else {
                Some(path)
            }
        }
        _ => None,
    }
}

fn unfit_path_in<'a>(typed: &Typed, place: Place, levels: &'a [Option<Mode>]) -> Option<&'a Path>
    ensures { option_copied result ≡ unfit_path_in typed.now place levels.now }
{
    match levels {
        [] => None,
        [level, below @ ..] => match unfit_path_in(typed, place, below) {
            Some(path) => Some(path),
            None => unfit_path(typed, place, level),
        },
    }
}

/// M4: the first lock path of a type in the source that is none of the allowed forms.
pub fn first_unfit_path<'a>(
    typed: &Typed,
    place: Place,
    base: &Base,
    levels: &'a [Option<Mode>],
) -> Option<&'a Path>
    ensures { option_copied result ≡ first_unfit_path typed.now place base.now levels.now }
{
    match levels {
        [] => None,
        [top, below @ ..] => match unfit_path_in(typed, place, below) {
            Some(path) => Some(path),
            None => unfit_top_path(typed, place, base, below, top),
        },
    }
}

/// The mode that is meant at a level: racy of a mutex, else what is written, else the other.
fn settled_level<'a>(
    base: &Base,
    racy: &'a Mode,
    otherwise: Option<&'a Mode>,
    level: &'a Option<Mode>,
    below: &[Option<Mode>],
) -> Option<&'a Mode>
    requires { racy.now ≡ RacyMode }
    ensures { option_copied result ≡ (if is_mutex base.now below.now then Some RacyMode
        else option_or level.now (option_copied otherwise.entry)) }
{
    if is_mutex(base, below) {
        return Some(racy);
    }
    match level {
        Some(mode) => Some(mode),
        None => otherwise,
    }
}

fn begins_private(
    base: &Base,
    racy: &Mode,
    otherwise: Option<&Mode>,
    levels: &[Option<Mode>],
) -> bool
    requires { racy.now ≡ RacyMode }
    ensures { result ≡ begins_private (settled base.now (option_copied otherwise.entry) levels.now) }
{
    match levels {
        [] => false,
        [level, below @ ..] => match settled_level(base, racy, otherwise, level, below) {
            None => false,
            Some(mode) => is_private_mode(mode),
        },
    }
}

/// Whether a level that is not private is directly above a private one.
fn holds_private_in(
    base: &Base,
    racy: &Mode,
    otherwise: Option<&Mode>,
    levels: &[Option<Mode>],
) -> bool
    requires { racy.now ≡ RacyMode }
    ensures { result ≡ holds_private (settled base.now (option_copied otherwise.entry) levels.now) }
{
    match levels {
        [] => false,
        [level, below @ ..] => match settled_level(base, racy, otherwise, level, below) {
            None => holds_private_in(base, racy, otherwise, below),
            Some(mode) => {
                (!is_private_mode(mode) && begins_private(base, racy, otherwise, below))
                    || holds_private_in(base, racy, otherwise, below)
            }
        },
    }
}

/// The mode of a field's target that has none of its own.
fn field_target<'a>(levels: &'a [Option<Mode>], dynamic: &'a Mode) -> &'a Mode
    requires { dynamic.now ≡ DynamicMode }
    ensures { result.now ≡ field_target levels.now }
{
    match levels {
        [Some(mode), ..] => mode,
        _ => dynamic,
    }
}

fn target_otherwise<'a>(
    place: Place,
    levels: &'a [Option<Mode>],
    dynamic: &'a Mode,
) -> Option<&'a Mode>
    requires { dynamic.now ≡ DynamicMode }
    ensures { option_copied result ≡ target_otherwise place levels.now }
{
    match place {
        Place::Field => Some(field_target(levels, dynamic)),
        Place::Global | Place::Local | Place::Result => None,
    }
}

/// The same of a whole type, in which a level without a mode below the top has the other one.
fn holds_private_from<'a>(
    base: &Base,
    racy: &'a Mode,
    otherwise: Option<&'a Mode>,
    levels: &'a [Option<Mode>],
) -> bool
    requires { racy.now ≡ RacyMode }
    ensures { result ≡ holds_private (with_top (settled base.now None levels.now)
        (settled base.now (option_copied otherwise.entry) (below_top levels.now))) }
{
    match levels {
        [] => false,
        [top, below @ ..] => match settled_level(base, racy, None, top, below) {
            None => holds_private_in(base, racy, otherwise, below),
            Some(mode) => {
                (!is_private_mode(mode) && begins_private(base, racy, otherwise, below))
                    || holds_private_in(base, racy, otherwise, below)
            }
        },
    }
}

/// M3 by what racy and dynamic are.
fn holds_private_with<'a>(
    place: Place,
    base: &Base,
    racy: &'a Mode,
    dynamic: &'a Mode,
    levels: &'a [Option<Mode>],
) -> bool
    requires racy { racy.now ≡ RacyMode }
    requires dynamic { dynamic.now ≡ DynamicMode }
    ensures { result ≡ holds_private (meant place base.now levels.now) }
{
    let otherwise = target_otherwise(place, levels, dynamic);
    holds_private_from(base, racy, otherwise, levels)
}

/// M3: whether a level that is not private is directly above a private target.
pub fn holds_private(place: Place, base: &Base, levels: &[Option<Mode>]) -> bool
    ensures { result ≡ holds_private (meant place base.now levels.now) }
{
    holds_private_with(place, base, &Mode::Racy, &Mode::Dynamic, levels)
}

/// The lowest of M3, M4 and M5 that holds of a type at that place: M3, a level that is not private is directly above a
/// private target; M4, a lock path is none of the allowed forms; M5, a mode is where it is not allowed. None where none
/// of them holds.
pub fn well_formed(typed: &Typed, ctype: &CType, place: Place) -> Option<ErrorCode>
    ensures { result ≡ type_code typed.now place ctype.now }
{
    let levels = ctype.levels.as_slice();
    if holds_private(place, &ctype.base, levels) {
        Some(ErrorCode::PrivateTarget)
    } else if first_unfit_path(typed, place, &ctype.base, levels).is_some() {
        Some(ErrorCode::LockPathNotConstant)
    } else if first_unfit_mode(place, &ctype.base, levels).is_some() {
        Some(ErrorCode::ModeNotAllowed)
    } else {
        None
    }
}
