// Sharing modes with what their lock paths name, and when two are the same.

ghost use Rattle.std.specs.{Prelude.◌≡◌, Option.option_copied};
ghost use Rattle.sharc_mode.specs.Sharings.{lock_of, sharing_of, same_named, same_text, same_first, same_second};
ghost use Rattle.sharc_mode.specs.Sharings.{same_lock, same, same_level, same_levels, is_private, is_readonly};
ghost use Rattle.sharc_mode.specs.Sharings.{is_field, is_sibling_lock, is_sibling, variable_named, variable_of};
ghost use Rattle.sharc_mode.specs.{Sharings.{global_token, object_named, object_of}, View.{view_name, view_lock}};
ghost use Rattle.sharc_mode.specs.View.{view_sharing};

use crate::text::text_at;
use sharc_ctype::typed::Typed;
use sharc_names::fault::Named;
use sharc_tree::ctype::{CType, Mode, Path};
use sharc_tree::tree::GlobalDefinition;

/// A lock path: the token of its first name, which shows what that names, and its second name, where it has one.
#[derive(Clone, Copy)]
pub struct Lock<'a> {
    pub first: u32,
    pub second: Option<&'a [u8]>,
}

/// A sharing mode (the SharC paper).
#[derive(Clone, Copy)]
pub enum Sharing<'a> {
    Private,
    Readonly,
    Locked(Lock<'a>),
    Racy,
    Dynamic,
}

/// A path as it is written.
pub fn lock_of(path: &Path) -> Lock<'_>
    ensures { view_lock result ≡ lock_of path.now }
{
    match path {
        Path::One(_, token) => Lock {
            first: *token,
            second: None,
        },
        Path::Through(_, token, mutex) => Lock {
            first: *token,
            second: Some(mutex.as_slice()),
        },
    }
}

/// A mode as it is written.
pub fn sharing_of(mode: &Mode) -> Sharing<'_>
    ensures { view_sharing result ≡ sharing_of mode.now }
{
    match mode {
        Mode::Private => Sharing::Private,
        Mode::Readonly => Sharing::Readonly,
        Mode::Locked(path) => Sharing::Locked(lock_of(path)),
        Mode::Racy => Sharing::Racy,
        Mode::Dynamic => Sharing::Dynamic,
    }
}

/// Whether two names name the same.
fn same_named(a: Named, b: Named) -> bool
    ensures { result ≡ same_named a b }
{
    match (a, b) {
        (Named::Struct(a), Named::Struct(b)) => a == b,
        (Named::Global(a), Named::Global(b)) => a == b,
        (Named::Function(a), Named::Function(b)) => a == b,
        (Named::Variable(a), Named::Variable(b)) => a == b,
        (Named::Field(a), Named::Field(b)) => a == b,
        (Named::Known, Named::Known) => true,
        _ => false,
    }
}

/// Whether two names are spelled alike, where what the first one names is determined by its name.
fn same_text(named: Named, a: &[u8], b: &[u8]) -> bool
    ensures { result ≡ same_text named a.now b.now }
{
    match named {
        Named::Known => a == b,
        _ => true,
    }
}

/// Whether the first names of two paths, which are at these tokens, name the same.
fn same_first(typed: &Typed, a: u32, b: u32) -> bool
    ensures { result ≡ same_first typed.now a b }
{
    let named = typed.named(a);
    same_named(named, typed.named(b)) && same_text(named, text_at(typed, a), text_at(typed, b))
}

fn same_second(a: Option<&[u8]>, b: Option<&[u8]>) -> bool
    ensures { result ≡ same_second (view_name a.entry) (view_name b.entry) }
{
    match (a, b) {
        (None, None) => true,
        (Some(a), Some(b)) => a == b,
        _ => false,
    }
}

/// Whether two paths are equal.
pub fn same_lock(typed: &Typed, a: Lock<'_>, b: Lock<'_>) -> bool
    ensures { result ≡ same_lock typed.now (view_lock a.entry) (view_lock b.entry) }
{
    same_first(typed, a.first, b.first) && same_second(a.second, b.second)
}

/// Whether two modes are the same.
pub fn same(typed: &Typed, a: Sharing<'_>, b: Sharing<'_>) -> bool
    ensures { result ≡ same typed.now (view_sharing a.entry) (view_sharing b.entry) }
{
    match (a, b) {
        (Sharing::Private, Sharing::Private) => true,
        (Sharing::Readonly, Sharing::Readonly) => true,
        (Sharing::Locked(a), Sharing::Locked(b)) => same_lock(typed, a, b),
        (Sharing::Racy, Sharing::Racy) => true,
        (Sharing::Dynamic, Sharing::Dynamic) => true,
        _ => false,
    }
}

fn same_level(typed: &Typed, a: &Option<Mode>, b: &Option<Mode>) -> bool
    ensures { result ≡ same_level typed.now a.now b.now }
{
    match (a, b) {
        (None, None) => true,
        (Some(a), Some(b)) => same(typed, sharing_of(a), sharing_of(b)),
        _ => false,
    }
}

fn same_levels(typed: &Typed, a: &[Option<Mode>], b: &[Option<Mode>]) -> bool
    ensures { result ≡ same_levels typed.now a.now b.now }
{
    if a.len() != b.len() {
        return false;
    }
    for i in 0..a.len() {
        if !same_level(typed, &a[i], &b[i]) {
            return false;
        }
    }
    true
}

/// Whether two types have the same modes, level by level. Two paths are equal where they name the same, as the same
/// global, or the same variable and the same field; modes that are not known are the same.
pub fn same_modes(typed: &Typed, a: &CType, b: &CType) -> bool
    ensures { result ≡ same_levels typed.now a.now.levels b.now.levels }
{
    same_levels(typed, a.levels.as_slice(), b.levels.as_slice())
}

/// Whether it is private.
pub fn is_private(sharing: Sharing<'_>) -> bool
    ensures { result ≡ is_private (view_sharing sharing.entry) }
{
    match sharing {
        Sharing::Private => true,
        _ => false,
    }
}

/// Whether it is readonly.
pub fn is_readonly(sharing: Sharing<'_>) -> bool
    ensures { result ≡ is_readonly (view_sharing sharing.entry) }
{
    match sharing {
        Sharing::Readonly => true,
        _ => false,
    }
}

fn is_field(named: Named) -> bool
    ensures { result ≡ is_field named }
{
    match named {
        Named::Field(_) => true,
        _ => false,
    }
}

/// Whether a path is the name of a sibling of the field in whose type it is written.
pub fn is_sibling_lock(typed: &Typed, lock: Lock<'_>) -> bool
    ensures { result ≡ is_sibling_lock typed.now (view_lock lock.entry) }
{
    is_field(typed.named(lock.first)) && lock.second.is_none()
}

/// Whether a mode is locked by a sibling.
pub fn is_sibling(typed: &Typed, sharing: Sharing<'_>) -> bool
    ensures { result ≡ is_sibling typed.now (view_sharing sharing.entry) }
{
    match sharing {
        Sharing::Locked(lock) => is_sibling_lock(typed, lock),
        _ => false,
    }
}

/// The variable that a name names, by the token that declares it.
pub fn variable_named(named: Named) -> Option<u32>
    ensures { result ≡ variable_named named }
{
    match named {
        Named::Variable(token) => Some(token),
        _ => None,
    }
}

/// The variable that the first name of a path names, by the token that declares it.
pub fn variable_of(typed: &Typed, lock: Lock<'_>) -> Option<u32>
    ensures { result ≡ variable_of typed.now (view_lock lock.entry) }
{
    variable_named(typed.named(lock.first))
}

/// The token that declares a global.
fn global_token(global: Option<&GlobalDefinition>) -> Option<u32>
    ensures { result ≡ global_token (option_copied global.entry) }
{
    match global {
        None => None,
        Some(global) => Some(global.declaration.name.site.token),
    }
}

/// The variable or the global that a name names, by the token that declares it.
pub fn object_named(typed: &Typed, named: Named) -> Option<u32>
    ensures { result ≡ object_named typed.now named }
{
    match named {
        Named::Global(number) => global_token(typed.global_at(number)),
        Named::Variable(token) => Some(token),
        Named::Struct(_) | Named::Function(_) | Named::Field(_) | Named::Known => None,
    }
}

/// The variable or the global that the first name of a path names, by the token that declares it.
pub fn object_of(typed: &Typed, lock: Lock<'_>) -> Option<u32>
    ensures { result ≡ object_of typed.now (view_lock lock.entry) }
{
    object_named(typed, typed.named(lock.first))
}
