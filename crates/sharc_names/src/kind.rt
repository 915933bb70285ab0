// What expressions are: C types without modes.

ghost use Rattle.std.specs.Prelude.{◌≡◌};
ghost use Rattle.sharc_names.specs.Kinds.{is_integral, is_struct_base, same_base, is_integer, is_pointer, is_null};
ghost use Rattle.sharc_names.specs.Kinds.{is_array, is_struct_behind, is_long, same_kind, agrees, comparable};
ghost use Rattle.sharc_names.specs.Kinds.{declared_kind, stars_of, element_kind, promoted, common};
ghost use Rattle.sharc_names.specs.View.{view_root, view_kind};

use sharc_tree::ctype::Base;
use sharc_tree::tree::WrittenType;

/// What is at the bottom of a type.
#[derive(Clone, Copy)]
pub enum Root<'a> {
    Int,
    Char,
    Long,
    Mutex,
    Void,
    /// The struct with this name.
    Struct(&'a [u8]),
}

/// What an expression is.
#[derive(Clone, Copy)]
pub enum ExpressionKind<'a> {
    /// An object or a value of a base with this many stars.
    Object(Root<'a>, usize),
    /// A global array of such objects.
    Array(Root<'a>, usize),
    /// `NULL`
    Null,
    /// The name of a function.
    Function,
}

/// What is at the bottom of a type.
pub fn root_of(base: &Base) -> Root<'_>
    ensures { view_root result ≡ base.now }
{
    match base {
        Base::Int => Root::Int,
        Base::Char => Root::Char,
        Base::Long => Root::Long,
        Base::Mutex => Root::Mutex,
        Base::Void => Root::Void,
        Base::Struct(name) => Root::Struct(name.as_slice()),
    }
}

/// The number of stars of a type.
pub fn stars_of(written: &WrittenType) -> usize
    ensures { result ≡ stars_of written.now }
{
    written.ctype.levels.len().saturating_sub(1)
}

/// The kind of what a type declares.
pub fn declared_kind(written: &WrittenType) -> ExpressionKind<'_>
    ensures { view_kind result ≡ declared_kind written.now }
{
    ExpressionKind::Object(root_of(&written.ctype.base), stars_of(written))
}

fn is_integral(root: Root<'_>) -> bool
    ensures { result ≡ is_integral (view_root root.entry) }
{
    match root {
        Root::Int | Root::Char | Root::Long => true,
        Root::Mutex | Root::Void | Root::Struct(_) => false,
    }
}

fn is_struct_root(root: Root<'_>) -> bool
    ensures { result ≡ is_struct_base (view_root root.entry) }
{
    match root {
        Root::Struct(_) => true,
        _ => false,
    }
}

fn same_root(a: Root<'_>, b: Root<'_>) -> bool
    ensures { result ≡ same_base (view_root a.entry) (view_root b.entry) }
{
    match (a, b) {
        (Root::Int, Root::Int) => true,
        (Root::Char, Root::Char) => true,
        (Root::Long, Root::Long) => true,
        (Root::Mutex, Root::Mutex) => true,
        (Root::Void, Root::Void) => true,
        (Root::Struct(a), Root::Struct(b)) => a == b,
        _ => false,
    }
}

/// Whether it is an integer.
pub fn is_integer(kind: ExpressionKind<'_>) -> bool
    ensures { result ≡ is_integer (view_kind kind.entry) }
{
    match kind {
        ExpressionKind::Object(root, stars) => stars == 0 && is_integral(root),
        _ => false,
    }
}

/// Whether it is a pointer.
pub fn is_pointer(kind: ExpressionKind<'_>) -> bool
    ensures { result ≡ is_pointer (view_kind kind.entry) }
{
    match kind {
        ExpressionKind::Object(_, stars) => stars > 0,
        _ => false,
    }
}

/// Whether it is `NULL`.
pub fn is_null(kind: ExpressionKind<'_>) -> bool
    ensures { result ≡ is_null (view_kind kind.entry) }
{
    match kind {
        ExpressionKind::Null => true,
        _ => false,
    }
}

/// Whether it is an array.
pub fn is_array(kind: ExpressionKind<'_>) -> bool
    ensures { result ≡ is_array (view_kind kind.entry) }
{
    match kind {
        ExpressionKind::Array(_, _) => true,
        _ => false,
    }
}

/// Whether it is a struct behind this number of stars.
pub fn is_struct_behind(depth: usize, kind: ExpressionKind<'_>) -> bool
    ensures { result ≡ is_struct_behind depth (view_kind kind.entry) }
{
    match kind {
        ExpressionKind::Object(root, stars) => stars == depth && is_struct_root(root),
        _ => false,
    }
}

fn is_long(kind: ExpressionKind<'_>) -> bool
    ensures { result ≡ is_long (view_kind kind.entry) }
{
    match kind {
        ExpressionKind::Object(Root::Long, stars) => stars == 0,
        _ => false,
    }
}

impl<'a> ExpressionKind<'a> {
    ghost use Rattle.std.specs.Prelude.{◌≡◌};
    ghost use Rattle.sharc_names.specs.Kinds.{int, long, void, mutex, mutex_pointer, condition_pointer};
    ghost use Rattle.sharc_names.specs.View.{view_kind};

    /// `int`
    pub fn int() -> ExpressionKind<'a>
        ensures { view_kind result ≡ int }
    {
        ExpressionKind::Object(Root::Int, 0)
    }

    /// `long`
    pub fn long() -> ExpressionKind<'a>
        ensures { view_kind result ≡ long }
    {
        ExpressionKind::Object(Root::Long, 0)
    }

    /// `void`
    pub fn void() -> ExpressionKind<'a>
        ensures { view_kind result ≡ void }
    {
        ExpressionKind::Object(Root::Void, 0)
    }

    /// `mutex`
    pub fn mutex() -> ExpressionKind<'a>
        ensures { view_kind result ≡ mutex }
    {
        ExpressionKind::Object(Root::Mutex, 0)
    }

    /// `mutex *`
    pub fn mutex_pointer() -> ExpressionKind<'a>
        ensures { view_kind result ≡ mutex_pointer }
    {
        ExpressionKind::Object(Root::Mutex, 1)
    }

    /// `struct cond *`
    pub fn condition_pointer() -> ExpressionKind<'a>
        ensures { view_kind result ≡ condition_pointer }
    {
        ExpressionKind::Object(Root::Struct(b"cond".as_slice()), 1)
    }
}

/// Whether both are one C type.
pub fn same_kind(a: ExpressionKind<'_>, b: ExpressionKind<'_>) -> bool
    ensures { result ≡ same_kind (view_kind a.entry) (view_kind b.entry) }
{
    match (a, b) {
        (ExpressionKind::Object(a, m), ExpressionKind::Object(b, n)) => same_root(a, b) && m == n,
        _ => false,
    }
}

/// Whether the one may be assigned to, passed or returned as the other.
pub fn agrees(want: ExpressionKind<'_>, kind: ExpressionKind<'_>) -> bool
    ensures { result ≡ agrees (view_kind want.entry) (view_kind kind.entry) }
{
    if is_null(kind) {
        is_pointer(want)
    } else if is_integer(kind) {
        is_integer(want)
    } else {
        same_kind(want, kind)
    }
}

/// Whether `==` compares them.
pub fn comparable(a: ExpressionKind<'_>, b: ExpressionKind<'_>) -> bool
    ensures { result ≡ comparable (view_kind a.entry) (view_kind b.entry) }
{
    if is_null(a) || is_null(b) {
        is_pointer(a) || is_pointer(b)
    } else if is_integer(a) && is_integer(b) {
        true
    } else {
        same_kind(a, b)
    }
}

/// The kind of what a pointer or an array leads to.
pub fn element_kind(kind: ExpressionKind<'_>) -> ExpressionKind<'_>
    ensures { view_kind result ≡ element_kind (view_kind kind.entry) }
{
    match kind {
        ExpressionKind::Object(root, 0) => ExpressionKind::Object(root, 0),
        ExpressionKind::Object(root, stars) => ExpressionKind::Object(root, stars - 1),
        ExpressionKind::Array(root, stars) => ExpressionKind::Object(root, stars),
        other => other,
    }
}

/// The type of arithmetic on one operand.
pub fn promoted<'a>(kind: ExpressionKind<'_>) -> ExpressionKind<'a>
    ensures { view_kind result ≡ promoted (view_kind kind.entry) }
{
    if is_long(kind) {
        ExpressionKind::long()
    } else {
        ExpressionKind::int()
    }
}

/// The type of arithmetic on two operands.
pub fn common<'a>(a: ExpressionKind<'_>, b: ExpressionKind<'_>) -> ExpressionKind<'a>
    ensures { view_kind result ≡ common (view_kind a.entry) (view_kind b.entry) }
{
    if is_long(a) || is_long(b) {
        ExpressionKind::long()
    } else {
        ExpressionKind::int()
    }
}
