// Written types: which structs and locks they name, and which may be written where.

ghost use Rattle.std.specs.Prelude.{◌≡◌, ◌+◌, fold};
ghost use Rattle.sharc_names.specs.{Names.{look_up, field_of}, Notes.noted, Seen.{found_field, found_field_in}};
ghost use Rattle.sharc_names.specs.{Seen.siblings_seen, Types.{name_kind, name_notes, main_notes, field_in}};
ghost use Rattle.sharc_names.specs.Types.{field_kind, field_notes, first_kind, first_notes, second_in, second_notes};
ghost use Rattle.sharc_names.specs.Types.{path_notes, mode_notes, modes_notes, is_known, base_notes, holds_struct};
ghost use Rattle.sharc_names.specs.Types.{holds_mutex, holds_void, is_allowed, allowed_there, type_notes, is_fine};
ghost use Rattle.sharc_names.specs.View.{view_kinds, view_bounds, view_meaning};

use crate::fault::{FaultCode, Found, Named};
use crate::fields::Fields;
use crate::kind::{ExpressionKind, Root, declared_kind, is_struct_behind, stars_of};
use crate::meaning::{Binding, Meaning, is_main, kind_of, named_of};
use crate::scope::Scope;
use crate::structs::{Structs, field_of, named_struct};
use sharc_tree::ctype::{Base, Mode, Path};
use sharc_tree::tree::{Declaration, WrittenType};

/// Where a type is written.
#[derive(Clone, Copy)]
pub enum Role {
    Field,
    Global,
    Local,
    Parameter,
    Result,
    Cast,
    /// In `malloc(sizeof(..))`.
    Made,
}

/// Takes note of a use of the function `main`.
pub fn main_use(token: u32, meaning: Meaning<'_>, found: &mut Found)
    ensures { found.new ≡ fold noted found.old (main_notes token (view_meaning meaning.entry)) }
{
    found.fault_where(is_main(meaning), token, FaultCode::BadForm);
}

/// The type of a name that was looked up.
pub fn name_kind(bound: Option<Binding<'_>>) -> Option<ExpressionKind<'_>>
    ensures { view_kinds result ≡ name_kind (view_bounds bound.entry) }
{
    match bound {
        None => None,
        Some(bound) => {
            if is_main(bound.meaning) {
                None
            } else {
                Some(kind_of(bound.meaning))
            }
        }
    }
}

/// Takes note of what a name means that was looked up.
pub fn name_use(token: u32, bound: Option<Binding<'_>>, found: &mut Found)
    ensures { found.new ≡ fold noted found.old (name_notes token (view_bounds bound.entry)) }
{
    match bound {
        None => found.fault(token, FaultCode::UnknownName),
        Some(bound) => {
            found.name(token, named_of(bound.meaning));
            main_use(token, bound.meaning, found);
        }
    }
}

/// The field of that name in the struct that a kind has at its bottom; no answer where the struct is not known.
pub fn field_in<'a>(
    structs: &Structs<'a>,
    name: &[u8],
    kind: Option<ExpressionKind<'_>>,
) -> Option<Option<&'a Declaration>>
    ensures { found_field_in result ≡ field_in structs.now name.now (view_kinds kind.entry) }
{
    match kind {
        Some(ExpressionKind::Object(Root::Struct(of), _)) => {
            let of = structs.find(of)?;
            Some(field_of(of, name))
        }
        _ => None,
    }
}

/// The type of a field that was looked up.
pub fn field_kind(field: Option<Option<&Declaration>>) -> Option<ExpressionKind<'_>>
    ensures { view_kinds result ≡ field_kind (found_field_in field.entry) }
{
    match field {
        None => None,
        Some(None) => None,
        Some(Some(declaration)) => Some(declared_kind(&declaration.written)),
    }
}

/// Takes note of what the name of a field means that was looked up.
pub fn field_use(place: usize, field: Option<Option<&Declaration>>, found: &mut Found)
    ensures { found.new ≡ fold noted found.old (field_notes place (found_field_in field.entry)) }
{
    match field {
        None => {}
        Some(None) => found.fault_at(place, FaultCode::UnknownName),
        Some(Some(declaration)) => {
            found.name_at(place, Named::Field(declaration.name.site.token));
        }
    }
}

/// The type of the first name of a lock path, which may be a field of the same struct.
fn first_kind<'a>(
    sibling: Option<&'a Declaration>,
    bound: Option<Binding<'a>>,
) -> Option<ExpressionKind<'a>>
    ensures { view_kinds result ≡ first_kind (found_field sibling.entry) (view_bounds bound.entry) }
{
    match sibling {
        Some(sibling) => Some(declared_kind(&sibling.written)),
        None => name_kind(bound),
    }
}

/// Takes note of the first name of a lock path.
fn first_use(
    token: u32,
    sibling: Option<&Declaration>,
    bound: Option<Binding<'_>>,
    found: &mut Found,
)
    ensures { found.new
        ≡ fold noted found.old (first_notes token (found_field sibling.entry) (view_bounds bound.entry)) }
{
    match sibling {
        Some(sibling) => found.name(token, Named::Field(sibling.name.site.token)),
        None => name_use(token, bound, found),
    }
}

/// The field that the second name of a lock path names, where the first has this type.
fn second_in<'a>(
    structs: &Structs<'a>,
    name: &[u8],
    kind: Option<ExpressionKind<'_>>,
) -> Option<Option<&'a Declaration>>
    ensures { found_field_in result ≡ second_in structs.now name.now (view_kinds kind.entry) }
{
    match kind {
        None => None,
        Some(of) => {
            if is_struct_behind(1, of) {
                field_in(structs, name, kind)
            } else {
                Some(None)
            }
        }
    }
}

/// Takes note of what the second name of a lock path means that was looked up.
fn second_use(place: usize, field: Option<Option<&Declaration>>, found: &mut Found)
    ensures { found.new ≡ fold noted found.old (second_notes place (found_field_in field.entry)) }
{
    match field {
        None => {}
        Some(None) => found.fault_at(place, FaultCode::UnknownName),
        Some(Some(declaration)) => {
            found.name_if_free(place, Named::Field(declaration.name.site.token));
        }
    }
}

/// The field of that name, where the type is in a field.
fn sibling<'a>(siblings: Option<&Fields<'a>>, name: &[u8]) -> Option<&'a Declaration>
    ensures { found_field result ≡ field_of (siblings_seen siblings.entry) name.now }
{
    match siblings {
        None => None,
        Some(fields) => fields.find(name),
    }
}

/// Takes note of the names of a lock path.
fn path<'a>(scope: &Scope<'a>, siblings: Option<&Fields<'a>>, path: &Path, found: &mut Found)
    ensures { found.new ≡ fold noted found.old (path_notes scope.now (siblings_seen siblings.entry) path.now) }
{
    match path {
        Path::One(name, token) => {
            let name = name.as_slice();
            let sibling = sibling(siblings, name);
            first_use(*token, sibling, scope.names.find(name), found);
        }
        Path::Through(name, token, second) => {
            let name = name.as_slice();
            let sibling = sibling(siblings, name);
            let bound = scope.names.find(name);
            first_use(*token, sibling, bound, found);
            let kind = first_kind(sibling, bound);
            let field = second_in(&scope.structs, second.as_slice(), kind);
            second_use(*token as usize + 2, field, found);
        }
    }
}

fn mode<'a>(
    scope: &Scope<'a>,
    siblings: Option<&Fields<'a>>,
    mode: &Option<Mode>,
    found: &mut Found,
)
    ensures { found.new ≡ fold noted found.old (mode_notes scope.now (siblings_seen siblings.entry) mode.now) }
{
    match mode {
        Some(Mode::Locked(locked)) => path(scope, siblings, locked, found),
        Some(Mode::Private) => {}
        Some(Mode::Readonly) => {}
        Some(Mode::Racy) => {}
        Some(Mode::Dynamic) => {}
        None => {}
    }
}

/// Takes note of the lock paths in the modes of a type.
fn modes<'a>(
    scope: &Scope<'a>,
    siblings: Option<&Fields<'a>>,
    levels: &[Option<Mode>],
    found: &mut Found,
)
    ensures { found.new ≡ fold noted found.old (modes_notes scope.now (siblings_seen siblings.entry) levels.now) }
{
    for level in levels {
        mode(scope, siblings, level, found);
    }
}

/// Takes note of the struct that a type names; answers whether there is one, where one is named.
fn base(structs: &Structs<'_>, token: u32, base: &Base, found: &mut Found) -> bool
    ensures known { result ≡ is_known structs.now base.now }
    ensures found { found.new ≡ fold noted found.old (base_notes structs.now token base.now) }
{
    match base {
        Base::Struct(name) => match structs.find(name.as_slice()) {
            None => {
                found.fault(token, FaultCode::UnknownName);
                false
            }
            Some(of) => {
                found.name(token, named_struct(of));
                true
            }
        },
        Base::Int => true,
        Base::Char => true,
        Base::Long => true,
        Base::Mutex => true,
        Base::Void => true,
    }
}

fn holds_struct(role: Role) -> bool
    ensures { result ≡ holds_struct role }
{
    match role {
        Role::Global | Role::Cast | Role::Made => true,
        Role::Field | Role::Local | Role::Parameter | Role::Result => false,
    }
}

fn holds_mutex(role: Role) -> bool
    ensures { result ≡ holds_mutex role }
{
    match role {
        Role::Field | Role::Global | Role::Cast | Role::Made => true,
        Role::Local | Role::Parameter | Role::Result => false,
    }
}

fn holds_void(role: Role) -> bool
    ensures { result ≡ holds_void role }
{
    match role {
        Role::Result | Role::Cast => true,
        Role::Field | Role::Global | Role::Local | Role::Parameter | Role::Made => false,
    }
}

fn is_allowed(role: Role, base: &Base, stars: usize) -> bool
    ensures { result ≡ is_allowed role base.now stars }
{
    match base {
        Base::Int => true,
        Base::Char => true,
        Base::Long => true,
        Base::Mutex => stars > 0 || holds_mutex(role),
        Base::Void => stars == 0 && holds_void(role),
        Base::Struct(_) => stars > 0 || holds_struct(role),
    }
}

fn allowed_there(role: Role, written: &WrittenType) -> bool
    ensures { result ≡ allowed_there role written.now }
{
    is_allowed(role, &written.ctype.base, stars_of(written))
}

/// Takes note of the faults of a type and of what it names; answers whether its C type has no fault. The type of a
/// field sees the fields of its struct.
pub fn written_type<'a>(
    scope: &Scope<'a>,
    siblings: Option<&Fields<'a>>,
    role: Role,
    written: &WrittenType,
    found: &mut Found,
) -> bool
    ensures fine { result ≡ is_fine scope.now.structs role written.now }
    ensures found { found.new
        ≡ fold noted found.old (type_notes scope.now (siblings_seen siblings.entry) role written.now) }
{
    let known = base(
        &scope.structs,
        written.base.token,
        &written.ctype.base,
        found,
    );
    let allowed = allowed_there(role, written);
    found.fault_unless(allowed, written.span.first.token, FaultCode::TypeNotAllowed);
    modes(scope, siblings, written.ctype.levels.as_slice(), found);
    known && allowed
}
