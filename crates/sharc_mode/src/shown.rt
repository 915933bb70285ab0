// Types as they are shown: what the modes of a row are, and the type of an entity as it is printed.

ghost use Rattle.std.specs.{Prelude.{◌≡◌, ◌+◌, ◌≤◌, Some, IfOk}, Option.option_or};
ghost use Rattle.sharc_tree.specs.declared.ctype.Mode.TheVariants.{Private as PrivateMode};
ghost use Rattle.sharc_names.specs.View.{view_root, view_kind};
ghost use Rattle.sharc_ctype.specs.Entities.{positions_of};
ghost use Rattle.sharc_mode.specs.{Cells.top_of, Moded.position_count, Notes.{shown, base_of, printed_top}};
ghost use Rattle.sharc_mode.specs.{Notes.printed_type, RowLaws.RowLaws, Rows.modes_of, Sharings.{path_of, mode_of}};
ghost use Rattle.sharc_mode.specs.{Sharings.same_all, View.{view_lock, view_sharing, view_row}};

use crate::cell::{pointed, top_of};
use crate::moded::Moded;
use crate::row::Targets;
use crate::sharing::{Lock, Sharing, same};
use crate::text::text_at;
use sharc_ctype::entity::Numbered;
use sharc_ctype::typed::Typed;
use sharc_names::kind::{ExpressionKind, Root};
use sharc_names::types::Role;
use sharc_tree::ctype::{Base, CType, Mode, Path};
use sharc_tree::listed::Listed;
use sharc_tree::name::Name;
use std::alloc::{AllocError, Global};

/// A row begins with its first target, and the rest is what that points to in turn.
pub fn row_laws()
    ensures { RowLaws }
{}

/// A path as it is printed: the first name is what is written at its token.
pub fn path_of(alloc: Global, typed: &Typed, lock: Lock<'_>) -> Result<Path, AllocError>
    ensures { IfOk result (λ p. p ≡ path_of typed.now (view_lock lock.entry)) }
{
    let text = Name::from_slice(alloc, text_at(typed, lock.first))?;
    match lock.second {
        None => Ok(Path::One(text, lock.first)),
        Some(mutex) => {
            let mutex = Name::from_slice(alloc, mutex)?;
            Ok(Path::Through(text, lock.first, mutex))
        }
    }
}

/// A mode as it is printed.
pub fn mode_of(alloc: Global, typed: &Typed, sharing: Sharing<'_>) -> Result<Mode, AllocError>
    ensures { IfOk result (λ mode. mode ≡ mode_of typed.now (view_sharing sharing.entry)) }
{
    match sharing {
        Sharing::Private => Ok(Mode::Private),
        Sharing::Readonly => Ok(Mode::Readonly),
        Sharing::Locked(lock) => Ok(Mode::Locked(path_of(alloc, typed, lock)?)),
        Sharing::Racy => Ok(Mode::Racy),
        Sharing::Dynamic => Ok(Mode::Dynamic),
    }
}

/// What is at the bottom of the type of an expression; `void` where it has none.
pub fn root_of_kind(kind: ExpressionKind<'_>) -> Root<'_>
    ensures { view_root result ≡ base_of (view_kind kind.entry) }
{
    match kind {
        ExpressionKind::Object(root, _) => root,
        ExpressionKind::Array(root, _) => root,
        ExpressionKind::Null => Root::Void,
        ExpressionKind::Function => Root::Void,
    }
}

fn base_from(alloc: Global, root: Root<'_>) -> Result<Base, AllocError>
    ensures { IfOk result (λ b. b ≡ view_root root.entry) }
{
    match root {
        Root::Int => Ok(Base::Int),
        Root::Char => Ok(Base::Char),
        Root::Long => Ok(Base::Long),
        Root::Mutex => Ok(Base::Mutex),
        Root::Void => Ok(Base::Void),
        Root::Struct(name) => Ok(Base::Struct(Name::from_slice(alloc, name)?)),
    }
}

/// A type with these modes of its targets, without that of its top.
pub fn shown(
    alloc: Global,
    program: &Moded,
    root: Root<'_>,
    row: Targets<'_>,
) -> Result<CType, AllocError>
    requires { row.first + row.count ≤ position_count program.now.typed }
    ensures { IfOk result (λ c. c
        ≡ shown program.now.typed (view_root root.entry) (modes_of program.now (view_row row.entry))) }
{
    let t = program.typed();
    let _all = program.position_count();
    let mut levels = Vec::new(alloc);
    levels.push(None)?;
    let mut left = row;
    while left.count > 0 {
        let mode = mode_of(alloc, t, pointed(program, Some(left)))?;
        levels.push(Some(mode))?;
        left = left.deeper();
    }
    let base = base_from(alloc, root)?;
    Ok(CType {
        base,
        levels: Listed::of(levels),
    })
}

/// Whether two rows have the same modes, level by level.
pub fn same_rows(program: &Moded, a: Targets<'_>, b: Targets<'_>) -> bool
    requires a { a.first + a.count ≤ position_count program.now.typed }
    requires b { b.first + b.count ≤ position_count program.now.typed }
    ensures { result ≡ same_all program.now.typed (modes_of program.now (view_row a.entry))
        (modes_of program.now (view_row b.entry)) }
{
    let t = program.typed();
    let _all = program.position_count();
    let mut a = a;
    let mut b = b;
    while a.count > 0 && b.count > 0 {
        if !same(t, pointed(program, Some(a)), pointed(program, Some(b))) {
            return false;
        }
        a = a.deeper();
        b = b.deeper();
    }
    a.count == 0 && b.count == 0
}

fn copy_top(alloc: Global, levels: &[Option<Mode>]) -> Result<Option<Mode>, AllocError>
    ensures { IfOk result (λ top. top ≡ top_of levels.now) }
{
    match top_of(levels) {
        None => Ok(None),
        Some(mode) => Ok(Some(mode.copy(alloc)?)),
    }
}

fn private_unless(top: Option<Mode>) -> Option<Mode>
    ensures { result ≡ option_or top (Some PrivateMode) }
{
    match top {
        None => Some(Mode::Private),
        Some(mode) => Some(mode),
    }
}

/// The tops of a type as they are printed: one of any type but a global's, whose top is a position.
fn printed_top(
    alloc: Global,
    role: Role,
    levels: &[Option<Mode>],
) -> Result<Vec<Option<Mode>>, AllocError>
    ensures { IfOk result (λ tops. tops.items ≡ printed_top role levels.now) }
{
    let mut tops = Vec::new(alloc);
    match role {
        Role::Global => {}
        Role::Field | Role::Made => tops.push(copy_top(alloc, levels)?)?,
        Role::Local | Role::Parameter => tops.push(private_unless(copy_top(alloc, levels)?))?,
        Role::Result | Role::Cast => tops.push(None)?,
    }
    Ok(tops)
}

/// The type of an entity as it is printed: without the top of a result and of a cast.
pub fn printed_type(
    alloc: Global,
    program: &Moded,
    numbered: &Numbered,
) -> Result<CType, AllocError>
    requires { numbered.now.first + positions_of numbered.now.entity ≤ position_count program.now.typed }
    ensures { IfOk result (λ c. c ≡ printed_type program.now numbered.now) }
{
    let _all = program.position_count();
    let written = &numbered.entity.written.ctype;
    let mut levels = printed_top(alloc, numbered.entity.role, written.levels.as_slice())?;
    for i in 0..numbered.entity.positions() {
        let mode = program.mode(numbered.first + i as u32).copy(alloc)?;
        levels.push(Some(mode))?;
    }
    let base = written.base.copy(alloc)?;
    Ok(CType {
        base,
        levels: Listed::of(levels),
    })
}
