// What is said of types: M3 to M6, and which variables their paths name.

ghost use Rattle.std.specs.{Prelude.{◌≡◌, ◌+◌, ◌≤◌, ◌++◌, OnOk}, List.{flat_map, list_any}};
ghost use Rattle.sharc_ctype.specs.Entities.{entities_in, numbered, positions_of};
ghost use Rattle.sharc_mode.specs.{Moded.position_count, Notes.{levels_of, private_notes, path_notes, mode_notes}};
ghost use Rattle.sharc_mode.specs.Notes.{is_private_level, is_field_role, private_field_notes, names_in_level};
ghost use Rattle.sharc_mode.specs.{Notes.type_notes, WellFormed.{place_of, holds_private, first_unfit_path}};
ghost use Rattle.sharc_mode.specs.WellFormed.{first_unfit_mode};
ghost use Rattle.sharc_check.specs.Levels.{is_shared_top, holds_below};

use crate::rules::{Notes, Noting, error, mismatch, name_in};
use sharc_ctype::entity::Numbered;
use sharc_ctype::typed::Typed;
use sharc_mode::cell::top_of;
use sharc_mode::error::ErrorCode;
use sharc_mode::moded::Moded;
use sharc_mode::place::Place;
use sharc_mode::sharing::sharing_of;
use sharc_mode::shown::printed_type;
use sharc_mode::text::{mode_text, path_text, text_at};
use sharc_mode::types::{first_unfit_mode, first_unfit_path, is_private_mode};
use sharc_names::types::Role;
use sharc_tree::ctype::Mode;
use sharc_tree::name::Name;

/// Where the type of such an entity is written.
fn place_of(role: Role) -> Place
    ensures { result ≡ place_of role }
{
    match role {
        Role::Field => Place::Field,
        Role::Global => Place::Global,
        Role::Result => Place::Result,
        Role::Local | Role::Parameter | Role::Cast | Role::Made => Place::Local,
    }
}

/// Whether the top of a type is known and not private; of a global's, whose top is a position, it is not asked.
fn is_shared_top(role: Role, levels: &[Option<Mode>]) -> bool
    ensures { result ≡ is_shared_top role levels.now }
{
    match role {
        Role::Global => false,
        _ => match top_of(levels) {
            None => false,
            Some(mode) => !is_private_mode(mode),
        },
    }
}

/// Whether a level that is not private is directly above a private target.
fn holds_private(program: &Moded, numbered: &Numbered) -> bool
    requires { numbered.now.first + positions_of numbered.now.entity ≤ position_count program.now.typed }
    ensures { result ≡ holds_private (levels_of program.now numbered.now) }
{
    let _all = program.position_count();
    let levels = numbered.entity.written.ctype.levels.as_slice();
    let mut above = is_shared_top(numbered.entity.role, levels);
    for i in 0..numbered.entity.positions() {
        let private = is_private_mode(program.mode(numbered.first + i as u32));
        if above && private {
            return true;
        }
        above = !private;
    }
    false
}

/// M3
fn private(program: &Moded, numbered: &Numbered, notes: &mut Notes) -> Noting
    requires { numbered.now.first + positions_of numbered.now.entity ≤ position_count program.now.typed }
    ensures { OnOk result (notes.new.items ≡ notes.old.items ++ private_notes program.now numbered.now) }
{
    if holds_private(program, numbered) {
        let alloc = *notes.allocator();
        let expected = printed_type(alloc, program, numbered)?;
        let found = printed_type(alloc, program, numbered)?;
        let span = numbered.entity.written.span;
        notes.push(mismatch(alloc, ErrorCode::PrivateTarget, span, expected, found))?;
    }
    Ok(())
}

/// M4
fn path(typed: &Typed, numbered: &Numbered, notes: &mut Notes) -> Noting
    ensures { OnOk result (notes.new.items ≡ notes.old.items
        ++ path_notes numbered.now.entity.written.span (first_unfit_path typed.now (place_of numbered.now.entity.role)
        numbered.now.entity.written.ctype.base numbered.now.entity.written.ctype.levels)) }
{
    let place = place_of(numbered.entity.role);
    let written = &numbered.entity.written;
    let levels = written.ctype.levels.as_slice();
    match first_unfit_path(typed, place, &written.ctype.base, levels) {
        None => Ok(()),
        Some(path) => {
            let alloc = *notes.allocator();
            let text = path_text(alloc, path)?;
            notes.push(error(alloc, ErrorCode::LockPathNotConstant, written.span, text))?;
            Ok(())
        }
    }
}

/// M5
fn mode(numbered: &Numbered, notes: &mut Notes) -> Noting
    ensures { OnOk result (notes.new.items ≡ notes.old.items
        ++ mode_notes numbered.now.entity.written.span (first_unfit_mode (place_of numbered.now.entity.role)
        numbered.now.entity.written.ctype.base numbered.now.entity.written.ctype.levels)) }
{
    let place = place_of(numbered.entity.role);
    let written = &numbered.entity.written;
    let levels = written.ctype.levels.as_slice();
    match first_unfit_mode(place, &written.ctype.base, levels) {
        None => Ok(()),
        Some(mode) => {
            let alloc = *notes.allocator();
            let text = mode_text(alloc, mode)?;
            notes.push(error(alloc, ErrorCode::ModeNotAllowed, written.span, text))?;
            Ok(())
        }
    }
}

/// Whether it is known and private.
pub(crate) fn is_private_level(level: &Option<Mode>) -> bool
    ensures { result ≡ is_private_level level.now }
{
    match level {
        None => false,
        Some(mode) => is_private_mode(mode),
    }
}

fn any_private(levels: &[Option<Mode>]) -> bool
    ensures { result ≡ list_any is_private_level levels.now }
{
    for level in levels {
        if is_private_level(level) {
            return true;
        }
    }
    false
}

fn is_field(role: Role) -> bool
    ensures { result ≡ is_field_role role }
{
    match role {
        Role::Field => true,
        _ => false,
    }
}

/// M6
fn private_field(typed: &Typed, numbered: &Numbered, notes: &mut Notes) -> Noting
    ensures { OnOk result (notes.new.items ≡ notes.old.items ++ private_field_notes typed.now numbered.now) }
{
    let entity = &numbered.entity;
    if is_field(entity.role) && any_private(entity.written.ctype.levels.as_slice()) {
        let alloc = *notes.allocator();
        let name = Name::from_slice(alloc, text_at(typed, entity.token))?;
        notes.push(error(alloc, ErrorCode::PrivateField, entity.written.span, name))?;
    }
    Ok(())
}

fn name_in_level(typed: &Typed, level: &Option<Mode>, notes: &mut Notes) -> Noting
    ensures { OnOk result (notes.new.items ≡ notes.old.items ++ names_in_level typed.now level.now) }
{
    match level {
        None => Ok(()),
        Some(mode) => name_in(typed, sharing_of(mode), notes),
    }
}

/// The variables and globals that the paths of a type name.
fn names(typed: &Typed, levels: &[Option<Mode>], notes: &mut Notes) -> Noting
    ensures { OnOk result (notes.new.items ≡ notes.old.items ++ flat_map (names_in_level typed.now) levels.now) }
{
    for level in levels {
        name_in_level(typed, level, notes)?;
    }
    Ok(())
}

/// Says what is to be said of the type of an entity.
fn type_said(program: &Moded, numbered: &Numbered, notes: &mut Notes) -> Noting
    requires { numbered.now.first + positions_of numbered.now.entity ≤ position_count program.now.typed }
    ensures { OnOk result (notes.new.items ≡ notes.old.items ++ type_notes program.now numbered.now) }
{
    let typed = program.typed();
    private(program, numbered, notes)?;
    path(typed, numbered, notes)?;
    mode(numbered, notes)?;
    private_field(typed, numbered, notes)?;
    names(
        typed,
        numbered.entity.written.ctype.levels.as_slice(),
        notes,
    )
}

/// Says what is to be said of all types.
pub(crate) fn types(program: &Moded, notes: &mut Notes) -> Noting
    ensures { OnOk result (notes.new.items ≡ notes.old.items
        ++ flat_map (type_notes program.now) (numbered (entities_in program.now.typed.program.items))) }
{
    let typed = program.typed();
    for numbered in typed.entities() {
        type_said(program, numbered, notes)?;
    }
    Ok(())
}
