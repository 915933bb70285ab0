// What is said of what threads get (M7): the parameters of spawned functions, and touched globals.

ghost use Rattle.std.specs.{Prelude.{◌≡◌, ◌++◌, length, OnOk}, List.flat_map, Option.{option_copied, option_map}};
ghost use Rattle.sharc_tree.specs.View.{view_function};
ghost use Rattle.sharc_ctype.specs.Resolved.{functions_in, globals_in};
ghost use Rattle.sharc_mode.specs.{Cells.top_of, Notes.is_private_level, Rows.{written, declared_row, modes_of}};
ghost use Rattle.sharc_mode.specs.WellModed.{has_private_target, parameter_notes, spawned_notes, touched_notes};
ghost use Rattle.sharc_reach.specs.Reaching.{AreReached};
ghost use Rattle.sharc_check.specs.Threads.{function_notes, global_notes, touched_by};

use crate::rule_laws::spawned_are_told;
use crate::rules::{Notes, Noting, error};
use crate::types::is_private_level;
use sharc_mode::cell::pointed;
use sharc_mode::error::ErrorCode;
use sharc_mode::moded::Moded;
use sharc_mode::row::{PathReading, declared_row};
use sharc_mode::sharing::is_private;
use sharc_mode::shown::row_laws;
use sharc_reach::Reached;
use sharc_tree::ctype::Mode;
use sharc_tree::name::Name;
use sharc_tree::tree::{Declaration, FunctionDefinition, GlobalDefinition};
use std::alloc::AllocError;

/// Whether what a declared parameter refers to is private.
fn has_private_target(program: &Moded, token: u32) -> bool
    ensures { result ≡ has_private_target (modes_of program.now (declared_row program.now.typed written token)) }
{
    let _all = program.position_count();
    row_laws();
    let row = declared_row(program.typed(), PathReading::Written, token);
    row.count > 0 && is_private(pointed(program, Some(row)))
}

/// Says what is to be said of a parameter of the spawned function of that name.
fn parameter(program: &Moded, name: &Name, of: &Declaration, notes: &mut Notes) -> Noting
    ensures { OnOk result (notes.new.items ≡ notes.old.items ++ parameter_notes program.now name.now of.now) }
{
    if has_private_target(program, of.name.site.token) {
        let alloc = *notes.allocator();
        let name = name.copy(alloc)?;
        notes.push(error(
            alloc,
            ErrorCode::PrivateReachesThread,
            of.written.span,
            name,
        ))?;
    }
    Ok(())
}

fn parameters(program: &Moded, name: &Name, all: &[Declaration], notes: &mut Notes) -> Noting
    ensures { OnOk result (notes.new.items
        ≡ notes.old.items ++ flat_map (parameter_notes program.now name.now) all.now) }
{
    for of in all {
        parameter(program, name, of, notes)?;
    }
    Ok(())
}

fn function(
    program: &Moded,
    spawned: bool,
    of: Option<&FunctionDefinition>,
    notes: &mut Notes,
) -> Noting
    ensures { OnOk result (notes.new.items
        ≡ notes.old.items ++ function_notes program.now spawned (option_map (λ f. view_function f.now) of.entry)) }
{
    match of {
        None => Ok(()),
        Some(of) => {
            if spawned {
                parameters(program, &of.name.text, of.parameters.as_slice(), notes)
            } else {
                Ok(())
            }
        }
    }
}

/// Says what is to be said of the functions that are spawned.
pub(crate) fn spawned(program: &Moded, reached: &Reached, notes: &mut Notes) -> Noting
    requires { AreReached program.now.typed reached.now }
    ensures { OnOk result (notes.new.items
        ≡ notes.old.items ++ spawned_notes program.now 0 (functions_in program.now.typed.program.items)) }
{
    spawned_are_told();
    let typed = program.typed();
    let count = typed.function_count();
    if count > u32::MAX as usize {
        return Err(AllocError);
    }
    for n in 0..count as u32 {
        function(program, reached.spawned(n), typed.function_at(n), notes)?;
    }
    Ok(())
}

fn global(touched: bool, of: Option<&GlobalDefinition>, notes: &mut Notes) -> Noting
    ensures { OnOk result (notes.new.items ≡ notes.old.items ++ global_notes touched (option_copied of.entry)) }
{
    match of {
        None => Ok(()),
        Some(of) => {
            let written = &of.declaration.written;
            if touched && begins_private(written.ctype.levels.as_slice()) {
                let alloc = *notes.allocator();
                let name = of.declaration.name.text.copy(alloc)?;
                notes.push(error(alloc, ErrorCode::PrivateReachesThread, written.span, name))?;
            }
            Ok(())
        }
    }
}

/// Whether the mode that is written at the top is private.
fn begins_private(levels: &[Option<Mode>]) -> bool
    ensures { result ≡ is_private_level (top_of levels.now) }
{
    match levels {
        [] => false,
        [top, ..] => is_private_level(top),
    }
}

/// Says what is to be said of the globals that are touched.
pub(crate) fn touched(program: &Moded, reached: &Reached, notes: &mut Notes) -> Noting
    requires { length reached.now.firsts ≡ length (globals_in program.now.typed.program.items) }
    ensures { OnOk result (notes.new.items
        ≡ notes.old.items ++ touched_notes (touched_by reached.now) 0 (globals_in program.now.typed.program.items)) }
{
    let typed = program.typed();
    let count = typed.global_count();
    if count > u32::MAX as usize {
        return Err(AllocError);
    }
    for n in 0..count as u32 {
        global(reached.touched(n).is_some(), typed.global_at(n), notes)?;
    }
    Ok(())
}
