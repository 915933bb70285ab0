// The text that explains the modes of a program.

ghost use Rattle.std.specs.{Prelude.{◌≡◌, ◌++◌, ◌+◌, ◌-◌, ◌≤◌, map, slice_get, Some, IfOk, OnOk}, Option.option_copied};
ghost use Rattle.sharc_tree.specs.Texts.{Appends};
ghost use Rattle.sharc_ctype.specs.Entities.{entities_in, first_depth, numbered, positions_of};
ghost use Rattle.sharc_mode.specs.Moded.{position_count, reason_at};
ghost use Rattle.sharc_report.specs.Explanations.{source_text, named_as, entity_text, function_name, owners, owner_at};
ghost use Rattle.sharc_report.specs.Explanations.{position_text, reason_text, reason_line, reason_lines, is_explained};
ghost use Rattle.sharc_report.specs.Explanations.{entity_line, explanation, explain_text};

use crate::owners::owners;
use crate::put::{Put, put_number, put_three, put_token_place, put_tokens, put_two};
use sharc_ctype::entity::{Entity, Numbered, first_depth};
use sharc_ctype::typed::Typed;
use sharc_mode::moded::Moded;
use sharc_mode::position::Reason;
use sharc_mode::shown::printed_type;
use sharc_mode::text::text_at;
use sharc_names::types::Role;
use sharc_tree::print::print_type;
use std::alloc::{AllocError, Global};

/// The lvalue of a cast.
fn put_source(text: &mut Vec<u8>, typed: &Typed, e: &Entity) -> Put
    ensures { Appends result (source_text typed.now e.now) text.old.items text.new.items }
{
    let last = e.last;
    let from = u64::from(e.written.span.last.token) + 2;
    if from < u64::from(last) {
        put_tokens(text, typed, from as u32, last - 1)
    } else {
        put_tokens(text, typed, e.token, last)
    }
}

/// What it is, and its name.
fn put_named(text: &mut Vec<u8>, typed: &Typed, e: &Entity) -> Put
    ensures { Appends result (named_as e.now.role typed.now e.now) text.old.items text.new.items }
{
    match e.role {
        Role::Field => put_two(text, b"field ", text_at(typed, e.token)),
        Role::Global => put_two(text, b"global ", text_at(typed, e.token)),
        Role::Local => put_two(text, b"local ", text_at(typed, e.token)),
        Role::Parameter => put_two(text, b"parameter ", text_at(typed, e.token)),
        Role::Result => put_two(text, b"result ", text_at(typed, e.token)),
        Role::Cast => {
            text.extend_from_slice(b"cast of ")?;
            put_source(text, typed, e)
        }
        Role::Made => Ok(()),
    }
}

fn put_entity(text: &mut Vec<u8>, typed: &Typed, between: &[u8], e: &Entity) -> Put
    ensures { Appends result (entity_text typed.now between.now e.now) text.old.items text.new.items }
{
    put_token_place(text, typed, e.token)?;
    text.extend_from_slice(between)?;
    put_named(text, typed, e)
}

/// The name of a function.
fn function_name(typed: &Typed, function: u32) -> &[u8]
    ensures { result.now ≡ function_name typed.now function }
{
    match typed.function_at(function) {
        None => &[],
        Some(definition) => definition.name.text.as_slice(),
    }
}

/// The entity of a position.
fn owner_at<'a>(owners: &[&'a Numbered], position: u32) -> Option<&'a Numbered>
    ensures { option_copied result ≡ slice_get (map (λ o. o.now) owners.now) position }
{
    let position = position as usize;
    if position < owners.len() {
        Some(owners[position])
    } else {
        None
    }
}

fn put_position(text: &mut Vec<u8>, typed: &Typed, position: u32, owner: Option<&Numbered>) -> Put
    ensures { Appends result
        (position_text typed.now position (option_copied owner.entry)) text.old.items text.new.items }
{
    match owner {
        None => Ok(()),
        Some(n) => {
            let depth = first_depth(n.entity.role) as u64
                + u64::from(position.saturating_sub(n.first));
            put_entity(text, typed, b" ", &n.entity)?;
            text.extend_from_slice(b" depth ")?;
            put_number(text, depth)
        }
    }
}

/// Why a position is dynamic.
fn put_reason(text: &mut Vec<u8>, typed: &Typed, all: &[&Numbered], reason: Reason) -> Put
    requires { map (λ o. o.now) all.now ≡ owners (numbered (entities_in typed.now.program.items)) }
    ensures { Appends result (reason_text typed.now reason) text.old.items text.new.items }
{
    match reason {
        Reason::Touched(function) => put_two(text, b"touched in ", function_name(typed, function)),
        Reason::Spawned(function) => {
            put_two(text, b"passed to spawned ", function_name(typed, function))
        }
        Reason::From(position) => {
            text.extend_from_slice(b"from ")?;
            put_position(text, typed, position, owner_at(all, position))
        }
    }
}

/// The line of a position that was inferred to be dynamic.
fn put_line(
    text: &mut Vec<u8>,
    typed: &Typed,
    all: &[&Numbered],
    depth: usize,
    reason: Option<Reason>,
) -> Put
    requires { map (λ o. o.now) all.now ≡ owners (numbered (entities_in typed.now.program.items)) }
    ensures { Appends result (reason_line typed.now depth reason) text.old.items text.new.items }
{
    match reason {
        None => Ok(()),
        Some(reason) => {
            text.extend_from_slice(b"  depth ")?;
            put_number(text, depth as u64)?;
            text.extend_from_slice(b": ")?;
            put_reason(text, typed, all, reason)?;
            text.extend_from_slice(b"\n")
        }
    }
}

/// Those of the positions of an entity, by depth.
fn put_lines(text: &mut Vec<u8>, program: &Moded, all: &[&Numbered], n: &Numbered) -> Put
    requires all { map (λ o. o.now) all.now ≡ owners (numbered (entities_in program.now.typed.program.items)) }
    requires within { n.now.first + positions_of n.now.entity ≤ position_count program.now.typed }
    ensures { Appends result
        (reason_lines program.now n.now (positions_of n.now.entity)) text.old.items text.new.items }
{
    let _all = program.position_count();
    let first = first_depth(n.entity.role);
    for i in 0..n.entity.positions() {
        let reason = program.reason(n.first + i as u32);
        put_line(text, program.typed(), all, first + i, reason)?;
    }
    Ok(())
}

/// Whether an entity with this many positions has a line.
fn is_explained(role: Role, positions: usize) -> bool
    ensures { result ≡ is_explained role positions }
{
    match role {
        Role::Global | Role::Local | Role::Parameter | Role::Cast => true,
        Role::Result => positions > 0,
        Role::Field | Role::Made => false,
    }
}

fn put_entity_line(text: &mut Vec<u8>, program: &Moded, n: &Numbered) -> Put
    requires { n.now.first + positions_of n.now.entity ≤ position_count program.now.typed }
    ensures { Appends result (entity_line program.now n.now) text.old.items text.new.items }
{
    put_entity(text, program.typed(), b": ", &n.entity)?;
    let alloc = *text.allocator();
    let printed = printed_type(alloc, program, n)?;
    let printed = print_type(alloc, &printed)?;
    put_three(text, b": ", &printed, b"\n")
}

fn put_explanation(text: &mut Vec<u8>, program: &Moded, all: &[&Numbered], n: &Numbered) -> Put
    requires all { map (λ o. o.now) all.now ≡ owners (numbered (entities_in program.now.typed.program.items)) }
    requires within { n.now.first + positions_of n.now.entity ≤ position_count program.now.typed }
    ensures { Appends result (explanation program.now n.now) text.old.items text.new.items }
{
    if !is_explained(n.entity.role, n.entity.positions()) {
        return Ok(());
    }
    put_entity_line(text, program, n)?;
    put_lines(text, program, all, n)
}

/// A line for each global, parameter, local, pointer result and cast, by place, `file:line: kind name: type`, and after
/// it for each of its positions that was inferred to be dynamic, by depth, the reason.
pub fn explain_text(alloc: Global, program: &Moded) -> Result<Vec<u8>, AllocError>
    ensures { IfOk result (λ text. text.items ≡ explain_text program.now) }
{
    let _all = program.position_count();
    let all = owners(alloc, program.typed().entities())?;
    let mut text = Vec::new(alloc);
    for n in program.typed().entities() {
        put_explanation(&mut text, program, &all, n)?;
    }
    Ok(text)
}
