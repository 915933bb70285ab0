// A program with a cast written in it.

ghost use Rattle.std.specs.Prelude.{◌≡◌, ◌+◌, ◌<◌, ◌≤◌, ◌^◌, All, None, length, map, replicate, IfOk, IsTrue};
ghost use Rattle.sharc_tree.specs.View.{view_program};
ghost use Rattle.sharc_ctype.specs.{Entities.entity_at, Items.named_in};
ghost use Rattle.sharc_suggest_laws.specs.Applied.{names_struct, base_site, recast_of, targets, inserted, moved};
ghost use Rattle.sharc_suggest_laws.specs.Applied.{resolution_with, first_of, assignment_with};

use crate::modes::{below, modes_with, reasons_with};
use crate::written::{Recast, Rewritten};
use sharc_ctype::entity::Numbered;
use sharc_ctype::typed::{Typed, type_program};
use sharc_mode::error::Cast;
use sharc_mode::moded::Moded;
use sharc_mode::position::Reason;
use sharc_tree::ctype::{Base, Mode};
use sharc_tree::listed::Listed;
use sharc_tree::token::{Site, Token};
use sharc_tree::tree::Program;
use std::alloc::{AllocError, Global};

fn names_struct(a: &Base, b: &Base) -> bool
    ensures { result ≡ names_struct a.now b.now }
{
    match (a, b) {
        (Base::Struct(a), Base::Struct(b)) => a.as_slice() == b.as_slice(),
        _ => false,
    }
}

/// Where the struct of a type is named: as in the first type that names it.
fn base_site(types: &[Numbered], base: &Base, site: Site) -> Site
    ensures { result ≡ base_site types.now base.now site }
{
    for one in types {
        if names_struct(&one.entity.written.ctype.base, base) {
            return one.entity.written.base;
        }
    }
    site
}

fn recast_of(alloc: Global, typed: &Typed, cast: &Cast) -> Rewritten<Recast>
    ensures { IfOk result (λ r. r ≡ recast_of typed.now cast.now) }
{
    let base = base_site(typed.entities(), &cast.to.base, cast.site);
    let to = cast.to.copy(alloc)?;
    Ok(Recast {
        from: cast.from,
        until: cast.until,
        base,
        to,
    })
}

/// Whether the file of each token is one of this many.
fn have_files(tokens: &[Token], files: usize) -> bool
    ensures { IsTrue result → All (λ t. t.file < files) tokens.now }
{
    for token in tokens {
        if token.file as usize >= files {
            return false;
        }
    }
    true
}

/// Whether a program is of a size that is typed, and names its files.
fn fits(program: &Program) -> bool
    ensures few { IsTrue result → length program.now.tokens.list ≤ 2 ^ 20 }
    ensures few_items { IsTrue result → length program.now.items + 1 < 2 ^ 32 }
    ensures files { IsTrue result → All (λ t. t.file < length program.now.tokens.files) program.now.tokens.list }
    ensures end_file { IsTrue result → program.now.tokens.end.file < length program.now.tokens.files }
{
    let files = program.tokens.files.len();
    program.tokens.list.len() <= 1_048_576
        && program.items.len() < 4_294_967_295
        && have_files(program.tokens.list.as_slice(), files)
        && (program.tokens.end.file as usize) < files
}

/// A program typed again.
fn typed_again(alloc: Global, program: Program) -> Rewritten<Typed>
    ensures { IfOk result (λ t. t
        ≡ record { program = view_program program; named = named_in (view_program program) }) }
{
    if !fits(&program) {
        return Err(AllocError);
    }
    match type_program(alloc, program) {
        Ok(typed) => {
            typed.program();
            Ok(typed)
        }
        Err(_) => Err(AllocError),
    }
}

fn typed_with(alloc: Global, typed: &Typed, cast: &Cast) -> Rewritten<Typed>
    ensures { IfOk result (λ new. new ≡ resolution_with cast.now typed.now) }
{
    let recast = recast_of(alloc, typed, cast)?;
    let program = recast.program(alloc, typed.program())?;
    typed_again(alloc, program)
}

/// The number of the first position of the cast at these tokens.
fn first_of(typed: &Typed, from: u32, until: u32) -> u32
    ensures { result ≡ first_of (entity_at typed.now from until) }
{
    match typed.entity_at(from, until) {
        None => 0,
        Some(numbered) => numbered.first,
    }
}

/// The modes of a program, in their order.
fn modes_of(alloc: Global, program: &Moded) -> Rewritten<Vec<Mode>>
    ensures { IfOk result (λ list. list.items ≡ program.now.modes) }
{
    let count = program.position_count();
    let mut list = Vec::new(alloc);
    for position in 0..count {
        list.push(program.mode(position).copy(alloc)?)?;
    }
    Ok(list)
}

/// The reasons of a program, in their order.
fn reasons_of(alloc: Global, program: &Moded) -> Rewritten<Vec<Option<Reason>>>
    ensures { IfOk result (λ list. list.items ≡ program.now.reasons) }
{
    let count = program.position_count();
    let mut list = Vec::new(alloc);
    for position in 0..count {
        list.push(program.reason(position))?;
    }
    Ok(list)
}

/// The modes with those of the cast's targets among them.
fn new_modes(alloc: Global, program: &Moded, cast: &Cast, first: u32) -> Rewritten<Vec<Mode>>
    ensures { IfOk result (λ list. list.items ≡ inserted first (targets cast.now.to.levels) program.now.modes) }
{
    let modes = modes_of(alloc, program)?;
    if first as usize > modes.len() {
        return Err(AllocError);
    }
    modes_with(
        alloc,
        first as usize,
        cast.to.levels.as_slice(),
        modes.as_slice(),
    )
}

/// The reasons with room for the cast's targets among them.
fn new_reasons(
    alloc: Global,
    program: &Moded,
    first: u32,
    count: u32,
) -> Rewritten<Vec<Option<Reason>>>
    ensures { IfOk result (λ list. list.items
        ≡ map (moved first count) (inserted first (replicate count None) program.now.reasons)) }
{
    let reasons = reasons_of(alloc, program)?;
    if first as usize > reasons.len() {
        return Err(AllocError);
    }
    reasons_with(alloc, first, count, reasons.as_slice())
}

/// A typed program with these modes and reasons, if they are as many as its positions.
fn assigned(typed: Typed, modes: Vec<Mode>, reasons: Vec<Option<Reason>>) -> Rewritten<Moded>
    ensures { IfOk result (λ m. m ≡ record { typed = typed; modes = modes.items; reasons = reasons.items }) }
{
    let count = typed.position_count() as usize;
    if modes.len() == count && reasons.len() == count {
        Ok(Moded::assign(typed, Listed::of(modes), Listed::of(reasons)))
    } else {
        Err(AllocError)
    }
}

/// The modes and the reasons, where the cast's first position has this number.
fn parts(
    alloc: Global,
    program: &Moded,
    cast: &Cast,
    first: u32,
) -> Rewritten<(Vec<Mode>, Vec<Option<Reason>>)>
    ensures modes { IfOk result (λ p. p.0.items ≡ inserted first (targets cast.now.to.levels) program.now.modes) }
    ensures reasons { IfOk result (λ p. p.1.items ≡ map (moved first (length (targets cast.now.to.levels)))
        (inserted first (replicate (length (targets cast.now.to.levels)) None) program.now.reasons)) }
{
    let count = below(cast.to.levels.as_slice()).len();
    if count > u32::MAX as usize {
        return Err(AllocError);
    }
    let reasons = new_reasons(alloc, program, first, count as u32)?;
    let modes = new_modes(alloc, program, cast, first)?;
    Ok((modes, reasons))
}

fn moded_with(alloc: Global, program: &Moded, cast: &Cast, typed: Typed) -> Rewritten<Moded>
    requires { typed ≡ resolution_with cast.now program.now.typed }
    ensures { IfOk result (λ new. new ≡ assignment_with cast.now program.now) }
{
    let first = first_of(&typed, cast.from, cast.until);
    let (modes, reasons) = parts(alloc, program, cast, first)?;
    assigned(typed, modes, reasons)
}

/// The program with the cast written round the expression that has its tokens, wherever that is passed, assigned or
/// returned, or initialises a local. The modes of all old positions are kept, and those of the new cast are the modes
/// of its type. No token is added. Nothing is asked of the cast. Where it is not one that is suggested, the program may
/// be one that is not typed: then out of memory is the answer, too.
pub fn apply(alloc: Global, program: &Moded, cast: &Cast) -> Result<Moded, AllocError>
    ensures { IfOk result (λ new. new ≡ assignment_with cast.now program.now) }
{
    let typed = typed_with(alloc, program.typed(), cast)?;
    moded_with(alloc, program, cast, typed)
}
