//! The code of guarded code.

ghost use Rattle.std.specs.Prelude.{◌≡◌, IfOk, slice_index_or};
ghost use Rattle.sharc_code.specs.{Machine.no_function, Ranges.NumbersFit};
ghost use Rattle.sharc_compile.specs.Generated.{IsGenerated, generated, instr_of, program_of};
ghost use Rattle.sharc_guard.specs.{Form.IsGuarded, GuardedTables.TablesFit};

use sharc_code::{Code, Function, Instr};
use sharc_guard::Guarded;
use std::alloc::{AllocError, Global};

/// The code of guarded code. It takes over the tables. Its numbers are in the ranges that the machine asks for, where
/// those of the guarded code are.
///
/// An `Err` says that memory was not found.
pub fn generate(alloc: Global, guarded: Guarded) -> Result<Code, AllocError>
    ensures is { IfOk result (λ code. IsGenerated guarded code) }
    ensures numbers { IfOk result (λ code. IsGuarded (program_of guarded) → TablesFit guarded → NumbersFit code) }
{
    let instrs = instructions(alloc, &guarded.statements, &guarded.functions)?;
    Ok(Code {
        instrs,
        functions: guarded.functions,
        main: guarded.main,
        globals: guarded.globals,
        granules: guarded.granules,
        initial: guarded.initial,
        layouts: guarded.layouts,
        pointers: guarded.pointers,
        sites: guarded.sites,
        texts: guarded.texts,
        files: guarded.files,
    })
}

// The instructions of statements.
fn instructions(
    alloc: Global,
    statements: &[Instr],
    functions: &[Function],
) -> Result<Vec<Instr>, AllocError>
    ensures { IfOk result (λ instrs. instrs.items ≡ generated functions.now statements.now) }
{
    let mut instrs = Vec::with_capacity(alloc, statements.len())?;
    for statement in statements {
        instrs.push(resolved(functions, *statement))?;
    }
    Ok(instrs)
}

// A call leads to the entry of its function; every other statement is an instruction.
fn resolved(functions: &[Function], statement: Instr) -> Instr
    ensures { result ≡ instr_of functions.now statement }
{
    match statement {
        Instr::Call(f, ints, refs, site) => {
            Instr::Call(entry_of(functions, f), ints, refs, site)
        }
        other => other,
    }
}

// The entry of a function; 0 for a number past the last.
fn entry_of(functions: &[Function], f: u32) -> u32
    ensures { result ≡ (slice_index_or functions.now f no_function).entry }
{
    match functions.get(f as usize) {
        Some(function) => function.entry,
        None => 0,
    }
}
