//! Code made of a list of instructions, and the shape of its words.

ghost use Rattle.std.specs.Prelude.{◌≡◌, IfOk};
ghost use Rattle.sharc_word.specs.declared.step.TheConstants.{THREADS as threads};
ghost use Rattle.sharc_code.specs.Layout.{words_of};

use sharc_code::{Code, Function, Instr, Layout, Parameter, Shape, Text};
use sharc_tree::name::Names;
use sharc_tree::token::Site;
use sharc_word::THREADS;
use std::alloc::{AllocError, Global};

/// The granules of the globals: cells 2 to 21, counted from the first cell of granule 0.
const GLOBALS: u32 = 10;

/// A shape of 75 granules. The shadow words begin at word 97, the cells at word 172, and there are 322 words; the heap
/// begins at granule 11.
pub fn shape() -> Shape
    ensures threads { result.threads ≡ threads }
    ensures globals { result.globals ≡ 10 }
    ensures heap { result.heap ≡ 64 }
    ensures words { 322 ≡ words_of result }
{
    Shape {
        threads: THREADS,
        globals: GLOBALS,
        heap: 64,
    }
}

fn function(entry: u32, parameter: Parameter) -> Function {
    Function {
        entry,
        ints: 8,
        refs: 8,
        parameter,
        site: Site {
            file: 0,
            line: 1,
            token: 0,
        },
        name: Text { from: 0, until: 0 },
    }
}

// `main`, a function with an integer as its parameter, and one with a reference.
fn functions(alloc: Global, entry: u32) -> Result<Vec<Function>, AllocError> {
    let mut functions = Vec::new(alloc);
    functions.push(function(entry, Parameter::None))?;
    functions.push(function(entry, Parameter::Int))?;
    functions.push(function(entry, Parameter::Reference))?;
    Ok(functions)
}

// The elements of layout 0 have one cell, those of layout 1 three, of which the first and the last are pointers.
fn layouts(alloc: Global) -> Result<Vec<Layout>, AllocError> {
    let mut layouts = Vec::new(alloc);
    layouts.push(Layout {
        cells: 1,
        from: 0,
        until: 0,
    })?;
    layouts.push(Layout {
        cells: 3,
        from: 0,
        until: 2,
    })?;
    Ok(layouts)
}

/// The code of these instructions. Each function begins at this place.
pub fn code(alloc: Global, instrs: Vec<Instr>, entry: u32) -> Result<Code, AllocError>
    ensures { IfOk result (λ code. code.granules ≡ 10) }
{
    let functions = functions(alloc, entry)?;
    let layouts = layouts(alloc)?;
    let pointers = [0, 2].to_vec(alloc)?;
    Ok(Code {
        instrs,
        functions,
        main: 0,
        globals: Vec::new(alloc),
        granules: GLOBALS,
        initial: Vec::new(alloc),
        layouts,
        pointers,
        sites: Vec::new(alloc),
        texts: Vec::new(alloc),
        files: Names::of(Vec::new(alloc)),
    })
}
