//! Code made of a list of instructions, the shape of its words, and what is looked at of the threads of a run.

ghost use Rattle.std.specs.Prelude.{◌≡◌, IfOk};
ghost use Rattle.sharc_word.specs.declared.step.TheConstants.{THREADS as threads};

use sharc_code::{Code, Function, Instr, Layout, Parameter, Shape, Stop, Text};
use sharc_cpu::Thread;
use sharc_tree::name::Names;
use sharc_tree::token::Site;
use sharc_tree::trap::Trap;
use sharc_word::THREADS;
use std::alloc::{AllocError, Global};

// The granules of the globals: cells 2 to 21, counted from the first cell of granule 0.
const GLOBALS: u32 = 10;

/// A shape of 75 granules. The shadow words begin at word 97, the cells at word 172, and there are 322 words; the heap
/// begins at granule 11.
pub fn shape() -> Shape
    ensures threads { result.threads ≡ threads }
    ensures globals { result.globals ≡ 10 }
    ensures heap { result.heap ≡ 64 }
{
    Shape {
        threads: THREADS,
        globals: GLOBALS,
        heap: 64,
    }
}

/// A function with eight registers of each bank.
pub fn function(entry: u32, parameter: Parameter) -> Function {
    Function {
        entry,
        ints: 8,
        refs: 8,
        parameter,
        site: Site {
            file: 0,
            line: 1,
            token: 0,
        },
        name: Text { from: 0, until: 0 },
    }
}

// The elements of layout 0 have one cell, those of layout 1 three, of which the first and the last are pointers.
fn layouts(alloc: Global) -> Result<Vec<Layout>, AllocError> {
    let mut layouts = Vec::new(alloc);
    layouts.push(Layout {
        cells: 1,
        from: 0,
        until: 0,
    })?;
    layouts.push(Layout {
        cells: 3,
        from: 0,
        until: 2,
    })?;
    Ok(layouts)
}

/// The code of these instructions and functions.
pub fn code_of(
    alloc: Global,
    instrs: Vec<Instr>,
    functions: Vec<Function>,
) -> Result<Code, AllocError>
    ensures { IfOk result (λ code. code.granules ≡ 10) }
{
    let layouts = layouts(alloc)?;
    let pointers = [0, 2].to_vec(alloc)?;
    Ok(Code {
        instrs,
        functions,
        main: 0,
        globals: Vec::new(alloc),
        granules: GLOBALS,
        initial: Vec::new(alloc),
        layouts,
        pointers,
        sites: Vec::new(alloc),
        texts: Vec::new(alloc),
        files: Names::of(Vec::new(alloc)),
    })
}

/// The code of these instructions after a Start and an Exit, so that the first of them is at place 2, where `main`
/// begins.
pub fn code(alloc: Global, body: &[Instr], others: &[Function]) -> Result<Code, AllocError>
    ensures { IfOk result (λ code. code.granules ≡ 10) }
{
    let mut instrs = Vec::new(alloc);
    instrs.push(Instr::Start(0))?;
    instrs.push(Instr::Exit)?;
    instrs.extend_from_slice(body)?;
    let mut functions = Vec::new(alloc);
    functions.push(function(2, Parameter::None))?;
    functions.extend_from_slice(others)?;
    code_of(alloc, instrs, functions)
}

/// The values that were printed, in their order: at most three.
pub type Printed = [Option<i64>; 3];

/// The prints of one thread more.
pub fn add_prints(mut printed: Printed, thread: &Thread) -> Printed {
    for print in thread.prints() {
        if print.place < 3 {
            printed[print.place as usize] = Some(print.value);
        }
    }
    printed
}

/// The trap at which a thread stopped, and its site.
pub fn trap_of(stop: Option<Stop>) -> Option<(Trap, u32)> {
    match stop {
        Some(Stop::Trap(trap, site)) => Some((trap, site)),
        _ => None,
    }
}
