//! The text of a run of a list of instructions.

ghost use Rattle.std.specs.Prelude.{◌≡◌, ◌≤◌, ◌<◌, IfOk};
ghost use Rattle.sharc_word.specs.declared.step.TheConstants.{THREADS as threads};
ghost use Rattle.sharc_code.specs.Layout.{Fits};
ghost use Rattle.sharc_run.specs.Others.{AreAllowed};

use sharc_code::{
    Cell, Code, Function, Instr, Parameter, PlaceMode, Shape, SourcePlace, Text, Use,
};
use sharc_run::run_text;
use sharc_seq::{Chooser, SeqRun, run_seq};
use sharc_tree::listed::Listed;
use sharc_tree::name::{Name, Names};
use sharc_tree::token::Site;
use sharc_word::THREADS;
use std::alloc::{AllocError, Global};
use std::process::Abort;
use std::test::Fail;

/// The granules of the globals: cells 2 to 9, counted from the first cell of granule 0.
const GLOBALS: u32 = 4;

/// A mutex, a condition, and two values of granules of their own.
pub const MUTEX: Cell = Cell::Global(0, 2);

pub const COND: Cell = Cell::Global(0, 3);

pub const VALUE: Cell = Cell::Global(0, 6);

/// The texts of all sites.
const TEXTS: &[u8] = b"gp->np->mc";

fn text(from: u32, until: u32) -> Text {
    Text { from, until }
}

/// The site on this line: of `p->n` with the lock `p->m`, of `c`, or of `g`.
fn place(line: u32) -> SourcePlace {
    let (lvalue, at) = match line {
        3 => (text(1, 5), Use::Read),
        4 => (text(1, 5), Use::Write),
        5 => (text(1, 5), Use::Free(None)),
        6 => (text(9, 10), Use::Other),
        _ => (text(0, 1), Use::Other),
    };
    SourcePlace {
        site: Site {
            file: 0,
            line,
            token: 0,
        },
        lvalue,
        lock: text(5, 9),
        mode: PlaceMode::Dynamic,
        at,
    }
}

/// A site on each of the lines 0 to 19.
fn sites(alloc: Global) -> Result<Vec<SourcePlace>, AllocError> {
    let mut sites = Vec::new(alloc);
    for line in 0..20 {
        sites.push(place(line))?;
    }
    Ok(sites)
}

/// A function with four registers of each bank.
pub fn function(entry: u32) -> Function {
    Function {
        entry,
        ints: 4,
        refs: 4,
        parameter: Parameter::None,
        site: Site {
            file: 0,
            line: 1,
            token: 0,
        },
        name: Text { from: 0, until: 0 },
    }
}

fn files(alloc: Global) -> Result<Names, AllocError> {
    let mut files = Vec::new(alloc);
    files.push(Name::from_slice(alloc, b"input")?)?;
    Ok(Listed::of(files))
}

fn instrs(alloc: Global, body: &[Instr]) -> Result<Vec<Instr>, AllocError> {
    let mut instrs = Vec::new(alloc);
    instrs.push(Instr::Start(0))?;
    instrs.push(Instr::Exit)?;
    instrs.extend_from_slice(body)?;
    Ok(instrs)
}

fn functions(alloc: Global, others: &[u32]) -> Result<Vec<Function>, AllocError> {
    let mut functions = Vec::new(alloc);
    functions.push(function(2))?;
    for entry in others {
        functions.push(function(*entry))?;
    }
    Ok(functions)
}

/// The code of these instructions, of which the first is at place 2, where `main` begins; other functions begin at
/// these places.
fn code(alloc: Global, body: &[Instr], others: &[u32]) -> Result<Code, AllocError>
    ensures { IfOk result (λ code. code.granules ≡ 4) }
{
    Ok(Code {
        instrs: instrs(alloc, body)?,
        functions: functions(alloc, others)?,
        main: 0,
        globals: Vec::new(alloc),
        granules: GLOBALS,
        initial: Vec::new(alloc),
        layouts: Vec::new(alloc),
        pointers: Vec::new(alloc),
        sites: sites(alloc)?,
        texts: Vec::from_slice(alloc, TEXTS)?,
        files: files(alloc)?,
    })
}

fn shape() -> Shape
    ensures threads { result.threads ≡ threads }
    ensures globals { result.globals ≡ 4 }
    ensures heap { result.heap ≡ 64 }
{
    Shape {
        threads: THREADS,
        globals: GLOBALS,
        heap: 64,
    }
}

/// The run in which the last of the threads that may always makes the next turn.
fn by_last(alloc: Global, code: &Code, shape: &Shape) -> Result<SeqRun, AllocError>
    requires fits { Fits code.now shape.now }
    ensures { IfOk result (λ run. AreAllowed run.threads.items) }
{
    let chooser = Chooser::new(
        |_turn: u64, count: u64| -> u64
            requires { 1 ≤ count }
            ensures { result < count }
        { count - 1 },
    );
    run_seq(alloc, code, shape, &chooser, 100)
}

fn text_of(alloc: Global, body: &[Instr], others: &[u32]) -> Result<Vec<u8>, AllocError> {
    let code = code(alloc, body, others)?;
    let run = by_last(alloc, &code, &shape())?;
    run_text(alloc, &code, run.words.as_slice(), run.threads.as_slice())
}

/// Asserts the text of that run; each thread makes at most 100 events.
pub fn assert_text(
    rt: &(impl Abort + AllocGlobal),
    body: &[Instr],
    others: &[u32],
    expected: &str,
) -> Result<(), Fail> {
    let text = text_of(rt.alloc(), body, others)?;
    assert!(rt; text.as_slice() == expected.as_bytes(), "{text:?}");
    Ok(())
}
