//! What is known of a turn's event before its step is made.

ghost use Rattle.std.specs.Prelude.{◌≡◌, ℕ, None};
ghost use Rattle.sharc_code.specs.{declared.code.Code.Code, Machine.{instr_at, function_of}, Says.argument_of};
ghost use Rattle.sharc_code.specs.Says.{of_argument, place_at};
ghost use Rattle.sharc_history.specs.{Told.{value_of, number_of, site_of, IsComing}, Origins.{loads_at, enters_at}};
ghost use Rattle.sharc_history.specs.{Origins.{starts_at, origin_by, origin_at}, References.argument_refers};
ghost use Rattle.sharc_history.specs.References.{next_refers, register_refers, free_refers, spawn_refers, refers_by};
ghost use Rattle.sharc_history.specs.References.{refers_at};

use crate::cells::{Origin, Where, cell_at};
use sharc_code::{Cell, Code, Function, Instr, Parameter, Register, Stage, Text};
use sharc_cpu::Thread;
use sharc_heap::NewState;
use sharc_tree::token::Site;

/// What a new thread is handed: an integer, or the reference of the object that has this number.
#[derive(Clone, Copy)]
pub enum Argument {
    Int(i64),
    Reference(u64),
}

/// What a thread's next turn is to the source. Objects go by their numbers.
#[derive(Clone, Copy)]
pub enum Next {
    /// No event, whatever its step finds.
    Nothing,
    Reads(Where),
    ReadsReference(Where),
    Writes(Where, i64),
    WritesReference(Where, u64),
    /// A try, which is an event where the mutex is free.
    Locks(Where),
    Unlocks(Where),
    /// A try, which is an event where the thread of this number is gone.
    Joins(i64),
    Prints(i64),
    Gives(u64),
    Frees(u64),
    /// Of a local; an event where it is not NULL.
    Takes(u64),
    TakesCell(Where),
    /// The function, what it is handed, and the number of the new thread.
    Spawns(u32, Argument, u32),
    /// An event where the length is written.
    Makes(NewState),
    Starts(Parameter),
    Returns,
    Ends,
    Enters(Where),
    /// A try, which is an event where the thread is no waiter.
    Wakes(Where),
    Signals(Where),
    /// The same, where this was found before.
    SignalsSeen(Where, u64),
    Broadcasts(Where),
}

/// The next turn, and where in the source it is.
#[derive(Clone, Copy)]
pub struct Coming {
    pub origin: Origin,
    pub next: Next,
}

const NO_FUNCTION: Function = Function {
    entry: 0,
    ints: 0,
    refs: 0,
    parameter: Parameter::None,
    site: Site {
        file: 0,
        line: 0,
        token: 0,
    },
    name: Text { from: 0, until: 0 },
};

/// The function of this number.
pub(crate) fn function_of(code: &Code, function: u64) -> Function
    ensures { result ≡ function_of code.now function }
{
    match code.functions.get(function as usize).copied() {
        Some(function) => function,
        None => NO_FUNCTION,
    }
}

pub(crate) fn instr_at(code: &Code, pc: usize) -> Instr
    ensures { result ≡ instr_at code.now pc }
{
    match code.instrs.get(pc).copied() {
        Some(instr) => instr,
        None => Instr::Exit,
    }
}

fn at_site(site: u32, next: Next) -> Coming
    ensures { result ≡ record { origin = Origin.Site site; next = next } }
{
    Coming {
        origin: Origin::Site(site),
        next,
    }
}

fn in_function(function: u64, next: Next) -> Coming
    ensures { result ≡ record { origin = Origin.Function function; next = next } }
{
    Coming {
        origin: Origin::Function(function),
        next,
    }
}

// Where a reference is loaded at this site, before this instruction: the lock of another site may be behind it.
fn loads(site: u32, behind: Instr) -> Origin
    ensures site { (code : Code) → site_of code result ≡ (place_at code site).site }
    ensures origin { result ≡ loads_at site behind }
{
    match behind {
        Instr::ChkLockLoaded(of) => Origin::Lock(site, of),
        _ => Origin::Site(site),
    }
}

// Where a thread becomes a waiter at this site, two instructions before this one: it says of which condition.
fn enters(site: u32, behind: Instr) -> Origin
    ensures site { (code : Code) → site_of code result ≡ (place_at code site).site }
    ensures origin { result ≡ enters_at site behind }
{
    match behind {
        Instr::CondWait(_, of) => Origin::Wait(site, of),
        _ => Origin::Site(site),
    }
}

// Where the instruction is to free the object in this register.
fn freed(thread: &Thread, r: u32, layout: u32, site: u32) -> Coming
    ensures coming { (code : Code) → IsComing code (Instr.Free r layout site) thread.now.machine result }
    ensures origin { result.origin ≡ Origin.Site site }
    ensures refers { (found : ℕ)
        → next_refers result.next found ≡ free_refers thread.now.machine r thread.now.machine.own.stage }
{
    match thread.stage() {
        Stage::Uncounts(_) => at_site(site, Next::Frees(thread.reference(r))),
        _ => at_site(site, Next::Nothing),
    }
}

// Where it is to make an object.
fn made(thread: &Thread, to: u32, count: u32, cells: u32, site: u32) -> Coming
    ensures coming { (code : Code) → IsComing code (Instr.New to count cells site) thread.now.machine result }
    ensures origin { result.origin ≡ Origin.Site site }
    ensures refers { (found : ℕ) → next_refers result.next found ≡ None }
{
    match thread.stage() {
        Stage::Makes(state) => at_site(site, Next::Makes(state)),
        _ => at_site(site, Next::Nothing),
    }
}

fn handed(thread: &Thread, from: Register) -> Argument
    ensures value { (elements : ℕ) → value_of result elements ≡ argument_of thread.now.machine from elements }
    ensures number { number_of result ≡ of_argument thread.now.machine from }
    ensures refers { argument_refers result ≡ register_refers thread.now.machine from }
{
    match from {
        Register::Int(r) => Argument::Int(thread.int(r)),
        Register::Reference(r) => Argument::Reference(thread.reference(r)),
    }
}

// Where it is to start a thread of this function.
fn spawned(thread: &Thread, to: u32, function: u32, from: Register, site: u32) -> Coming
    ensures coming { (code : Code) → IsComing code (Instr.Spawn to function from site) thread.now.machine result }
    ensures origin { result.origin ≡ Origin.Site site }
    ensures refers { (found : ℕ)
        → next_refers result.next found ≡ spawn_refers thread.now.machine from thread.now.machine.own.stage }
{
    let argument = handed(thread, from);
    match thread.stage() {
        Stage::Begins(number) => at_site(site, Next::Spawns(function, argument, number)),
        _ => at_site(site, Next::Nothing),
    }
}

// Where it is the beginning of a thread.
fn started(code: &Code, thread: &Thread, site: u32) -> Coming
    ensures coming { IsComing code.now (Instr.Start site) thread.now.machine result }
    ensures origin { result.origin ≡ starts_at thread.now.machine.own.stage }
    ensures refers { (found : ℕ)
        → next_refers result.next found ≡ refers_by code.now thread.now.machine (Instr.Start site) found }
{
    match thread.stage() {
        Stage::Enters(function) => {
            let parameter = function_of(code, function).parameter;
            in_function(function, Next::Starts(parameter))
        }
        _ => in_function(0, Next::Nothing),
    }
}

// Where it is the end of one.
fn ended(thread: &Thread) -> Coming
    ensures coming { (code : Code) → IsComing code Instr.Exit thread.now.machine result }
    ensures origin { result.origin ≡ Origin.Function thread.now.machine.own.function }
    ensures refers { (found : ℕ) → next_refers result.next found ≡ None }
{
    let next = match thread.stage() {
        Stage::Withdraws(_) | Stage::WithdrawsFrom(_, _) => Next::Nothing,
        Stage::Leaves => Next::Ends,
        _ => Next::Returns,
    };
    in_function(thread.function(), next)
}

// Where it is to take a waiter away.
fn signalled(code: &Code, thread: &Thread, cell: Cell, site: u32) -> Coming
    ensures coming { IsComing code.now (Instr.CondSignal cell site) thread.now.machine result }
    ensures origin { result.origin ≡ Origin.Site site }
    ensures refers { (found : ℕ)
        → next_refers result.next found ≡ refers_by code.now thread.now.machine (Instr.CondSignal cell site) found }
{
    let at = cell_at(code, thread, cell);
    match thread.stage() {
        Stage::Wakes(seen) => at_site(site, Next::SignalsSeen(at, seen)),
        _ => at_site(site, Next::Signals(at)),
    }
}

// Where it is to load a reference from this cell.
fn loaded(code: &Code, thread: &Thread, cell: Cell, site: u32) -> Coming
    ensures coming { IsComing code.now (Instr.LoadRef cell site) thread.now.machine result }
    ensures origin { result.origin ≡ origin_by code.now thread.now.machine (Instr.LoadRef cell site) }
    ensures refers { (found : ℕ)
        → next_refers result.next found ≡ refers_by code.now thread.now.machine (Instr.LoadRef cell site) found }
{
    let behind = instr_at(code, thread.pc().wrapping_add(1));
    Coming {
        origin: loads(site, behind),
        next: Next::ReadsReference(cell_at(code, thread, cell)),
    }
}

// Where it is to make the thread a waiter.
fn entered(code: &Code, thread: &Thread, cell: Cell, site: u32) -> Coming
    ensures coming { IsComing code.now (Instr.CondEnter cell site) thread.now.machine result }
    ensures origin { result.origin ≡ origin_by code.now thread.now.machine (Instr.CondEnter cell site) }
    ensures refers { (found : ℕ)
        → next_refers result.next found ≡ refers_by code.now thread.now.machine (Instr.CondEnter cell site) found }
{
    let behind = instr_at(code, thread.pc().wrapping_add(2));
    Coming {
        origin: enters(site, behind),
        next: Next::Enters(cell_at(code, thread, cell)),
    }
}

/// What the thread's next turn is.
pub(crate) fn next_of(code: &Code, thread: &Thread) -> Coming
    ensures coming { IsComing code.now (instr_at code.now thread.now.machine.at.pc) thread.now.machine result }
    ensures origin { result.origin ≡ origin_at code.now thread.now.machine }
    ensures refers { (found : ℕ) → next_refers result.next found ≡ refers_at code.now thread.now.machine found }
{
    next_by(code, instr_at(code, thread.pc()), thread)
}

// The same of a thread that is at this instruction.
fn next_by(code: &Code, instr: Instr, thread: &Thread) -> Coming
    ensures coming { IsComing code.now instr thread.now.machine result }
    ensures origin { result.origin ≡ origin_by code.now thread.now.machine instr }
    ensures refers { (found : ℕ)
        → next_refers result.next found ≡ refers_by code.now thread.now.machine instr found }
{
    match instr {
        Instr::Load(_, cell, site) => at_site(site, Next::Reads(cell_at(code, thread, cell))),
        Instr::LoadRef(cell, site) => loaded(code, thread, cell, site),
        Instr::Store(r, cell, site) => {
            at_site(
                site,
                Next::Writes(cell_at(code, thread, cell), thread.int(r)),
            )
        }
        Instr::Exchange(r, cell, site) => {
            let at = cell_at(code, thread, cell);
            at_site(site, Next::WritesReference(at, thread.reference(r)))
        }
        Instr::TakeCell(_, cell, site) => at_site(
            site,
            Next::TakesCell(cell_at(code, thread, cell)),
        ),
        Instr::TakeLocal(_, from, site) => at_site(site, Next::Takes(thread.reference(from))),
        Instr::Give(r, site) => at_site(site, Next::Gives(thread.reference(r))),
        Instr::New(to, count, cells, site) => made(thread, to, count, cells, site),
        Instr::Free(r, layout, site) => freed(thread, r, layout, site),
        Instr::Lock(cell, site) => at_site(site, Next::Locks(cell_at(code, thread, cell))),
        Instr::Unlock(_, cell, site) => at_site(site, Next::Unlocks(cell_at(code, thread, cell))),
        Instr::Spawn(to, function, from, site) => spawned(thread, to, function, from, site),
        Instr::Join(r, site) => at_site(site, Next::Joins(thread.int(r))),
        Instr::Print(r, site) => at_site(site, Next::Prints(thread.int(r))),
        Instr::Start(site) => started(code, thread, site),
        Instr::Exit => ended(thread),
        Instr::CondEnter(cell, site) => entered(code, thread, cell, site),
        Instr::CondWait(cell, site) => at_site(site, Next::Wakes(cell_at(code, thread, cell))),
        Instr::CondSignal(cell, site) => signalled(code, thread, cell, site),
        Instr::CondBroadcast(cell, site) => at_site(
            site,
            Next::Broadcasts(cell_at(code, thread, cell)),
        ),
        _ => in_function(0, Next::Nothing),
    }
}
