//! The code of a program, with what its sites are in the source.

ghost use Rattle.std.specs.Prelude.{◌≤◌};

use crate::instr::Instr;
use sharc_tree::name::Names;
use sharc_tree::token::Site;

/// A text: the bytes of the code's texts from the first number up to the second.
#[derive(Clone, Copy)]
pub struct Text {
    pub from: u32,
    pub until: u32,
}

/// What the one parameter of a function is, or that it has none; a function of more parameters is not spawned.
#[derive(Clone, Copy)]
pub enum Parameter {
    None,
    Int,
    Reference,
}

/// A function: its first place, how many registers of each bank its frame has, and what a thread of it is handed. The
/// site is that of a thread's first and last events.
#[derive(Clone, Copy)]
pub struct Function {
    pub entry: u32,
    pub ints: u32,
    pub refs: u32,
    pub parameter: Parameter,
    pub site: Site,
    pub name: Text,
}

/// A global: its first granule, and its cells.
#[derive(Clone, Copy)]
pub struct GlobalCells {
    pub granule: u32,
    pub cells: u32,
}

/// An element of an object: its cells, and which of the code's pointer fields are its own, from the first number up to
/// the second.
#[derive(Clone, Copy)]
pub struct Layout {
    pub cells: u32,
    pub from: u32,
    pub until: u32,
}

/// The mode of a place. A lock is named by where its mutex lies.
#[derive(Clone, Copy)]
pub enum PlaceMode {
    Private,
    Readonly,
    Racy,
    Dynamic,
    /// Locked by the mutex of this global, in the cell of this number, counted from the first cell of granule 0.
    LockedGlobal(u32, u32),
    /// Locked by a mutex of the same element: the place is this field, and the mutex that one.
    LockedSibling(u32, u32),
    /// Locked by the mutex in this cell of the object in this reference register.
    LockedThrough(u32, u32),
    /// Locked by the mutex whose reference was loaded last.
    LockedLoaded,
}

/// What happens at a place.
#[derive(Clone, Copy)]
pub enum Use {
    /// It is read.
    Read,
    /// It is written.
    Write,
    /// It is the source of a sharing cast; of the local variable of this number, or of a cell where it is none.
    Cast(Option<u32>),
    /// It is freed.
    Free(Option<u32>),
    /// Anything else.
    Other,
}

/// What a site of the code is in the source: the place, how its lvalue and the lock of its mode are written, its mode,
/// and its use.
#[derive(Clone, Copy)]
pub struct SourcePlace {
    pub site: Site,
    pub lvalue: Text,
    pub lock: Text,
    pub mode: PlaceMode,
    pub at: Use,
}

/// The code of a program. A thread begins at place 0, where there is a Start followed by an Exit.
#[derive(Drop)]
pub struct Code {
    /// The instructions, by their places.
    pub instrs: Vec<Instr>,
    /// The functions, by their numbers.
    pub functions: Vec<Function>,
    /// The number of `main`.
    pub main: u32,
    /// The globals, by their numbers.
    pub globals: Vec<GlobalCells>,
    /// How many granules all globals have.
    pub granules: u32,
    /// What the cells of the globals' granules hold at first.
    pub initial: Vec<u64>,
    /// The elements of objects that are freed, by the numbers of their layouts.
    pub layouts: Vec<Layout>,
    /// The pointer fields of layouts.
    pub pointers: Vec<u32>,
    /// The sites, by their numbers.
    pub sites: Vec<SourcePlace>,
    /// The bytes of all texts.
    pub texts: Vec<u8>,
    /// The names of the source's files.
    pub files: Names,
    // So the words of a shape that fits have numbers of 32 bits.
    ghost few_granules: { granules ≤ 65536 },
}
