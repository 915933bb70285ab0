// Types with their sharing modes.

ghost use Rattle.std.specs.Prelude.{◌≡◌, IfOk, IsTrue, ◌↔◌};

use crate::listed::Listed;
use crate::name::Name;
use std::alloc::{AllocError, Global};

/// A lock path. The number is that of the token of its first name, so that two variables of one name are told apart.
pub enum Path {
    /// `m`: a global mutex, or in a field the sibling of that name.
    One(Name, u32),
    /// `x->m`: the mutex `m` of what the variable `x` refers to.
    Through(Name, u32, Name),
}

impl Drop for Path {
    fn drop(self) {
        match self {
            Path::One(mutex, _) => drop(mutex),
            Path::Through(variable, _, mutex) => {
                drop(variable);
                drop(mutex);
            }
        }
    }
}

impl Path {
    /// Whether the paths are the same data: the names, and the number of the token.
    pub fn equals(&self, other: &Path) -> bool
        ensures { IsTrue result ↔ (self.now ≡ other.now) }
    {
        match (self, other) {
            (Path::One(mutex, token), Path::One(other, at)) => token == at && mutex.equals(other),
            (Path::Through(variable, token, mutex), Path::Through(other, at, second)) => {
                token == at && variable.equals(other) && mutex.equals(second)
            }
            _ => false,
        }
    }

    /// The same path once more.
    pub fn copy(&self, alloc: Global) -> Result<Self, AllocError>
        ensures { IfOk result (λ p. p ≡ self.now) }
    {
        match self {
            Path::One(name, token) => Ok(Path::One(name.copy(alloc)?, *token)),
            Path::Through(variable, token, mutex) => {
                let variable = variable.copy(alloc)?;
                Ok(Path::Through(variable, *token, mutex.copy(alloc)?))
            }
        }
    }
}

/// A sharing mode (the SharC paper).
pub enum Mode {
    /// Accessed by its owner thread alone.
    Private,
    /// Read by every thread, written by none.
    Readonly,
    /// Accessed while the lock is held.
    Locked(Path),
    /// Not checked.
    Racy,
    /// Checked at run time: only read, or accessed by one thread.
    Dynamic,
}

impl Drop for Mode {
    fn drop(self) {
        match self {
            Mode::Locked(path) => drop(path),
            Mode::Private | Mode::Readonly | Mode::Racy | Mode::Dynamic => {}
        }
    }
}

impl Mode {
    /// Whether the modes are the same data, lock paths included.
    pub fn equals(&self, other: &Mode) -> bool
        ensures { IsTrue result ↔ (self.now ≡ other.now) }
    {
        match (self, other) {
            (Mode::Locked(path), Mode::Locked(other)) => path.equals(other),
            (Mode::Private, Mode::Private) => true,
            (Mode::Readonly, Mode::Readonly) => true,
            (Mode::Racy, Mode::Racy) => true,
            (Mode::Dynamic, Mode::Dynamic) => true,
            _ => false,
        }
    }

    /// The same mode once more.
    pub fn copy(&self, alloc: Global) -> Result<Self, AllocError>
        ensures { IfOk result (λ m. m ≡ self.now) }
    {
        match self {
            Mode::Private => Ok(Mode::Private),
            Mode::Readonly => Ok(Mode::Readonly),
            Mode::Locked(path) => Ok(Mode::Locked(path.copy(alloc)?)),
            Mode::Racy => Ok(Mode::Racy),
            Mode::Dynamic => Ok(Mode::Dynamic),
        }
    }
}

/// What is at the bottom of a type.
pub enum Base {
    Int,
    Char,
    Long,
    Mutex,
    Void,
    /// `struct` with this name
    Struct(Name),
}

impl Drop for Base {
    fn drop(self) {
        match self {
            Base::Struct(name) => drop(name),
            Base::Int | Base::Char | Base::Long | Base::Mutex | Base::Void => {}
        }
    }
}

impl Base {
    /// Whether the bases are the same: a struct is known by its name.
    pub fn equals(&self, other: &Base) -> bool
        ensures { IsTrue result ↔ (self.now ≡ other.now) }
    {
        match (self, other) {
            (Base::Struct(name), Base::Struct(other)) => name.equals(other),
            (Base::Int, Base::Int) => true,
            (Base::Char, Base::Char) => true,
            (Base::Long, Base::Long) => true,
            (Base::Mutex, Base::Mutex) => true,
            (Base::Void, Base::Void) => true,
            _ => false,
        }
    }

    /// The same base once more.
    pub fn copy(&self, alloc: Global) -> Result<Self, AllocError>
        ensures { IfOk result (λ b. b ≡ self.now) }
    {
        match self {
            Base::Int => Ok(Base::Int),
            Base::Char => Ok(Base::Char),
            Base::Long => Ok(Base::Long),
            Base::Mutex => Ok(Base::Mutex),
            Base::Void => Ok(Base::Void),
            Base::Struct(name) => Ok(Base::Struct(name.copy(alloc)?)),
        }
    }
}

/// Whether the modes are both unknown, or both known and the same.
fn same_level(level: &Option<Mode>, other: &Option<Mode>) -> bool
    ensures { IsTrue result ↔ (level.now ≡ other.now) }
{
    match (level, other) {
        (Some(mode), Some(other)) => mode.equals(other),
        (None, None) => true,
        _ => false,
    }
}

fn copy_level(alloc: Global, level: &Option<Mode>) -> Result<Option<Mode>, AllocError>
    ensures { IfOk result (λ m. m ≡ level.now) }
{
    match level {
        None => Ok(None),
        Some(mode) => Ok(Some(mode.copy(alloc)?)),
    }
}

/// The modes of a type's levels where they are known, from the top down to the base: a type with n stars has n + 1
/// levels.
pub type Levels = Listed<Option<Mode>>;

impl Listed<Option<Mode>> {
    /// Whether there are as many levels in both, and each has the same mode or none in both.
    pub fn equals(&self, other: &Levels) -> bool
        ensures { IsTrue result ↔ (self.now ≡ other.now) }
    {
        let levels = self.as_slice();
        let others = other.as_slice();
        if levels.len() != others.len() {
            return false;
        }
        for i in 0..levels.len() {
            if !same_level(&levels[i], &others[i]) {
                return false;
            }
        }
        true
    }

    /// The same levels once more.
    pub fn copy(&self, alloc: Global) -> Result<Self, AllocError>
        ensures { IfOk result (λ l. l ≡ self.now) }
    {
        let levels = self.as_slice();
        let mut list = Vec::with_capacity(alloc, levels.len())?;
        for level in levels {
            list.push(copy_level(alloc, level)?)?;
        }
        Ok(Listed::of(list))
    }
}

/// A C type with the modes of its levels where they are known.
pub struct CType {
    pub base: Base,
    pub levels: Levels,
}

impl Drop for CType {
    fn drop(self) {
        let CType { base, levels } = self;
        drop(base);
        drop(levels);
    }
}

impl CType {
    /// Whether the types are the same data: the bases, and the mode or its want at each level.
    pub fn equals(&self, other: &CType) -> bool
        ensures { IsTrue result ↔ (self.now ≡ other.now) }
    {
        self.base.equals(&other.base) && self.levels.equals(&other.levels)
    }

    /// The same type once more.
    pub fn copy(&self, alloc: Global) -> Result<Self, AllocError>
        ensures { IfOk result (λ t. t ≡ self.now) }
    {
        let base = self.base.copy(alloc)?;
        let levels = self.levels.copy(alloc)?;
        Ok(CType { base, levels })
    }
}
