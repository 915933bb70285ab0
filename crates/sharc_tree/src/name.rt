// Names: texts of bytes, whatever bytes they are.

ghost use Rattle.std.specs.Prelude.{◌≡◌, ◌<◌, ◌==◌, length, IfOk, slice_index_or, IsTrue, ◌↔◌};

use crate::listed::Listed;
use std::alloc::{AllocError, Global};
use std::marker::Model;

/// The text of a name, of a file's name or of a token. A contract sees it as the list of its bytes.
#[derive(Debug)]
pub struct Name {
    bytes: Vec<u8>,
}

impl Drop for Name {
    fn drop(self) {
        let Name { bytes } = self;
        drop(bytes);
    }
}

impl Model for Name {
    ghost use Rattle.std.specs.Prelude.{List, ℕ};

    ghost Value = { List ℕ };

    ghost view = { λ n. n.bytes.items };
}

impl Name {
    /// The name of these bytes. It takes no memory.
    pub fn of(list: Vec<u8>) -> Self
        ensures { result ≡ list.items }
    {
        Name { bytes: list }
    }

    /// The name of these bytes, copied.
    pub fn from_slice(alloc: Global, bytes: &[u8]) -> Result<Self, AllocError>
        ensures { IfOk result (λ n. n ≡ bytes.now) }
    {
        let bytes = Vec::from_slice(alloc, bytes)?;
        Ok(Name { bytes })
    }

    /// The number of bytes.
    pub fn len(&self) -> usize
        ensures { result ≡ length self.now }
    {
        self.bytes.len()
    }

    /// Whether there is no byte.
    pub fn is_empty(&self) -> bool
        ensures { result ≡ (length self.now == 0) }
    {
        self.bytes.is_empty()
    }

    /// The byte at place `i`, counted from 0.
    pub fn at(&self, i: usize) -> &u8
        requires { i < length self.now }
        ensures { result.now ≡ slice_index_or self.now i result.now }
    {
        &self.bytes[i]
    }

    /// All the bytes.
    pub fn as_slice(&self) -> &[u8]
        ensures { result.now ≡ self.now }
    {
        self.bytes.as_slice()
    }

    /// The bytes as they were handed to `of`. It takes no memory.
    pub fn into_vec(self) -> Vec<u8>
        ensures { result.items ≡ self }
    {
        let Name { bytes } = self;
        bytes
    }

    /// Whether the names have the same bytes.
    pub fn equals(&self, other: &Name) -> bool
        ensures { IsTrue result ↔ (self.now ≡ other.now) }
    {
        self.bytes.as_slice() == other.bytes.as_slice()
    }

    /// The same name once more.
    pub fn copy(&self, alloc: Global) -> Result<Self, AllocError>
        ensures { IfOk result (λ n. n ≡ self.now) }
    {
        Name::from_slice(alloc, self.bytes.as_slice())
    }
}

/// A list of names, as the files that a source names.
pub type Names = Listed<Name>;

impl Listed<Name> {
    /// The same names once more.
    pub fn copy(&self, alloc: Global) -> Result<Self, AllocError>
        ensures { IfOk result (λ n. n ≡ self.now) }
    {
        let names = self.as_slice();
        let mut list = Vec::with_capacity(alloc, names.len())?;
        for name in names {
            list.push(name.copy(alloc)?)?;
        }
        Ok(Listed::of(list))
    }
}
