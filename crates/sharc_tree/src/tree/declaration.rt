// Names, types and declarations as they are written.

ghost use Rattle.std.specs.Prelude.{◌≡◌, IfOk};

use crate::ctype::CType;
use crate::listed::Listed;
use crate::name::Name;
use crate::token::{Site, Span};
use std::alloc::{AllocError, Global};

/// A name where it is written.
#[derive(Drop)]
pub struct Identifier {
    pub site: Site,
    pub text: Name,
}

impl Identifier {
    /// The same name once more.
    pub fn copy(&self, alloc: Global) -> Result<Self, AllocError>
        ensures { IfOk result (λ i. i ≡ self.now) }
    {
        let text = self.text.copy(alloc)?;
        Ok(Identifier {
            site: self.site,
            text,
        })
    }
}

/// A type as it is written. `type = (mode base | base [mode]) { "*" [mode] }`, and without modes what `sizeof` takes.
pub struct WrittenType {
    pub span: Span,
    /// Whether the mode of the base comes before the base.
    pub mode_first: bool,
    /// The token that names the base: its keyword, or the name of the struct.
    pub base: Site,
    /// The type, each level with the mode that is written there or none. A lock path has the number of the token of its
    /// first name, and its second name is known by its text alone; a struct is known by its name.
    pub ctype: CType,
}

impl Drop for WrittenType {
    fn drop(self) {
        let WrittenType {
            span: _,
            mode_first: _,
            base: _,
            ctype,
        } = self;
        drop(ctype);
    }
}

impl WrittenType {
    /// The same type once more.
    pub fn copy(&self, alloc: Global) -> Result<Self, AllocError>
        ensures { IfOk result (λ w. w ≡ self.now) }
    {
        let ctype = self.ctype.copy(alloc)?;
        Ok(WrittenType {
            span: self.span,
            mode_first: self.mode_first,
            base: self.base,
            ctype,
        })
    }
}

/// `type id`: what a field, a parameter and a local declare.
pub struct Declaration {
    pub span: Span,
    pub written: WrittenType,
    pub name: Identifier,
}

impl Drop for Declaration {
    fn drop(self) {
        let Declaration {
            span: _,
            written,
            name,
        } = self;
        drop(written);
        drop(name);
    }
}

impl Declaration {
    /// The same declaration once more.
    pub fn copy(&self, alloc: Global) -> Result<Self, AllocError>
        ensures { IfOk result (λ d. d ≡ self.now) }
    {
        let written = self.written.copy(alloc)?;
        let name = self.name.copy(alloc)?;
        Ok(Declaration {
            span: self.span,
            written,
            name,
        })
    }
}

/// A list of declarations: the fields of a struct or the parameters of a function.
pub type Declarations = Listed<Declaration>;

impl Listed<Declaration> {
    /// The same declarations once more.
    pub fn copy(&self, alloc: Global) -> Result<Self, AllocError>
        ensures { IfOk result (λ d. d ≡ self.now) }
    {
        let declarations = self.as_slice();
        let mut list = Vec::with_capacity(alloc, declarations.len())?;
        for declaration in declarations {
            list.push(declaration.copy(alloc)?)?;
        }
        Ok(Listed::of(list))
    }
}
