// Items, and the program that they make.

ghost use Rattle.std.specs.Prelude.{◌≡◌, IfOk};

use crate::listed::Listed;
use crate::name::Names;
use crate::token::{Number, Site, Span, Tokens};
use crate::tree::declaration::{Declaration, Declarations, Identifier, WrittenType};
use crate::tree::expression::Constant;
use crate::tree::statement::Stmt;
use std::alloc::{AllocError, Global};

/// `struct id { field { field } } ;`
pub struct StructDefinition {
    pub span: Span,
    pub name: Identifier,
    pub fields: Declarations,
}

impl Drop for StructDefinition {
    fn drop(self) {
        let StructDefinition {
            span: _,
            name,
            fields,
        } = self;
        drop(name);
        drop(fields);
    }
}

impl StructDefinition {
    /// The same struct once more.
    pub fn copy(&self, alloc: Global) -> Result<Self, AllocError>
        ensures { IfOk result (λ s. s ≡ self.now) }
    {
        let name = self.name.copy(alloc)?;
        let fields = self.fields.copy(alloc)?;
        Ok(StructDefinition {
            span: self.span,
            name,
            fields,
        })
    }
}

/// What follows the name of a global.
#[derive(Clone, Copy)]
pub enum GlobalForm {
    /// Nothing.
    Plain,
    /// `[ number ]`, with the place of the number.
    Array(Site, Number),
    /// `= const`, with the tokens of the constant and whether `-` comes before it (never before `NULL`).
    Initial(Span, bool, Constant),
}

/// `type id [ [ number ] | = const ] ;`
pub struct GlobalDefinition {
    pub span: Span,
    pub declaration: Declaration,
    pub form: GlobalForm,
}

impl Drop for GlobalDefinition {
    fn drop(self) {
        let GlobalDefinition {
            span: _,
            declaration,
            form: _,
        } = self;
        drop(declaration);
    }
}

impl GlobalDefinition {
    /// The same global once more.
    pub fn copy(&self, alloc: Global) -> Result<Self, AllocError>
        ensures { IfOk result (λ g. g ≡ self.now) }
    {
        let declaration = self.declaration.copy(alloc)?;
        Ok(GlobalDefinition {
            span: self.span,
            declaration,
            form: self.form,
        })
    }
}

/// `type id ( void | type id { , type id } ) block`
pub struct FunctionDefinition {
    pub span: Span,
    pub result: WrittenType,
    pub name: Identifier,
    /// Empty for `void`.
    pub parameters: Declarations,
    /// The tokens of the body, its braces included.
    pub body: Span,
    pub statements: Vec<Stmt>,
}

impl Drop for FunctionDefinition {
    fn drop(self) {
        let FunctionDefinition {
            span: _,
            result,
            name,
            parameters,
            body: _,
            statements,
        } = self;
        drop(result);
        drop(name);
        drop(parameters);
        drop(statements);
    }
}

/// What a program is made of.
#[derive(Drop)]
pub enum Item {
    Struct(StructDefinition),
    Global(GlobalDefinition),
    Function(FunctionDefinition),
}

impl Item {
    ghost use Rattle.std.specs.Prelude.{◌≡◌};
    ghost use Rattle.sharc_tree.specs.{Spans.span_of_item, View.view_item};

    /// The tokens of the item.
    pub fn span(&self) -> Span
        ensures { result ≡ span_of_item (view_item self.now) }
    {
        match self {
            Item::Struct(definition) => definition.span,
            Item::Global(definition) => definition.span,
            Item::Function(definition) => definition.span,
        }
    }
}

/// The items of a program in source order.
pub type Items = Listed<Item>;

/// A source read into a tree.
pub struct Program {
    /// The files that the source names, as its tokens have them.
    pub files: Names,
    pub items: Items,
    pub tokens: Tokens,
}

/// A drop that is written out is proved here once; one that is derived is proved in each crate that drops a program.
impl Drop for Program {
    fn drop(self) {
        let Program {
            files,
            items,
            tokens,
        } = self;
        drop(files);
        drop(items);
        drop(tokens);
    }
}
