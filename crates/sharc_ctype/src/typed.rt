// Typed programs.

ghost use Rattle.std.specs.Prelude.{◌≡◌, ◌<◌, ◌≤◌, ◌+◌, ◌^◌, All, [], fold, length, IfOk, IfSome, IsSome, IsSomeAnd};
ghost use Rattle.std.specs.Option.{option_copied, option_map};
ghost use Rattle.sharc_tree.specs.View.{view_program, view_function};
ghost use Rattle.sharc_names.specs.Notes.{noted, faults};
ghost use Rattle.sharc_ctype.specs.{Constants.is_constant, Entities.{entities_in, entity_at, numbered, positions_in}};
ghost use Rattle.sharc_ctype.specs.{Items.{nothing_found, notes_about}, Layouts.IsLayout, Resolved.IsResolved};
ghost use Rattle.sharc_ctype.specs.Resolved.{named_at, struct_at, global_at, function_at, declaration_at, structs_in};
ghost use Rattle.sharc_ctype.specs.{Resolved.{globals_in, functions_in, declarations_in}, Transfers.parameters_named};
ghost use Rattle.sharc_ctype.specs.Typings.{Types};

use crate::entity::Numbered;
use crate::layout::{StructCells, cells_of};
use crate::program::{first_fault, pass};
use crate::tables::{Tables, as_function, as_global, as_struct, item_at};
use crate::told::told;
use sharc_names::fault::{FaultCode, Found, Named};
use sharc_tree::token::FaultAt;
use sharc_tree::tree::{
    Declaration, FunctionDefinition, GlobalDefinition, Program, StructDefinition,
};
use std::alloc::{AllocError, Global};
use std::marker::Model;

/// A typed program, and what each of its name tokens names. A contract sees it as these two, of a program that is
/// typed. Each look-up takes one step.
pub struct Typed {
    program: Program,
    named: Vec<Named>,
    tables: Tables,
}

/// A drop that is written out is proved here once; one that is derived is proved in each crate that drops a typed
/// program.
impl Drop for Typed {
    fn drop(self) {
        let Typed {
            program,
            named,
            tables,
        } = self;
        drop(program);
        drop(named);
        drop(tables);
    }
}

impl Model for Typed {
    ghost use Rattle.std.specs.Coded.{codes};
    ghost use Rattle.sharc_tree.specs.View.{view_program, view_items};
    ghost use Rattle.sharc_ctype.specs.{Codes.{coded_expression, coded_statements}, Resolved.{Resolution, IsResolved}};
    ghost use Rattle.sharc_ctype.specs.Tables.{AreTables};

    ghost Value = { Resolution };

    ghost coded = { Prim.hlevel (codes, coded_statements (Prim.hlevel (codes, coded_expression (Prim.hlevel codes)))) };

    ghost view = { λ t. record { program = view_program t.program; named = t.named.items } };

    ghost invariant = { λ t. IsResolved (record { program = view_program t.program; named = t.named.items })
        × AreTables (view_items t.program.items) t.named.items t.tables };
}

/// Why a program is not typed.
#[derive(Drop)]
pub enum TypeFault {
    /// The first fault.
    At(FaultAt<FaultCode>),
    /// There was not enough memory. It is the answer, too, where the program has so many positions that their numbers
    /// pass 2^32 - 1, since a list of that many could not be kept.
    Memory,
}

impl From<AllocError> for TypeFault {
    ghost use Rattle.sharc_ctype.specs.declared.typed.TypeFault.TheVariants.{Memory as OutOfMemory};

    ghost from_gives = { λ _ e. e ≡ OutOfMemory };

    fn from(_error: AllocError) -> TypeFault {
        TypeFault::Memory
    }
}

impl Typed {
    /// The program, which is typed.
    pub fn program(&self) -> &Program
        ensures program { view_program result.now ≡ self.now.program }
        ensures resolved { IsResolved self.now }
    {
        &self.program
    }

    /// What the name that is the token with this number names.
    pub fn named(&self, token: u32) -> Named
        ensures { result ≡ named_at self.now token }
    {
        let token = token as usize;
        if token < self.named.len() {
            self.named[token]
        } else {
            Named::Known
        }
    }

    /// The struct with this number, which has at most 256 fields.
    pub fn struct_at(&self, number: u32) -> Option<&StructDefinition>
        ensures definition { option_copied result ≡ struct_at self.now number }
        ensures few { IfSome result (λ s. length s.now.fields ≤ 256) }
    {
        let items = self.program.items.as_slice();
        match item_at(items, &self.tables.structs, number) {
            None => None,
            Some(item) => as_struct(item),
        }
    }

    /// The global with this number.
    pub fn global_at(&self, number: u32) -> Option<&GlobalDefinition>
        ensures { option_copied result ≡ global_at self.now number }
    {
        let items = self.program.items.as_slice();
        match item_at(items, &self.tables.globals, number) {
            None => None,
            Some(item) => as_global(item),
        }
    }

    /// The function with this number.
    pub fn function_at(&self, number: u32) -> Option<&FunctionDefinition>
        ensures { option_map (λ f. view_function f.now) result ≡ function_at self.now number }
    {
        let items = self.program.items.as_slice();
        match item_at(items, &self.tables.functions, number) {
            None => None,
            Some(item) => as_function(item),
        }
    }

    /// How many structs there are.
    pub fn struct_count(&self) -> usize
        ensures { result ≡ length (structs_in self.now.program.items) }
    {
        self.tables.structs.len()
    }

    /// How many globals there are.
    pub fn global_count(&self) -> usize
        ensures { result ≡ length (globals_in self.now.program.items) }
    {
        self.tables.globals.len()
    }

    /// How many functions there are.
    pub fn function_count(&self) -> usize
        ensures { result ≡ length (functions_in self.now.program.items) }
    {
        self.tables.functions.len()
    }

    /// The fields, parameters and locals, in source order.
    pub fn declarations(&self) -> &[Declaration]
        ensures { result.now ≡ declarations_in self.now.program.items }
    {
        self.tables.declared.as_slice()
    }

    /// The field, the parameter or the local that the token with this number declares.
    pub fn declaration_at(&self, token: u32) -> Option<&Declaration>
        ensures { option_copied result ≡ declaration_at self.now token }
    {
        self.tables.declared.find(token)
    }

    /// What has a type with modes, in source order, each with the number of its first position.
    pub fn entities(&self) -> &[Numbered]
        ensures { result.now ≡ numbered (entities_in self.now.program.items) }
    {
        self.tables.entities.as_slice()
    }

    /// The first of them that begins at this token and ends at that one: a cast by its first token and its last, any
    /// other by the token of its name twice.
    pub fn entity_at(&self, token: u32, last: u32) -> Option<&Numbered>
        ensures { option_copied result ≡ entity_at self.now token last }
    {
        self.tables.entities.find(token, last)
    }

    /// How many positions their types have. The numbers of the positions are those below.
    pub fn position_count(&self) -> u32
        ensures { result ≡ positions_in (entities_in self.now.program.items) }
    {
        self.tables.entities.positions()
    }

    /// Whether the variable that the token with this number declares is constant: a parameter or an initialised local
    /// that is never assigned.
    pub fn is_constant(&self, token: u32) -> bool
        ensures { result ≡ is_constant self.now token }
    {
        self.tables.constants.contains(&token)
    }

    /// The same typed program once more.
    pub fn copy(&self, alloc: Global) -> Result<Self, AllocError>
        ensures { IfOk result (λ t. t ≡ self.now) }
    {
        let program = self.program.copy(alloc)?;
        let named = Vec::from_slice(alloc, self.named.as_slice())?;
        with_tables(alloc, program, named)
    }
}

/// The cells of an element of the struct with this number. It takes no memory.
pub fn layout(typed: &Typed, of: u32) -> StructCells
    requires { IsSome (struct_at typed.now of) }
    ensures { IsSomeAnd (struct_at typed.now of) (λ s. IsLayout s.fields result) }
{
    let definition = typed.struct_at(of).unwrap();
    cells_of(definition.fields.as_slice())
}

/// The parameters of the function that a name names; none for any other name.
pub fn parameters_named(typed: &Typed, named: Named) -> &[Declaration]
    ensures { result.now ≡ parameters_named typed.now named }
{
    match named {
        Named::Function(number) => match typed.function_at(number) {
            None => &[],
            Some(function) => function.parameters.as_slice(),
        },
        Named::Struct(_) => &[],
        Named::Global(_) => &[],
        Named::Variable(_) => &[],
        Named::Field(_) => &[],
        Named::Known => &[],
    }
}

/// A typed program, with its tables.
fn with_tables(alloc: Global, program: Program, named: Vec<Named>) -> Result<Typed, AllocError>
    requires { IsResolved (record { program = view_program program; named = named.items }) }
    ensures { IfOk result (λ t. t ≡ record { program = view_program program; named = named.items }) }
{
    let tables = Tables::of(alloc, program.items.as_slice(), named.as_slice())?;
    Ok(Typed {
        program,
        named,
        tables,
    })
}

/// A program of which everything was found and no fault among it, as a typed one.
fn resolved(alloc: Global, program: Program, found: Found) -> Result<Typed, AllocError>
    requires found { found
        ≡ fold noted (nothing_found (length program.tokens.list)) (notes_about (view_program program)) }
    requires none { faults (notes_about (view_program program)) ≡ [] }
    ensures { IfOk result (λ t. t.program ≡ view_program program) }
{
    with_tables(alloc, program, found.into_named())
}

/// The program with what its names name, exactly where there is no fault in it; else its first fault, by place, then by
/// code.
///
/// The place of C1 is the name, of C2 the later of the two, of C3 the first token of the expression that has the wrong
/// type (of the second of two operands that disagree), of C4 the called name, of C5 the first token of the expression,
/// of C6 the first token of the type or expression or the length of the array, of C7 the word that it names, of C8 the
/// end of input, of C9 the name that passes the limit.
pub fn type_program(alloc: Global, program: Program) -> Result<Typed, TypeFault>
    requires few { length program.tokens.list ≤ 2 ^ 20 }
    requires few_items { length program.items + 1 < 2 ^ 32 }
    requires files { All (λ t. t.file < length program.tokens.files) program.tokens.list }
    requires end_file { program.tokens.end.file < length program.tokens.files }
    ensures { Types result (view_program program) }
{
    let tokens = program.tokens.list.len() as u32;
    let found = pass(alloc, tokens, program.items.as_slice())?;
    match first_fault(&found, tokens, program.items.as_slice()) {
        Some(fault) => Err(TypeFault::At(told(alloc, &program.tokens, fault)?)),
        None => Ok(resolved(alloc, program, found)?),
    }
}
