// Faults of C typing, and what a pass over a program has found so far.

ghost use Rattle.std.specs.Prelude.{◌≡◌, replicate, fold, IfOk};
ghost use Rattle.sharc_names.specs.{declared.fault.Named.TheVariants.Known, Notes.{fault, refers, yields, noted}};
ghost use Rattle.sharc_names.specs.Notes.{first_of, is_before, is_free, digit, fault_unless, fault_where};

use std::alloc::{AllocError, Global};
use std::marker::Model;

/// The nine faults, C1 to C9.
#[derive(Clone, Copy)]
pub enum FaultCode {
    /// C1
    UnknownName,
    /// C2
    DefinedTwice,
    /// C3
    TypeMismatch,
    /// C4
    ArgumentCount,
    /// C5
    NoLvalue,
    /// C6
    TypeNotAllowed,
    /// C7
    BadForm,
    /// C8
    NoMain,
    /// C9
    LimitPassed,
}

/// A fault: the number of the token where it is, and what it is.
#[derive(Clone, Copy)]
pub struct Fault {
    pub place: usize,
    pub code: FaultCode,
}

/// What a name token names.
#[derive(Clone, Copy)]
pub enum Named {
    /// The struct with this number.
    Struct(u32),
    /// The global with this number.
    Global(u32),
    /// The function with this number.
    Function(u32),
    /// The variable that the token with this number declares.
    Variable(u32),
    /// The field that the token with this number declares.
    Field(u32),
    /// `struct cond`, `wait`, `signal` or `broadcast`, where the program defines none of them. Tokens that are no names
    /// have this, too.
    Known,
}

impl FaultCode {
    /// The digit of the code.
    pub fn digit(self) -> u8
        ensures { result ≡ digit self }
    {
        match self {
            FaultCode::UnknownName => 1,
            FaultCode::DefinedTwice => 2,
            FaultCode::TypeMismatch => 3,
            FaultCode::ArgumentCount => 4,
            FaultCode::NoLvalue => 5,
            FaultCode::TypeNotAllowed => 6,
            FaultCode::BadForm => 7,
            FaultCode::NoMain => 8,
            FaultCode::LimitPassed => 9,
        }
    }
}

/// Whether the one fault comes before the other: by place, then by code.
pub fn is_before(a: Fault, b: Fault) -> bool
    ensures { result ≡ is_before a b }
{
    a.place < b.place || (a.place == b.place && a.code.digit() < b.code.digit())
}

/// The first of both; `new` where none was found before.
fn first_of(old: Option<Fault>, new: Fault) -> Option<Fault>
    ensures { result ≡ first_of old new }
{
    match old {
        None => Some(new),
        Some(fault) => {
            if is_before(new, fault) {
                Some(new)
            } else {
                Some(fault)
            }
        }
    }
}

/// Whether a token that names this may still be the second name of a lock path.
fn is_free(named: Named) -> bool
    ensures { result ≡ is_free named }
{
    match named {
        Named::Known => true,
        Named::Struct(_) => false,
        Named::Global(_) => false,
        Named::Function(_) => false,
        Named::Variable(_) => false,
        Named::Field(_) => false,
    }
}

/// What a pass has found so far: the first fault, and what each name token names. A contract sees it as these two.
#[derive(Drop)]
pub struct Found {
    first: Option<Fault>,
    named: Vec<Named>,
}

impl Model for Found {
    ghost use Rattle.sharc_names.specs.Notes.{Findings};

    ghost Value = { Findings };

    ghost view = { λ f. record { first = f.first; named = f.named.items } };
}

impl Found {
    /// Nothing is found yet, and none of this many tokens names anything.
    pub fn new(alloc: Global, tokens: usize) -> Result<Self, AllocError>
        ensures { IfOk result (λ f. f ≡ record { first = None; named = replicate tokens Known }) }
    {
        let named = vec![in alloc; Named::Known; tokens]?;
        Ok(Found { first: None, named })
    }

    /// The first fault.
    pub fn first(&self) -> Option<Fault>
        ensures { result ≡ self.now.first }
    {
        self.first
    }

    /// What each token names.
    pub fn into_named(self) -> Vec<Named>
        ensures { result.items ≡ self.named }
    {
        self.named
    }

    /// Takes note of a fault at a token.
    pub fn fault(&mut self, token: u32, code: FaultCode)
        ensures { self.new ≡ noted self.old (fault token code) }
    {
        self.fault_at(token as usize, code);
    }

    /// Takes note of a fault.
    pub fn fault_at(&mut self, place: usize, code: FaultCode)
        ensures { self.new ≡ noted self.old (fault place code) }
    {
        self.first = first_of(self.first, Fault { place, code });
    }

    /// Takes note of a fault at a token, unless all is well.
    pub fn fault_unless(&mut self, well: bool, token: u32, code: FaultCode)
        ensures { self.new ≡ fold noted self.old (fault_unless well token code) }
    {
        if !well {
            self.fault(token, code);
        }
    }

    /// Takes note of a fault at a token where something is wrong.
    pub fn fault_where(&mut self, wrong: bool, token: u32, code: FaultCode)
        ensures { self.new ≡ fold noted self.old (fault_where wrong token code) }
    {
        if wrong {
            self.fault(token, code);
        }
    }

    /// Takes note of what a token names.
    pub fn name(&mut self, token: u32, what: Named)
        ensures { self.new ≡ noted self.old (refers token what) }
    {
        self.name_at(token as usize, what);
    }

    /// Takes note of what the token at a place names.
    pub fn name_at(&mut self, place: usize, what: Named)
        ensures { self.new ≡ noted self.old (refers place what) }
    {
        if place < self.named.len() {
            self.named[place] = what;
        }
    }

    /// Takes note of what the token at a place names, where it names nothing yet.
    pub fn name_if_free(&mut self, place: usize, what: Named)
        ensures { self.new ≡ noted self.old (yields place what) }
    {
        if place < self.named.len() && is_free(self.named[place]) {
            self.named[place] = what;
        }
    }
}
