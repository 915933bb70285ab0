// The first free registers of the two banks.

ghost use Rattle.std.specs.Prelude.{◌≡◌, ◌+◌, ◌<◌, ◌^◌, IfOk};

use crate::target::Target;
use std::alloc::AllocError;

/// The bank of a register that holds a value.
#[derive(Clone, Copy)]
pub enum Bank {
    Int,
    Reference,
}

/// The first free registers of the two banks.
#[derive(Clone, Copy)]
pub struct Registers {
    pub int: u32,
    pub reference: u32,
    // So those after them have numbers of 32 bits, too.
    ghost few_ints: { int < 2 ^ 31 },
    ghost few_references: { reference < 2 ^ 31 },
}

/// A register that is one of few.
fn few(register: u32) -> Result<u32, AllocError>
    ensures is { IfOk result (λ n. n ≡ register) }
    ensures few { IfOk result (λ n. n < 2 ^ 31) }
{
    if register < 2147483648 {
        Ok(register)
    } else {
        Err(AllocError)
    }
}

/// The register after one.
fn above(register: u32) -> Result<u32, AllocError>
    requires { register < 2 ^ 31 }
    ensures is { IfOk result (λ n. n ≡ register + 1) }
    ensures few { IfOk result (λ n. n < 2 ^ 31) }
{
    few(register + 1)
}

impl Registers {
    ghost use Rattle.std.specs.Prelude.{◌≡◌, ◌+◌, IfOk};
    ghost use Rattle.sharc_flat.specs.Places.{base_width, guard_width, index_width};
    ghost use Rattle.sharc_flat.specs.Flattened.{behind_int, behind_ref};
    ghost use Rattle.sharc_flatten.specs.View.{view_target, holds_references};

    /// These two, if they are few.
    pub fn of(int: u32, reference: u32) -> Result<Registers, AllocError>
        ensures int { IfOk result (λ r. r.int ≡ int) }
        ensures reference { IfOk result (λ r. r.reference ≡ reference) }
    {
        Ok(Registers {
            int: few(int)?,
            reference: few(reference)?,
        })
    }

    /// Those after an integer.
    pub fn behind_int(self) -> Result<Registers, AllocError>
        ensures int { IfOk result (λ r. r.int ≡ self.int + 1) }
        ensures reference { IfOk result (λ r. r.reference ≡ self.reference) }
    {
        Ok(Registers {
            int: above(self.int)?,
            reference: self.reference,
        })
    }

    /// Those after a reference.
    pub fn behind_reference(self) -> Result<Registers, AllocError>
        ensures int { IfOk result (λ r. r.int ≡ self.int) }
        ensures reference { IfOk result (λ r. r.reference ≡ self.reference + 1) }
    {
        Ok(Registers {
            int: self.int,
            reference: above(self.reference)?,
        })
    }

    /// Those after a value.
    pub fn behind(self, bank: Bank) -> Result<Registers, AllocError>
        ensures int { IfOk result (λ r. r.int ≡ behind_int (holds_references bank) self.int) }
        ensures reference { IfOk result (λ r. r.reference ≡ behind_ref (holds_references bank) self.reference) }
    {
        match bank {
            Bank::Int => self.behind_int(),
            Bank::Reference => self.behind_reference(),
        }
    }

    /// Those after the base of what something names.
    pub fn behind_base(self, target: Target) -> Result<Registers, AllocError>
        ensures int { IfOk result (λ r. r.int ≡ self.int) }
        ensures reference { IfOk result (λ r. r.reference ≡ self.reference + base_width (view_target target)) }
    {
        if target.has_base() {
            self.behind_reference()
        } else {
            Ok(self)
        }
    }

    fn behind_number(self, guard: Option<u32>) -> Result<Registers, AllocError>
        ensures int { IfOk result (λ r. r.int ≡ self.int + guard_width guard) }
        ensures reference { IfOk result (λ r. r.reference ≡ self.reference) }
    {
        match guard {
            None => self.behind_int(),
            Some(_) => self.behind_int()?.behind_int(),
        }
    }

    /// Those after the number of the cell that something names, where that is found by an index, and after that of the
    /// mutex's cell.
    pub fn behind_index(self, target: Target, guard: Option<u32>) -> Result<Registers, AllocError>
        ensures int { IfOk result (λ r. r.int ≡ self.int + index_width (view_target target) guard) }
        ensures reference { IfOk result (λ r. r.reference ≡ self.reference) }
    {
        match target {
            Target::InGlobalAt(_, _) => self.behind_number(guard),
            Target::InObjectAt(_) => self.behind_number(guard),
            Target::Variable(_) => Ok(self),
            Target::InGlobal(_, _) => Ok(self),
            Target::InObject(_) => Ok(self),
        }
    }
}
