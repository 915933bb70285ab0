// The registers of variables, and how blocks end.

ghost use Rattle.std.specs.Prelude.{◌≡◌, ◌+◌, ◌++◌, ◌≤◌, [], ◌∷◌, length, take, drop, IfOk, OnOk};
ghost use Rattle.sharc_flat.specs.Scope.{slot_of, register_from, register_of, number_in, int_count, ref_count, pops};
ghost use Rattle.sharc_flat.specs.Scope.{ends_from, leaves};
ghost use Rattle.sharc_flatten.specs.View.{innermost};

use crate::places::Emitted;
use crate::registers::Registers;
use sharc_code::Register;
use sharc_flat::Op;
use sharc_flat::slot::Slot;
use sharc_names::kind::{declared_kind, is_pointer};
use sharc_tree::tree::Declaration;
use std::alloc::AllocError;

/// The variable that a declaration makes.
pub fn slot_of(declaration: &Declaration) -> Slot
    ensures { result ≡ slot_of declaration.now }
{
    Slot {
        token: declaration.name.site.token,
        is_pointer: is_pointer(declared_kind(&declaration.written)),
    }
}

/// The number of a register.
pub fn number_in(register: Register) -> u32
    ensures { result ≡ number_in register }
{
    match register {
        Register::Int(number) => number,
        Register::Reference(number) => number,
    }
}

/// The next number, which is one of 32 bits or there is not enough memory.
pub fn next(number: u32) -> Result<u32, AllocError>
    ensures { IfOk result (λ n. n ≡ number + 1) }
{
    match number.checked_add(1) {
        Some(n) => Ok(n),
        None => Err(AllocError),
    }
}

/// The register of the variable that this token declares. There are as many steps as variables in scope, at most 216.
pub fn register_of(scope: &[Slot], token: u32) -> Result<Register, AllocError>
    ensures { IfOk result (λ register. register ≡ register_of scope.now token) }
{
    let mut int = 0u32;
    let mut reference = 0u32;
    for slot in scope {
        if slot.token == token {
            return Ok(if slot.is_pointer {
                Register::Reference(reference)
            } else {
                Register::Int(int)
            });
        }
        if slot.is_pointer {
            reference = next(reference)?;
        } else {
            int = next(int)?;
        }
    }
    Ok(Register::Int(int))
}

/// The pointers among these variables are given up; the first has this register.
fn pops(scope: &[Slot], from: u32, lines: &mut Vec<Op>) -> Emitted
    ensures { OnOk result (lines.new.items ≡ lines.old.items ++ pops from scope.now) }
{
    let mut register = from;
    for slot in scope {
        if slot.is_pointer {
            lines.push(Op::Pop(register))?;
            register = next(register)?;
        }
    }
    Ok(())
}

/// The first free registers after these variables, at most 216.
pub fn free(scope: &[Slot]) -> Result<Registers, AllocError>
    ensures int { IfOk result (λ r. r.int ≡ int_count scope.now) }
    ensures reference { IfOk result (λ r. r.reference ≡ ref_count scope.now) }
{
    let mut int = 0u32;
    let mut reference = 0u32;
    for slot in scope {
        if slot.is_pointer {
            reference = next(reference)?;
        } else {
            int = next(int)?;
        }
    }
    Registers::of(int, reference)
}

/// The first `began` variables.
fn outer(scope: &[Slot], began: usize) -> &[Slot]
    ensures { result.now ≡ take began scope.now }
{
    &scope[..began.min(scope.len())]
}

/// The variables after the first `began`.
fn inner(scope: &[Slot], began: usize) -> &[Slot]
    ensures { result.now ≡ drop began scope.now }
{
    &scope[began.min(scope.len())..]
}

/// Ends the variables after the first `began`.
pub fn end_block(scope: &[Slot], began: usize, lines: &mut Vec<Op>) -> Emitted
    ensures { OnOk result (lines.new.items ≡ lines.old.items ++ ends_from scope.now began) }
{
    let from = free(outer(scope, began))?.reference;
    pops(inner(scope, began), from, lines)
}

/// Ends the blocks after the first `kept`, the innermost first.
pub fn leave(scope: &[Slot], marks: &[usize], kept: usize, lines: &mut Vec<Op>) -> Emitted
    ensures { OnOk result (lines.new.items ≡ lines.old.items ++ leaves scope.now (innermost kept marks.now)) }
{
    let mut left = scope;
    let mut depth = marks.len();
    while depth > kept {
        depth -= 1;
        let began = marks[depth];
        end_block(left, began, lines)?;
        left = outer(left, began);
    }
    Ok(())
}
