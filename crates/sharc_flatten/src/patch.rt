// Operations that lead over others, whose number is found later.

ghost use Rattle.std.specs.{Prelude.{◌≡◌, ◌+◌, ◌-◌, ◌<◌, length, slice_set, vec_len, IfOk, OnOk}, Option.ForSome};
ghost use Rattle.sharc_flatten.specs.View.{with_hole};

use crate::lookups::small;
use crate::places::Emitted;
use sharc_flat::Op;
use std::alloc::AllocError;

/// A line that leads over others where the register is 0, and does not know yet over how many.
#[derive(Clone, Copy)]
pub struct Hole {
    pub line: usize,
    pub register: u32,
}

/// The number of a line this many lines later.
pub fn line_at(line: usize, more: usize) -> Result<u32, AllocError>
    ensures { IfOk result (λ n. n ≡ line + more) }
{
    match line.checked_add(more) {
        Some(n) => small(n),
        None => Err(AllocError),
    }
}

/// How many lines there are after this one, and this many more.
fn over(lines: &[Op], line: usize, more: usize) -> Result<u32, AllocError>
    requires { line < length lines.now }
    ensures { IfOk result (λ n. n ≡ length lines.now - line - 1 + more) }
{
    line_at(lines.len() - line - 1, more)
}

/// The operation on this line leads over those after it, and this many more, where its register is 0.
pub fn skip_if_zero(hole: Hole, more: usize, lines: &mut Vec<Op>) -> Emitted
    requires { hole.line < vec_len lines.old }
    ensures { OnOk result (lines.new.items ≡ slice_set lines.old.items hole.line
        (Op.SkipIfZero hole.register (length lines.old.items - hole.line - 1 + more))) }
{
    let over = over(lines.as_slice(), hole.line, more)?;
    lines[hole.line] = Op::SkipIfZero(hole.register, over);
    Ok(())
}

/// The operation on this line leads over those after it.
pub fn skip(line: usize, lines: &mut Vec<Op>) -> Emitted
    requires { line < vec_len lines.old }
    ensures { OnOk result (lines.new.items
        ≡ slice_set lines.old.items line (Op.Skip (length lines.old.items - line - 1 + 0))) }
{
    let over = over(lines.as_slice(), line, 0)?;
    lines[line] = Op::Skip(over);
    Ok(())
}

/// The test of a loop, if there is one, leads over the lines after it and the way back.
pub fn fill(hole: Option<Hole>, lines: &mut Vec<Op>) -> Emitted
    requires { ForSome hole (λ h. h.line < vec_len lines.old) }
    ensures { OnOk result (lines.new.items ≡ with_hole hole lines.old.items) }
{
    match hole {
        None => Ok(()),
        Some(hole) => skip_if_zero(hole, 1, lines),
    }
}
