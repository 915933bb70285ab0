// The text of an accepted program.

ghost use Rattle.std.specs.Prelude.{◌≡◌, ◌++◌, IfOk, OnOk};
ghost use Rattle.sharc_tree.specs.Texts.{Appends};
ghost use Rattle.sharc_report.specs.Verdicts.{since, warning_line, accepted_text};

use crate::put::{Put, put_place};
use sharc_ctype::typed::Typed;
use sharc_mode::error::{Warning, Warnings};
use sharc_mode::moded::Moded;
use std::alloc::{AllocError, Global};

fn put_since(text: &mut Vec<u8>, typed: &Typed, w: &Warning) -> Put
    ensures { Appends result (since typed.now w.now) text.old.items text.new.items }
{
    text.extend_from_slice(b" may be NULL since ")?;
    put_place(text, typed, w.nulled.file, w.nulled.line)?;
    text.extend_from_slice(b"\n")
}

fn put_warning(text: &mut Vec<u8>, typed: &Typed, w: &Warning) -> Put
    ensures { Appends result (warning_line typed.now w.now) text.old.items text.new.items }
{
    put_place(text, typed, w.read.file, w.read.line)?;
    text.extend_from_slice(b": warning ")?;
    text.extend_from_slice(w.name.as_slice())?;
    put_since(text, typed, w)
}

/// The warnings, a line each, and then `accepted`.
pub fn accepted_text(
    alloc: Global,
    program: &Moded,
    warnings: &Warnings,
) -> Result<Vec<u8>, AllocError>
    ensures { IfOk result (λ text. text.items ≡ accepted_text program.now.typed warnings.now) }
{
    let mut text = Vec::new(alloc);
    for warning in warnings.as_slice() {
        put_warning(&mut text, program.typed(), warning)?;
    }
    text.extend_from_slice(b"accepted\n")?;
    Ok(text)
}
