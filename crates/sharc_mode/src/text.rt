// The texts of lock paths, of modes and of tokens.

ghost use Rattle.std.specs.Prelude.{◌≡◌, IfOk};
ghost use Rattle.sharc_tree.specs.{Texts.{path_text, mode_text}, declared.ctype.Mode.TheVariants.Locked as LockedMode};
ghost use Rattle.sharc_mode.specs.{Notes.span_text, Sharings.text_at};

use sharc_ctype::typed::Typed;
use sharc_tree::ctype::{Mode, Path};
use sharc_tree::name::Name;
use sharc_tree::print::print_span;
use sharc_tree::token::Span;
use std::alloc::{AllocError, Global};

/// What is written at a token; nothing past the last one.
pub fn text_at(typed: &Typed, token: u32) -> &[u8]
    ensures { result.now ≡ text_at typed.now token }
{
    let tokens = typed.program().tokens.list.as_slice();
    let token = token as usize;
    if token < tokens.len() {
        tokens[token].text.as_slice()
    } else {
        &[]
    }
}

/// The text of a lock path: `m` or `x->m`.
pub fn path_text(alloc: Global, path: &Path) -> Result<Name, AllocError>
    ensures { IfOk result (λ n. n ≡ path_text path.now) }
{
    match path {
        Path::One(mutex, _) => mutex.copy(alloc),
        Path::Through(variable, _, mutex) => {
            let mut text = Vec::from_slice(alloc, variable.as_slice())?;
            text.extend_from_slice(b"->")?;
            text.extend_from_slice(mutex.as_slice())?;
            Ok(Name::of(text))
        }
    }
}

fn locked_text(alloc: Global, path: &Path) -> Result<Name, AllocError>
    ensures { IfOk result (λ n. n ≡ mode_text (LockedMode path.now)) }
{
    let path = path_text(alloc, path)?;
    let mut text = Vec::from_slice(alloc, b"locked(")?;
    text.extend_from_slice(path.as_slice())?;
    text.extend_from_slice(b")")?;
    Ok(Name::of(text))
}

/// The text of a mode.
pub fn mode_text(alloc: Global, mode: &Mode) -> Result<Name, AllocError>
    ensures { IfOk result (λ n. n ≡ mode_text mode.now) }
{
    match mode {
        Mode::Private => Name::from_slice(alloc, b"private"),
        Mode::Readonly => Name::from_slice(alloc, b"readonly"),
        Mode::Locked(path) => locked_text(alloc, path),
        Mode::Racy => Name::from_slice(alloc, b"racy"),
        Mode::Dynamic => Name::from_slice(alloc, b"dynamic"),
    }
}

/// The text of the tokens of a construct, with a blank only between two tokens that are both words or numbers. Tokens
/// past the last one have none.
pub fn span_text(alloc: Global, typed: &Typed, span: Span) -> Result<Name, AllocError>
    ensures { IfOk result (λ n. n ≡ span_text typed.now span) }
{
    let program = typed.program();
    let count = program.tokens.list.len();
    let from = span.first.token;
    let last = span.last.token;
    if from as usize >= count || last < from {
        return Ok(Name::of(Vec::new(alloc)));
    }
    let last = if (last as usize) < count {
        last
    } else {
        (count - 1) as u32
    };
    Ok(Name::of(print_span(alloc, program, from, last)?))
}
