// The texts of types and of spans of tokens.

ghost use Rattle.std.specs.Prelude.{◌≡◌, ◌++◌, ◌<◌, ◌≤◌, ◌+◌, length, IfOk, OnOk, Bool, slice_range, IsTrue};
ghost use Rattle.sharc_tree.specs.Texts.{base_text, path_text, mode_text, level_text, levels_text, type_text, is_word};
ghost use Rattle.sharc_tree.specs.Texts.{blank_between, tokens_text, Appends};

use crate::ctype::{Base, CType, Mode, Path};
use crate::name::Name;
use crate::token::Token;
use crate::tree::Program;
use std::alloc::{AllocError, Global};

fn add_base(base: &Base, text: &mut Vec<u8>) -> Result<(), AllocError>
    ensures { Appends result (base_text base.now) text.old.items text.new.items }
{
    match base {
        Base::Int => text.extend_from_slice(b"int"),
        Base::Char => text.extend_from_slice(b"char"),
        Base::Long => text.extend_from_slice(b"long"),
        Base::Mutex => text.extend_from_slice(b"mutex"),
        Base::Void => text.extend_from_slice(b"void"),
        Base::Struct(name) => {
            text.extend_from_slice(b"struct ")?;
            text.extend_from_slice(name.as_slice())
        }
    }
}

fn add_path(path: &Path, text: &mut Vec<u8>) -> Result<(), AllocError>
    ensures { Appends result (path_text path.now) text.old.items text.new.items }
{
    match path {
        Path::One(mutex, _) => text.extend_from_slice(mutex.as_slice()),
        Path::Through(variable, _, mutex) => {
            text.extend_from_slice(variable.as_slice())?;
            text.extend_from_slice(b"->")?;
            text.extend_from_slice(mutex.as_slice())
        }
    }
}

fn add_mode(mode: &Mode, text: &mut Vec<u8>) -> Result<(), AllocError>
    ensures { Appends result (mode_text mode.now) text.old.items text.new.items }
{
    match mode {
        Mode::Private => text.extend_from_slice(b"private"),
        Mode::Readonly => text.extend_from_slice(b"readonly"),
        Mode::Locked(path) => {
            text.extend_from_slice(b"locked(")?;
            add_path(path, text)?;
            text.extend_from_slice(b")")
        }
        Mode::Racy => text.extend_from_slice(b"racy"),
        Mode::Dynamic => text.extend_from_slice(b"dynamic"),
    }
}

fn add_level(level: &Option<Mode>, text: &mut Vec<u8>) -> Result<(), AllocError>
    ensures { Appends result (level_text level.now) text.old.items text.new.items }
{
    match level {
        None => Ok(()),
        Some(mode) => {
            text.extend_from_slice(b" ")?;
            add_mode(mode, text)
        }
    }
}

fn add_levels(levels: &[Option<Mode>], text: &mut Vec<u8>) -> Result<(), AllocError>
    ensures { Appends result (levels_text levels.now) text.old.items text.new.items }
{
    let mut at = levels.len();
    while at > 0 {
        if at < levels.len() {
            text.extend_from_slice(b" *")?;
        }
        at -= 1;
        add_level(&levels[at], text)?;
    }
    Ok(())
}

/// The text of a type: the base and its mode where it is known, then for each star ` *` and its mode, with a blank
/// before each mode.
pub fn print_type(alloc: Global, ctype: &CType) -> Result<Vec<u8>, AllocError>
    ensures { IfOk result (λ v. v.items ≡ type_text ctype.now) }
{
    let mut text = Vec::new(alloc);
    add_base(&ctype.base, &mut text)?;
    add_levels(ctype.levels.as_slice(), &mut text)?;
    Ok(text)
}

/// Whether a token's text is a word or a number.
fn is_word(text: &Name) -> bool
    ensures { result ≡ is_word text.now }
{
    match text.as_slice() {
        [] => false,
        [first, ..] => matches!(*first, b'a'..=b'z' | b'A'..=b'Z' | b'0'..=b'9' | b'_'),
    }
}

fn add_blank(token: &Token, rest: &[Token], text: &mut Vec<u8>) -> Result<(), AllocError>
    ensures { Appends result (blank_between token.now rest.now) text.old.items text.new.items }
{
    match rest {
        [] => Ok(()),
        [next, ..] => {
            if is_word(&token.text) && is_word(&next.text) {
                text.extend_from_slice(b" ")
            } else {
                Ok(())
            }
        }
    }
}

fn add_tokens(tokens: &[Token], text: &mut Vec<u8>) -> Result<(), AllocError>
    ensures { Appends result (tokens_text tokens.now) text.old.items text.new.items }
{
    let mut rest = tokens;
    while let [token, others @ ..] = rest {
        text.extend_from_slice(token.text.as_slice())?;
        add_blank(token, others, text)?;
        rest = others;
    }
    Ok(())
}

/// The text of the tokens from number `from` to number `to`, both included, with a blank only between two tokens that
/// are both words or numbers.
pub fn print_span(
    alloc: Global,
    program: &Program,
    from: u32,
    to: u32,
) -> Result<Vec<u8>, AllocError>
    requires order { from ≤ to }
    requires bound { to < length program.now.tokens.list }
    ensures { IfOk result (λ v. v.items ≡ tokens_text (slice_range program.now.tokens.list from (to + 1))) }
{
    let tokens = program.tokens.list.as_slice();
    let mut text = Vec::new(alloc);
    add_tokens(&tokens[from as usize..to as usize + 1], &mut text)?;
    Ok(text)
}
