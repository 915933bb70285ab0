// Pieces of texts: numbers, places and tokens.

ghost use Rattle.std.specs.Prelude.{◌≡◌, ◌++◌, [], decimal, slice_index_or, OnOk};
ghost use Rattle.sharc_tree.specs.Texts.{Appends};
ghost use Rattle.sharc_report.specs.Places.{file_text, place_text, token_place, tokens_between};

use itoa::Buffer;
use sharc_ctype::typed::Typed;
use sharc_mode::text::span_text;
use sharc_tree::token::{Site, Span};
use std::alloc::AllocError;

/// Whether a piece could be put behind a text: nothing but memory can be lacking.
pub(crate) type Put = Result<(), AllocError>;

pub(crate) fn put_number(text: &mut Vec<u8>, number: u64) -> Put
    ensures { OnOk result (text.new.items ≡ text.old.items ++ decimal number) }
{
    let mut buffer = Buffer::new();
    text.extend_from_slice(buffer.format(number).as_bytes())
}

pub(crate) fn put_two(text: &mut Vec<u8>, first: &[u8], second: &[u8]) -> Put
    ensures { OnOk result (text.new.items ≡ text.old.items ++ (first.now ++ second.now)) }
{
    text.extend_from_slice(first)?;
    text.extend_from_slice(second)
}

pub(crate) fn put_three(text: &mut Vec<u8>, first: &[u8], second: &[u8], third: &[u8]) -> Put
    ensures { OnOk result (text.new.items ≡ text.old.items ++ (first.now ++ second.now ++ third.now)) }
{
    put_two(text, first, second)?;
    text.extend_from_slice(third)
}

/// The name of a file; none past the last one.
fn file_text(typed: &Typed, file: u32) -> &[u8]
    ensures { result.now ≡ file_text typed.now file }
{
    let files = typed.program().tokens.files.as_slice();
    let file = file as usize;
    if file < files.len() {
        files[file].as_slice()
    } else {
        &[]
    }
}

/// `file:line`.
pub(crate) fn put_place(text: &mut Vec<u8>, typed: &Typed, file: u32, line: u32) -> Put
    ensures { Appends result (place_text typed.now file line) text.old.items text.new.items }
{
    text.extend_from_slice(file_text(typed, file))?;
    text.extend_from_slice(b":")?;
    put_number(text, u64::from(line))
}

/// The place of a token; nothing past the last one.
pub(crate) fn put_token_place(text: &mut Vec<u8>, typed: &Typed, token: u32) -> Put
    ensures { Appends result (token_place typed.now token) text.old.items text.new.items }
{
    let tokens = typed.program().tokens.list.as_slice();
    let token = token as usize;
    if token < tokens.len() {
        put_place(text, typed, tokens[token].file, tokens[token].line)
    } else {
        Ok(())
    }
}

/// The tokens from the one number to the other, both included; those past the last one have no text.
pub(crate) fn put_tokens(text: &mut Vec<u8>, typed: &Typed, from: u32, last: u32) -> Put
    ensures { Appends result (tokens_between typed.now from last) text.old.items text.new.items }
{
    let first = Site {
        file: 0,
        line: 0,
        token: from,
    };
    let last = Site {
        file: 0,
        line: 0,
        token: last,
    };
    let tokens = span_text(*text.allocator(), typed, Span { first, last })?;
    text.extend_from_slice(tokens.as_slice())
}
