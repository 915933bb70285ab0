// Where the tokens of a program lie in the text of all of them.

ghost use Rattle.std.specs.Prelude.{◌≡◌, ◌+◌, ◌++◌, length, IfOk, OnOk};
ghost use Rattle.sharc_tree.specs.Texts.{is_word, blank_between, tokens_text};
ghost use Rattle.sharc_flatten.specs.Places.{places_from};

use crate::lookups::small;
use sharc_code::Text;
use sharc_tree::token::Token;
use std::alloc::{AllocError, Global};

/// Whether a token's text is a word or a number.
fn is_word(text: &[u8]) -> bool
    ensures { result ≡ is_word text.now }
{
    match text {
        [] => false,
        [first, ..] => matches!(*first, b'a'..=b'z' | b'A'..=b'Z' | b'0'..=b'9' | b'_'),
    }
}

/// A blank, only between two tokens that are both words or numbers.
fn add_blank(token: &Token, rest: &[Token], bytes: &mut Vec<u8>) -> Result<(), AllocError>
    ensures { OnOk result (bytes.new.items ≡ bytes.old.items ++ blank_between token.now rest.now) }
{
    match rest {
        [] => Ok(()),
        [next, ..] => {
            if is_word(token.text.as_slice()) && is_word(next.text.as_slice()) {
                bytes.extend_from_slice(b" ")
            } else {
                Ok(())
            }
        }
    }
}

/// A text, at the end of these bytes, and where it lies.
pub fn add_text(text: &[u8], bytes: &mut Vec<u8>) -> Result<Text, AllocError>
    ensures from { IfOk result (λ place. place.from ≡ length bytes.old.items) }
    ensures until { IfOk result (λ place. place.until ≡ length bytes.old.items + length text.now) }
    ensures bytes { OnOk result (bytes.new.items ≡ bytes.old.items ++ text.now) }
{
    let from = small(bytes.len())?;
    bytes.extend_from_slice(text)?;
    let until = small(bytes.len())?;
    Ok(Text { from, until })
}

/// The text of all tokens, at the end of these bytes, and where each of them lies.
pub fn lay_tokens(
    alloc: Global,
    tokens: &[Token],
    bytes: &mut Vec<u8>,
) -> Result<Vec<Text>, AllocError>
    ensures places { IfOk result (λ places. places.items ≡ places_from (length bytes.old.items) tokens.now) }
    ensures bytes { OnOk result (bytes.new.items ≡ bytes.old.items ++ tokens_text tokens.now) }
{
    let mut places = Vec::with_capacity(alloc, tokens.len())?;
    let mut rest = tokens;
    while let [token, others @ ..] = rest {
        places.push(add_text(token.text.as_slice(), bytes)?)?;
        add_blank(token, others, bytes)?;
        rest = others;
    }
    Ok(places)
}
