// The texts of a program: that of all its tokens, then the lock paths of its lines, then the names of its functions.

ghost use Rattle.std.specs.Prelude.{◌≡◌, ◌++◌, length, slice_get, IfOk, OnOk};
ghost use Rattle.sharc_ctype.specs.Resolved.{functions_in};
ghost use Rattle.sharc_flat.specs.Flattens.{names_of};
ghost use Rattle.sharc_flat.specs.Laid.{words_of, name_of, field_behind, beside_words, lock_text_of, AreNamed};
ghost use Rattle.sharc_flatten.specs.Places.{places_from, LiesIn, Grows};

use crate::lookups::small;
use crate::tokens::{add_text, lay_tokens};
use sharc_code::{Function, PlaceMode, Text};
use sharc_ctype::typed::Typed;
use sharc_flat::{LineTexts, Op, Spot};
use sharc_mode::text::text_at;
use sharc_mode::types::fields_behind;
use sharc_names::fault::Named;
use sharc_tree::print::print_span;
use sharc_tree::tree::Declaration;
use std::alloc::{AllocError, Global};

fn name_at(fields: &[Declaration], place: u32) -> &[u8]
    ensures { result.now ≡ name_of (slice_get fields.now place) }
{
    match fields.get(place as usize) {
        None => &[],
        Some(field) => field.name.text.as_slice(),
    }
}

/// The name of the field at this place of what a variable points to.
fn field_behind(typed: &Typed, named: Named, place: u32) -> &[u8]
    ensures { result.now ≡ field_behind typed.now named place }
{
    match named {
        Named::Variable(token) => name_at(fields_behind(typed, typed.declaration_at(token)), place),
        Named::Struct(_) => &[],
        Named::Global(_) => &[],
        Named::Function(_) => &[],
        Named::Field(_) => &[],
        Named::Known => &[],
    }
}

/// The text of the tokens from the first number up to the second, at the end of these bytes.
fn add_words(
    alloc: Global,
    typed: &Typed,
    from: u32,
    until: u32,
    bytes: &mut Vec<u8>,
) -> Result<(), AllocError>
    ensures { OnOk result (bytes.new.items ≡ bytes.old.items ++ words_of typed.now from until) }
{
    let program = typed.program();
    let until = (until as usize).min(program.tokens.list.len());
    if (from as usize) < until {
        let words = print_span(alloc, program, from, until as u32 - 1)?;
        bytes.extend_from_slice(words.as_slice())
    } else {
        Ok(())
    }
}

/// The lvalue without the parentheses around it, with its last token replaced by the mutex's name, at the end of these
/// bytes.
fn add_beside(
    alloc: Global,
    typed: &Typed,
    lvalue: Text,
    lock: Text,
    bytes: &mut Vec<u8>,
) -> Result<(), AllocError>
    ensures { OnOk result (bytes.new.items ≡ bytes.old.items ++ beside_words typed.now lvalue lock) }
{
    let open = lock.from.saturating_sub(lvalue.from);
    let last = lvalue.until.saturating_sub(1).saturating_sub(open);
    add_words(alloc, typed, lock.from, last, bytes)?;
    bytes.extend_from_slice(text_at(typed, lock.until))
}

/// The path of the lock of a mode, as reports print it, at the end of these bytes; nothing for a mode without one.
fn add_lock(alloc: Global, typed: &Typed, spot: Spot, bytes: &mut Vec<u8>) -> Result<(), AllocError>
    ensures { OnOk result (bytes.new.items
        ≡ bytes.old.items ++ lock_text_of typed.now spot.mode spot.lvalue spot.lock_text) }
{
    let token = spot.lock_text.until;
    match spot.mode {
        PlaceMode::LockedGlobal(_, _) => bytes.extend_from_slice(text_at(typed, token)),
        PlaceMode::LockedThrough(_, place) => {
            bytes.extend_from_slice(text_at(typed, token))?;
            bytes.extend_from_slice(b"->")?;
            bytes.extend_from_slice(field_behind(typed, typed.named(token), place))
        }
        PlaceMode::LockedSibling(_, _) => add_beside(
            alloc,
            typed,
            spot.lvalue,
            spot.lock_text,
            bytes,
        ),
        PlaceMode::LockedLoaded => {
            bytes.extend_from_slice(b"*")?;
            add_beside(alloc, typed, spot.lvalue, spot.lock_text, bytes)
        }
        PlaceMode::Private => Ok(()),
        PlaceMode::Readonly => Ok(()),
        PlaceMode::Racy => Ok(()),
        PlaceMode::Dynamic => Ok(()),
    }
}

/// The same with where it lies.
fn lock_text(
    alloc: Global,
    typed: &Typed,
    spot: Spot,
    bytes: &mut Vec<u8>,
) -> Result<Text, AllocError>
    ensures grows { OnOk result (Grows bytes.old.items bytes.new.items) }
    ensures lies { IfOk result (λ lock.
        LiesIn bytes.new.items lock (lock_text_of typed.now spot.mode spot.lvalue spot.lock_text)) }
{
    let from = small(bytes.len())?;
    add_lock(alloc, typed, spot, bytes)?;
    let until = small(bytes.len())?;
    Ok(Text { from, until })
}

/// Where the tokens of a program lie among the bytes of all texts, which begin with the text of all tokens.
#[derive(Drop)]
pub struct TokenTexts<'a> {
    t: &'a Typed,
    places: Vec<Text>,
    ghost are: { places.items ≡ places_from 0 t.now.program.tokens.list },
}

impl<'a> TokenTexts<'a> {
    ghost use Rattle.std.specs.Prelude.{◌≡◌, ◌++◌, [], List, ℕ, IfOk, OnOk};
    ghost use Rattle.sharc_tree.specs.Texts.{tokens_text};
    ghost use Rattle.sharc_flat.specs.Laid.{words_of, spot_in, AreTexts, AreTold};
    ghost use Rattle.sharc_flatten.specs.Places.{LiesIn, Grows};

    /// The text of all tokens of a program, and where these lie in it.
    pub fn of(alloc: Global, typed: &'a Typed, bytes: &mut Vec<u8>) -> Result<Self, AllocError>
        requires { bytes.old.items ≡ [] }
        ensures t { IfOk result (λ words. words.t.now ≡ typed.now) }
        ensures bytes { OnOk result (bytes.new.items ≡ tokens_text typed.now.program.tokens.list) }
    {
        let tokens = typed.program().tokens.list.as_slice();
        let places = lay_tokens(alloc, tokens, bytes)?;
        Ok(TokenTexts { t: typed, places })
    }

    /// Where the tokens from the first number up to the second lie.
    fn place(&self, from: u32, until: u32) -> Text
        ensures { LiesIn (tokens_text self.now.t.now.program.tokens.list) result (words_of self.now.t.now from until) }
    {
        let until = (until as usize).min(self.places.len());
        let from = from as usize;
        if from < until {
            Text {
                from: self.places[from].from,
                until: self.places[until - 1].until,
            }
        } else {
            Text { from: 0, until: 0 }
        }
    }

    /// Where the texts of a line lie; its lock path comes to the end of the bytes.
    fn told(&self, alloc: Global, op: Op, bytes: &mut Vec<u8>) -> Result<LineTexts, AllocError>
        requires { Grows (tokens_text self.now.t.now.program.tokens.list) bytes.old.items }
        ensures grows { OnOk result (Grows bytes.old.items bytes.new.items) }
        ensures told { IfOk result (λ told. (more : List ℕ)
            → AreTexts self.now.t.now (bytes.new.items ++ more) (spot_in op) told) }
    {
        match op.spot() {
            None => {
                let nothing = Text { from: 0, until: 0 };
                Ok(LineTexts {
                    lvalue: nothing,
                    lock: nothing,
                })
            }
            Some(spot) => {
                let lvalue = self.place(spot.lvalue.from, spot.lvalue.until);
                let lock = lock_text(alloc, self.t, spot, bytes)?;
                Ok(LineTexts { lvalue, lock })
            }
        }
    }

    /// Where the texts of all lines lie; their lock paths come to the end of the bytes.
    pub fn lay(
        &self,
        alloc: Global,
        lines: &[Op],
        bytes: &mut Vec<u8>,
    ) -> Result<Vec<LineTexts>, AllocError>
        requires { Grows (tokens_text self.now.t.now.program.tokens.list) bytes.old.items }
        ensures { IfOk result (λ told. (more : List ℕ)
            → AreTold self.now.t.now (bytes.new.items ++ more) lines.now told.items) }
    {
        let mut told = Vec::with_capacity(alloc, lines.len())?;
        for line in 0..lines.len() {
            let texts = self.told(alloc, lines[line], bytes)?;
            told.push(texts)?;
        }
        Ok(told)
    }
}

/// All rows with where the names of their functions lie; these come to the end of the bytes.
pub fn lay_names(
    typed: &Typed,
    rows: &mut Vec<Function>,
    bytes: &mut Vec<u8>,
) -> Result<(), AllocError>
    requires { length rows.old.items ≡ length (functions_in typed.now.program.items) }
    ensures grows { OnOk result (Grows bytes.old.items bytes.new.items) }
    ensures named { OnOk result (
        AreNamed bytes.new.items rows.old.items (names_of (functions_in typed.now.program.items)) rows.new.items) }
{
    for number in 0..rows.len() {
        match typed.function_at(small(number)?) {
            None => return Err(AllocError),
            Some(of) => {
                let name = add_text(of.name.text.as_slice(), bytes)?;
                rows[number] = Function {
                    name,
                    ..rows[number]
                };
            }
        }
    }
    Ok(())
}
