// The text of errors of modes.

ghost use Rattle.std.specs.Prelude.{◌≡◌, ◌++◌, codes, drop, Some, IfOk};
ghost use Rattle.sharc_tree.specs.Texts.{type_text, Appends};
ghost use Rattle.sharc_report.specs.{Places.tokens_between, Verdicts.{without_top, target_text, expected_found}};
ghost use Rattle.sharc_report.specs.Verdicts.{error_message, error_line, suggestion, beside, refusal, check_text};

use crate::put::{Put, put_number, put_place, put_three, put_tokens, put_two};
use sharc_ctype::typed::Typed;
use sharc_mode::error::{Cast, ErrorCode, ModeError, ModeErrors};
use sharc_mode::moded::Moded;
use sharc_tree::ctype::CType;
use sharc_tree::listed::Listed;
use sharc_tree::print::print_type;
use std::alloc::{AllocError, Global};

/// A type without the mode of its top.
fn without_top(alloc: Global, t: &CType) -> Result<CType, AllocError>
    ensures { IfOk result (λ c. c ≡ without_top t.now) }
{
    let base = t.base.copy(alloc)?;
    let mut levels = t.levels.copy(alloc)?.into_vec();
    if !levels.is_empty() {
        levels[0] = None;
    }
    Ok(CType {
        base,
        levels: Listed::of(levels),
    })
}

fn put_target(text: &mut Vec<u8>, t: &CType) -> Put
    ensures { Appends result (target_text t.now) text.old.items text.new.items }
{
    let alloc = *text.allocator();
    let shown = without_top(alloc, t)?;
    let target = print_type(alloc, &shown)?;
    text.extend_from_slice(&target)
}

fn put_expected(text: &mut Vec<u8>, before: &[u8], e: &ModeError) -> Put
    ensures { Appends result (before.now ++ expected_found e.now) text.old.items text.new.items }
{
    put_two(text, before, b"expected ")?;
    put_target(text, &e.expected)?;
    text.extend_from_slice(b", found ")?;
    put_target(text, &e.found)
}

fn put_type(text: &mut Vec<u8>, t: &CType, behind: &[u8]) -> Put
    ensures { Appends result (type_text t.now ++ behind.now) text.old.items text.new.items }
{
    let whole = print_type(*text.allocator(), t)?;
    put_two(text, &whole, behind)
}

fn put_subject(text: &mut Vec<u8>, before: &[u8], e: &ModeError) -> Put
    ensures { Appends result (before.now ++ e.now.subject) text.old.items text.new.items }
{
    put_two(text, before, e.subject.as_slice())
}

fn put_between(text: &mut Vec<u8>, before: &[u8], e: &ModeError, behind: &[u8]) -> Put
    ensures { Appends result (before.now ++ e.now.subject ++ behind.now) text.old.items text.new.items }
{
    put_three(text, before, e.subject.as_slice(), behind)
}

fn put_message(text: &mut Vec<u8>, e: &ModeError) -> Put
    ensures { Appends result (error_message e.now) text.old.items text.new.items }
{
    match e.code {
        ErrorCode::ModeMismatch => put_expected(text, b"mode mismatch: ", e),
        ErrorCode::ReadonlyWrite => put_subject(text, b"write to readonly ", e),
        ErrorCode::PrivateTarget => put_type(text, &e.expected, b" holds a private target"),
        ErrorCode::LockPathNotConstant => put_between(text, b"lock path ", e, b" is not constant"),
        ErrorCode::ModeNotAllowed => put_between(text, b"mode ", e, b" not allowed"),
        ErrorCode::PrivateField => put_subject(text, b"private in field ", e),
        ErrorCode::PrivateReachesThread => put_subject(text, b"private data reaches a thread: ", e),
        ErrorCode::CastChangesInnerMode => put_expected(text, b"cast changes an inner mode: ", e),
        ErrorCode::ReadonlySource => put_subject(text, b"readonly source ", e),
        ErrorCode::NamedByLockPath => put_between(text, b"", e, b" is named by a lock path"),
        ErrorCode::NeedsConstantBase => put_between(
            text,
            b"target of ",
            e,
            b" needs a constant base",
        ),
    }
}

fn put_error(text: &mut Vec<u8>, typed: &Typed, e: &ModeError) -> Put
    ensures { Appends result (error_line typed.now e.now) text.old.items text.new.items }
{
    put_place(text, typed, e.site.file, e.site.line)?;
    text.extend_from_slice(b": M")?;
    put_number(text, u64::from(e.code.number()))?;
    text.extend_from_slice(b" ")?;
    put_message(text, e)?;
    text.extend_from_slice(b"\n")
}

fn put_lvalue(text: &mut Vec<u8>, typed: &Typed, c: &Cast) -> Put
    ensures { Appends result
        (codes ", " ++ tokens_between typed.now c.now.from c.now.until ++ codes ")\n") text.old.items text.new.items }
{
    text.extend_from_slice(b", ")?;
    put_tokens(text, typed, c.from, c.until)?;
    text.extend_from_slice(b")\n")
}

fn put_cast(text: &mut Vec<u8>, typed: &Typed, c: &Cast) -> Put
    ensures { Appends result (suggestion typed.now (Some c.now)) text.old.items text.new.items }
{
    put_place(text, typed, c.site.file, c.site.line)?;
    text.extend_from_slice(b": suggest SCAST(")?;
    put_target(text, &c.to)?;
    put_lvalue(text, typed, c)
}

fn put_suggestion(text: &mut Vec<u8>, typed: &Typed, c: &Option<Cast>) -> Put
    ensures { Appends result (suggestion typed.now c.now) text.old.items text.new.items }
{
    match c {
        None => Ok(()),
        Some(c) => put_cast(text, typed, c),
    }
}

/// The suggestion that is the first of these.
fn put_first(text: &mut Vec<u8>, typed: &Typed, casts: &[Option<Cast>]) -> Put
    ensures { Appends result (suggestion typed.now (beside casts.now)) text.old.items text.new.items }
{
    match casts {
        [] => Ok(()),
        [first, ..] => put_suggestion(text, typed, first),
    }
}

/// An error, and the suggestion that is the first of these.
fn put_refusal(text: &mut Vec<u8>, typed: &Typed, e: &ModeError, casts: &[Option<Cast>]) -> Put
    ensures { Appends result (refusal typed.now e.now (beside casts.now)) text.old.items text.new.items }
{
    put_error(text, typed, e)?;
    put_first(text, typed, casts)
}

fn behind_first(casts: &[Option<Cast>]) -> &[Option<Cast>]
    ensures { result.now ≡ drop 1 casts.now }
{
    match casts {
        [] => casts,
        [_, behind @ ..] => behind,
    }
}

/// The errors of a program's modes, a line each, `file:line: code message`, and after each the cast beside it, if there
/// is one.
pub fn check_text(
    alloc: Global,
    program: &Moded,
    errors: &ModeErrors,
    casts: &[Option<Cast>],
) -> Result<Vec<u8>, AllocError>
    ensures { IfOk result (λ text. text.items ≡ check_text program.now.typed errors.now casts.now) }
{
    let mut text = Vec::new(alloc);
    let mut left = casts;
    for error in errors.as_slice() {
        put_refusal(&mut text, program.typed(), error, left)?;
        left = behind_first(left);
    }
    Ok(text)
}
