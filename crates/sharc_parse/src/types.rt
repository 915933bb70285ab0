// Reading a type.

ghost use Rattle.std.specs.Prelude.{◌≤◌, ◌<◌, length, IfOk};
ghost use Rattle.sharc_parse.specs.{Goes.from, View.bare_type, Types.{may_stand, TakesMode, ReadsPath, IsPathPlaced}};
ghost use Rattle.sharc_parse.specs.Types.{ReadsModeRest, IsModeRestPlaced, ReadsMode, IsModePlaced, ReadsLevel};
ghost use Rattle.sharc_parse.specs.Types.{TakesBase, ReadsBase, IsBasePlaced, ReadsBottom, IsBottomPlaced, EndsBottom};
ghost use Rattle.sharc_parse.specs.Types.{ReadsType, IsTypePlaced, EndsType, IsBare, ReadsCast, IsCastPlaced};
ghost use Rattle.sharc_parse.specs.Goes.{GoesOn, IsPlace};

use crate::held::expect_behind;
use crate::token::{Reading, ReadingFault, enter, expect, name, site, span, take};
use sharc_tree::ctype::{Base, CType, Levels, Mode, Path};
use sharc_tree::held::both;
use sharc_tree::token::{Keyword, Punctuator, Site, Token, TokenKind};
use sharc_tree::tree::WrittenType;
use std::alloc::Global;

/// The word that a sharing mode begins with.
#[derive(Clone, Copy)]
pub(crate) enum ModeWord {
    Private,
    Readonly,
    Racy,
    Dynamic,
    Locked,
}

/// Goes past the word that a sharing mode begins with.
pub(crate) fn mode_word(tokens: &[Token], at: &mut usize) -> Option<ModeWord>
    ensures { TakesMode result tokens.now at.old at.new }
{
    if *at >= tokens.len() {
        return None;
    }
    let token = &tokens[*at];
    let word = match token.kind {
        TokenKind::Keyword(Keyword::Private) => ModeWord::Private,
        TokenKind::Keyword(Keyword::Readonly) => ModeWord::Readonly,
        TokenKind::Keyword(Keyword::Racy) => ModeWord::Racy,
        TokenKind::Keyword(Keyword::Dynamic) => ModeWord::Dynamic,
        TokenKind::Keyword(Keyword::Locked) => ModeWord::Locked,
        _ => return None,
    };
    *at += 1;
    Some(word)
}

/// The lock path after `locked`, with its parentheses.
#[tactic(auto, using(crate::proofs::TypeSteps::open_path, crate::proofs::TypeSteps::path_name, crate::proofs::TypeSteps::no_path_name, crate::proofs::TypeSteps::path_arrow, crate::proofs::TypeSteps::path_ends, crate::proofs::TypeSteps::path_ends_not, crate::proofs::TypeSteps::path_second, crate::proofs::TypeSteps::no_path_second, crate::proofs::TypeSteps::path_closes, crate::proofs::Steps::fixed_stuck))]
fn path(alloc: Global, tokens: &[Token], at: &mut usize) -> Reading<Path>
    requires there { IsPlace tokens.now at.old }
    ensures reads { ReadsPath result (from tokens.now at.old) (from tokens.now at.new) }
    ensures placed { IsPathPlaced result tokens.now at.old at.new }
    ensures onward { GoesOn tokens.now at.old at.new }
{
    expect(tokens, at, Punctuator::OpenParenthesis)?;
    let Some(first) = name(alloc, tokens, at)? else {
        return Err(ReadingFault::Wrong);
    };
    if take(tokens, at, Punctuator::Arrow) {
        let Some(second) = name(alloc, tokens, at)? else {
            return Err(ReadingFault::Wrong);
        };
        expect(tokens, at, Punctuator::CloseParenthesis)?;
        Ok(Path::Through(first.text, first.site.token, second.text))
    } else {
        expect(tokens, at, Punctuator::CloseParenthesis)?;
        Ok(Path::One(first.text, first.site.token))
    }
}

/// What of a sharing mode follows its first word.
fn rest_of_mode(alloc: Global, tokens: &[Token], at: &mut usize, word: ModeWord) -> Reading<Mode>
    requires there { IsPlace tokens.now at.old }
    ensures reads { ReadsModeRest result word (from tokens.now at.old) (from tokens.now at.new) }
    ensures placed { IsModeRestPlaced result word tokens.now at.old at.new }
    ensures onward { GoesOn tokens.now at.old at.new }
{
    match word {
        ModeWord::Private => Ok(Mode::Private),
        ModeWord::Readonly => Ok(Mode::Readonly),
        ModeWord::Racy => Ok(Mode::Racy),
        ModeWord::Dynamic => Ok(Mode::Dynamic),
        ModeWord::Locked => Ok(Mode::Locked(path(alloc, tokens, at)?)),
    }
}

/// A sharing mode, if there is one.
#[tactic(auto, using(crate::proofs::TypeSteps::mode_goes, crate::proofs::TypeSteps::mode_meets, crate::proofs::TypeSteps::mode_read, crate::proofs::TypeSteps::mode_stands))]
fn mode(alloc: Global, tokens: &[Token], at: &mut usize) -> Reading<Option<Mode>>
    requires there { IsPlace tokens.now at.old }
    ensures reads { ReadsMode result (from tokens.now at.old) (from tokens.now at.new) }
    ensures placed { IsModePlaced result tokens.now at.old at.new }
    ensures onward { GoesOn tokens.now at.old at.new }
{
    let Some(word) = mode_word(tokens, at) else {
        return Ok(None);
    };
    let mode = rest_of_mode(alloc, tokens, at, word)?;
    Ok(Some(mode))
}

/// Whether sharing modes may be written in a type.
#[derive(Clone, Copy)]
pub(crate) enum ModePermission {
    Allowed,
    LeftOut,
}

/// A sharing mode, if modes may be written there and one is.
fn level(
    alloc: Global,
    tokens: &[Token],
    at: &mut usize,
    modes: ModePermission,
) -> Reading<Option<Mode>>
    requires there { IsPlace tokens.now at.old }
    ensures reads { ReadsLevel (may_stand modes) result (from tokens.now at.old) (from tokens.now at.new) }
    ensures placed { IsModePlaced result tokens.now at.old at.new }
    ensures onward { GoesOn tokens.now at.old at.new }
{
    match modes {
        ModePermission::Allowed => mode(alloc, tokens, at),
        ModePermission::LeftOut => Ok(None),
    }
}

/// The word that a base begins with.
#[derive(Clone, Copy)]
pub(crate) enum BaseWord {
    Int,
    Char,
    Long,
    Mutex,
    Void,
    Struct,
}

/// Goes past the word that a base begins with.
pub(crate) fn base_word(tokens: &[Token], at: &mut usize) -> Option<BaseWord>
    ensures { TakesBase result tokens.now at.old at.new }
{
    if *at >= tokens.len() {
        return None;
    }
    let token = &tokens[*at];
    let word = match token.kind {
        TokenKind::Keyword(Keyword::Int) => BaseWord::Int,
        TokenKind::Keyword(Keyword::Char) => BaseWord::Char,
        TokenKind::Keyword(Keyword::Long) => BaseWord::Long,
        TokenKind::Keyword(Keyword::Mutex) => BaseWord::Mutex,
        TokenKind::Keyword(Keyword::Void) => BaseWord::Void,
        TokenKind::Keyword(Keyword::Struct) => BaseWord::Struct,
        _ => return None,
    };
    *at += 1;
    Some(word)
}

/// A base, and the place of the token that names it.
#[tactic(auto, using(crate::proofs::TypeSteps::base_int, crate::proofs::TypeSteps::base_char, crate::proofs::TypeSteps::base_long, crate::proofs::TypeSteps::base_mutex, crate::proofs::TypeSteps::base_void, crate::proofs::TypeSteps::base_struct, crate::proofs::TypeSteps::struct_named, crate::proofs::TypeSteps::no_struct, crate::proofs::TypeSteps::no_base))]
fn base(alloc: Global, tokens: &[Token], at: &mut usize) -> Reading<(Base, Site)>
    requires there { IsPlace tokens.now at.old }
    ensures reads { ReadsBase result (from tokens.now at.old) (from tokens.now at.new) }
    ensures placed { IsBasePlaced result tokens.now at.old at.new }
    ensures onward { GoesOn tokens.now at.old at.new }
{
    let first = site(tokens, *at);
    let Some(word) = base_word(tokens, at) else {
        return Err(ReadingFault::Wrong);
    };
    match word {
        BaseWord::Int => Ok((Base::Int, first)),
        BaseWord::Char => Ok((Base::Char, first)),
        BaseWord::Long => Ok((Base::Long, first)),
        BaseWord::Mutex => Ok((Base::Mutex, first)),
        BaseWord::Void => Ok((Base::Void, first)),
        BaseWord::Struct => {
            let Some(name) = name(alloc, tokens, at)? else {
                return Err(ReadingFault::Wrong);
            };
            Ok((Base::Struct(name.text), name.site))
        }
    }
}

/// A base with its mode, and the place of the token that names it.
#[derive(Drop)]
pub(crate) struct Bottom {
    pub(crate) mode_first: bool,
    pub(crate) base: Base,
    pub(crate) place: Site,
    pub(crate) mode: Option<Mode>,
}

/// A base with its mode before it or after it, or without.
#[tactic(auto, using(crate::proofs::TypeSteps::begins_moded, crate::proofs::TypeSteps::mode_first, crate::proofs::TypeSteps::begins_bare, crate::proofs::TypeSteps::begins_plain, crate::proofs::TypeSteps::mode_behind))]
fn moded_base(
    alloc: Global,
    tokens: &[Token],
    at: &mut usize,
    modes: ModePermission,
) -> Reading<Bottom>
    requires there { IsPlace tokens.now at.old }
    ensures reads { ReadsBottom (may_stand modes) result (from tokens.now at.old) (from tokens.now at.new) }
    ensures ends { EndsBottom (may_stand modes) result (from tokens.now at.new) }
    ensures placed { IsBottomPlaced result tokens.now at.old at.new }
    ensures onward { GoesOn tokens.now at.old at.new }
{
    if let Some(mode) = level(alloc, tokens, at, modes)? {
        let (mode, (base, place)) = both(mode, base(alloc, tokens, at))?;
        Ok(Bottom {
            mode_first: true,
            base,
            place,
            mode: Some(mode),
        })
    } else {
        let named = base(alloc, tokens, at)?;
        let ((base, place), mode) = both(named, level(alloc, tokens, at, modes))?;
        Ok(Bottom {
            mode_first: false,
            base,
            place,
            mode,
        })
    }
}

/// A type as it is written.
#[tactic(auto, using(crate::proofs::TypeSteps::first_level, crate::proofs::TypeSteps::levels_more, crate::proofs::TypeSteps::levels_deep, crate::proofs::TypeSteps::level_wrong, crate::proofs::TypeSteps::type_reads, crate::proofs::TypeSteps::type_ends, crate::proofs::TypeSteps::type_stands))]
pub(crate) fn written_type(
    alloc: Global,
    tokens: &[Token],
    at: &mut usize,
    modes: ModePermission,
) -> Reading<WrittenType>
    requires there { IsPlace tokens.now at.old }
    ensures reads { ReadsType (may_stand modes) result (from tokens.now at.old) (from tokens.now at.new) }
    ensures ends { EndsType (may_stand modes) result (from tokens.now at.new) }
    ensures placed { IsTypePlaced result tokens.now at.old at.new }
    ensures onward { IfOk result (λ _. at.old < at.new) }
    ensures forward { at.old ≤ at.new }
    ensures within { at.new ≤ length tokens.now }
{
    let first = *at;
    let Bottom {
        mode_first,
        base,
        place,
        mode,
    } = moded_base(alloc, tokens, at, modes)?;
    let mut levels = Vec::new(alloc);
    levels.push(mode)?;
    while enter(tokens, at, Punctuator::Star, (9 - levels.len()) as u8)? {
        let above = level(alloc, tokens, at, modes)?;
        levels.insert(0, above)?;
    }
    let ctype = CType {
        base,
        levels: Levels::of(levels),
    };
    Ok(WrittenType {
        span: span(tokens, first, *at),
        mode_first,
        base: place,
        ctype,
    })
}

/// Whether the type has no star and no mode.
pub(crate) fn is_bare(written: &WrittenType) -> bool
    ensures { IsBare result (bare_type written.now) }
{
    let levels = &written.ctype.levels;
    !written.mode_first && levels.len() == 1 && levels.at(0).is_none()
}

/// `( type ,` after `SCAST`.
#[tactic(auto, using(crate::proofs::TypeSteps::cast_opens, crate::proofs::TypeSteps::cast_comma, crate::proofs::TypeSteps::cast_stuck, crate::proofs::Steps::fixed_stuck))]
pub(crate) fn cast_type(alloc: Global, tokens: &[Token], at: &mut usize) -> Reading<WrittenType>
    requires there { IsPlace tokens.now at.old }
    ensures reads { ReadsCast result (from tokens.now at.old) (from tokens.now at.new) }
    ensures placed { IsCastPlaced result tokens.now at.old at.new }
    ensures onward { GoesOn tokens.now at.old at.new }
{
    expect(tokens, at, Punctuator::OpenParenthesis)?;
    let written = written_type(alloc, tokens, at, ModePermission::Allowed)?;
    let written = expect_behind(tokens, at, written, Punctuator::Comma)?;
    Ok(written)
}
