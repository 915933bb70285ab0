// Reading the items of a program.

ghost use Rattle.std.specs.Prelude.{◌<◌, ◌≤◌, IfOk};
ghost use Rattle.sharc_parse.specs.{Places.site_in, Goes.from, View.bare_type, Items.{OpensStruct, ReadsStruct}};
ghost use Rattle.sharc_parse.specs.Items.{IsStructPlaced, ReadsFunction, IsFunctionPlaced, ReadsNamed, IsNamedPlaced};
ghost use Rattle.sharc_parse.specs.{Goes.{GoesOn, IsPlace}, Items.{ReadsItem, IsItemPlaced}};

use crate::field::fields;
use crate::form::form;
use crate::held::expect_behind;
use crate::local::name_there;
use crate::parameter::parameters;
use crate::statement::statements;
use crate::token::{Reading, span, take};
use crate::types::{ModePermission, is_bare, written_type};
use sharc_tree::ctype::Base;
use sharc_tree::held::both;
use sharc_tree::token::{Punctuator, Token};
use sharc_tree::tree::{
    Declaration, Declarations, FunctionDefinition, GlobalDefinition, Identifier, Item,
    StructDefinition, WrittenType,
};
use std::alloc::Global;

/// The name of the struct whose fields begin after the type, past their `{`.
fn opens_struct(
    alloc: Global,
    tokens: &[Token],
    at: &mut usize,
    written: &WrittenType,
) -> Reading<Option<Identifier>>
    ensures { OpensStruct result written.now tokens.now at.old at.new }
{
    let Base::Struct(name) = &written.ctype.base else {
        return Ok(None);
    };
    if !is_bare(written) || !take(tokens, at, Punctuator::OpenBrace) {
        return Ok(None);
    }
    let text = name.copy(alloc)?;
    Ok(Some(Identifier {
        site: written.base,
        text,
    }))
}

/// What follows `struct id {`.
fn rest_of_struct(
    alloc: Global,
    tokens: &[Token],
    at: &mut usize,
    name: Identifier,
) -> Reading<Item>
    requires behind { 3 ≤ at.old }
    requires there { IsPlace tokens.now at.old }
    ensures reads { ReadsStruct name.text result (from tokens.now at.old) (from tokens.now at.new) }
    ensures placed { IsStructPlaced name result tokens.now at.old at.new }
    ensures onward { GoesOn tokens.now at.old at.new }
{
    let first = *at - 3;
    let (name, fields) = both(name, fields(alloc, tokens, at))?;
    let (name, fields) = expect_behind(tokens, at, (name, fields), Punctuator::Semicolon)?;
    Ok(Item::Struct(StructDefinition {
        span: span(tokens, first, *at),
        name,
        fields: Declarations::of(fields),
    }))
}

/// What follows `type id (`, where the item begins at that token.
fn rest_of_function(
    alloc: Global,
    tokens: &[Token],
    at: &mut usize,
    first: usize,
    given: WrittenType,
    name: Identifier,
) -> Reading<Item>
    requires begun { first < at.old }
    requires there { IsPlace tokens.now at.old }
    ensures reads { ReadsFunction (bare_type given) name.text result (from tokens.now at.old) (from tokens.now at.new) }
    ensures placed { IsFunctionPlaced given name first result tokens.now at.old at.new }
    ensures onward { GoesOn tokens.now at.old at.new }
{
    let (named, parameters) = both((given, name), parameters(alloc, tokens, at))?;
    let opens = *at;
    let head = expect_behind(tokens, at, (named, parameters), Punctuator::OpenBrace)?;
    let (((result, name), parameters), statements) = both(head, statements(alloc, tokens, at, 63))?;
    Ok(Item::Function(FunctionDefinition {
        span: span(tokens, first, *at),
        result,
        name,
        parameters: Declarations::of(parameters),
        body: span(tokens, opens, *at),
        statements,
    }))
}

/// What follows the type of a global or a function, where the item begins at that token.
fn rest_of_named(
    alloc: Global,
    tokens: &[Token],
    at: &mut usize,
    first: usize,
    written: WrittenType,
) -> Reading<Item>
    requires begun { first < at.old }
    requires there { IsPlace tokens.now at.old }
    ensures reads { ReadsNamed written result (from tokens.now at.old) (from tokens.now at.new) }
    ensures placed { IsNamedPlaced written first result tokens.now at.old at.new }
    ensures onward { GoesOn tokens.now at.old at.new }
{
    let (written, name) = both(written, name_there(alloc, tokens, at))?;
    if take(tokens, at, Punctuator::OpenParenthesis) {
        return rest_of_function(alloc, tokens, at, first, written, name);
    }
    let declaration = Declaration {
        span: span(tokens, first, *at),
        written,
        name,
    };
    let (declaration, form) = both(declaration, form(tokens, at))?;
    Ok(Item::Global(GlobalDefinition {
        span: span(tokens, first, *at),
        declaration,
        form,
    }))
}

/// A struct, a global or a function.
pub(crate) fn item(alloc: Global, tokens: &[Token], at: &mut usize) -> Reading<Item>
    requires there { IsPlace tokens.now at.old }
    ensures reads { ReadsItem result (from tokens.now at.old) (from tokens.now at.new) }
    ensures placed { IsItemPlaced result tokens.now at.old at.new }
    ensures further { IfOk result (λ _. at.old < at.new) }
    ensures onward { GoesOn tokens.now at.old at.new }
{
    let first = *at;
    let written = written_type(alloc, tokens, at, ModePermission::Allowed)?;
    if let Some(name) = opens_struct(alloc, tokens, at, &written)? {
        return rest_of_struct(alloc, tokens, at, name);
    }
    rest_of_named(alloc, tokens, at, first, written)
}
