// Whether the `malloc` at a token makes objects with a pointer in a cell.

ghost use Rattle.std.specs.{Prelude.◌≡◌, List.list_any};
ghost use Rattle.sharc_tree.specs.View.{view_right, view_simple, view_first, view_head, view_stmt, view_statements};
ghost use Rattle.sharc_tree.specs.View.{view_option, view_item, view_items};
ghost use Rattle.sharc_meaning.specs.References.{is_pointer_in, types_made};
ghost use Rattle.sharc_meaning_tests.specs.Making.{right_makes, simple_makes, initial_makes, first_makes, step_makes};
ghost use Rattle.sharc_meaning_tests.specs.Making.{head_makes, statement_makes, statements_make, item_makes};
ghost use Rattle.sharc_meaning_tests.specs.Making.{items_make};

use crate::pointers::is_pointer_in;
use sharc_ctype::typed::Typed;
use sharc_tree::tree::{ForFirst, ForHead, Item, Right, Simple, Stmt};

fn right_makes(typed: &Typed, token: u32, cell: u64, x: &Right) -> bool
    ensures { result ≡ right_makes typed.now token cell (view_right x.now) }
{
    match x {
        Right::Value(_) => false,
        Right::Malloc(span, _, of) => span.first.token == token && is_pointer_in(typed, of, cell),
    }
}

fn simple_makes(typed: &Typed, token: u32, cell: u64, x: &Simple) -> bool
    ensures { result ≡ simple_makes typed.now token cell (view_simple x.now) }
{
    match x {
        Simple::Assign(_, _, right) => right_makes(typed, token, cell, right),
        Simple::Call(_) => false,
    }
}

fn initial_makes(typed: &Typed, token: u32, cell: u64, x: &Option<Right>) -> bool
    ensures { result ≡ initial_makes typed.now token cell (view_option view_right x.now) }
{
    match x {
        None => false,
        Some(right) => right_makes(typed, token, cell, right),
    }
}

fn first_makes(typed: &Typed, token: u32, cell: u64, x: &ForFirst) -> bool
    ensures { result ≡ first_makes typed.now token cell (view_first x.now) }
{
    match x {
        ForFirst::Nothing => false,
        ForFirst::Declares(local) => initial_makes(typed, token, cell, &local.initial),
        ForFirst::Does(x) => simple_makes(typed, token, cell, x),
    }
}

fn step_makes(typed: &Typed, token: u32, cell: u64, x: &Option<Simple>) -> bool
    ensures { result ≡ step_makes typed.now token cell (view_option view_simple x.now) }
{
    match x {
        None => false,
        Some(x) => simple_makes(typed, token, cell, x),
    }
}

fn head_makes(typed: &Typed, token: u32, cell: u64, head: &ForHead) -> bool
    ensures { result ≡ head_makes typed.now token cell (view_head head.now) }
{
    first_makes(typed, token, cell, &head.first) || step_makes(typed, token, cell, &head.step)
}

#[cycle(statement)]
fn statement_makes(typed: &Typed, token: u32, cell: u64, stmt: &Stmt) -> bool
    ensures { result ≡ statement_makes typed.now token cell (view_stmt stmt.now) }
{
    match stmt {
        Stmt::Empty(_) | Stmt::Jump(_, _) | Stmt::Return(_, _) => false,
        Stmt::Block(_, all) => statements_make(typed, token, cell, all.as_slice()),
        Stmt::Declare(_, local) => initial_makes(typed, token, cell, &local.initial),
        Stmt::Simple(_, x) => simple_makes(typed, token, cell, x),
        Stmt::If(_, _, then) => statement_makes(typed, token, cell, then),
        Stmt::IfElse {
            then,
            otherwise,
            ..
        } => {
            statement_makes(typed, token, cell, then)
                || statement_makes(typed, token, cell, otherwise)
        }
        Stmt::While(_, _, body) => statement_makes(typed, token, cell, body),
        Stmt::For(_, head, body) => {
            head_makes(typed, token, cell, head) || statement_makes(typed, token, cell, body)
        }
    }
}

#[cycle(statement)]
fn statements_make(typed: &Typed, token: u32, cell: u64, all: &[Stmt]) -> bool
    ensures { result ≡ statements_make typed.now token cell (view_statements all.now) }
{
    for stmt in all {
        if statement_makes(typed, token, cell, stmt) {
            return true;
        }
    }
    false
}

fn item_makes(typed: &Typed, token: u32, cell: u64, item: &Item) -> bool
    ensures { result ≡ item_makes typed.now token cell (view_item item.now) }
{
    match item {
        Item::Struct(_) | Item::Global(_) => false,
        Item::Function(function) => {
            statements_make(typed, token, cell, function.statements.as_slice())
        }
    }
}

fn items_make(typed: &Typed, token: u32, cell: u64, items: &[Item]) -> bool
    ensures { result ≡ items_make typed.now token cell (view_items items.now) }
{
    for item in items {
        if item_makes(typed, token, cell, item) {
            return true;
        }
    }
    false
}

/// Whether some `malloc` at this token makes objects that have a pointer in this cell.
pub(crate) fn any_makes(typed: &Typed, token: u32, cell: u64) -> bool
    ensures { result ≡ list_any (λ w. is_pointer_in typed.now w cell) (types_made typed.now token) }
{
    items_make(typed, token, cell, typed.program().items.as_slice())
}
