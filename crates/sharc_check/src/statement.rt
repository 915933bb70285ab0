// What is said of statements and of functions.

ghost use Rattle.std.specs.{Prelude.{◌≡◌, ◌++◌, OnOk}, Option.option_map};
ghost use Rattle.sharc_tree.specs.View.{view_expr, view_option, view_right, view_simple, view_local, view_first};
ghost use Rattle.sharc_tree.specs.View.{view_head, view_stmt, view_statements, view_item, view_items};
ghost use Rattle.sharc_mode.specs.Expressions.{notes_of, option_notes, right_notes, simple_notes, local_notes};
ghost use Rattle.sharc_mode.specs.Expressions.{return_notes, first_notes, head_notes, notes_in, notes_in_all};
ghost use Rattle.sharc_mode.specs.{Expressions.{item_notes, items_notes}, Rows.modes_of, View.{view_rows, EndsWithin}};

use crate::expr::expression;
use crate::rules::{Notes, Noting, agree, write};
use sharc_mode::moded::Moded;
use sharc_mode::row::{PathReading, Targets, declared_row, row_of};
use sharc_tree::tree::{Expr, ForFirst, ForHead, Item, Local, Right, Simple, Stmt};

fn optional(program: &Moded, expr: &Option<Expr>, notes: &mut Notes) -> Noting
    ensures { OnOk result (notes.new.items
        ≡ notes.old.items ++ option_notes (notes_of program.now) (view_option view_expr expr.now)) }
{
    match expr {
        None => Ok(()),
        Some(expr) => expression(program, expr, notes),
    }
}

/// The right side of `=`, beside the modes that are expected there.
fn right(program: &Moded, want: Option<Targets<'_>>, right: &Right, notes: &mut Notes) -> Noting
    requires { EndsWithin program.now.typed want }
    ensures { OnOk result (notes.new.items ≡ notes.old.items
        ++ right_notes program.now (option_map (modes_of program.now) (view_rows want.entry)) (view_right right.now)) }
{
    match right {
        Right::Value(expr) => {
            expression(program, expr, notes)?;
            agree(program, want, expr, notes)
        }
        Right::Malloc(_, count, _) => optional(program, count, notes),
    }
}

fn simple(program: &Moded, simple: &Simple, notes: &mut Notes) -> Noting
    ensures { OnOk result (notes.new.items ≡ notes.old.items ++ simple_notes program.now (view_simple simple.now)) }
{
    match simple {
        Simple::Assign(_, place, value) => {
            expression(program, place, notes)?;
            write(program, place, notes)?;
            right(program, row_of(program.typed(), place), value, notes)
        }
        Simple::Call(call) => expression(program, call, notes),
    }
}

fn initial(
    program: &Moded,
    want: Option<Targets<'_>>,
    value: &Option<Right>,
    notes: &mut Notes,
) -> Noting
    requires { EndsWithin program.now.typed want }
    ensures { OnOk result (notes.new.items ≡ notes.old.items ++ option_notes (right_notes program.now
        (option_map (modes_of program.now) (view_rows want.entry))) (view_option view_right value.now)) }
{
    match value {
        None => Ok(()),
        Some(value) => right(program, want, value, notes),
    }
}

fn local(program: &Moded, local: &Local, notes: &mut Notes) -> Noting
    ensures { OnOk result (notes.new.items ≡ notes.old.items ++ local_notes program.now (view_local local.now)) }
{
    let token = local.declaration.name.site.token;
    let want = declared_row(program.typed(), PathReading::Written, token);
    initial(program, Some(want), &local.initial, notes)
}

fn first(program: &Moded, first: &ForFirst, notes: &mut Notes) -> Noting
    ensures { OnOk result (notes.new.items ≡ notes.old.items ++ first_notes program.now (view_first first.now)) }
{
    match first {
        ForFirst::Nothing => Ok(()),
        ForFirst::Declares(declared) => local(program, declared, notes),
        ForFirst::Does(x) => simple(program, x, notes),
    }
}

fn step(program: &Moded, step: &Option<Simple>, notes: &mut Notes) -> Noting
    ensures { OnOk result (notes.new.items
        ≡ notes.old.items ++ option_notes (simple_notes program.now) (view_option view_simple step.now)) }
{
    match step {
        None => Ok(()),
        Some(x) => simple(program, x, notes),
    }
}

fn head(program: &Moded, head: &ForHead, notes: &mut Notes) -> Noting
    ensures { OnOk result (notes.new.items ≡ notes.old.items ++ head_notes program.now (view_head head.now)) }
{
    first(program, &head.first, notes)?;
    optional(program, &head.test, notes)?;
    step(program, &head.step, notes)
}

/// What is returned in the function whose name is the token with this number.
fn returned(program: &Moded, function: u32, value: &Option<Box<Expr>>, notes: &mut Notes) -> Noting
    ensures { OnOk result (notes.new.items ≡ notes.old.items
        ++ option_notes (return_notes program.now function) (view_option (λ b. view_expr b.value) value.now)) }
{
    match value {
        None => Ok(()),
        Some(expr) => {
            expression(program, expr, notes)?;
            let want = declared_row(program.typed(), PathReading::Written, function);
            agree(program, Some(want), expr, notes)
        }
    }
}

/// Says what is to be said of a statement of that function.
#[cycle(statement)]
fn statement(program: &Moded, function: u32, stmt: &Stmt, notes: &mut Notes) -> Noting
    ensures { OnOk result (notes.new.items ≡ notes.old.items ++ notes_in program.now function (view_stmt stmt.now)) }
{
    match stmt {
        Stmt::Empty(_) => Ok(()),
        Stmt::Block(_, all) => statements(program, function, all.as_slice(), notes),
        Stmt::Declare(_, declared) => local(program, declared, notes),
        Stmt::Simple(_, x) => simple(program, x, notes),
        Stmt::Jump(_, _) => Ok(()),
        Stmt::Return(_, value) => returned(program, function, value, notes),
        Stmt::If(_, test, then) => {
            expression(program, test, notes)?;
            statement(program, function, then, notes)
        }
        Stmt::IfElse {
            test,
            then,
            otherwise,
            ..
        } => {
            expression(program, test, notes)?;
            statement(program, function, then, notes)?;
            statement(program, function, otherwise, notes)
        }
        Stmt::While(_, test, body) => {
            expression(program, test, notes)?;
            statement(program, function, body, notes)
        }
        Stmt::For(_, parts, body) => {
            head(program, parts, notes)?;
            statement(program, function, body, notes)
        }
    }
}

/// Says what is to be said of statements that follow one another.
#[cycle(statement)]
fn statements(program: &Moded, function: u32, all: &[Stmt], notes: &mut Notes) -> Noting
    ensures { OnOk result (notes.new.items
        ≡ notes.old.items ++ notes_in_all program.now function (view_statements all.now)) }
{
    for stmt in all {
        statement(program, function, stmt, notes)?;
    }
    Ok(())
}

fn item(program: &Moded, item: &Item, notes: &mut Notes) -> Noting
    ensures { OnOk result (notes.new.items ≡ notes.old.items ++ item_notes program.now (view_item item.now)) }
{
    match item {
        Item::Struct(_) => Ok(()),
        Item::Global(_) => Ok(()),
        Item::Function(definition) => {
            let function = definition.name.site.token;
            statements(program, function, definition.statements.as_slice(), notes)
        }
    }
}

/// Says what is to be said of the expressions and statements of items.
pub(crate) fn items(program: &Moded, items: &[Item], notes: &mut Notes) -> Noting
    ensures { OnOk result (notes.new.items ≡ notes.old.items ++ items_notes program.now (view_items items.now)) }
{
    for one in items {
        item(program, one, notes)?;
    }
    Ok(())
}
