//! The nodes of a program, in source order, an outer one before those in it.

use sharc_tree::token::{Site, Span};
use sharc_tree::tree::{
    Declaration, Expr, ForFirst, ForHead, FunctionDefinition, GlobalForm, Identifier, Item, Local,
    Program, Right, Simple, Stmt, WrittenType,
};
use std::alloc::{AllocError, Global};

/// A node: one that has tokens and nothing else that is looked at, or one of these.
#[derive(Clone, Copy)]
pub(crate) enum Node<'a> {
    Tokens(Span),
    Name(&'a Identifier),
    Type(&'a WrittenType),
    Expr(&'a Expr),
}

type Nodes<'a> = Vec<Node<'a>>;

/// The tokens of a node that is one token.
pub(crate) fn at(site: Site) -> Span {
    Span {
        first: site,
        last: site,
    }
}

fn add_tokens(span: Span, nodes: &mut Nodes<'_>) -> Result<(), AllocError> {
    nodes.push(Node::Tokens(span))?;
    Ok(())
}

fn add_name<'a>(name: &'a Identifier, nodes: &mut Nodes<'a>) -> Result<(), AllocError> {
    nodes.push(Node::Name(name))?;
    Ok(())
}

fn add_type<'a>(written: &'a WrittenType, nodes: &mut Nodes<'a>) -> Result<(), AllocError> {
    nodes.push(Node::Type(written))?;
    Ok(())
}

fn add_declaration<'a>(
    declaration: &'a Declaration,
    nodes: &mut Nodes<'a>,
) -> Result<(), AllocError> {
    add_tokens(declaration.span, nodes)?;
    add_type(&declaration.written, nodes)?;
    add_name(&declaration.name, nodes)
}

fn add_declarations<'a>(
    declarations: &'a [Declaration],
    nodes: &mut Nodes<'a>,
) -> Result<(), AllocError> {
    for declaration in declarations {
        add_declaration(declaration, nodes)?;
    }
    Ok(())
}

#[cycle(expr)]
fn add_expr<'a>(expr: &'a Expr, nodes: &mut Nodes<'a>) -> Result<(), AllocError> {
    nodes.push(Node::Expr(expr))?;
    match expr {
        Expr::Identifier(_, name) => add_name(name, nodes),
        Expr::Constant(_, _) => Ok(()),
        Expr::Parentheses(_, inner) => add_expr(inner, nodes),
        Expr::Call(_, name, arguments) => {
            add_name(name, nodes)?;
            add_exprs(arguments, nodes)
        }
        Expr::Spawn(_, name, argument) => {
            add_name(name, nodes)?;
            add_expr(argument, nodes)
        }
        Expr::OnValue(_, _, argument) => add_expr(argument, nodes),
        Expr::OnPlace(_, _, argument) => add_expr(argument, nodes),
        Expr::Cast(_, to, source) => {
            add_type(to, nodes)?;
            add_expr(source, nodes)
        }
        Expr::Index(_, base, index) => {
            add_expr(base, nodes)?;
            add_expr(index, nodes)
        }
        Expr::Field { base, name, .. } => {
            add_name(name, nodes)?;
            add_expr(base, nodes)
        }
        Expr::Unary(_, _, operand) => add_expr(operand, nodes),
        Expr::Binary {
            site,
            left,
            right,
            ..
        } => {
            add_tokens(at(*site), nodes)?;
            add_expr(left, nodes)?;
            add_expr(right, nodes)
        }
    }
}

#[cycle(expr)]
fn add_exprs<'a>(list: &'a [Expr], nodes: &mut Nodes<'a>) -> Result<(), AllocError> {
    for expr in list {
        add_expr(expr, nodes)?;
    }
    Ok(())
}

fn add_right<'a>(right: &'a Right, nodes: &mut Nodes<'a>) -> Result<(), AllocError> {
    add_tokens(right.span(), nodes)?;
    match right {
        Right::Value(expr) => add_expr(expr, nodes),
        Right::Malloc(_, count, of) => {
            add_type(of, nodes)?;
            match count {
                Some(expr) => add_expr(expr, nodes),
                None => Ok(()),
            }
        }
    }
}

fn add_simple<'a>(simple: &'a Simple, nodes: &mut Nodes<'a>) -> Result<(), AllocError> {
    add_tokens(simple.span(), nodes)?;
    match simple {
        Simple::Assign(_, place, right) => {
            add_expr(place, nodes)?;
            add_right(right, nodes)
        }
        Simple::Call(call) => add_expr(call, nodes),
    }
}

fn add_local<'a>(local: &'a Local, nodes: &mut Nodes<'a>) -> Result<(), AllocError> {
    add_tokens(local.span, nodes)?;
    add_declaration(&local.declaration, nodes)?;
    match &local.initial {
        Some(right) => add_right(right, nodes),
        None => Ok(()),
    }
}

fn add_first<'a>(first: &'a ForFirst, nodes: &mut Nodes<'a>) -> Result<(), AllocError> {
    match first {
        ForFirst::Nothing => Ok(()),
        ForFirst::Declares(local) => add_local(local, nodes),
        ForFirst::Does(simple) => add_simple(simple, nodes),
    }
}

fn add_head<'a>(head: &'a ForHead, nodes: &mut Nodes<'a>) -> Result<(), AllocError> {
    add_first(&head.first, nodes)?;
    if let Some(test) = &head.test {
        add_expr(test, nodes)?;
    }
    match &head.step {
        Some(step) => add_simple(step, nodes),
        None => Ok(()),
    }
}

#[cycle(stmt)]
fn add_stmt<'a>(stmt: &'a Stmt, nodes: &mut Nodes<'a>) -> Result<(), AllocError> {
    add_tokens(stmt.span(), nodes)?;
    match stmt {
        Stmt::Empty(_) => Ok(()),
        Stmt::Block(_, statements) => add_stmts(statements, nodes),
        Stmt::Declare(_, local) => add_local(local, nodes),
        Stmt::Simple(_, simple) => add_simple(simple, nodes),
        Stmt::Jump(_, _) => Ok(()),
        Stmt::Return(_, None) => Ok(()),
        Stmt::Return(_, Some(value)) => add_expr(value, nodes),
        Stmt::If(_, test, then) => {
            add_expr(test, nodes)?;
            add_stmt(then, nodes)
        }
        Stmt::IfElse {
            test,
            then,
            otherwise,
            ..
        } => {
            add_expr(test, nodes)?;
            add_stmt(then, nodes)?;
            add_stmt(otherwise, nodes)
        }
        Stmt::While(_, test, body) => {
            add_expr(test, nodes)?;
            add_stmt(body, nodes)
        }
        Stmt::For(_, head, body) => {
            add_head(head, nodes)?;
            add_stmt(body, nodes)
        }
    }
}

#[cycle(stmt)]
fn add_stmts<'a>(list: &'a [Stmt], nodes: &mut Nodes<'a>) -> Result<(), AllocError> {
    for stmt in list {
        add_stmt(stmt, nodes)?;
    }
    Ok(())
}

fn add_function<'a>(
    function: &'a FunctionDefinition,
    nodes: &mut Nodes<'a>,
) -> Result<(), AllocError> {
    add_tokens(function.body, nodes)?;
    add_type(&function.result, nodes)?;
    add_name(&function.name, nodes)?;
    add_declarations(function.parameters.as_slice(), nodes)?;
    add_stmts(&function.statements, nodes)
}

fn add_form(form: &GlobalForm, nodes: &mut Nodes<'_>) -> Result<(), AllocError> {
    match form {
        GlobalForm::Plain => Ok(()),
        GlobalForm::Array(site, _) => add_tokens(at(*site), nodes),
        GlobalForm::Initial(span, _, _) => add_tokens(*span, nodes),
    }
}

fn add_item<'a>(item: &'a Item, nodes: &mut Nodes<'a>) -> Result<(), AllocError> {
    add_tokens(item.span(), nodes)?;
    match item {
        Item::Struct(definition) => {
            add_name(&definition.name, nodes)?;
            add_declarations(definition.fields.as_slice(), nodes)
        }
        Item::Global(definition) => {
            add_declaration(&definition.declaration, nodes)?;
            add_form(&definition.form, nodes)
        }
        Item::Function(function) => add_function(function, nodes),
    }
}

/// All nodes of a program.
pub(crate) fn nodes_of(alloc: Global, program: &Program) -> Result<Vec<Node<'_>>, AllocError> {
    let mut nodes = Vec::new(alloc);
    for item in program.items.as_slice() {
        add_item(item, &mut nodes)?;
    }
    Ok(nodes)
}

/// All expressions of a function.
pub(crate) fn expressions_of(
    alloc: Global,
    function: &FunctionDefinition,
) -> Result<Vec<&Expr>, AllocError> {
    let mut nodes = Vec::new(alloc);
    add_stmts(&function.statements, &mut nodes)?;
    let mut found = Vec::new(alloc);
    for node in &nodes {
        if let Node::Expr(expr) = node {
            found.push(*expr)?;
        }
    }
    Ok(found)
}
