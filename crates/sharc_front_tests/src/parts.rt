//! The parts of trees that the parser made, by their texts: tables of sources.

use crate::nodes::expressions_of;
use crate::sources::{add_span, last_function, program};
use crate::tables::two_parts;
use sharc_tree::print::print_type;
use sharc_tree::tree::{Expr, GlobalForm, Item, Program, Stmt};
use std::process::Abort;
use std::test::Fail;

/// What of a program is written.
#[derive(Clone, Copy)]
enum Part {
    /// The expressions of the last item, which is a function, each before those inside it.
    Expressions,
    /// What the last function returns: whether it is an lvalue, and its text without parentheses.
    Returned,
    /// The first statement of the last function: its kind, and the statements right inside it.
    Statement,
    /// The second item: its kind, with the number of its parts, and its text.
    Item,
    /// The type of the first item, a global: what comes first in it, a mode or the base, and its text.
    Type,
    /// Whether the types of two globals are the same.
    Types,
}

/// The text of that part.
fn part_text(
    rt: &(impl Abort + AllocGlobal),
    program: &Program,
    part: Part,
) -> Result<Vec<u8>, Fail> {
    match part {
        Part::Expressions => expression_texts(rt, program),
        Part::Returned => returned_text(rt, program),
        Part::Statement => first_texts(rt, program),
        Part::Item => item_text(rt, program),
        Part::Type => type_text(rt, program),
        Part::Types => types_text(rt, program),
    }
}

/// Asserts the text of that part of a source.
fn assert_part(
    rt: &(impl Abort + AllocGlobal),
    part: Part,
    source: &str,
    wanted: &str,
) -> Result<(), Fail> {
    let program = program(rt, source.as_bytes())?;
    let found = part_text(rt, &program, part);
    drop(program);
    assert_eq!(rt; found?.as_slice(), wanted.as_bytes(), "{source}");
    Ok(())
}

/// Asserts it of each source of a table, with these texts before and after it.
fn assert_parts(
    rt: &(impl Abort + AllocGlobal),
    part: Part,
    before: &str,
    after: &str,
    table: &str,
) -> Result<(), Fail> {
    for case in table.lines() {
        let (source, wanted) = two_parts(rt, case);
        let source = format!(in rt.alloc(); "{before}{source}{after}")?;
        assert_part(rt, part, source.as_str(), wanted)?;
    }
    Ok(())
}

fn expression_texts(rt: &(impl Abort + AllocGlobal), program: &Program) -> Result<Vec<u8>, Fail> {
    let mut texts = Vec::new(rt.alloc());
    for expression in expressions_of(rt.alloc(), last_function(rt, program))? {
        add_span(rt, program, expression.span(), &mut texts)?;
    }
    Ok(texts)
}

/// Expressions, with the texts of all expressions in them.
const OPERANDS: &str = "a => a
07 => 07
'x' => 'x'
NULL => NULL
a - b - c => a-b-c | a-b | a | b | c
a || b && c => a||b&&c | a | b&&c | b | c
a | b ^ c & d => a|b^c&d | a | b^c&d | b | c&d | c | d
a == b < c => a==b<c | a | b<c | b | c
a != b << c => a!=b<<c | a | b<<c | b | c
a + b >> c => a+b>>c | a+b | a | b | c
a / b % c * d => a/b%c*d | a/b%c | a/b | a | b | c | d
-a * !b => -a*!b | -a | a | !b | b
~*p => ~*p | *p | p
(a + b) * c => (a+b)*c | (a+b) | a+b | a | b | c
p->n[1].m => p->n[1].m | p->n[1] | p->n | p | 1
-p.n => -p.n | p.n | p
f() => f()
f(a, g(b) + 1) => f(a,g(b)+1) | a | g(b)+1 | g(b) | b | 1
spawn(f, p) => spawn(f,p) | p
join(t + 1) => join(t+1) | t+1 | t | 1
SCAST(int private * locked(s->m), p) => SCAST(int private*locked(s->m),p) | p
";

#[test]
fn operators_take_their_operands(rt: HostRuntime) -> Result<(), Fail> {
    assert_parts(
        &rt,
        Part::Expressions,
        "int f(void) { return ",
        "; }",
        OPERANDS,
    )
}

/// What the last function of a program returns.
pub(crate) fn returned<'a>(rt: &(impl Abort + AllocGlobal), program: &'a Program) -> &'a Expr {
    let Some(Stmt::Return(_, Some(value))) = last_function(rt, program).statements.last() else {
        panic!(rt; "no value")
    };
    value
}

fn returned_text(rt: &(impl Abort + AllocGlobal), program: &Program) -> Result<Vec<u8>, Fail> {
    let value = returned(rt, program);
    let kind = if value.is_lvalue() {
        b"lvalue".as_slice()
    } else {
        b"value".as_slice()
    };
    let mut text = Vec::from_slice(rt.alloc(), kind)?;
    add_span(rt, program, value.without_parentheses().span(), &mut text)?;
    Ok(text)
}

/// Expressions, with what they are, and their texts without parentheses.
const FORMS: &str = "x => lvalue | x
((x)) => lvalue | x
(*p).f => lvalue | (*p).f
(a[1]) => lvalue | a[1]
p->f => lvalue | p->f
*p => lvalue | *p
f(1) => value | f(1)
-x => value | -x
(x + 1) => value | x+1
(NULL) => value | NULL
SCAST(int *, p) => value | SCAST(int*,p)
";

#[test]
fn lvalues_are_told_by_their_form(rt: HostRuntime) -> Result<(), Fail> {
    assert_parts(&rt, Part::Returned, "int f(void) { return ", "; }", FORMS)
}

/// The kind of a statement, and the texts of the statements right inside it.
fn statement_texts(
    rt: &(impl Abort + AllocGlobal),
    program: &Program,
    statement: &Stmt,
) -> Result<Vec<u8>, Fail> {
    let mut texts = Vec::new(rt.alloc());
    match statement {
        Stmt::Empty(_) => texts.extend_from_slice(b"empty")?,
        Stmt::Declare(_, _) => texts.extend_from_slice(b"declare")?,
        Stmt::Simple(_, _) => texts.extend_from_slice(b"simple")?,
        Stmt::Jump(_, _) => texts.extend_from_slice(b"jump")?,
        Stmt::Return(_, _) => texts.extend_from_slice(b"return")?,
        Stmt::Block(_, list) => {
            texts.extend_from_slice(b"block")?;
            for inner in list {
                add_span(rt, program, inner.span(), &mut texts)?;
            }
        }
        Stmt::If(_, _, then) => {
            texts.extend_from_slice(b"if")?;
            add_span(rt, program, then.span(), &mut texts)?;
        }
        Stmt::IfElse {
            then,
            otherwise,
            ..
        } => {
            texts.extend_from_slice(b"if else")?;
            add_span(rt, program, then.span(), &mut texts)?;
            add_span(rt, program, otherwise.span(), &mut texts)?;
        }
        Stmt::While(_, _, inner) => {
            texts.extend_from_slice(b"while")?;
            add_span(rt, program, inner.span(), &mut texts)?;
        }
        Stmt::For(_, _, inner) => {
            texts.extend_from_slice(b"for")?;
            add_span(rt, program, inner.span(), &mut texts)?;
        }
    }
    Ok(texts)
}

/// The same of the first statement of the last function.
fn first_texts(rt: &(impl Abort + AllocGlobal), program: &Program) -> Result<Vec<u8>, Fail> {
    match last_function(rt, program).statements.as_slice().first() {
        Some(first) => statement_texts(rt, program, first),
        None => panic!(rt; "no statement"),
    }
}

/// Statements that hold none, with their kinds.
const LINES: &str = "; => empty
int private *p = malloc(4 * sizeof(int)); => declare
struct s *p; => declare
p->n = malloc(sizeof(struct s)); => simple
print(1); => simple
lock(&m); => simple
unlock(&s->m); => simple
free(p); => simple
break; => jump
continue; => jump
return; => return
return a; => return
";

#[test]
fn lines_hold_no_statement(rt: HostRuntime) -> Result<(), Fail> {
    assert_parts(&rt, Part::Statement, "int f(void) { ", " }", LINES)
}

/// Statements with their kinds, and the texts of those right inside them.
const HOLDERS: &str = "{ int a; a = 1; { } } => block | int a; | a=1; | {}
if (a) b = 1; => if | b=1;
if (a) if (b) c = 1; else c = 2; => if | if(b)c=1;else c=2;
if (a) { if (b) ; } else c = 2; => if else | {if(b);} | c=2;
if (a) ; else if (b) ; else c = 3; => if else | ; | if(b);else c=3;
if (a) while (b) if (c) ; else d = 1; => if | while(b)if(c);else d=1;
while (a) { } => while | {}
for (;;) break; => for | break;
for (int i = 0; i < 9; i = i + 1) { continue; } => for | {continue;}
for (f(); a; print(1)) ; => for | ;
";

#[test]
fn statements_hold_their_statements(rt: HostRuntime) -> Result<(), Fail> {
    assert_parts(&rt, Part::Statement, "int f(void) { ", " }", HOLDERS)
}

fn item_text(rt: &(impl Abort + AllocGlobal), program: &Program) -> Result<Vec<u8>, Fail> {
    assert_eq!(rt; program.items.len(), 3);
    let (span, kind) = match program.items.at(1) {
        Item::Struct(found) => (
            found.span,
            format!(in rt.alloc(); "struct of {}", found.fields.len())?,
        ),
        Item::Function(found) => (
            found.span,
            format!(in rt.alloc(); "function of {}", found.parameters.len())?,
        ),
        Item::Global(found) => match found.form {
            GlobalForm::Plain => (found.span, format!(in rt.alloc(); "plain")?),
            GlobalForm::Array(_, number) => (
                found.span,
                format!(in rt.alloc(); "array of {}", number.value)?,
            ),
            GlobalForm::Initial(_, true, _) => (found.span, format!(in rt.alloc(); "minus")?),
            GlobalForm::Initial(_, false, _) => (found.span, format!(in rt.alloc(); "initial")?),
        },
    };
    let mut text = Vec::from_slice(rt.alloc(), kind.as_bytes())?;
    add_span(rt, program, span, &mut text)?;
    Ok(text)
}

/// Items, with their kinds and their texts.
const ITEMS: &str =
    "struct s { int n; struct s *next; }; => struct of 2 | struct s{int n;struct s*next;};
int a[3]; => array of 3 | int a[3];
char racy c = 'x'; => initial | char racy c='x';
long l = -5; => minus | long l=-5;
struct s *p = NULL; => initial | struct s*p=NULL;
mutex m; => plain | mutex m;
void f(void) { } => function of 0 | void f(void){}
void *f(void *p, int n) { return p; } => function of 2 | void*f(void*p,int n){return p;}
struct s *f(void) { ; } => function of 0 | struct s*f(void){;}
";

#[test]
fn items_follow_each_other(rt: HostRuntime) -> Result<(), Fail> {
    assert_parts(&rt, Part::Item, "int x; ", " int y;", ITEMS)
}

fn type_text(rt: &(impl Abort + AllocGlobal), program: &Program) -> Result<Vec<u8>, Fail> {
    let Some(Item::Global(global)) = program.items.as_slice().first() else {
        panic!(rt; "no global")
    };
    let written = &global.declaration.written;
    let first = if written.mode_first {
        b"mode | ".as_slice()
    } else {
        b"base | ".as_slice()
    };
    let mut text = Vec::from_slice(rt.alloc(), first)?;
    text.extend_from_slice(&print_type(rt.alloc(), &written.ctype)?)?;
    Ok(text)
}

/// Types as they are written, whether a mode or the base comes first, and their texts.
const TYPES: &str = "int => base | int
racy int => mode | int racy
int racy => base | int racy
struct s dynamic * readonly * => base | struct s dynamic * readonly *
locked(m) long * => mode | long locked(m) *
char locked(s->m) * private => base | char locked(s->m) * private
void ******** => base | void * * * * * * * *
";

#[test]
fn types_have_their_modes(rt: HostRuntime) -> Result<(), Fail> {
    assert_parts(&rt, Part::Type, "", " x;", TYPES)
}

/// Each of the types is the same as its copy.
fn types_text(rt: &(impl Abort + AllocGlobal), program: &Program) -> Result<Vec<u8>, Fail> {
    let [Item::Global(first), Item::Global(second)] = program.items.as_slice() else {
        panic!(rt; "no two globals")
    };
    let left = &first.declaration.written.ctype;
    let right = &second.declaration.written.ctype;
    assert!(rt; left.equals(&left.copy(rt.alloc())?));
    let text = if left.equals(right) {
        b"same".as_slice()
    } else {
        b"other".as_slice()
    };
    Ok(Vec::from_slice(rt.alloc(), text)?)
}

/// Globals of two types, and whether these are the same.
const SAMENESS: &str = "int a; int b; => same
int a; char b; => other
struct s a; struct s b; => same
struct s a; struct t b; => other
int * a; int b; => other
int private * a; private int * b; => same
int private * a; int racy * b; => other
int private * a; int * b; => other
long dynamic * readonly a; long dynamic * readonly b; => same
int locked(m) a; int locked(m) b; => other
int locked(x->m) a; int locked(x->n) b; => other
";

#[test]
fn types_are_told_apart(rt: HostRuntime) -> Result<(), Fail> {
    assert_parts(&rt, Part::Types, "", "", SAMENESS)
}
