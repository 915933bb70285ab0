//! What each name of a typed program names, and the cells of its structs.

use crate::typing::typed;
use sharc_ctype::layout::StructCells;
use sharc_ctype::typed::{Typed, layout};
use sharc_names::fault::Named;
use sharc_tree::token::{Token, TokenKind, Tokens};
use std::alloc::{AllocError, Global};
use std::process::Abort;
use std::test::Fail;

/// The line of the token with that number.
fn line_of(rt: &impl Abort, tokens: &Tokens, token: u32) -> u32 {
    let place = token as usize;
    assert!(rt; place < tokens.list.len());
    tokens.list.at(place).line
}

/// What a name names: the number of a struct, a global or a function, or the line of the name that declares it.
fn meaning_text(
    rt: &(impl Abort + AllocGlobal),
    tokens: &Tokens,
    named: Named,
) -> Result<String, AllocError> {
    match named {
        Named::Struct(number) => format!(in rt.alloc(); "struct {number}"),
        Named::Global(number) => format!(in rt.alloc(); "global {number}"),
        Named::Function(number) => format!(in rt.alloc(); "function {number}"),
        Named::Variable(token) => {
            format!(in rt.alloc(); "variable {}", line_of(rt, tokens, token))
        }
        Named::Field(token) => format!(in rt.alloc(); "field {}", line_of(rt, tokens, token)),
        Named::Known => format!(in rt.alloc(); "known"),
    }
}

/// Adds what a token names, where it is a name.
fn add_name(
    rt: &(impl Abort + AllocGlobal),
    typed: &Typed,
    token: &Token,
    number: u32,
    texts: &mut Vec<u8>,
) -> Result<(), Fail> {
    if token.kind == TokenKind::Identifier {
        let meaning = meaning_text(rt, &typed.program().tokens, typed.named(number))?;
        texts.extend_from_slice(b", ")?;
        texts.extend_from_slice(token.text.as_slice())?;
        texts.push(b' ')?;
        texts.extend_from_slice(meaning.as_bytes())?;
    }
    Ok(())
}

/// The names of a program in source order, each with what it names.
fn names_text(rt: &(impl Abort + AllocGlobal), typed: &Typed) -> Result<Vec<u8>, Fail> {
    let mut texts = Vec::new(rt.alloc());
    let mut number = 0;
    for token in typed.program().tokens.list.as_slice() {
        add_name(rt, typed, token, number, &mut texts)?;
        assert!(rt; number < 1_000_000);
        number += 1;
    }
    Ok(texts)
}

/// Programs, and what each of their names names.
static NAMED: [(&str, &str); 10] = [
    (
        "int x; int main(void) { int\nx; { int\nx; x = 1; } x = 2; }",
        ", x global 0, main function 0, x variable 2, x variable 3, x variable 3, x variable 2",
    ),
    (
        "struct s { int\nn; struct s *\nnext; }; struct s * p; void f(struct s *\nq) { q->next->n = p->n; } int main(void) { }",
        ", s struct 0, n field 2, s struct 0, next field 3, s struct 0, p global 0, f function 0, s struct 0, q variable 4, q variable 4, next field 3, \
n field 2, p global 0, n field 2, main function 1",
    ),
    (
        "mutex m; struct s { mutex\nm; int locked(m)\nn; }; void f(struct s *\nq, int locked(q->m) *\nr) { int locked(m) * t; } int main(void) { }",
        ", m global 0, s struct 0, m field 2, m field 2, n field 3, f function 0, s struct 0, q variable 4, q variable 4, m field 2, r variable 5, \
m global 0, t variable 5, main function 1",
    ),
    (
        "struct cond * c; mutex * m; int main(void) { wait(c, m); int\nwait; wait = 1; spawn(f, 1); } void f(int\nk) { }",
        ", cond known, c global 0, m global 1, main function 0, wait known, c global 0, m global 1, wait variable 2, wait variable 2, f function 1, \
f function 1, k variable 3",
    ),
    (
        "int f(void) { return g; } struct t { int a; }; int g; struct u { int a; }; int h; int k(void) { return h; } struct u v; int main(void) { }",
        ", f function 0, g global 0, t struct 0, a field 1, g global 0, u struct 1, a field 1, h global 1, k function 1, h global 1, u struct 1, v global 2, \
main function 2",
    ),
    (
        "int main(void) { for (int\ni = 0; i; i = i + 1) { int\ni; i = 2; } int\ni; i = 3; }",
        ", main function 0, i variable 2, i variable 2, i variable 2, i variable 2, i variable 3, i variable 3, i variable 4, i variable 4",
    ),
    (
        "int x; int f(int\nx) { return x; } int main(void) { int\nx = x; return x; }",
        ", x global 0, f function 0, x variable 2, x variable 2, main function 1, x variable 3, x variable 3, x variable 3",
    ),
    (
        "struct s { int\nn; }; int main(void) { struct s *\np = malloc(sizeof(struct s)); p = SCAST(struct s *, p); p->n = 1; }",
        ", s struct 0, n field 2, main function 0, s struct 0, p variable 3, s struct 0, p variable 3, s struct 0, p variable 3, p variable 3, n field 2",
    ),
    (
        "struct s { struct t *\nk; int locked(k->j) i; }; struct t { struct s *\nj; }; int j; int locked(j) y; int main(void) { }",
        ", s struct 0, t struct 1, k field 2, k field 2, j field 3, i field 2, t struct 1, s struct 0, j field 3, j global 0, j global 0, y global 1, \
main function 0",
    ),
    (
        "void f(int\na, int\nb) { { int\na; a = b; } a = b; } int main(void) { f(1, 2); }",
        ", f function 0, a variable 2, b variable 3, a variable 4, a variable 4, b variable 3, a variable 2, b variable 3, main function 1, f function 0",
    ),
];

/// Asserts what the names of a program name.
fn assert_names(rt: &(impl Abort + AllocGlobal), typed: &Typed, names: &str) -> Result<(), Fail> {
    let found = names_text(rt, typed)?;
    assert_eq!(rt; found.as_slice(), names.as_bytes());
    Ok(())
}

/// Asserts it of a program and of a copy.
fn assert_both(rt: &(impl Abort + AllocGlobal), typed: &Typed, names: &str) -> Result<(), Fail> {
    assert_names(rt, typed, names)?;
    let copy = typed.copy(rt.alloc())?;
    let asserted = assert_names(rt, &copy, names);
    drop(copy);
    asserted
}

/// Asserts it of a source.
fn assert_named(rt: &(impl Abort + AllocGlobal), source: &str, names: &str) -> Result<(), Fail> {
    let typed = typed(rt, source)?;
    let asserted = assert_both(rt, &typed, names);
    drop(typed);
    asserted
}

#[test]
fn names_name_what_is_in_scope(rt: HostRuntime) -> Result<(), Fail> {
    for (source, names) in &NAMED {
        assert_named(&rt, source, names)?;
    }
    Ok(())
}

/// The cells of the one struct of a program with these fields.
fn cells_of(rt: &(impl Abort + AllocGlobal), fields: &str) -> Result<StructCells, Fail> {
    let source = format!(in rt.alloc(); "struct s {{ {fields} }}; int main(void) {{ }}")?;
    let typed = typed(rt, source.as_str())?;
    assert!(rt; typed.struct_at(0).is_some());
    let cells = layout(&typed, 0);
    drop(typed);
    Ok(cells)
}

/// Fields, with their cells and, bit by bit, which of these are pointers.
static CELLS: [(&str, u32, u64); 5] = [
    ("int n;", 1, 0),
    ("int * n;", 1, 1),
    ("char n; long k; mutex m;", 3, 0),
    (
        "int n; int * k; mutex m; struct s * next; char c; mutex * p;",
        6,
        42,
    ),
    ("int * * n; int k; char * * * c; struct cond * w;", 4, 13),
];

#[test]
fn structs_have_a_cell_for_each_field(rt: HostRuntime) -> Result<(), Fail> {
    for (fields, cells, pointers) in &CELLS {
        let found = cells_of(&rt, fields)?;
        assert_eq!(rt; found.cells, *cells, "{fields}");
        assert_eq!(rt; found.pointers, [*pointers, 0, 0, 0], "{fields}");
    }
    Ok(())
}

/// Fields up to a number, of which those from one number to another are pointers.
fn many_fields(
    alloc: Global,
    before: usize,
    between: usize,
    until: usize,
) -> Result<String, AllocError> {
    let mut text = String::new(alloc);
    for number in 0..until {
        let opening = if number < before {
            "int n"
        } else if number < between {
            "int * n"
        } else {
            "mutex n"
        };
        text.push_str(format!(in alloc; "{opening}{number};")?.as_str())?;
    }
    Ok(text)
}

/// How many fields there are before, between and at the end, of which those between are pointers, and the bits of
/// these.
static POINTERS: [(usize, usize, usize, [u64; 4]); 6] = [
    (0, 256, 256, [u64::MAX, u64::MAX, u64::MAX, u64::MAX]),
    (0, 0, 256, [0, 0, 0, 0]),
    (63, 65, 256, [1 << 63, 1, 0, 0]),
    (127, 129, 130, [0, 1 << 63, 1, 0]),
    (191, 193, 256, [0, 0, 1 << 63, 1]),
    (255, 256, 256, [0, 0, 0, 1 << 63]),
];

#[test]
fn pointers_of_large_structs_are_told(rt: HostRuntime) -> Result<(), Fail> {
    for (before, between, until, pointers) in &POINTERS {
        let found = cells_of(
            &rt,
            many_fields(rt.alloc(), *before, *between, *until)?.as_str(),
        )?;
        assert_eq!(rt; found.cells as usize, *until);
        assert_eq!(rt; found.pointers, *pointers);
    }
    Ok(())
}
