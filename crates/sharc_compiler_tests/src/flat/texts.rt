//! How lvalues and lock paths are written in the texts of flat code.

use crate::flat::sources::flat;
use sharc_code::Text;
use sharc_flat::{Flat, Op};
use std::alloc::{AllocError, Global};
use std::process::Abort;
use std::test::Fail;

fn is_access(op: Op) -> bool {
    matches!(
        op,
        Op::Load(_, _, _)
            | Op::Store(_, _, _)
            | Op::LoadRef(_, _, _)
            | Op::StoreRef(_, _, _)
            | Op::LoadGuard(_, _)
            | Op::TakeCell(_, _, _)
            | Op::TakeLocal(_, _, _)
    )
}

fn add_text(flat: &Flat, place: Text, text: &mut Vec<u8>) -> Result<(), AllocError> {
    for at in place.from..place.until {
        if let Some(byte) = flat.texts.get(at as usize) {
            text.push(*byte)?;
        }
    }
    Ok(())
}

/// All accesses: the lvalue, a colon, the lock, and `;`.
fn accesses(alloc: Global, flat: &Flat) -> Result<Vec<u8>, AllocError> {
    let mut text = Vec::new(alloc);
    for (op, told) in flat.lines.iter().zip(&flat.told) {
        if is_access(*op) {
            add_text(flat, told.lvalue, &mut text)?;
            text.push(b':')?;
            add_text(flat, told.lock, &mut text)?;
            text.push(b';')?;
        }
    }
    Ok(text)
}

/// The names of all functions, with `;` after each.
fn names(alloc: Global, flat: &Flat) -> Result<Vec<u8>, AllocError> {
    let mut text = Vec::new(alloc);
    for row in &flat.functions {
        add_text(flat, row.name, &mut text)?;
        text.push(b';')?;
    }
    Ok(text)
}

const ACCESSES: &str = "\
mutex g; int locked(g) h; int main(void) { h = 1; return h; } => h:g;h:g;
struct s { mutex m; int locked(m) n; }; void f(struct s dynamic * p) { ((p)->n) = p -> n; \
} int main(void) { } => p->n:p->m;((p)->n):(p)->m;
struct s { mutex m; }; void f(struct s dynamic * q, int locked(q->m) * x) { *x = 1; } int main(void) { } => *x:q->m;
struct s { mutex racy * readonly m; int locked(m) n; }; void f(struct s dynamic * p) { p->n = 1; \
} int main(void) { } => p->n:;p->n:*p->m;
int main(void) { int private * p = malloc(3 * sizeof(int)); p [ 1 ] = p[0 + 1] ; free(p); } => p[0+1]:;p[1]:;p:;
void f(int private * p) { *SCAST(int dynamic * , p) = 1; } int main(void) { } => p:;*SCAST(int dynamic*,p):;
";

#[test]
fn lvalues_and_locks(rt: HostRuntime) -> Result<(), Fail> {
    for case in ACCESSES.lines() {
        match case.split_once(" => ") {
            None => panic!(rt; "no case: {case}"),
            Some((source, wanted)) => {
                let flat = flat(&rt, source)?;
                let texts = accesses(rt.alloc(), &flat)?;
                assert!(rt; texts.as_slice() == wanted.as_bytes(), "{source}");
            }
        }
    }
    Ok(())
}

#[test]
fn names_of_functions(rt: HostRuntime) -> Result<(), Fail> {
    let flat = flat(
        &rt,
        "void first(void) { } int main(void) { } void last(int a) { }",
    )?;
    let names = names(rt.alloc(), &flat)?;
    assert!(rt; names.as_slice() == b"first;main;last;".as_slice());
    Ok(())
}
