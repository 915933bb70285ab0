//! Sources with suggested casts written into their trees: the mismatch is gone, and all else is reported as before.

use crate::sources::{explained, inferred};
use crate::told::{Answer, Refusal, judged, said};
use sharc_mode::moded::Moded;
use sharc_suggest_laws::apply;
use std::alloc::{AllocError, Global};
use std::process::Abort;
use std::test::Fail;

/// What comes before each source, on one line.
const FILE: &str =
    "struct s { int n; struct s * next; mutex m; int locked(m) * q; }; mutex m; int main(void) { return 0; }\n";

/// A program with the first cast that is suggested for its errors.
fn first_applied(alloc: Global, refused: &Refusal) -> Result<Moded, AllocError> {
    for cast in refused.casts.as_slice() {
        if let Some(cast) = cast {
            return apply(alloc, &refused.program, cast);
        }
    }
    Err(AllocError)
}

/// The same, if a cast is suggested.
fn with_a_cast(alloc: Global, m: Moded) -> Result<Moded, AllocError> {
    match said(alloc, m)? {
        Answer::Accepted(checked) => {
            drop(checked);
            Err(AllocError)
        }
        Answer::Refused(refused) => {
            let written = first_applied(alloc, &refused);
            drop(refused);
            written
        }
    }
}

/// The program of a source after the file, with this many casts applied one by one.
fn repaired(rt: &(impl Abort + AllocGlobal), items: &str, casts: u32) -> Result<Moded, Fail> {
    let source = format!(in rt.alloc(); "{FILE}{items}")?;
    let mut m = inferred(rt, source.as_str())?;
    for _cast in 0..casts {
        m = with_a_cast(rt.alloc(), m)?;
    }
    Ok(m)
}

/// Asserts the verdict on each source of a table with this many casts applied. Behind a source are a line `--` and its
/// verdict; a line `==` separates two sources.
fn assert_repaired(rt: &(impl Abort + AllocGlobal), casts: u32, table: &str) -> Result<(), Fail> {
    for case in table.split("==\n") {
        match case.split_once("--\n") {
            None => panic!(rt; "no case: {case}"),
            Some((items, wanted)) => {
                let text = judged(rt.alloc(), repaired(rt, items, casts)?)?;
                assert_eq!(rt; String::from_utf8(text)?.as_str(), wanted, "{items}");
            }
        }
    }
    Ok(())
}

/// A cast in each place that has one, of a struct, and with the paths of locks; then what it leaves as it was.
const ONE: &str = "void r(int dynamic * a) {
int private * b;
if (a == NULL) { while (1) b = a; } }
--
accepted
==
void r(int dynamic * a) {
int private * b = (a); }
--
accepted
==
int f(int dynamic * a, int n) { return n; }
void r(int private * b) {
print(f(b, 1) + 2); }
--
accepted
==
void f(int dynamic * a) { }
void r(int private * b) {
join(spawn(f, b)); }
--
accepted
==
int dynamic * r(int private * b) {
if (b == NULL) return NULL; else return b; }
--
accepted
==
void r(struct s dynamic * dynamic * a) {
struct s private * b = a[1]; }
--
accepted
==
void r(struct s dynamic * y, int private * p) {
y->q = p; }
--
accepted
==
void f(struct s dynamic * a, int locked(a->m) * k) { }
void r(struct s dynamic * y, int private * p) {
f(y, p); }
--
accepted
==
int locked(m) * g;
void r(int private * p) {
{ int m; }
g = p; { int m; g = p; } }
--
input:5: M1 mode mismatch: expected int locked(m) *, found int private *
==
void r(int private * q) { int locked(wait) * p;
p = q; }
--
input:2: M4 lock path wait is not constant
input:3: M4 lock path wait is not constant
==
void f(int dynamic * a, int dynamic * b) { }
void r(int private * c, int racy * d) { f(c, d); }
--
input:3: M1 mode mismatch: expected int dynamic *, found int racy *
input:3: suggest SCAST(int dynamic *, d)
==
int readonly limit;
void r(int private * dynamic * a, int private * private * b) {
limit = 1;
a = b;
limit = 2; }
--
input:3: M3 int private * dynamic * private holds a private target
input:4: M2 write to readonly limit
input:5: M3 int private * dynamic * holds a private target
input:6: M2 write to readonly limit
";

#[test]
fn a_mismatch_with_its_cast_is_gone(rt: HostRuntime) -> Result<(), Fail> {
    assert_repaired(&rt, 1, ONE)
}

/// Casts that are written one after the other.
const THREE: &str = "void r(int dynamic * a, int readonly * b) {
for (a = b; a == b; a = b) b = a; }
--
input:3: warning b may be NULL since input:3
accepted
==
struct t { int dynamic * k; };
void r(struct t dynamic * a, int dynamic * dynamic * p) {
int private * b = a->k;
b = p[1 + 2];
b = (*a).k; }
--
accepted
";

#[test]
fn casts_are_written_one_by_one(rt: HostRuntime) -> Result<(), Fail> {
    assert_repaired(&rt, 3, THREE)
}

/// A cast in each form that can hold one, 31 in all.
const FORMS: &str = "void t(int dynamic * a) { }
int f(int dynamic * a) { return 0; }
int dynamic * g(int dynamic * a) { return a; }
int dynamic * dynamic * k(int dynamic * a) { return NULL; }
struct s dynamic * h(int dynamic * a) { return NULL; }
int r[4];
int dynamic * u(int private * b) {
print((f(b)));
print(f(g(b)));
join(spawn(t, b));
lock(&h(b)->m);
unlock(&h(b)->m);
b = SCAST(int private *, *k(b));
print(g(b)[f(b)]);
print(h(b)->n);
print(-f(b) + f(b));
print(*g(b));
int private * c = malloc(f(b) * sizeof(int));
r[f(b)] = f(b);
int dynamic * d = b;
d = b;
if (f(b)) d = b;
if (f(b)) d = b; else { d = b; }
while (f(b)) d = b;
for (int dynamic * i = b; f(b); i = b) d = b;
for (d = b; ; ) { d = b; break; }
return b; }
--
accepted
";

#[test]
fn each_form_holds_a_cast(rt: HostRuntime) -> Result<(), Fail> {
    assert_repaired(&rt, 31, FORMS)
}

/// A source in which positions of a mismatch have reasons.
const REASONS: &str = "int g;
void t(int * p) { g = *p; }
void r(void) {
int private * y = malloc(sizeof(int));
int * x = malloc(sizeof(int));
x = y;
join(spawn(w, x));
join(spawn(t, NULL)); }
void w(int * p) {
int * q = p;
print(*q); }
";

/// What `explain` writes of it with the cast.
const KEPT: &str = "input:1: global m: mutex racy
input:2: global g: int dynamic
  depth 0: touched in t
input:3: parameter p: int dynamic * private
  depth 1: passed to spawned t
input:5: local y: int private * private
input:6: local x: int dynamic * private
  depth 1: from input:10 parameter p depth 1
input:7: cast of y: int dynamic *
input:10: parameter p: int dynamic * private
  depth 1: passed to spawned w
input:11: local q: int dynamic * private
  depth 1: from input:10 parameter p depth 1
";

#[test]
fn modes_of_what_was_there_are_kept(rt: HostRuntime) -> Result<(), Fail> {
    let text = explained(rt.alloc(), repaired(&rt, REASONS, 1)?)?;
    assert_eq!(rt; String::from_utf8(text)?.as_str(), KEPT);
    Ok(())
}
