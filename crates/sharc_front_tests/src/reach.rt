//! Which functions threads may run, and which globals they may touch: tables of sources.

ghost use Rattle.sharc_reach.specs.Reaching.{AreReached};

use crate::tables::two_parts;
use crate::typing::typed;
use sharc_ctype::typed::Typed;
use sharc_reach::{Reached, reach};
use std::alloc::AllocError;
use std::process::Abort;
use std::test::Fail;

/// Adds `1` for each function that is reached, and `0` for each other one.
fn add_functions(
    rt: &impl Abort,
    t: &Typed,
    reached: &Reached,
    text: &mut Vec<u8>,
) -> Result<(), AllocError>
    requires { AreReached t.now reached.now }
{
    let count = t.function_count();
    assert!(rt; count <= 65_536);
    for number in 0..count {
        text.push(if reached.function(number as u32) {
            b'1'
        } else {
            b'0'
        })?;
    }
    Ok(())
}

/// Adds for each global the function that is answered, or `-`.
fn add_globals(
    rt: &(impl Abort + AllocGlobal),
    t: &Typed,
    reached: &Reached,
    text: &mut Vec<u8>,
) -> Result<(), AllocError>
    requires { AreReached t.now reached.now }
{
    let count = t.global_count();
    assert!(rt; count <= 65_536);
    for number in 0..count {
        match reached.touched(number as u32) {
            None => text.extend_from_slice(b" -")?,
            Some(function) => {
                let by = format!(in rt.alloc(); " {function}")?;
                text.extend_from_slice(by.as_bytes())?;
            }
        }
    }
    Ok(())
}

/// What is answered of the functions and then of the globals, in source order.
fn answers_of(rt: &(impl Abort + AllocGlobal), t: &Typed) -> Result<Vec<u8>, Fail> {
    let reached = reach(rt.alloc(), t)?;
    let mut text = Vec::new(rt.alloc());
    add_functions(rt, t, &reached, &mut text)?;
    add_globals(rt, t, &reached, &mut text)?;
    Ok(text)
}

/// What is answered for a source.
fn answers(rt: &(impl Abort + AllocGlobal), source: &str) -> Result<Vec<u8>, Fail> {
    let t = typed(rt, source)?;
    let text = answers_of(rt, &t);
    drop(t);
    text
}

/// Asserts what is answered for each source of a table, with these texts before and after it.
fn assert_answers(
    rt: &(impl Abort + AllocGlobal),
    table: &str,
    before: &str,
    after: &str,
) -> Result<(), Fail> {
    for case in table.lines() {
        let (source, wanted) = two_parts(rt, case);
        let source = format!(in rt.alloc(); "{before}{source}{after}")?;
        let text = answers(rt, source.as_str())?;
        assert_eq!(rt; text.as_slice(), wanted.as_bytes(), "{source}");
    }
    Ok(())
}

/// Sources, and which of their functions are reached.
const REACHED: &str = "int main(void) { return 0; } => 0
void f(int n) { } int main(void) { f(1); return 0; } => 00
void f(int n) { } int main(void) { spawn(f, 1); return 0; } => 10
void f(int n) { if (n) f(n - 1); } int main(void) { join(spawn(f, 3)); return 0; } => 10
void f(int n) { g(n); } void g(int n) { f(n); } int main(void) { join(spawn(g, 3)); return 0; } => 110
void f(int n) { } void g(int n) { spawn(f, n); } int main(void) { return 0; } => 100
void f(int n) { } void g(int n) { spawn(f, n); } int main(void) { spawn(g, 1); return 0; } => 110
int k(int n) { return n; } int h(int n) { return n; } void f(int n) { n = h(k(n)); } int main(void) { spawn(f, 1); return 0; } => 1110
int k(int n) { return n; } int h(int n) { return k(n); } void f(int n) { } int main(void) { spawn(f, h(1)); return 0; } => 0010
int k(int n) { return n; } void f(int n) { spawn(f, k(n)); } int main(void) { return 0; } => 110
";

#[test]
fn reached_functions(rt: HostRuntime) -> Result<(), Fail> {
    assert_answers(&rt, REACHED, "", "")
}

/// Sources, which of their functions are reached, and the first of these that touches each global. In order: two
/// spawned functions share a global, or a reached one that comes before them names it, too; functions that are not
/// reached name it; each global for itself; a local or a parameter of the name hides it; a field of the name is another
/// thing.
const TOUCHED: &str =
    "int g; void f(int n) { g = n; } void h(int n) { g = n; } int main(void) { spawn(h, 1); spawn(f, 1); return 0; } => 110 0
int g; void k(void) { g = 0; } void f(int n) { g = n; k(); } int main(void) { spawn(f, 1); return 0; } => 110 0
int g; void f(int n) { n = 1; } int main(void) { spawn(f, 1); g = 1; return 0; } => 10 -
int g; void k(void) { g = 0; } void f(int n) { g = n; } int main(void) { spawn(f, 1); k(); g = 1; return 0; } => 010 1
int a; int b; int c; void f(int n) { b = n; } void h(int n) { c = b; } int main(void) { spawn(f, 1); spawn(h, a); return 0; } => 110 - 0 1
int g; void f(int n) { int g; g = n; } int main(void) { spawn(f, 1); return 0; } => 10 -
int g; void f(int g) { g = 1; } int main(void) { spawn(f, 1); return 0; } => 10 -
int g; void f(int n) { { int g; g = n; } g = n; } int main(void) { spawn(f, 1); return 0; } => 10 0
int g; struct s { int g; }; void f(struct s * x) { x->g = 1; } int main(void) { struct s * x = NULL; spawn(f, x); return 0; } => 10 -
";

#[test]
fn touched_globals(rt: HostRuntime) -> Result<(), Fail> {
    assert_answers(&rt, TOUCHED, "", "")
}

/// The same, with globals in the paths of locks. In order: in the type of a cast, a parameter, a local, the local of a
/// `for`, and the result of a function that is called; at each level, and before the base; the second name of a path,
/// which is a field, and the first, which may be a global; in a function that is not reached, and in a struct.
const IN_PATHS: &str =
    "mutex m; void f(int * x) { x = SCAST(int locked(m) *, x); } int main(void) { int * x = NULL; spawn(f, x); return 0; } => 10 0
mutex m; void f(int locked(m) * x) { } int main(void) { int * x = NULL; spawn(f, x); return 0; } => 10 0
mutex m; void f(int n) { int locked(m) * x; x = NULL; } int main(void) { spawn(f, 1); return 0; } => 10 0
mutex m; void f(int n) { for (int locked(m) * x = NULL; ; ) break; } int main(void) { spawn(f, 1); return 0; } => 10 0
mutex m; int locked(m) * k(void) { return NULL; } void f(int n) { k(); } int main(void) { spawn(f, 1); return 0; } => 110 0
mutex m; mutex k; mutex l; void f(locked(m) int * locked(k) * locked(l) x) { } int main(void) { int * * x = NULL; spawn(f, x); return 0; } => 10 0 0 0
mutex m; struct s { mutex m; }; void f(struct s * x) { int locked(x->m) * y; y = NULL; } int main(void) { struct s * x = NULL; spawn(f, x); return 0; } => 10 -
struct s { mutex m; }; struct s * x; mutex m; void f(int n) { int locked(x->m) * y; y = NULL; } int main(void) { spawn(f, 1); return 0; } => 10 0 -
mutex m; void f(int n) { } int main(void) { int locked(m) * x = NULL; spawn(f, 1); return 0; } => 10 -
mutex m; struct s { int locked(m) n; }; void f(struct s * x) { x->n = 1; } int main(void) { struct s * x = NULL; spawn(f, x); return 0; } => 10 -
";

#[test]
fn globals_in_lock_paths(rt: HostRuntime) -> Result<(), Fail> {
    assert_answers(&rt, IN_PATHS, "", "")
}

/// What comes before the body of a spawned function: three globals and two functions.
const BEFORE_BODY: &str =
    "int g; int * p; int a[3]; int h(void) { return 0; } int id(int n) { return n; } void f(int n) { ";

/// What comes after it.
const AFTER_BODY: &str = " } int main(void) { join(spawn(f, 1)); return 0; }";

/// Bodies that name globals in each construct, with what is answered.
const NAMES: &str = "g = 1; => 0010 2 - -
n = (g); => 0010 2 - -
n = -g; => 0010 2 - -
n = n + g; => 0010 2 - -
n = g + n; => 0010 2 - -
print(g); => 0010 2 - -
join(g); => 0010 2 - -
spawn(f, g); => 0010 2 - -
if (g) ; => 0010 2 - -
if (n) g = 1; => 0010 2 - -
if (n) ; else g = 1; => 0010 2 - -
while (g) ; => 0010 2 - -
while (n) g = 1; => 0010 2 - -
for (g = 0; ; ) break; => 0010 2 - -
for (int k = g; ; ) break; => 0010 2 - -
for (; g; ) break; => 0010 2 - -
for (; ; n = g) break; => 0010 2 - -
for (; ; ) g = 1; => 0010 2 - -
{ ; { n = g; } } => 0010 2 - -
int k = g; => 0010 2 - -
int * k = malloc(g * sizeof(int)); => 0010 2 - -
*p = 1; => 0010 - 2 -
p[0] = 1; => 0010 - 2 -
n = *p; => 0010 - 2 -
free(p); => 0010 - 2 -
int * q = SCAST(int *, p); => 0010 - 2 -
a[0] = 1; => 0010 - - 2
n = a[n]; => 0010 - - 2
a[g] = 1; => 0010 2 - 2
n = a[1 + g]; => 0010 2 - 2
";

#[test]
fn globals_in_each_construct(rt: HostRuntime) -> Result<(), Fail> {
    assert_answers(&rt, NAMES, BEFORE_BODY, AFTER_BODY)
}

/// The same with calls.
const CALLS: &str = "h(); => 1010 - - -
n = (h()); => 1010 - - -
n = -h(); => 1010 - - -
n = n + h(); => 1010 - - -
n = h() + n; => 1010 - - -
print(h()); => 1010 - - -
spawn(f, h()); => 1010 - - -
if (h()) ; => 1010 - - -
if (n) ; else h(); => 1010 - - -
while (h()) ; => 1010 - - -
for (h(); ; ) break; => 1010 - - -
for (int k = h(); ; ) break; => 1010 - - -
for (; h(); ) break; => 1010 - - -
for (; ; h()) break; => 1010 - - -
for (; ; ) h(); => 1010 - - -
{ ; { h(); } } => 1010 - - -
int k = h(); => 1010 - - -
int * k = malloc(h() * sizeof(int)); => 1010 - - -
n = id(h()); => 1110 - - -
id(n + h()); => 1110 - - -
";

#[test]
fn calls_in_each_construct(rt: HostRuntime) -> Result<(), Fail> {
    assert_answers(&rt, CALLS, BEFORE_BODY, AFTER_BODY)
}
