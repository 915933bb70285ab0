//! The flat code of small sources, worked out by hand: each form of statement and expression once.

use crate::flat::shown::shown;
use crate::flat::sources::flat;
use std::process::Abort;
use std::test::Fail;

/// Asserts the lines of each case: what is in `main`, ` => `, and the lines between the first one of `main` and the
/// last two.
fn assert_bodies(rt: &(impl Abort + AllocGlobal), table: &str) -> Result<(), Fail> {
    for case in table.lines() {
        match case.split_once(" => ") {
            None => panic!(rt; "no case: {case}"),
            Some((body, lines)) => {
                let source = format!(in rt.alloc(); "int main(void) {{ {body} }}")?;
                let wanted = format!(in rt.alloc(); "enter;{lines}constant 0 0;return;")?;
                assert_lines(rt, source.as_str(), wanted.as_str())?;
            }
        }
    }
    Ok(())
}

fn assert_lines(rt: &(impl Abort + AllocGlobal), source: &str, wanted: &str) -> Result<(), Fail> {
    let flat = flat(rt, source)?;
    let lines = shown(rt.alloc(), &flat)?;
    assert_eq!(rt; lines.as_str(), wanted, "{source}");
    Ok(())
}

/// Asserts the lines of each case: a source, and on the next line its lines.
fn assert_programs(rt: &(impl Abort + AllocGlobal), table: &str) -> Result<(), Fail> {
    for case in table.split("==\n") {
        match case.split_once("\n") {
            None => panic!(rt; "no case: {case}"),
            Some((source, lines)) => assert_lines(rt, source, lines.trim_end())?,
        }
    }
    Ok(())
}

const BODIES: &str = "\
; => enter;
{ ; } => enter;enter;block_end;
{ int * p; } => enter;enter;null 0;pop 0;block_end;
int a; a = 1; => enter;constant 0 0;enter;enter;enter;constant 1 1;chk_width 1;move 0 1;
int a = 2; => enter;constant 0 0;enter;constant 1 2;chk_width 1;move 0 1;
return 0; => enter;enter;constant 0 0;chk_width 0;move 0 0;return;
if (1) ; => enter;enter;constant 0 1;skip_if_zero 0 1;enter;
if (1) ; else ; => enter;enter;constant 0 1;skip_if_zero 0 2;enter;skip 1;enter;
while (1) break; => enter;skip 2;skip 7;skip 5;enter;constant 0 1;skip_if_zero 0 3;enter;jump 3;jump 5;
for (;;) continue; => enter;skip 2;skip 4;skip 2;enter;jump 4;jump 5;
print(1); => enter;enter;enter;constant 0 1;print 0;
print(1 && 0); => enter;enter;enter;enter;constant 0 1;skip_if_zero 0 2;enter;constant 0 0;is_false 0 0;\
is_false 0 0;print 0;
print(1 || 0); => enter;enter;enter;enter;constant 0 1;is_false 0 0;skip_if_zero 0 3;enter;constant 0 0;\
is_false 0 0;is_false 0 0;print 0;
print(-(1)); => enter;enter;enter;enter;enter;constant 0 1;negate 0 0;print 0;
print(~!1); => enter;enter;enter;enter;enter;constant 0 1;is_false 0 0;complement 0 0;print 0;
int * p; p = NULL; => enter;null 0;enter;enter;enter;null 1;settle 0 1;pop 0;
int * p; print(!p); => enter;null 0;enter;enter;enter;enter;local 1 0;null 2;same 0 1 2;pop 1;is_false 0 0;\
is_false 0 0;print 0;pop 0;
";

#[test]
fn statements_and_expressions(rt: HostRuntime) -> Result<(), Fail> {
    assert_bodies(&rt, BODIES)
}

const PROGRAMS: &str = "\
int main(void) { for (int i = 0; i < 3; i = i + 1) ; }
enter;enter;enter;constant 0 0;enter;constant 1 0;chk_width 1;move 0 1;skip 2;skip 19;skip 8;enter;enter;move 1 0;\
enter;constant 2 3;compute 1 1 2;skip_if_zero 1 11;enter;enter;enter;enter;move 1 0;enter;constant 2 1;\
compute 1 1 2;chk_width 1;move 0 1;jump 11;constant 0 0;return;
==
int main(void) { int * p; if (p == NULL) return 1; }
enter;enter;null 0;enter;enter;enter;local 1 0;enter;null 2;same 0 1 2;pop 1;pop 2;skip_if_zero 0 7;enter;enter;\
constant 0 1;chk_width 0;pop 0;move 0 0;return;pop 0;constant 0 0;return;
==
int f(int a, int * p) { return a; } int main(void) { f(1, NULL); }
enter;enter;enter;move 1 0;chk_width 1;pop 0;move 0 1;return;pop 0;constant 0 0;return;enter;enter;enter;enter;\
constant 0 1;chk_width 0;enter;null 0;call 0 0 0;constant 0 0;return;
==
int dynamic a[3]; int main(void) { a[1] = a[2]; }
enter;enter;enter;enter;enter;constant 0 1;global_bounds 0 3 1 2;enter;enter;enter;constant 1 2;\
global_bounds 1 3 1 2;load 1 g0[1];chk_width 1;store 1 g0[0];constant 0 0;return;
==
struct s { int n; struct s dynamic * next; }; int main(void) { struct s dynamic * p = malloc(sizeof(struct s)); \
p->n = 1; p = p->next; }
enter;enter;null 0;enter;constant 0 1;chk_positive 0;new 1 0 2;settle 0 1;enter;enter;enter;local 1 0;chk_null 1;\
enter;constant 0 1;chk_width 0;store 0 o1.0;pop 1;enter;enter;enter;enter;local 1 0;chk_null 1;load_ref 2 o1.1;\
settle 1 2;settle 0 1;pop 0;constant 0 0;return;
==
mutex m; void f(int a) { lock(&m); unlock(&m); } int main(void) { int t = spawn(f, 3); join(t); }
enter;enter;enter;enter;chk_not_held g0.2;chk_room;lock g0.2;enter;enter;enter;chk_held g0.2;unlock 0 g0.2;\
constant 0 0;return;enter;enter;constant 0 0;enter;enter;constant 1 3;chk_width 1;spawn 1 0;chk_width 1;move 0 1;\
enter;enter;enter;move 1 0;join 1;constant 0 0;return;
==
int main(void) { int private * p = malloc(sizeof(int)); int dynamic * q = SCAST(int dynamic *, p); free(q); }
enter;enter;null 0;enter;constant 0 1;chk_positive 0;new 1 0 1;settle 0 1;enter;null 1;enter;enter;take_local 2 0;\
skip_if_null 2 1;give 2 1;settle 1 2;enter;enter;enter;take_local 2 1;skip_if_null 2 1;free 2 0;pop 0;pop 1;\
constant 0 0;return;
==
void f(struct cond dynamic * c, mutex * m) { wait(c, m); signal(c); } int main(void) { }
enter;enter;enter;enter;local 2 0;enter;local 3 1;chk_null 2;chk_null 3;chk_held o3.0;cond_enter o2.0;\
unlock 4 o3.0;cond_wait o2.0;lock o4.0;pop 2;pop 3;enter;enter;enter;local 2 0;chk_null 2;cond_signal o2.0;pop 2;\
pop 0;pop 1;constant 0 0;return;enter;constant 0 0;return;
";

#[test]
fn programs(rt: HostRuntime) -> Result<(), Fail> {
    assert_programs(&rt, PROGRAMS)
}
