//! The references to an object, worked out by hand.

use crate::holders::tables::assert_table;
use std::test::Fail;

/// Cells of objects, also of one that a `free` has taken.
const CELLS: &str = "\
struct s { struct s dynamic * next; }; int main(void) { struct s dynamic * p = malloc(sizeof(struct s)); p->next = p; free(p); return 0; }
--
000 100 1 = o1.0; t0.0
0000 100 1 = o1.0; t0.0
00000 100 1 = none
==
struct s { struct s dynamic * next; }; int main(void) { struct s dynamic * q = malloc(sizeof(struct s)); struct s dynamic * p = malloc(sizeof(struct s)); p->next = q; free(p); return 0; }
--
0000 100 1 = o2.0; t0.0
0000 100 2 = t0.0
00000 100 1 = t0.0
00000 100 2 = t0.0
000000 100 1 = none
000000 100 2 = none
==
int dynamic * dynamic g; int main(void) { int dynamic * p = malloc(sizeof(int)); g = p; p = NULL; print(1); g = NULL; return 0; }
--
00 100 1 = t0.0; t0.1
000 100 1 = g0.0
0000 100 1 = g0.0
00000 100 1 = none
==
struct s { long n; struct s dynamic * next; }; int main(void) { struct s dynamic * p = malloc(sizeof(struct s)); p->n = 4294967297; p->next = p; p->next = NULL; return 0; }
--
000 100 1 = t0.0; t0.1; t0.2
0000 100 1 = o1.1; t0.0; t0.1
00000 100 1 = none
";

/// Arguments of threads, held mutexes, and what threads hold.
const THREADS: &str = "\
void w(int dynamic * p) { *p = 1; } int main(void) { int dynamic * x = malloc(sizeof(int)); spawn(w, x); return 0; }
--
00 100 1 = t0.0; t0.1
000 100 1 = a1
0001 100 1 = t1.0; t1.1
00010 100 1 = t1.0; t1.1
00011 100 1 = none
==
struct s { mutex m; int locked(m) n; }; int main(void) { struct s dynamic * p = malloc(sizeof(struct s)); lock(&p->m); p->n = 1; unlock(&p->m); print(p == NULL); return 0; }
--
00 100 1 = t0.0; t0.1
000 100 1 = m o1.0; t0.0; t0.1
0000 100 1 = m o1.0; t0.0; t0.1
00000 100 1 = t0.0
==
int main(void) { int dynamic * p = malloc(sizeof(int)); while (1) ; return 0; }
--
00 100 1 = t0.0
00 3 1 = t0.0
==
int main(void) { int dynamic * p = malloc(sizeof(int)); p = NULL; while (1) ; return 0; }
--
00 3 1 = t0.0
00 100 1 = none
==
int main(void) { int dynamic * p = malloc(sizeof(int)); p[1] = 1; return 0; }
--
00 100 1 = t0.0; t0.1
";

#[test]
fn cells(rt: HostRuntime) -> Result<(), Fail> {
    assert_table(&rt, CELLS)
}

#[test]
fn threads(rt: HostRuntime) -> Result<(), Fail> {
    assert_table(&rt, THREADS)
}
